//! A record, as the judge told of it.

ghost use Rattle.std.specs.Prelude.{◌≡◌, IfOk, OnOk};
ghost use Rattle.ladder.specs.Ladder.{learned, made};
ghost use Rattle.drawing.specs.Telling.{later_entry};

use capture_record::Entry;
use ladder::Ladder;
use pair_judge::MadeEntry;
use std::alloc::{AllocError, Global};
use std::marker::Model;
use wire_base::Side;

// No memory is taken for fewer bytes, so that a short unit leaves room for the next one.
const LEAST: usize = 24;

/// A record of one side, which owns its bytes.
#[derive(Drop)]
pub struct ToldRecord {
    side: Side,
    entry: Entry,
    bytes: Vec<u8>,
    // Whether they are known to be a sound unit.
    sound: bool,
}

impl Model for ToldRecord {
    ghost use Rattle.std.specs.Prelude.{◌≡◌, true};
    ghost use Rattle.ddcmp_msg.specs.Reading.{IsSound, reading};
    ghost use Rattle.pair_judge.specs.Order.{MadeEntry};

    ghost Value = { MadeEntry };

    ghost view = { λ t. record { side = t.side; entry = t.entry; bytes = t.bytes.items } };

    ghost invariant = { λ t. t.sound ≡ true → IsSound (reading t.bytes.items) };
}

impl ToldRecord {
    /// This record with a copy of its bytes. `AllocError` where there is no memory for it.
    pub fn new(alloc: Global, next: &MadeEntry<'_>) -> Result<ToldRecord, AllocError>
        ensures { IfOk result (λ own. own ≡ next.now) }
    {
        let mut bytes = Vec::with_capacity(alloc, next.bytes.len().max(LEAST))?;
        bytes.extend_from_slice(next.bytes)?;
        Ok(ToldRecord {
            side: next.side,
            entry: next.entry,
            bytes,
            sound: next.sound,
        })
    }

    /// Another record takes the memory of this one. `AllocError` where it has no room and there is no memory for more; then it is of no use.
    #[inline(always)]
    pub fn refill(&mut self, next: &MadeEntry<'_>) -> Result<(), AllocError>
        ensures { OnOk result (self.new ≡ next.now) }
    {
        self.side = next.side;
        self.entry = next.entry;
        self.bytes.clear();
        match self.bytes.extend_from_slice(next.bytes) {
            Ok(()) => {
                self.sound = next.sound;
                Ok(())
            }
            Err(error) => {
                self.sound = false;
                Err(error)
            }
        }
    }

    /// The ladder learns that it was made; neither it nor its unit is drawn.
    #[inline(always)]
    pub fn teach(&self, ladder: &mut Ladder)
        ensures { ladder.new ≡ learned ladder.old self.now.side self.now.entry self.now.bytes }
    {
        ladder.learn(self.side, self.entry, self.bytes.as_slice(), self.sound);
    }

    /// The ladder is told that it was made. `AllocError` where there is no memory for its unit.
    pub fn tell(&self, ladder: &mut Ladder) -> Result<(), AllocError>
        ensures { OnOk result (ladder.new ≡ made ladder.old self.now.side self.now.entry self.now.bytes) }
    {
        ladder.made(self.side, self.entry, self.bytes.as_slice())
    }
}

/// What a record tells that is not drawn: which unit came by it, if one did.
#[derive(Clone, Copy)]
pub struct Later {
    pub side: Side,
    pub entry: Entry,
}

impl Later {
    /// What this record tells.
    pub fn of(next: &MadeEntry<'_>) -> Later
        ensures { result ≡ later_entry next.now }
    {
        Later {
            side: next.side,
            entry: next.entry,
        }
    }
}
