//! The units of one side that may still come.

ghost use Rattle.std.specs.Prelude.{◌≡◌, OnErr, OnOk};
ghost use Rattle.ladder.specs.UnderWay as spec;

use crate::told::Sending;
use std::alloc::{AllocError, Global};
use std::collections::VecDeque;
use std::marker::Model;

// No unit with this number or a higher one comes: a hint is lower.
const END: u64 = 1 << 63;

/// The units that one side sent and that may still come, by their numbers. What came, or was passed over, is let go.
#[derive(Drop)]
pub struct UnderWay {
    // How many units can't come any more: the first of those that may has this number.
    gone: u64,
    // Those that may still come, oldest first.
    units: VecDeque<Sending>,
}

impl Model for UnderWay {
    ghost use Rattle.std.specs.Prelude.{◌≤◌, ◌^◌};
    ghost use Rattle.ladder.specs.UnderWay.{Way, way};

    ghost Value = { Way };

    ghost view = { λ u. way u.gone u.units.items };

    ghost invariant = { λ u. u.gone ≤ 2 ^ 63 };
}

impl UnderWay {
    ghost use Rattle.std.specs.Prelude.{[]};

    /// Nothing was sent yet. Takes no memory.
    pub fn new(alloc: Global) -> UnderWay
        ensures { result ≡ spec.way 0 [] }
    {
        UnderWay {
            gone: 0,
            units: VecDeque::new(alloc),
        }
    }

    /// How many units were sent: the next one has this number. Takes no memory.
    pub fn sent(&self) -> u64
        ensures { result ≡ spec.sent_units self.now }
    {
        self.gone + self.units.len() as u64
    }

    /// How the unit with this number was sent, if it may still come. Takes no memory.
    pub fn unit(&self, number: u64) -> Option<Sending>
        ensures { result ≡ spec.sending_of self.now number }
    {
        if number < self.gone {
            return None;
        }
        let place = number - self.gone;
        self.units.get(place as usize).copied()
    }

    /// One more unit was sent. `AllocError` where there is no memory for it; then nothing changed.
    pub fn push(&mut self, sending: Sending) -> Result<(), AllocError>
        ensures ok { OnOk result (self.new ≡ spec.with_unit self.old sending) }
        ensures err { OnErr result (self.new ≡ self.old) }
    {
        self.units.reserve(1)?;
        self.units.push_back_reserved(sending);
        Ok(())
    }

    /// One more unit was sent, and neither it nor one before it is drawn where it comes. Takes no memory.
    #[inline(always)]
    pub fn skip(&mut self)
        ensures { self.new ≡ spec.skipped self.old }
    {
        let next = self.sent().min(END - 1) + 1;
        self.units.clear();
        self.gone = next;
    }

    /// The unit with this number came: it can't come any more, nor can those before it. Takes no memory.
    pub fn pass(&mut self, number: u64)
        ensures { self.new ≡ spec.passed self.old number }
    {
        let end = number.saturating_add(1).min(END);
        let count = end.saturating_sub(self.gone).min(self.units.len() as u64);
        for passed in 0..count {
            self.units.pop_front();
        }
        self.gone += count;
    }
}
