//! One direction of the line, as far as it still matters.

ghost use Rattle.std.specs.Prelude.{◌≡◌, ℕ, ◌+◌, ◌-◌, ◌^◌, ◌<◌, ◌≤◌, [], ◌∷◌, ◌++◌, length, drop, slice_get, nat_lt, IfOk, OnOk, OnErr};
ghost use Rattle.pair_judge.specs.inner.Runs.{behind};

use crate::held_unit::HeldUnit;
use crate::line_unit::LineUnit;
use crate::spare::Spare;
use crate::tags::Tags;
use crate::unit_tag::UnitTag;
use std::alloc::{AllocError, Global};
use std::collections::VecDeque;

/// The units of one direction that may still be received. A unit at or below a received hint is let go, and its memory is for
/// those to come.
#[derive(Drop)]
pub struct Line {
    /// How many units can't come any more: the first of those that are held has this number.
    pub gone: u64,
    /// The units that are held, oldest first.
    pub units: VecDeque<HeldUnit>,
    /// The tags of their station, by their numbers.
    pub tags: Tags,
    spare: Spare,
    ghost small: { gone ≤ 2 ^ 63 },
    ghost tagged: { behind tags.older.items ≤ gone + length units.items },
}

impl Line {
    ghost use Rattle.ddcmp_msg.specs.Reading.{reading};
    ghost use Rattle.pair_judge.specs.inner.Ends.{sent_on};
    ghost use Rattle.pair_judge.specs.inner.Lines.{held};
    ghost use Rattle.pair_judge.specs.inner.Unit.{unit_of, tags_of, IsSoundReading};

    /// Nothing was sent yet. `AllocError` where there is no memory for the list of spare ones.
    pub fn new(alloc: Global) -> Result<Line, AllocError>
        ensures gone { IfOk result (λ line. line.gone ≡ 0) }
        ensures units { IfOk result (λ line. held line ≡ []) }
    {
        Ok(Line {
            gone: 0,
            units: VecDeque::new(alloc),
            tags: Tags::new(alloc),
            spare: Spare::new(alloc)?,
        })
    }

    /// One more unit was sent, with these bytes and tags. Its bytes take the memory of a unit that was let go, if one has room. `AllocError`
    /// where there is none and an allocation was refused, or there is no room for the unit; then the units are as they were.
    #[inline(always)]
    pub fn push(&mut self, alloc: Global, bytes: &[u8], tag: &UnitTag) -> Result<(), AllocError>
        requires { IsSoundReading (reading bytes.now) }
        ensures ok { OnOk result (held self.new ≡ held self.old ++ unit_of bytes.now (tags_of tag.now) ∷ []) }
        ensures err { OnErr result (held self.new ≡ held self.old) }
        ensures gone { self.new.gone ≡ self.old.gone }
    {
        let own = self.spare.copied(alloc, bytes)?;
        self.units.reserve(1)?;
        let number = self.gone + self.units.len() as u64;
        self.tags.push(number, &tag.station)?;
        self.units.push_back_reserved(HeldUnit::new(own, &tag.link));
        Ok(())
    }

    /// How many units were sent: the next one has this number.
    pub fn sent(&self) -> u64
        ensures { result ≡ sent_on self.now }
    {
        self.gone + self.units.len() as u64
    }

    /// Whether the unit with this number was sent.
    #[inline(always)]
    pub fn was_sent(&self, number: u64) -> bool
        requires { self.now.gone ≤ number }
        ensures { result ≡ nat_lt (number - self.now.gone) (length self.now.units.items) }
    {
        let place = number - self.gone;
        (place as usize) < self.units.len()
    }

    /// The unit with this number, if it was sent.
    #[inline(always)]
    pub fn unit(&self, number: u64) -> Option<LineUnit<'_>>
        requires { self.now.gone ≤ number }
        ensures { result ≡ slice_get (held self.now) (number - self.now.gone) }
    {
        let place = number - self.gone;
        match self.units.get(place as usize) {
            Some(unit) => Some(LineUnit::new(unit, self.tags.of(number))),
            None => None,
        }
    }

    /// The unit with this number came: it and those before it can't come any more. Takes no memory.
    #[inline(always)]
    pub fn release(&mut self, number: u64)
        requires within { self.old.gone ≤ number }
        requires sent { number < self.old.gone + length self.old.units.items }
        requires small { number < 2 ^ 63 }
        ensures gone { self.new.gone ≡ number + 1 }
        ensures units { held self.new ≡ drop (number + 1 - self.old.gone) (held self.old) }
    {
        while self.gone <= number {
            if let Some(unit) = self.units.pop_front() {
                self.spare.keep(unit.into_bytes());
            }
            self.gone += 1;
        }
        self.tags.release(self.gone);
    }
}
