//! The first records.

ghost use Rattle.std.specs.Prelude.{◌≡◌, ◌≤◌, List, [], IfOk, OnOk};
ghost use Rattle.pair_judge.specs.Order.{MadeRecord, TellsNext, record_told};
ghost use Rattle.drawing.specs.Telling.{ladder_behind, ladder_told};
ghost use Rattle.ladder.specs.declared.rows.Keep.TheVariants as Keep;
ghost use Rattle.drawing.specs.inner.Ending.{IsBegun};
ghost use Rattle.drawing.specs.inner.Kept.{IsFirst};

use crate::begun::Begun;
use crate::log::RECORDS;
use crate::tell::{follow_all, tell_all};
use crate::told_record::{Later, ToldRecord};
use ladder::{Keep, Ladder};
use pair_judge::MadeEntry;
use std::alloc::{AllocError, Global};

// So many records after them are looked at, to see what becomes of the units that the first ones sent.
const LATER: usize = 4000;

/// The first records that were told, what those after them tell, and whether that is all.
#[derive(Drop)]
pub struct First {
    alloc: Global,
    pub records: Vec<ToldRecord>,
    pub later: Vec<Later>,
    pub is_all: bool,
}

impl First {
    /// Nothing was told yet. Takes no memory.
    #[tactic(auto, using(crate::proofs::Firsts::first_none))]
    pub fn new(alloc: Global) -> First
        ensures told { IsFirst result [] }
        ensures records { result.records.items ≡ [] }
    {
        First {
            alloc,
            records: Vec::new(alloc),
            later: Vec::new(alloc),
            is_all: true,
        }
    }

    /// One more record was made. `AllocError` where there is no memory for it.
    #[tactic(auto, using(crate::proofs::Firsts::first_rest))]
    #[inline(always)]
    pub fn made(&mut self, next: &MadeEntry<'_>) -> Result<(), AllocError>
        ensures { OnOk result (TellsNext IsFirst self.old self.new (record_told next.now)) }
    {
        if self.is_all { self.take(next) } else { Ok(()) }
    }

    // One more record was made, and all were told so far.
    #[tactic(auto, using(crate::proofs::Firsts::first_more, crate::proofs::Firsts::first_later, crate::proofs::Firsts::first_left))]
    fn take(&mut self, next: &MadeEntry<'_>) -> Result<(), AllocError>
        ensures { OnOk result (TellsNext IsFirst self.old self.new (record_told next.now)) }
    {
        if self.records.len() < RECORDS {
            let own = ToldRecord::new(self.alloc, next)?;
            self.records.push(own)?;
        } else if self.later.len() < LATER {
            self.later.push(Later::of(next))?;
        } else {
            self.is_all = false;
        }
        Ok(())
    }

    /// A ladder of at most so many of the first rows, told of them. `AllocError` where there is no memory for it.
    #[tactic(auto, using(crate::proofs::Firsts::first_begun))]
    pub fn begun(&self, alloc: Global, rows: usize) -> Result<Begun, AllocError>
        requires low { 1 ≤ rows }
        requires high { rows ≤ 200 }
        ensures { IfOk result (λ begun. (order : List MadeRecord) → IsFirst self.now order → IsBegun Keep.First rows begun order) }
    {
        let mut ladder = Ladder::new(alloc, Keep::First, rows)?;
        self.tell(&mut ladder)?;
        Ok(Begun {
            ladder,
            is_all: self.is_all,
        })
    }

    /// Tells a ladder of them, and of what comes after them. `AllocError` where there is no memory for a unit.
    pub fn tell(&self, ladder: &mut Ladder) -> Result<(), AllocError>
        ensures { OnOk result (ladder.new ≡ ladder_behind (ladder_told ladder.old self.now.records.items) self.now.later.items) }
    {
        tell_all(ladder, self.records.as_slice())?;
        follow_all(ladder, self.later.as_slice());
        Ok(())
    }
}
