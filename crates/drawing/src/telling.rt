//! Who is told of the records of a pair that is drawn.

ghost use Rattle.std.specs.Prelude.{◌≡◌, ◌≤◌, List, [], IfOk, IsTrue, OnOk};
ghost use Rattle.ladder.specs.declared.rows.Keep.TheVariants as keep;
ghost use Rattle.pair_judge.specs.Order.{MadeRecord, TellsNext, record_told};
ghost use Rattle.drawing.specs.inner.Ending.{IsBegun};
ghost use Rattle.drawing.specs.inner.Kept.{IsEnds, IsOnward};

use crate::begun::Begun;
use crate::first::First;
use crate::range::Start;
use crate::recent::Recent;
use ladder::Keep;
use pair_judge::{MadeEntry, Observer};
use std::alloc::{AllocError, Global};
use wire_base::Side;

/// The first records, and the last ones.
#[derive(Drop)]
pub struct BothEnds {
    pub first: First,
    pub recent: Recent,
}

impl BothEnds {
    /// Nothing was told yet. `AllocError` where there is no memory for that.
    pub fn new(alloc: Global) -> Result<BothEnds, AllocError>
        ensures { IfOk result (λ ends. IsEnds ends []) }
    {
        Ok(BothEnds {
            first: First::new(alloc),
            recent: Recent::new(alloc)?,
        })
    }
}

impl BothEnds {
    // One more record was made, and all were kept so far.
    #[inline(never)]
    #[tactic(auto, using(crate::proofs::Onwards::ends_more))]
    fn keep(&mut self, next: &MadeEntry<'_>) -> Result<(), AllocError>
        ensures { OnOk result (TellsNext IsEnds self.old self.new (record_told next.now)) }
    {
        self.first.made(next)?;
        self.recent.made(next)
    }
}

impl Observer for BothEnds {
    ghost told = { λ ends order. IsEnds ends order };

    #[tactic(auto, using(crate::proofs::Onwards::ends_rest))]
    fn made(&mut self, next: &MadeEntry<'_>) -> Result<(), AllocError> {
        if self.first.is_all {
            return self.keep(next);
        }
        self.recent.made(next)
    }
}

/// The records from one on, and the last ones before it.
#[derive(Drop)]
pub struct Onward {
    start: Start,
    // Which line the next record is on, of the side whose record is the first one.
    line: u64,
    pub before: Recent,
    pub first: First,
}

impl Onward {
    /// Nothing was told yet. `AllocError` where there is no memory for that.
    #[tactic(auto, using(crate::proofs::Onwards::onward_none))]
    pub fn new(alloc: Global, start: Start) -> Result<Onward, AllocError>
        ensures { IfOk result (λ onward. IsOnward onward []) }
    {
        Ok(Onward {
            start,
            line: 2,
            before: Recent::new(alloc)?,
            first: First::new(alloc),
        })
    }

    /// A ladder of at most so many rows from this record on, told of what is kept. `AllocError` where there is no memory for it.
    #[tactic(auto, using(crate::proofs::Onwards::onward_begun))]
    pub fn begun(self, alloc: Global, start: Start, rows: usize) -> Result<Begun, AllocError>
        requires low { 1 ≤ rows }
        requires high { rows ≤ 200 }
        ensures { IfOk result (λ begun. (order : List MadeRecord) → IsOnward self order
            → IsBegun (keep.From start.side start.line) rows begun order) }
    {
        let Onward { before, first, .. } = self;
        let mut ladder = before.known()?;
        let keep = Keep::From {
            side: start.side,
            line: start.line,
        };
        ladder.begin(alloc, keep, rows)?;
        first.tell(&mut ladder)?;
        Ok(Begun {
            ladder,
            is_all: first.is_all,
        })
    }

    // Whether this side's next record comes before the one with which the rows begin.
    fn is_before(&self, side: Side) -> bool
        ensures { IsTrue result → self.now.first.records.items ≡ [] }
    {
        if self.first.records.len() != 0 {
            return false;
        }
        side != self.start.side || self.line != self.start.line
    }

    // A record before the one with which the rows begin.
    #[tactic(auto, using(crate::proofs::Onwards::onward_before))]
    fn learn(&mut self, next: &MadeEntry<'_>) -> Result<(), AllocError>
        requires { self.old.first.records.items ≡ [] }
        ensures { OnOk result (TellsNext IsOnward self.old self.new (record_told next.now)) }
    {
        if next.side == self.start.side {
            self.line = self.line.saturating_add(1);
        }
        self.before.made(next)
    }
}

impl Observer for Onward {
    ghost told = { λ onward order. IsOnward onward order };

    #[tactic(auto, using(crate::proofs::Onwards::onward_more))]
    fn made(&mut self, next: &MadeEntry<'_>) -> Result<(), AllocError> {
        if self.is_before(next.side) {
            self.learn(next)
        } else {
            self.first.made(next)
        }
    }
}
