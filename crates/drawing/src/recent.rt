//! The last records, and those before them.

ghost use Rattle.std.specs.Prelude.{◌≡◌, ◌<◌, ◌≤◌, length, List, [], IfOk, OnOk};
ghost use Rattle.pair_judge.specs.Order.{MadeRecord, TellsNext, record_told};
ghost use Rattle.ladder.specs.declared.rows.Keep.TheVariants.{Last};
ghost use Rattle.drawing.specs.declared.log.TheConstants.{RECORDS};
ghost use Rattle.drawing.specs.Telling.{ladder_told};
ghost use Rattle.drawing.specs.inner.Ending.{IsBegun};
ghost use Rattle.drawing.specs.inner.Kept.{IsRecent, WasToldOf};

use crate::begun::Begun;
use crate::log::Log;
use crate::tell::{teach_all, tell_all};
use ladder::{Keep, Ladder};
use pair_judge::MadeEntry;
use std::alloc::{AllocError, Global};
use std::mem;

/// The last records that were told, at least as many as a log has, and what a ladder knows of those before them. They are kept in two logs: where the
/// newer one is full, the ladder learns the older one, whose memory the next records take.
#[derive(Drop)]
pub struct Recent {
    pub before: Ladder,
    pub older: Log,
    pub newer: Log,
}

impl Recent {
    /// Nothing was told yet. `AllocError` where there is no memory for that.
    #[tactic(auto, using(crate::proofs::Recents::recent_none))]
    pub fn new(alloc: Global) -> Result<Recent, AllocError>
        ensures { IfOk result (λ recent. IsRecent recent []) }
    {
        Ok(Recent {
            before: Ladder::new(alloc, Keep::Last, 1)?,
            older: Log::new(alloc),
            newer: Log::new(alloc),
        })
    }

    /// One more record was made. `AllocError` where there is no memory for it; then this is of no use.
    #[inline(always)]
    #[tactic(auto, using(crate::proofs::Recents::recent_made))]
    pub fn made(&mut self, next: &MadeEntry<'_>) -> Result<(), AllocError>
        ensures { OnOk result (TellsNext IsRecent self.old self.new (record_told next.now)) }
    {
        self.make_room();
        self.newer.put(next)
    }

    // The newer log has room for a record.
    #[inline(always)]
    fn make_room(&mut self)
        ensures kept { (order : List MadeRecord) → IsRecent self.old order → IsRecent self.new order }
        ensures room { length self.new.newer < RECORDS }
    {
        if self.newer.is_full() {
            self.turn_over();
        }
    }

    // The ladder learns the older log, and the newer one is the older one from now on.
    #[inline(never)]
    #[tactic(auto, using(crate::proofs::Recents::turned))]
    fn turn_over(&mut self)
        requires { RECORDS ≤ length self.old.newer }
        ensures kept { (order : List MadeRecord) → IsRecent self.old order → IsRecent self.new order }
        ensures none { self.new.newer ≡ [] }
    {
        teach_all(&mut self.before, self.older.as_slice());
        mem::swap(&mut self.older, &mut self.newer);
        self.newer.clear();
    }

    /// A ladder that knows all of them; no row of them is to be drawn. `AllocError` where there is no memory for a unit.
    #[tactic(auto, using(crate::proofs::Recents::recent_known))]
    pub fn known(self) -> Result<Ladder, AllocError>
        ensures { IfOk result (λ ladder. (order : List MadeRecord) → IsRecent self order → WasToldOf ladder order) }
    {
        let Recent {
            before: mut ladder,
            older,
            newer,
        } = self;
        tell_all(&mut ladder, older.as_slice())?;
        tell_all(&mut ladder, newer.as_slice())?;
        Ok(ladder)
    }

    /// A ladder of at most so many of the last rows, told of all records. `AllocError` where there is no memory for it.
    #[tactic(auto, using(crate::proofs::Recents::recent_begun))]
    pub fn begun(self, alloc: Global, rows: usize) -> Result<Begun, AllocError>
        requires low { 1 ≤ rows }
        requires high { rows ≤ 200 }
        ensures { IfOk result (λ begun. (order : List MadeRecord) → IsRecent self order → IsBegun Last rows begun order) }
    {
        let Recent {
            before: mut ladder,
            older,
            newer,
        } = self;
        ladder.begin(alloc, Keep::Last, rows)?;
        tell_all(&mut ladder, older.as_slice())?;
        tell_all(&mut ladder, newer.as_slice())?;
        Ok(Begun {
            ladder,
            is_all: true,
        })
    }
}
