//! Records one after the other, in memory that is used again.

ghost use Rattle.std.specs.Prelude.{◌≡◌, ◌++◌, ◌∷◌, ◌<◌, ◌≤◌, [], true, false, length, OnOk};
ghost use Rattle.drawing.specs.declared.log.TheConstants.{RECORDS};

use crate::told_record::ToldRecord;
use pair_judge::MadeEntry;
use std::alloc::{AllocError, Global};
use std::marker::Model;

/// So many of the last records are kept at least: four for each row that may be drawn. A row has two at most, and some more tell better how those
/// near the end are placed.
pub const RECORDS: usize = 800;

/// Records that were told, `RECORDS` of them at most.
#[derive(Drop)]
pub struct Log {
    alloc: Global,
    // So many of these are its records; the others are memory for the next ones.
    count: usize,
    records: Vec<ToldRecord>,
}

impl Model for Log {
    ghost use Rattle.std.specs.Prelude.{◌≤◌, List, length, take};
    ghost use Rattle.drawing.specs.declared.log.TheConstants.{RECORDS};
    ghost use Rattle.pair_judge.specs.Order.{MadeEntry};

    ghost Value = { List MadeEntry };

    ghost view = { λ log. take log.count log.records.items };

    ghost invariant = { λ log. (log.count ≤ length log.records.items) × (length log.records.items ≤ RECORDS) };
}

impl Log {
    /// No record yet. Takes no memory.
    pub fn new(alloc: Global) -> Log
        ensures { result ≡ [] }
    {
        Log {
            alloc,
            count: 0,
            records: Vec::new(alloc),
        }
    }

    /// Whether there are as many as may be.
    #[inline(always)]
    #[tactic(auto, using(crate::proofs::Logs::log_length))]
    pub fn is_full(&self) -> bool
        ensures full { result ≡ true → RECORDS ≤ length self.now }
        ensures room { result ≡ false → length self.now < RECORDS }
    {
        RECORDS <= self.count
    }

    /// One record more. `AllocError` where there is no memory for it; then the log is of no use.
    #[inline(always)]
    pub fn put(&mut self, next: &MadeEntry<'_>) -> Result<(), AllocError>
        requires { length self.old < RECORDS }
        ensures { OnOk result (self.new ≡ self.old ++ next.now ∷ []) }
    {
        let Some(slot) = self.records.get_mut(self.count) else {
            return self.grow(next);
        };
        slot.refill(next)?;
        self.count += 1;
        Ok(())
    }

    // One record more in memory of its own.
    #[inline(never)]
    fn grow(&mut self, next: &MadeEntry<'_>) -> Result<(), AllocError>
        requires { length self.old < RECORDS }
        ensures { OnOk result (self.new ≡ self.old ++ next.now ∷ []) }
    {
        let own = ToldRecord::new(self.alloc, next)?;
        self.records.truncate(self.count);
        self.records.push(own)?;
        self.count += 1;
        Ok(())
    }

    /// Its records are forgotten, and their memory is kept.
    pub fn clear(&mut self)
        ensures { self.new ≡ [] }
    {
        self.count = 0;
    }

    /// Its records.
    pub fn as_slice(&self) -> &[ToldRecord]
        ensures { result.now ≡ self.now }
    {
        let (records, _) = self.records.as_slice().split_at(self.count);
        records
    }
}
