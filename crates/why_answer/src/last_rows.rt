//! The last rows of the ladder, and the lines of the links, as the judge tells the records.

ghost use Rattle.std.specs.Prelude.{[], IfOk, IfErr};
ghost use Rattle.why_answer.specs.LastRows.{WereTold};

use capture_record::Entry;
use ladder::{Keep, Ladder};
use pair_judge::{MadeEntry, Observer};
use std::alloc::{AllocError, Global};
use why::LinkPast;
use wire_base::Side;

/// How many rows there are before that of the refused record.
pub const ROWS_BEFORE: usize = 10;

/// The last rows of the records that were told, with room for one more, of the refused record; and in which lines links began and ended.
#[derive(Drop)]
pub struct LastRows {
    pub ladder: Ladder,
    pub past: LinkPast,
}

impl LastRows {
    /// Nothing was told yet. `AllocError` where there is no memory for the rows.
    pub fn new(alloc: Global) -> Result<LastRows, AllocError>
        ensures { IfOk result (λ rows. WereTold rows.ladder []) }
    {
        let ladder = Ladder::new(alloc, Keep::Last, ROWS_BEFORE + 1)?;
        let past = LinkPast::new(alloc);
        Ok(LastRows { ladder, past })
    }
}

impl LastRows {
    /// This record was made.
    pub fn note(&mut self, side: Side, entry: Entry, bytes: &[u8]) -> Result<(), AllocError> {
        self.past.note(side, entry, bytes)?;
        self.ladder.made(side, entry, bytes)
    }
}

impl Observer for LastRows {
    ghost told = { λ rows order. WereTold rows.ladder order };

    fn made(&mut self, next: &MadeEntry<'_>) -> Result<(), AllocError> {
        self.past.note(next.side, next.entry, next.bytes)?;
        self.ladder.made(next.side, next.entry, next.bytes)
    }
}
