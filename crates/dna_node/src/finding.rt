//! What can be found of two captures.

use dna_station::StepRefusal;
use wire_base::Side;

/// Why two captures are no run.
#[derive(Clone, Copy, PartialEq, Eq)]
pub enum Cause {
    /// The record can't be made though all of its causes can.
    Step(StepRefusal),
    /// The record names a unit that the other side never sends (reason 3).
    NoSuchUnit,
    /// Each side's next record names a unit that the other has not sent by then (reason 4).
    NoOrder,
}

/// Whether two captures are a run, and if not, where and why.
#[derive(Clone, Copy, PartialEq, Eq)]
pub enum Finding {
    /// They are.
    Accepted,
    /// They are not.
    Refused {
        /// The side of the record that is named.
        side: Side,
        /// Its number on that side, from 0 on.
        place: u64,
        /// What is wrong with it.
        cause: Cause,
    },
}
