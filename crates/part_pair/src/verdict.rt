//! What the judge answers.

use pair_judge::Verdict;
use wire_base::Side;

/// The side that was judged on as one end alone, since the part of the other side ends.
#[derive(Clone, Copy, PartialEq, Eq)]
pub struct JudgedAlone {
    /// This side,
    pub side: Side,
    /// from this record of it on, counted from 0; it is on line `place + 2`.
    pub place: u64,
}

/// The answer on two captures of which at least one is a part of a run.
#[derive(Clone, Copy, PartialEq, Eq)]
pub struct PartsVerdict {
    /// As of two whole captures.
    pub verdict: Verdict,
    /// Of accepted ones, whether one went on behind the end of the other.
    pub alone: Option<JudgedAlone>,
}
