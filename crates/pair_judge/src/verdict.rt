//! What the judge answers.

use crate::reason::Reason;
use crate::summary::Summary;
use wire_base::Side;

/// The answer on two captures.
#[derive(Clone, Copy, PartialEq, Eq)]
pub enum Verdict {
    /// Together they are a run; the counts of both sides.
    Accepted(Summary),
    /// They are none.
    Refused {
        /// The side of the record that is named.
        side: Side,
        /// Its number on that side, from 0 on; it is on line `place + 2`.
        place: u64,
        /// What is wrong with it.
        reason: Reason,
    },
}
