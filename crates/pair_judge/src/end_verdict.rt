//! What the judge of one end answers.

use crate::reason::Reason;
use crate::summary::SideSummary;

/// Who broke the rule.
#[derive(Clone, Copy, Debug, PartialEq, Eq)]
pub enum Accused {
    /// The end whose capture it is, in its record.
    ThisEnd,
    /// The other one, in what came of it.
    OtherEnd,
}

/// The answer on one capture.
#[derive(Clone, Copy, Debug, PartialEq, Eq)]
pub enum EndVerdict {
    /// All of its records were made; their counts.
    Passed(SideSummary),
    /// One can't be made, whatever the other capture may be.
    Refused {
        /// Its number, from 0 on; it is on line `place + 2`.
        place: u64,
        /// Who broke the rule.
        accused: Accused,
        /// Which rule.
        reason: Reason,
    },
}
