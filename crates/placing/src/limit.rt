//! The limits of the search.

/// The most states of a side that are kept at a time.
pub const MOST_STATES: usize = 10_000;

/// So many hypotheses are kept at least before it is asked which are alike.
pub(crate) const FEW_HYPOTHESES: usize = 8;

/// So many steps wait at least before it is asked which of them all states share.
pub(crate) const FEW_STEPS: usize = 256;
