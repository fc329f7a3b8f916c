//! What the side's own units told of its station.

/// What the side's own units told of its station.
#[derive(Clone, Copy, PartialEq, Eq)]
pub enum Mode {
    /// In its present period it has sent no numbered message yet; so it is in a state before RUNNING, or in RUNNING with all numbers given 0.
    Begins,
    /// It is in RUNNING and has sent numbered messages, or its user has halted it since.
    Runs,
    /// Two accounts of its numbers are possible; nothing is said until it sends a STRT.
    Doubtful,
}
