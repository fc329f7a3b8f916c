//! The states of a station, and what its user does to it.

/// The state of a station (DDCMP 4.1, startup state table).
#[derive(Clone, Copy, Debug, PartialEq, Eq)]
pub enum State {
    /// HALTED: whatever arrives changes nothing, and no packet is taken.
    Halted,
    /// ISTRT: the user has started the station, and it repeats STRT.
    Istrt,
    /// ASTRT: a STRT has come, and it repeats STACK.
    Astrt,
    /// RUNNING: the start is over.
    Running,
}

/// What the user of a station does.
#[derive(Clone, Copy, PartialEq, Eq)]
pub enum StationEvent {
    /// Begins a new period; in HALTED alone.
    Start,
    /// Leads to HALTED; in every state.
    Halt,
}
