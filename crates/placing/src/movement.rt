//! What a side does, one thing after another.

use crate::station::Station;

/// What a side does next.
#[derive(Clone, Copy, PartialEq, Eq)]
pub(crate) enum Move {
    /// Its next unit is sent. `is_new`: it gives a packet its number.
    Send { is_new: bool },
    /// The next unit of the other side came, and its packet was kept.
    Keep,
    /// It came, and nothing was kept.
    Receive,
    /// It was lost.
    Lose,
    /// The user starts the station.
    Start,
    /// The user halts it.
    Halt,
}

/// What a side does, where the other side's units that it does not name are lost.
#[derive(Clone, Copy, PartialEq, Eq)]
pub(crate) enum Made {
    /// Its next unit is sent.
    Send { is_new: bool },
    /// The other side's unit with this number came, and its packet was kept or not.
    Take { number: u64, kept: bool },
    /// The user starts the station.
    Start,
    /// The user halts it.
    Halt,
}

/// Where a side may be: its station, how many of the other side's units came or were lost, how many packets it kept, and the last step of the
/// way that leads there.
#[derive(Clone, Copy, PartialEq, Eq)]
pub(crate) struct Standing {
    pub(crate) station: Station,
    pub(crate) come: u64,
    pub(crate) kept: u64,
    pub(crate) last: u64,
}

impl Standing {
    /// Nothing was done.
    pub(crate) fn new() -> Standing {
        Standing {
            station: Station::new(),
            come: 0,
            kept: 0,
            last: 0,
        }
    }

    /// Whether a side that is here can do all that it could there: what may still come it can always lose. A node with queues that kept more
    /// packets may send no less.
    pub(crate) fn covers(&self, other: &Standing) -> bool {
        if self.come > other.come {
            return false;
        }
        if self.kept < other.kept {
            return false;
        }
        self.station.covers(&other.station)
    }
}
