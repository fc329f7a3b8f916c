//! Where something may be assumed, and what.

use wire_base::Side;

/// What is assumed at a place.
#[derive(Clone, Copy, PartialEq, Eq)]
pub(crate) enum Choice {
    /// The message begins or answers something anew, or goes again; the call of this unit, which has its address, was given up before.
    Anew {
        is_anew: bool,
        given_up: Option<u64>,
    },
    /// The call of this unit was given up before what is here.
    GivesUp {
        call: u64,
    },
    /// The call that begins here is answered at once, and gets this link.
    Answers {
        link: u16,
        accepts: bool,
    },
    /// So many packets are kept at most from here to the start that follows.
    Keeps {
        most: u64,
    },
    /// The node boots before this start.
    Boots,
}

/// What may be assumed at a point.
#[derive(Clone, Copy, PartialEq, Eq)]
pub(crate) enum Kind {
    /// A CI, CC or DI that may be either; what is taken now, and the call that then has its address, if one has.
    Either { is_anew: bool, call: Option<u64> },
    /// The call of this unit is answered or meets another link with its address.
    GivesUp { call: u64 },
    /// A call begins.
    Called,
    /// A packet that may not have been kept, after so many.
    Keeps { most: u64 },
    /// A start.
    Starts,
}

/// A point that was passed: its place in the order, what marks it, and the addresses that it is about.
#[derive(Clone, Copy, PartialEq, Eq)]
pub(crate) struct Point {
    pub(crate) number: u64,
    pub(crate) key: u64,
    pub(crate) side: Side,
    pub(crate) own: u16,
    pub(crate) far: u16,
    pub(crate) kind: Kind,
}

/// What marks the point at a place of the order.
pub(crate) fn key_of(number: u64) -> u64 {
    number.saturating_mul(2)
}

/// What marks the packets that may not have been kept, where this is the place of the first one.
pub(crate) fn gap_key_of(number: u64) -> u64 {
    number.saturating_mul(2).saturating_add(1)
}
