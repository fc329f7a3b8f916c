//! What is assumed of a side at one of its units, where what is found without it is refused.

use wire_base::Side;

/// What is assumed of this side at this unit of it, counted from 0. The line is told of it, and nothing goes by that.
#[derive(Clone, Copy, Debug, PartialEq, Eq)]
pub struct Turn {
    pub side: Side,
    pub unit: u64,
    pub line: u64,
    pub what: Assumed,
}

/// What is assumed at a unit.
#[derive(Clone, Copy, Debug, PartialEq, Eq)]
pub enum Assumed {
    /// The user starts the station before it; of the packets that were under way, this many were kept at most.
    Keeps {
        most: u64,
    },
    /// The node boots before the start that comes before it.
    Boots,
    /// It is a CI, and the user gives that call up before an answer to it is kept, or before its address is given again.
    GivesUp,
    /// It is a CI, CC or DI that begins or answers a call anew, or that goes again: not what its flag byte, or what went before, says first.
    Anew {
        is_anew: bool,
    },
    /// Right after the packet of the other side's unit with this number was kept, the user accepts or rejects the call of this partner, which gets
    /// this link.
    Answers {
        came: u64,
        partner: u16,
        link: u16,
        accepts: bool,
    },
}
