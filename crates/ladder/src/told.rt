//! A record, as a row tells it.

use crate::said::{Content, Said};
use capture_record::{Entry, Fate as Became};
use dna_station::State;
use wire_base::Side;

/// A record of one side, as it was told.
#[derive(Clone, Copy)]
pub struct Told {
    /// Whose record it is.
    pub side: Side,
    /// Which line of that side's capture it is on: record i is on line i + 2.
    pub line: u64,
    /// What happened.
    pub what: What,
    /// The state of the side's station after it, as the records tell it.
    pub state: State,
}

/// What happened, by a record.
#[derive(Clone, Copy)]
pub enum What {
    /// The side sent a unit.
    Sent {
        /// The unit's number, counted from 0 over all units that the side sent.
        unit: u64,
        /// What it says.
        said: Said,
        /// Whether it was sent before.
        again: bool,
    },
    /// A unit of the other side came.
    Came {
        /// The number of the unit, by the record's hint.
        hint: u64,
        /// What became of its packet.
        became: Became,
        /// What the bytes say that came.
        said: Said,
        /// How that unit was sent; `None` where no unit of that number may come any more, or yet.
        sent: Option<Sending>,
    },
    /// Bytes came, and nobody sent them.
    Noise {
        said: Said,
    },
    /// A packet was composed that is never sent.
    Composed {
        /// What is in it.
        content: Content,
    },
    /// Something else happened apart from the line, with a message of as many bytes.
    User {
        entry: Entry,
        bytes: usize,
    },
}

/// A unit that was sent.
#[derive(Clone, Copy)]
pub struct Sending {
    /// Which line of its sender's capture it is on.
    pub line: u64,
    /// What it says.
    pub said: Said,
}
