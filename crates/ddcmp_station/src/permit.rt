//! That a step is allowed, with what was found when it was asked.

use dna_station::ArrivalRow;

/// That a message may be sent now. Of the station that gave it, and of that message, until the station changes.
#[derive(Clone, Copy, PartialEq, Eq)]
pub enum SendPermit {
    /// No packet.
    Control,
    /// A packet that gets the next number.
    FirstSending,
    /// A packet that has a number, and goes again.
    Repeat,
}

/// That what came is met. Of the station that gave it, and of that arrival, until the station changes.
#[derive(Clone, Copy, PartialEq, Eq)]
pub struct ArrivalPermit<'a> {
    /// The row of the message; of what shows damage `Ignored`.
    pub row: ArrivalRow,
    /// The packet that is taken, if one is.
    pub packet: Option<&'a [u8]>,
}
