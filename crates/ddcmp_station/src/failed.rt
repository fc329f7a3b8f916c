//! Which check a message does not pass, with what is seen and what is allowed.

ghost use Rattle.std.specs.Prelude.{◌≡◌};
ghost use Rattle.ddcmp_station.specs.Failed.{refusal_of_arrival, refusal_of_failed};

use crate::view::OpenCauses;
use ddcmp_msg::NakReason;
use dna_station::{PeriodNeed, State, StationRefusal, Tag};

/// The first check that a message does not pass which a station's node sent (DDCMP 4.1, startup state table, data transfer), with what is
/// seen there and what is allowed.
#[derive(Clone, Copy, Debug, PartialEq, Eq)]
pub enum FailedSending {
    /// In this state no such message may be sent (reason 6). Allowed: STRT in ISTRT; STACK in ASTRT; ACK, NAK, REP and data in RUNNING.
    State {
        seen: State,
    },
    /// RESP is not R, the number of the last packet received in order (reason 8).
    RespIsLast {
        seen: u8,
        allowed: u8,
    },
    /// NUM of data is not T, the number of the next packet to send (reason 7), which was given before where it goes again.
    NumIsNext {
        seen: u8,
        allowed: u8,
        again: bool,
    },
    /// NUM of a REP is not N, the highest number given (reason 7).
    NumIsHighest {
        seen: u8,
        allowed: u8,
    },
    /// A REP was sent while no packet is outstanding (reason 6). Allowed: from one on.
    SomeOutstanding,
    /// A new packet was sent while this many are outstanding (reason 9). Allowed: at most so many.
    RoomIfNew {
        seen: usize,
        allowed: usize,
    },
    /// The packet that goes again as this number has other data than at its first sending (reason 10): the first byte that differs, as it
    /// is and as it was first sent.
    AsFirstGiven {
        number: u8,
        seen: DataByte,
        allowed: DataByte,
    },
    /// A NAK has this reason, of which no cause is open (reason 11). Allowed: a reason of which one is open, or 9, 16 or 17.
    CauseIsOpen {
        seen: NakReason,
        open_causes: OpenCauses,
    },
}

/// A place in the data of a packet.
#[derive(Clone, Copy, Debug, PartialEq, Eq)]
pub struct DataByte {
    /// The place, counted from 0.
    pub place: usize,
    /// The byte there; `None` where the data end before it.
    pub byte: Option<u8>,
    /// How many bytes the data have.
    pub length: usize,
}

/// The first check that an arrival does not pass (DDCMP 4.1, startup state table, data transfer), with what is seen there and what is
/// allowed.
#[derive(Clone, Copy, Debug, PartialEq, Eq)]
pub enum FailedArrival {
    /// The message was sent in another pair of starts (reason 13): seen is its tag. Allowed: one that goes with the station's own tag as
    /// the row of the message needs.
    Period {
        needs: PeriodNeed,
        seen: Tag,
        own: Tag,
    },
    /// A packet is said to be kept, and none is taken (reason 12). Allowed: that it is not kept.
    Keep,
}

impl FailedSending {
    /// The refusal that goes with it.
    pub fn refusal(self) -> StationRefusal
        ensures { result ≡ refusal_of_failed self }
    {
        match self {
            FailedSending::State { .. } => StationRefusal::WrongState,
            FailedSending::RespIsLast { .. } => StationRefusal::WrongResponse,
            FailedSending::NumIsNext { .. } => StationRefusal::WrongNumber,
            FailedSending::NumIsHighest { .. } => StationRefusal::WrongNumber,
            FailedSending::SomeOutstanding => StationRefusal::WrongState,
            FailedSending::RoomIfNew { .. } => StationRefusal::WindowFull,
            FailedSending::AsFirstGiven { .. } => StationRefusal::Changed,
            FailedSending::CauseIsOpen { .. } => StationRefusal::NoCause,
        }
    }
}

impl FailedArrival {
    /// The refusal that goes with it.
    pub fn refusal(self) -> StationRefusal
        ensures { result ≡ refusal_of_arrival self }
    {
        match self {
            FailedArrival::Period { .. } => StationRefusal::CrossedPeriod,
            FailedArrival::Keep => StationRefusal::WrongKeep,
        }
    }
}
