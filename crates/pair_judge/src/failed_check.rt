//! Which check a record does not pass, over both layers and the line.

use ddcmp_msg::Departure;
use ddcmp_station::{FailedArrival, FailedSending};
use dna_packet::{NspFault, PacketFault};
use dna_station::State;
use nsp_link::{FailedLinkArrival, FailedLinkEvent, FailedLinkSending};

/// The check that the refused record does not pass, with what is seen there and what is allowed.
#[derive(Clone, Copy, Debug, PartialEq, Eq)]
pub enum FailedCheck {
    /// The bytes that were sent are no sound message (reason 1).
    Message(NotSound),
    /// The hint is not above that of an earlier receipt (reason 2). Allowed: from the lowest on.
    HintOrder { seen: u64, lowest: u64 },
    /// The hint names a unit that the other side never sends (reason 3).
    NoSuchUnit(Awaited),
    /// Both sides wait for a unit that the other one has not sent (reason 4): this side and the other one.
    NoOrder { own: Awaited, other: Awaited },
    /// The bytes are not those of the unit that the hint names, and show no damage (reason 5). Allowed: its bytes, or damaged ones.
    Undetected { unit: u64 },
    /// The station does not send the message (reasons 6 to 11).
    StationSending(FailedSending),
    /// The station does not meet what came, or does not keep it (reasons 12 and 13).
    StationArrival(FailedArrival),
    /// The user starts the station in this state (reason 14). Allowed: a start in HALTED.
    StationEvent { seen: State },
    /// The packet departs from those of a circuit (reason 15).
    Packet(PacketFault),
    /// The message in a packet departs from those of NSP (reason 17).
    Nsp(NspFault),
    /// The links do not send the message (reason 16, and 18 to 23).
    LinkSending(FailedLinkSending),
    /// The links do not take the message (reasons 16 and 25).
    LinkArrival(FailedLinkArrival),
    /// The user may not do this with the links (reasons 18, 19, 24 and 26).
    LinkEvent(FailedLinkEvent),
    /// Bytes that nobody sent show no damage (reason 27). Allowed: a header or data that are bad.
    Noise,
}

/// A receipt whose unit is not sent.
#[derive(Clone, Copy, Debug, PartialEq, Eq)]
pub struct Awaited {
    /// The unit that its hint names.
    pub hint: u64,
    /// How many units the other side sent: its hint has to be below.
    pub sent: u64,
}

/// How bytes are read that are no sound message.
#[derive(Clone, Copy, Debug, PartialEq, Eq)]
pub enum NotSound {
    HeaderBad,
    DataBad,
    Malformed(Departure),
}
