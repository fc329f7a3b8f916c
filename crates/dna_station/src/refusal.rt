//! Why a station, or a node, can't make a record.

use crate::link_refusal::LinkRefusal;

/// Why a station refuses a step. Each has the number of the reason that the judge prints for it.
#[derive(Clone, Copy, Debug, PartialEq, Eq)]
pub enum StationRefusal {
    /// The message may not be sent in this state; or it is a REP while every packet is acknowledged (reason 6).
    WrongState,
    /// NUM is not the number of the next packet to send, or of a REP not the highest number given (reason 7).
    WrongNumber,
    /// RESP is not the number of the last packet received in order, which is 0 while there is none (reason 8).
    WrongResponse,
    /// A new packet while 255 are not acknowledged (reason 9).
    WindowFull,
    /// A packet that is sent again has other data than at first (reason 10).
    Changed,
    /// A NAK with reason 1, 2, 3 or 8 while nothing that gives such a reason is left to answer (reason 11).
    NoCause,
    /// The receipt claims to have taken a packet, and takes none (reason 12).
    WrongKeep,
    /// A message that is acted on belongs to another pair of starts: a STACK before RUNNING answers another start, any
    /// message but a STRT else is not of the pair (reason 13).
    CrossedPeriod,
    /// A start in a state other than HALTED (reason 14).
    WrongUserEvent,
}

/// Why a node can't make a record, where no other order of the records would help.
#[derive(Clone, Copy, PartialEq, Eq)]
pub enum StepRefusal {
    /// The bytes that were sent are no sound message (reason 1).
    NotAMessage,
    /// The hint is at or below an earlier one (reason 2).
    HintOrder,
    /// The bytes differ from the unit's, and no block check shows it (reason 5).
    Undetected,
    /// The station refuses, for this reason of its own.
    Station(StationRefusal),
    /// The packet of a data message that is first sent can't be read (reason 15).
    BadPacket,
    /// The NSP message in a packet that is first sent can't be read (reason 17).
    BadNsp,
    /// The links refuse, for this reason of theirs.
    Links(LinkRefusal),
    /// Bytes that came and that nobody sent show no damage, whether they read as a message or not (reason 27).
    NotNoise,
}
