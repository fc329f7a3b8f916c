//! What the records of a capture tell of links.

use dna_packet::{AckQualifier, AckWord, Nsp};

/// Which message of links it is.
#[derive(Clone, Copy, Debug, PartialEq, Eq)]
pub(crate) enum What {
    Call { again: bool },
    ConnectAck,
    Confirm,
    Disconnect,
    Confirmed,
    Segment,
    OfRun,
}

/// What links go by in a message: its two addresses, the number of a segment, the number that it acknowledges; and how many data bytes a segment
/// has, or, in a CI or CC, may have; and whether a segment ends a message.
#[derive(Clone, Copy, Debug, PartialEq, Eq)]
pub(crate) struct Said {
    pub(crate) what: What,
    pub(crate) from: u16,
    pub(crate) to: u16,
    pub(crate) number: u16,
    pub(crate) ack: Option<u16>,
    pub(crate) size: u64,
    pub(crate) ends: bool,
}

/// A packet that may not have been kept before a start: of those that may, the place of the first one among the side's events; how many were kept
/// before this one; and the place of the start among the spots of the side.
#[derive(Clone, Copy, PartialEq, Eq)]
pub(crate) struct Gap {
    pub(crate) first: u64,
    pub(crate) place: u64,
    pub(crate) start: u64,
}

/// What a side did.
#[derive(Clone, Copy, PartialEq, Eq)]
pub(crate) enum Act {
    /// It sent this for the first time since its start.
    Sends(Said),
    /// It kept the packet of the other side's unit with this number.
    Keeps {
        said: Said,
        came: u64,
        gap: Option<Gap>,
    },
    /// Its user starts the station, not for the first time.
    Starts,
}

/// What a side did, how many units it had sent before, how many the other side had to have sent, and the place of its record among the spots of the
/// side, if it has one.
#[derive(Clone, Copy, PartialEq, Eq)]
pub(crate) struct Event {
    pub(crate) act: Act,
    pub(crate) before: u64,
    pub(crate) needs: u64,
    pub(crate) spot: u64,
}

/// What links go by in this message; nothing in a no operation.
pub(crate) fn said_in(message: &Nsp) -> Option<Said> {
    match message {
        Nsp::ConnectInitiate(call) => {
            let what = What::Call {
                again: call.retransmitted,
            };
            Some(sized(what, call.srcaddr, 0, u64::from(call.segsize)))
        }
        Nsp::ConnectConfirm(answer) => Some(sized(
            What::Confirm,
            answer.srcaddr,
            answer.dstaddr,
            u64::from(answer.segsize),
        )),
        Nsp::ConnectAck(message) => Some(sized(What::ConnectAck, 0, message.dstaddr, 0)),
        Nsp::DisconnectInitiate(end) => Some(sized(What::Disconnect, end.srcaddr, end.dstaddr, 0)),
        Nsp::DisconnectConfirm(end) => Some(sized(What::Confirmed, end.srcaddr, end.dstaddr, 0)),
        Nsp::DataSegment(segment) => Some(Said {
            what: What::Segment,
            from: segment.srcaddr,
            to: segment.dstaddr,
            number: segment.number,
            ack: acknowledged(segment.acks.as_slice()),
            size: segment.body.len() as u64,
            ends: segment.ends,
        }),
        Nsp::DataAck(message) => Some(Said {
            ack: acknowledged(message.acks.as_slice()),
            ..sized(What::OfRun, message.srcaddr, message.dstaddr, 0)
        }),
        Nsp::LinkService(message) => {
            Some(sized(What::OfRun, message.srcaddr, message.dstaddr, 0))
        }
        Nsp::OtherDataAck(message) => {
            Some(sized(What::OfRun, message.srcaddr, message.dstaddr, 0))
        }
        Nsp::NoOperation(_) => None,
    }
}

fn sized(what: What, from: u16, to: u16, size: u64) -> Said {
    Said {
        what,
        from,
        to,
        number: 0,
        ack: None,
        size,
        ends: false,
    }
}

// The number of the first of these words that is of the data subchannel.
fn acknowledged(words: &[AckWord]) -> Option<u16> {
    for word in words {
        match word.qualifier {
            AckQualifier::Ack | AckQualifier::Nak => return Some(word.number),
            _ => {}
        }
    }
    None
}

impl Said {
    /// Whether a link begins or ends by it.
    pub(crate) fn turns_a_link(self) -> bool {
        match self.what {
            What::Call { again: _ } | What::Confirm | What::Disconnect | What::Confirmed => true,
            What::ConnectAck | What::Segment | What::OfRun => false,
        }
    }
}
