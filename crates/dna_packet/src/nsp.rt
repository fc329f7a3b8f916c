//! The messages of NSP.

ghost use Rattle.std.specs.Prelude.{IsTrue, ◌↔◌};
ghost use Rattle.std.specs.List.{AllByRecursion};
ghost use Rattle.dna_packet.specs.AckWord.{IsAckWord};

use crate::ack_word::AckWord;
use arrayvec::ArrayVec;

/// A data segment: a piece of a user's message (NSP 4.0, data segment format).
#[derive(Debug, Drop, PartialEq, Eq)]
pub struct Segment<'a> {
    /// Bit 5 of the flag byte: the piece begins a message.
    pub begins: bool,
    /// Bit 6 of the flag byte: the piece ends a message.
    pub ends: bool,
    /// DSTADDR, the destination's link address.
    pub dstaddr: u16,
    /// SRCADDR, the source's link address.
    pub srcaddr: u16,
    /// The acknowledgement words, none to two of them.
    pub acks: ArrayVec<AckWord, 2>,
    /// The segment's number, 0 to 4,095: bits 0 to 11 of SEGNUM.
    pub number: u16,
    /// Bit 12 of SEGNUM, which is carried and means nothing here.
    pub bit_12: bool,
    /// The data, all bytes to the end of the message.
    pub body: &'a [u8],
}

/// Flag bytes 10, link service, and 30, interrupt (NSP 4.0, link service and interrupt formats).
#[derive(Clone, Copy, Debug, PartialEq, Eq)]
pub struct LinkService<'a> {
    /// Whether the flag byte is 30, that of an interrupt.
    pub interrupt: bool,
    /// DSTADDR, the destination's link address.
    pub dstaddr: u16,
    /// SRCADDR, the source's link address.
    pub srcaddr: u16,
    /// What follows, carried unread.
    pub rest: &'a [u8],
}

/// Flag byte 04: an acknowledgement of data segments (NSP 4.0, data acknowledgement format).
#[derive(Debug, Drop, PartialEq, Eq)]
pub struct DataAck {
    /// DSTADDR, the destination's link address.
    pub dstaddr: u16,
    /// SRCADDR, the source's link address.
    pub srcaddr: u16,
    /// The acknowledgement words, one or two of them.
    pub acks: ArrayVec<AckWord, 2>,
}

/// Flag byte 14: an acknowledgement on the other subchannel (NSP 4.0, other-data acknowledgement format).
#[derive(Clone, Copy, Debug, PartialEq, Eq)]
pub struct OtherDataAck<'a> {
    /// DSTADDR, the destination's link address.
    pub dstaddr: u16,
    /// SRCADDR, the source's link address.
    pub srcaddr: u16,
    /// What follows, carried unread.
    pub rest: &'a [u8],
}

/// Flag byte 24: an acknowledgement of a CI (NSP 4.0, connect acknowledgement format).
#[derive(Clone, Copy, Debug, PartialEq, Eq)]
pub struct ConnectAck {
    /// DSTADDR, the destination's link address.
    pub dstaddr: u16,
}

/// Flag byte 08: no operation (NSP 4.0, no operation format).
#[derive(Clone, Copy, Debug, PartialEq, Eq)]
pub struct NoOperation<'a> {
    /// What follows, carried unread.
    pub rest: &'a [u8],
}

/// CI, flag bytes 18 and 68 (NSP 4.0, connect initiate format). Its DSTADDR is always 0, and no field.
#[derive(Clone, Copy, Debug, PartialEq, Eq)]
pub struct ConnectInitiate<'a> {
    /// Whether the flag byte is 68, that of a CI sent again.
    pub retransmitted: bool,
    /// SRCADDR, the source's link address.
    pub srcaddr: u16,
    /// SERVICES, carried whatever it is.
    pub services: u8,
    /// INFO, carried whatever it is.
    pub info: u8,
    /// SEGSIZE, the most data bytes that the sender takes in a segment.
    pub segsize: u16,
    /// The user data, all bytes to the end of the message, carried unread.
    pub user_data: &'a [u8],
}

/// CC, flag byte 28 (NSP 4.0, connect confirm format).
#[derive(Clone, Copy, Debug, PartialEq, Eq)]
pub struct ConnectConfirm<'a> {
    /// DSTADDR, the destination's link address.
    pub dstaddr: u16,
    /// SRCADDR, the source's link address.
    pub srcaddr: u16,
    /// SERVICES, carried whatever it is.
    pub services: u8,
    /// INFO, carried whatever it is.
    pub info: u8,
    /// SEGSIZE, the most data bytes that the sender takes in a segment.
    pub segsize: u16,
    /// The user data, all bytes to the end of the message, carried unread.
    pub user_data: &'a [u8],
}

/// DI, flag byte 38 (NSP 4.0, disconnect initiate format).
#[derive(Clone, Copy, Debug, PartialEq, Eq)]
pub struct DisconnectInitiate<'a> {
    /// DSTADDR, the destination's link address.
    pub dstaddr: u16,
    /// SRCADDR, the source's link address.
    pub srcaddr: u16,
    /// REASON, carried whatever it is.
    pub reason: u16,
    /// The user data, all bytes to the end of the message, carried unread.
    pub user_data: &'a [u8],
}

/// DC, flag byte 48 (NSP 4.0, disconnect confirm format).
#[derive(Clone, Copy, Debug, PartialEq, Eq)]
pub struct DisconnectConfirm {
    /// DSTADDR, the destination's link address.
    pub dstaddr: u16,
    /// SRCADDR, the source's link address.
    pub srcaddr: u16,
    /// REASON, carried whatever it is.
    pub reason: u16,
}

/// An NSP message: a variant for each layout, with the fields in their order (NSP 4.0, message formats). Its
/// part, where it has one, is a slice of the bytes that it was read from.
#[derive(Debug, Drop, PartialEq, Eq)]
pub enum Nsp<'a> {
    DataSegment(Segment<'a>),
    LinkService(LinkService<'a>),
    DataAck(DataAck),
    OtherDataAck(OtherDataAck<'a>),
    ConnectAck(ConnectAck),
    NoOperation(NoOperation<'a>),
    ConnectInitiate(ConnectInitiate<'a>),
    ConnectConfirm(ConnectConfirm<'a>),
    DisconnectInitiate(DisconnectInitiate<'a>),
    DisconnectConfirm(DisconnectConfirm),
}

impl Nsp<'_> {
    ghost use Rattle.dna_packet.specs.Nsp.{view, IsInRange};

    /// Whether the fields are those of a message: acknowledgement and segment numbers are at most 4,095, and a
    /// data acknowledgement has a word. Every other value of a field is in range.
    pub fn in_range(&self) -> bool
        ensures { IsTrue result ↔ IsInRange (view self.now) }
    {
        match self {
            Nsp::DataSegment(segment) => segment.number < 0x1000 && are_in_range(&segment.acks),
            Nsp::DataAck(message) => !message.acks.is_empty() && are_in_range(&message.acks),
            Nsp::LinkService(_)
            | Nsp::OtherDataAck(_)
            | Nsp::ConnectAck(_)
            | Nsp::NoOperation(_)
            | Nsp::ConnectInitiate(_)
            | Nsp::ConnectConfirm(_)
            | Nsp::DisconnectInitiate(_)
            | Nsp::DisconnectConfirm(_) => true,
        }
    }
}

/// Whether the numbers of acknowledgement words are in range.
fn are_in_range(acks: &[AckWord]) -> bool
    ensures { IsTrue result ↔ AllByRecursion IsAckWord acks.now }
{
    acks.iter().all(|ack| ack.in_range())
}
