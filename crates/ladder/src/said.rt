//! What a unit says, in the few words of a row.

ghost use Rattle.std.specs.Prelude.{◌≡◌};
ghost use Rattle.ladder.specs.Said.{brief};

use ddcmp_msg::NakReason;
use std::fmt;

/// The two addresses of a link that a message goes between: SRCADDR and DSTADDR of NSP. Printed as `1>2`.
#[derive(Clone, Copy, PartialEq, Eq)]
pub struct Link {
    pub source: u16,
    pub destination: u16,
}

impl fmt::Display for Link {
    fn fmt<W: fmt::Write>(&self, f: &mut fmt::Formatter<W>) -> fmt::Result {
        let source = self.source;
        let destination = self.destination;
        write!(f, "{source}>{destination}")
    }
}

/// What a row tells of the packet in a data message (NSP 4.0, message formats). Printed with a space in front.
#[derive(Clone, Copy, PartialEq, Eq)]
pub enum Content {
    /// Nothing: a routing control packet, one on its way back, or none that is known.
    Untold,
    /// A CI, by its SRCADDR.
    ConnectInitiate { source: u16 },
    /// A CC.
    ConnectConfirm(Link),
    /// A DI.
    DisconnectInitiate(Link),
    /// A DC.
    DisconnectConfirm(Link),
    /// A data segment with this number.
    Segment { number: u16, link: Link },
    /// A data acknowledgement, by the number of its first word.
    DataAck { number: u16, link: Link },
    /// A link service message, or an interrupt.
    LinkService(Link),
    /// An acknowledgement on the other subchannel.
    OtherDataAck(Link),
    /// An acknowledgement of a CI, by its DSTADDR.
    ConnectAck { destination: u16 },
    /// No operation.
    NoOperation,
}

impl fmt::Display for Content {
    fn fmt<W: fmt::Write>(&self, f: &mut fmt::Formatter<W>) -> fmt::Result {
        match *self {
            Content::Untold => Ok(()),
            Content::ConnectInitiate { source } => write!(f, " CI {source}"),
            Content::ConnectConfirm(link) => write!(f, " CC {link}"),
            Content::DisconnectInitiate(link) => write!(f, " DI {link}"),
            Content::DisconnectConfirm(link) => write!(f, " DC {link}"),
            Content::Segment { number, link } => write!(f, " seg {number} {link}"),
            Content::DataAck { number, link } => write!(f, " dack {link} {number}"),
            Content::LinkService(link) => write!(f, " service {link}"),
            Content::OtherDataAck(link) => write!(f, " oack {link}"),
            Content::ConnectAck { destination } => write!(f, " cack {destination}"),
            Content::NoOperation => f.write_str(" nop"),
        }
    }
}

/// What the bytes of a unit say, as far as a row tells it.
#[derive(Clone, Copy, PartialEq, Eq)]
pub enum Said {
    /// A data message.
    Data { num: u8, resp: u8, content: Content },
    /// An ACK.
    Ack { resp: u8 },
    /// A NAK.
    Nak { reason: NakReason, resp: u8 },
    /// A REP.
    Rep { num: u8 },
    /// A STRT.
    Strt,
    /// A STACK.
    Stack,
    /// The block check of the header is wrong, or there is no whole header.
    HeaderBad,
    /// The data or their block check are cut or wrong.
    DataBad,
    /// The block checks are good, and it is no message.
    NoMessage,
}

impl Said {
    /// The same with nothing of the packet in a data message.
    pub fn brief(self) -> Said
        ensures { result ≡ brief self }
    {
        match self {
            Said::Data { num, resp, .. } => Said::Data {
                num,
                resp,
                content: Content::Untold,
            },
            _ => self,
        }
    }
}

impl fmt::Display for Said {
    fn fmt<W: fmt::Write>(&self, f: &mut fmt::Formatter<W>) -> fmt::Result {
        match *self {
            Said::Data { num, resp, content } => write!(f, "DATA {num}/{resp}{content}"),
            Said::Ack { resp } => write!(f, "ACK /{resp}"),
            Said::Nak { reason, resp } => {
                let number = reason.number();
                write!(f, "NAK {number} /{resp}")
            }
            Said::Rep { num } => write!(f, "REP {num}"),
            Said::Strt => f.write_str("STRT"),
            Said::Stack => f.write_str("STACK"),
            Said::HeaderBad => f.write_str("bad header"),
            Said::DataBad => f.write_str("bad data"),
            Said::NoMessage => f.write_str("no message"),
        }
    }
}
