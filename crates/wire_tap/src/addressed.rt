//! From which node to which a unit's packet goes.

use beyond::other_of;
use ddcmp_msg::{Message, Reading, read_unit};
use dna_packet::{Nsp, Packet, read_nsp, read_packet};

/// From which node to which the packet of a data unit goes, as its side sees it.
#[derive(Clone, Copy, PartialEq, Eq)]
pub(crate) enum Addressed {
    /// There is no packet with addresses, or it is on its way back.
    Nowhere,
    /// From this node to the other one.
    Out,
    /// The same, and it disconnects from link 0.
    OutToNoLink,
    /// From the other node to this one.
    Back,
    /// From or to this node, which is neither of the two.
    Elsewhere(u16),
    /// From this node to itself.
    ToItself,
    /// From the other node to itself.
    FromOther,
}

impl Addressed {
    /// It goes between other nodes, or in the other direction.
    pub(crate) fn is_wrong(self) -> bool {
        match self {
            Addressed::Nowhere | Addressed::Out | Addressed::OutToNoLink => false,
            Addressed::Back | Addressed::Elsewhere(_) => true,
            Addressed::ToItself | Addressed::FromOther => true,
        }
    }
}

/// Where this unit's packet goes, if the nodes of its side and of the other one have these addresses. It takes no memory.
pub(crate) fn goes_where(own: u16, peer: u16, unit: &[u8]) -> Addressed {
    match read_unit(unit) {
        Reading::Sound(message) => match message {
            Message::Data { body, .. } => packet_addressed(own, peer, body),
            Message::Ack { .. } | Message::Nak { .. } | Message::Rep { .. } => Addressed::Nowhere,
            Message::Strt { .. } | Message::Stack { .. } => Addressed::Nowhere,
        },
        Reading::HeaderBad | Reading::DataBad | Reading::Malformed(_) => Addressed::Nowhere,
    }
}

fn packet_addressed(own: u16, peer: u16, packet: &[u8]) -> Addressed {
    let Ok(read) = read_packet(packet) else {
        return Addressed::Nowhere;
    };
    if read.returned() {
        return Addressed::Nowhere;
    }
    match read {
        Packet::Data { dst, src, nsp, .. } => {
            if src == own && dst == peer {
                return out(nsp);
            }
            wrongly_addressed(own, peer, dst, src)
        }
        Packet::Control(_) => Addressed::Nowhere,
    }
}

// From this node to the other one.
fn out(nsp: &[u8]) -> Addressed {
    let Ok(message) = read_nsp(nsp) else {
        return Addressed::Out;
    };
    match message {
        Nsp::DisconnectInitiate(m) => {
            if m.dstaddr == 0 {
                return Addressed::OutToNoLink;
            }
            Addressed::Out
        }
        Nsp::DataSegment(_) | Nsp::DataAck(_) | Nsp::LinkService(_) => Addressed::Out,
        Nsp::OtherDataAck(_) | Nsp::ConnectAck(_) | Nsp::NoOperation(_) => Addressed::Out,
        Nsp::ConnectInitiate(_) | Nsp::ConnectConfirm(_) => Addressed::Out,
        Nsp::DisconnectConfirm(_) => Addressed::Out,
    }
}

// Not from this node to the other one.
fn wrongly_addressed(own: u16, peer: u16, dst: u16, src: u16) -> Addressed {
    if let Some(node) = other_of(own, peer, src, dst) {
        return Addressed::Elsewhere(node);
    }
    if src == own {
        return Addressed::ToItself;
    }
    if dst == own {
        return Addressed::Back;
    }
    Addressed::FromOther
}
