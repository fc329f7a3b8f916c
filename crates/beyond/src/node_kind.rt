//! What a node says that it is.

ghost use Rattle.std.specs.Prelude.{◌≡◌};
ghost use Rattle.ddcmp_msg.specs.Message.{view};
ghost use Rattle.ddcmp_msg.specs.Reading.{reading, reading_view};
ghost use Rattle.beyond.specs.NodeKind as spec;

use ddcmp_msg::{Message, Reading, read_unit};
use std::fmt;

// The first byte of an Init message (Routing Layer 2.0, initialization message).
const INIT: u8 = 1;

/// Of what kind a node is. Printed as `router`, `end node`.
#[derive(Clone, Copy, Debug, PartialEq, Eq)]
pub enum NodeKind {
    /// It passes packets of other nodes on.
    Router,
    /// It does not.
    EndNode,
}

impl fmt::Display for NodeKind {
    ghost use Rattle.std.specs.Prelude.{Some};

    ghost output = { λ kind. Some (spec.kind_name kind) };

    fn fmt<W: fmt::Write>(&self, f: &mut fmt::Formatter<W>) -> fmt::Result {
        match self {
            NodeKind::Router => f.write_str("router"),
            NodeKind::EndNode => f.write_str("end node"),
        }
    }
}

/// Of what kind these bytes of a packet say that their sender is: bits 0 and 1 of the fourth byte of an Init message. `None` where they are another
/// packet, or don't say it. Takes no memory.
///
/// ```text
/// kind_in([01, 02, 04, 02])    Some(Router)
/// kind_in([01, 02, 04, 03])    Some(EndNode)
/// kind_in([01, 02, 04])        None
/// ```
pub fn kind_in(packet: &[u8]) -> Option<NodeKind>
    ensures { result ≡ spec.kind_in packet.now }
{
    match packet {
        [first, _, _, information, ..] => kind_by(*first, *information),
        _ => None,
    }
}

/// The same of the packet in this unit; `None` also where it is damaged, or is no data message.
///
/// ```text
/// kind_in_unit([05, 01, 00, 00, 00, 01, fc, 55])    None: an ACK
/// ```
pub fn kind_in_unit(unit: &[u8]) -> Option<NodeKind>
    ensures { result ≡ spec.kind_of_reading (reading unit.now) }
{
    match read_unit(unit) {
        Reading::Sound(message) => kind_of_message(message),
        Reading::HeaderBad | Reading::DataBad | Reading::Malformed(_) => None,
    }
}

fn kind_of_message(message: Message<'_>) -> Option<NodeKind>
    ensures { result ≡ spec.kind_of_message (view message.entry) }
{
    match message {
        Message::Data { body, .. } => kind_in(body),
        Message::Ack { .. } | Message::Nak { .. } | Message::Rep { .. } => None,
        Message::Strt { .. } | Message::Stack { .. } => None,
    }
}

fn kind_by(first: u8, information: u8) -> Option<NodeKind>
    ensures { result ≡ spec.kind_by first information }
{
    if first != INIT {
        return None;
    }
    kind_of(information)
}

// The types of nodes are 1 and 2 of a router, with other areas and without, and 3 of an end node.
fn kind_of(information: u8) -> Option<NodeKind>
    ensures { result ≡ spec.kind_of information }
{
    if information % 4 == 0 {
        return None;
    }
    if information % 4 == 3 {
        return Some(NodeKind::EndNode);
    }
    Some(NodeKind::Router)
}
