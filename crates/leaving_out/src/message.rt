//! The message of the links in a packet or a unit, and its addresses.

ghost use Rattle.std.specs.Prelude.{◌≡◌, option_map};
ghost use Rattle.dna_packet.specs.Nsp.{view};
ghost use Rattle.leaving_out.specs.Messages.{destination_of, message_in_packet, message_in_unit, source_of};

use ddcmp_msg::{Message, Reading, read_unit};
use dna_packet::{Nsp, Packet, read_nsp, read_packet};

/// SRCADDR and DSTADDR of a message, 0 where it has none.
#[derive(Clone, Copy, PartialEq, Eq)]
pub struct Ends {
    pub src: u16,
    pub dst: u16,
}

/// The addresses of a message. Takes no memory.
pub(crate) fn ends_of(message: &Nsp<'_>) -> Ends
    ensures src { result.src ≡ source_of (view message.now) }
    ensures dst { result.dst ≡ destination_of (view message.now) }
{
    match message {
        Nsp::DataSegment(m) => between(m.srcaddr, m.dstaddr),
        Nsp::LinkService(m) => between(m.srcaddr, m.dstaddr),
        Nsp::DataAck(m) => between(m.srcaddr, m.dstaddr),
        Nsp::OtherDataAck(m) => between(m.srcaddr, m.dstaddr),
        Nsp::ConnectAck(m) => between(0, m.dstaddr),
        Nsp::NoOperation(_) => between(0, 0),
        Nsp::ConnectInitiate(m) => between(m.srcaddr, 0),
        Nsp::ConnectConfirm(m) => between(m.srcaddr, m.dstaddr),
        Nsp::DisconnectInitiate(m) => between(m.srcaddr, m.dstaddr),
        Nsp::DisconnectConfirm(m) => between(m.srcaddr, m.dstaddr),
    }
}

fn between(src: u16, dst: u16) -> Ends
    ensures src { result.src ≡ src }
    ensures dst { result.dst ≡ dst }
{
    Ends { src, dst }
}

/// The message of the links in a packet: none where the packet or the message can't be read, nor in a routing control packet and in one on its
/// way back to its source. Takes no memory.
pub(crate) fn message_in_packet(packet: &[u8]) -> Option<Nsp<'_>>
    ensures { option_map view result ≡ message_in_packet packet.now }
{
    let Ok(read) = read_packet(packet) else {
        return None;
    };
    if read.returned() {
        return None;
    }
    match read {
        Packet::Data { nsp, .. } => match read_nsp(nsp) {
            Ok(message) => Some(message),
            Err(_) => None,
        },
        Packet::Control(_) => None,
    }
}

/// The message of the links in a unit: none where the unit is no sound data message. Takes no memory.
pub(crate) fn message_in_unit(unit: &[u8]) -> Option<Nsp<'_>>
    ensures { option_map view result ≡ message_in_unit unit.now }
{
    match read_unit(unit) {
        Reading::Sound(Message::Data { body, .. }) => message_in_packet(body),
        _ => None,
    }
}
