//! Where the layers of a record's bytes lie.

ghost use Rattle.std.specs.Prelude.{◌≡◌, option_map};
ghost use Rattle.ddcmp_msg.specs.Reading.{reading_view};
ghost use Rattle.ddcmp_msg.specs.Message.{view};
ghost use Rattle.dna_packet.specs.Packet as packets;
ghost use Rattle.dna_packet.specs.ReadingPacket.{packet_at};
ghost use Rattle.record_words.specs.Layers as spec;

use crate::packet_words::is_on_its_way_back;
use ddcmp_msg::{Message, Reading, read_unit};
use dna_packet::{Packet, read_packet};

/// The packet of a unit, if it is a sound data message (DDCMP 4.1, data message format).
pub fn packet_in(reading: Reading<'_>) -> Option<&[u8]>
    ensures { option_map (λ packet. packet.now) result ≡ spec.packet_in (reading_view reading.entry) }
{
    match reading {
        Reading::Sound(message) => body_of(message),
        Reading::HeaderBad | Reading::DataBad | Reading::Malformed(_) => None,
    }
}

fn body_of(message: Message<'_>) -> Option<&[u8]>
    ensures { option_map (λ packet. packet.now) result ≡ spec.body_of (view message.entry) }
{
    match message {
        Message::Data { body, .. } => Some(body),
        Message::Ack { .. } | Message::Nak { .. } | Message::Rep { .. } => None,
        Message::Strt { .. } | Message::Stack { .. } => None,
    }
}

/// The message of these bytes of a packet, if they are a data packet that is not on its way back (Routing Layer 2.0, data packet format). Control
/// packets carry none.
pub fn message_in(packet: &[u8]) -> Option<&[u8]>
    ensures { option_map (λ message. message.now) result ≡ spec.message_of (packet_at packet.now) }
{
    match read_packet(packet) {
        Ok(packet) => carried_by(packet),
        Err(_) => None,
    }
}

fn carried_by(packet: Packet<'_>) -> Option<&[u8]>
    ensures { option_map (λ message. message.now) result ≡ spec.message_in (packets.view packet.entry) }
{
    match packet {
        Packet::Data { rtflg, nsp, .. } => {
            if is_on_its_way_back(rtflg) {
                return None;
            }
            Some(nsp)
        }
        Packet::Control(_) => None,
    }
}

/// The message in a unit of these bytes, if there is one.
pub fn message_in_unit(bytes: &[u8]) -> Option<&[u8]>
    ensures { option_map (λ message. message.now) result ≡ spec.message_in_unit bytes.now }
{
    match packet_in(read_unit(bytes)) {
        Some(packet) => message_in(packet),
        None => None,
    }
}
