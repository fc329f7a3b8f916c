//! The message of the links in a unit.

ghost use Rattle.std.specs.Prelude.{◌≡◌, option_map};
ghost use Rattle.dna_packet.specs.Nsp.{view};
ghost use Rattle.dna_node.specs.Content.{content};
ghost use Rattle.accusing_segments.specs.History.{message_in, message_of};

use ddcmp_msg::{Message, Reading, read_unit};
use dna_packet::{Nsp, Packet, read_nsp, read_packet};

/// The message of the links in a packet: none where the packet or the message can't be read, nor in a routing control packet and in one on its
/// way back to its source. It takes no memory.
pub fn message_in_packet(packet: &[u8]) -> Option<Nsp<'_>>
    ensures { option_map view result ≡ message_of (content packet.now) }
{
    let Ok(read) = read_packet(packet) else {
        return None;
    };
    if read.returned() {
        return None;
    }
    match read {
        Packet::Data { nsp, .. } => match read_nsp(nsp) {
            Ok(message) => Some(message),
            Err(_) => None,
        },
        Packet::Control(_) => None,
    }
}

/// The message of the links in a unit: none where the unit is no sound data message. It takes no memory.
pub fn message_in(unit: &[u8]) -> Option<Nsp<'_>>
    ensures { option_map view result ≡ message_in unit.now }
{
    match read_unit(unit) {
        Reading::Sound(Message::Data { body, .. }) => message_in_packet(body),
        _ => None,
    }
}
