//! Which node a packet names besides the two of its line.

ghost use Rattle.std.specs.Prelude.{◌≡◌};
ghost use Rattle.dna_packet.specs.Packet.{view};
ghost use Rattle.dna_packet.specs.ReadingPacket.{packet_at};
ghost use Rattle.beyond.specs.OtherNode as spec;

use dna_packet::{Packet, read_packet};

/// The node besides these two that a packet with these addresses is from; or else the one that it is for; `None` where both are of the two. Takes no
/// memory.
///
/// ```text
/// other_of(1025, 1026, 1025, 1027)    Some(1027): from 1.1 to 1.3, on a line between 1.1 and 1.2
/// other_of(1025, 1026, 1026, 1025)    None
/// ```
pub fn other_of(own: u16, peer: u16, source: u16, destination: u16) -> Option<u16>
    ensures { result ≡ spec.other_of own peer source destination }
{
    if is_other(own, peer, source) {
        return Some(source);
    }
    if is_other(own, peer, destination) {
        return Some(destination);
    }
    None
}

/// The same of these bytes of a packet; `None` also where they are none, or are a control packet.
///
/// ```text
/// other_in(1025, 1026, [02, 03, 04, 01, 04, 00])    Some(1027)
/// other_in(1025, 1026, [0b, 03, 04, 00])            None: a control packet
/// other_in(1025, 1026, [])                          None
/// ```
pub fn other_in(own: u16, peer: u16, packet: &[u8]) -> Option<u16>
    ensures { result ≡ spec.other_in own peer (packet_at packet.now) }
{
    match read_packet(packet) {
        Ok(read) => other_named(own, peer, read),
        Err(_) => None,
    }
}

fn other_named(own: u16, peer: u16, packet: Packet<'_>) -> Option<u16>
    ensures { result ≡ spec.other_named own peer (view packet.entry) }
{
    match packet {
        Packet::Data { dst, src, .. } => other_of(own, peer, src, dst),
        Packet::Control(_) => None,
    }
}

fn is_other(own: u16, peer: u16, node: u16) -> bool
    ensures { result ≡ spec.is_other own peer node }
{
    if node == own {
        return false;
    }
    if node == peer {
        return false;
    }
    true
}
