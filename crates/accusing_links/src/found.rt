//! What a packet carries for the links.

ghost use Rattle.std.specs.Prelude.{◌≡◌};
ghost use Rattle.dna_node.specs.Content.{content};
ghost use Rattle.accusing_links.specs.inner.Found.{content_found};

use dna_packet::{Packet, read_packet};

/// What a packet carries for the links; its message is not read yet.
#[derive(Clone, Copy, PartialEq, Eq)]
pub enum Found<'a> {
    /// It can't be read.
    Unreadable,
    /// No message of the links: it is a routing control packet, or on its way back.
    Nothing,
    /// These bytes, in a packet to one node from another.
    Message { dst: u16, src: u16, nsp: &'a [u8] },
}

/// What this packet carries. It takes no memory.
pub fn find(packet: &[u8]) -> Found<'_>
    ensures { content packet.now ≡ content_found result }
{
    let Ok(read) = read_packet(packet) else {
        return Found::Unreadable;
    };
    if read.returned() {
        return Found::Nothing;
    }
    match read {
        Packet::Data { dst, src, nsp, .. } => Found::Message { dst, src, nsp },
        Packet::Control(_) => Found::Nothing,
    }
}
