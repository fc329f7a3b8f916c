//! Writing a packet.

ghost use Rattle.std.specs.Prelude.{◌≡◌, IfOk, Ok};
ghost use Rattle.dna_packet.specs.Packet.{view, packet_bytes, IsInRange};
ghost use Rattle.dna_packet.specs.ReadingPacket.{packet_at};

use crate::header::{flagged, joined, put_word};
use crate::packet::Packet;
use std::alloc::{AllocError, Global};

/// The bytes of a packet, which must be in range ([`Packet::in_range`]); an error where memory is refused.
pub fn write_packet(alloc: Global, packet: &Packet<'_>) -> Result<Vec<u8>, AllocError>
    requires { IsInRange (view packet.now) }
    ensures spelled { IfOk result (λ v. v.items ≡ packet_bytes (view packet.now)) }
    // What is written is read back as the same packet.
    ensures read { IfOk result (λ v. packet_at v.items ≡ Ok (view packet.now)) }
{
    match packet {
        Packet::Data {
            rtflg,
            dst,
            src,
            forward,
            nsp,
        } => {
            let mut header = flagged(*rtflg);
            put_word(&mut header, *dst);
            put_word(&mut header, *src);
            header.push(*forward);
            joined(alloc, &header, nsp)
        }
        Packet::Control(bytes) => Vec::from_slice(alloc, bytes),
    }
}
