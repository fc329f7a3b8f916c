//! The message in a packet, or where the packet departs.

ghost use Rattle.std.specs.Prelude.{◌≡◌, Ok, Err, IfOk, IfErr};
ghost use Rattle.dna_packet.specs.ReadingPacket.{packet_at};
ghost use Rattle.pair_judge.specs.FailedCheck as spec;
ghost use Rattle.pair_judge.specs.inner.Lent.{lent_in};

use crate::packet::Carried;
use dna_packet::{Packet, PacketFault, read_packet};

/// What a packet carries for the links, as in `content`; an error says where the packet departs from those of a circuit. Takes no memory.
pub fn carried(packet: &[u8]) -> Result<Option<Carried<'_>>, PacketFault>
    ensures carried { IfOk result (λ carried. spec.lent_of (packet_at packet.now) ≡ Ok (lent_in carried)) }
    ensures bad { IfErr result (λ fault. spec.lent_of (packet_at packet.now) ≡ Err fault) }
{
    let read = match read_packet(packet) {
        Ok(read) => read,
        Err(fault) => return Err(fault),
    };
    if read.returned() {
        return Ok(None);
    }
    match read {
        Packet::Data { dst, src, nsp, .. } => {
            Ok(Some(Carried {
                dst,
                src,
                message: nsp,
            }))
        }
        Packet::Control(_) => Ok(None),
    }
}
