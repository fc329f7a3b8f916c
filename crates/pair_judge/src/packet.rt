//! What a packet carries for the links.

ghost use Rattle.std.specs.Prelude.{◌≡◌, IfOk, IfErr, Err};
ghost use Rattle.dna_node.specs.Content as spec;
ghost use Rattle.pair_judge.specs.inner.Packets.{content_in};

use dna_packet::{Packet, read_packet};
use dna_station::StepRefusal;

/// The bytes of an NSP message with the node addresses of its packet, of which they are a slice. They are read where the message is
/// used: it is larger than they are, and is moved nowhere.
#[derive(Clone, Copy)]
pub struct Carried<'a> {
    /// The node that the packet is for.
    pub dst: u16,
    /// The node that it is from.
    pub src: u16,
    /// The bytes of the message in it.
    pub message: &'a [u8],
}

/// What a packet carries for the links, which is not read yet; `None` where it has no message of them, as a routing control packet
/// and a packet on its way back to its source (Routing Layer 2.0, packet formats). Takes no memory.
///
/// `BadPacket`: the packet can't be read.
#[inline(always)]
pub fn content(packet: &[u8]) -> Result<Option<Carried<'_>>, StepRefusal>
    ensures carried { IfOk result (λ carried. spec.content packet.now ≡ content_in carried) }
    ensures bad { IfErr result (λ refusal. spec.content packet.now ≡ Err refusal) }
{
    let Ok(read) = read_packet(packet) else {
        return Err(StepRefusal::BadPacket);
    };
    if read.returned() {
        return Ok(None);
    }
    match read {
        Packet::Data { dst, src, nsp, .. } => {
            Ok(Some(Carried {
                dst,
                src,
                message: nsp,
            }))
        }
        Packet::Control(_) => Ok(None),
    }
}
