//! Reading a packet.

ghost use Rattle.std.specs.Prelude.{◌≡◌, IfOk, Ok};
ghost use Rattle.dna_packet.specs.Fields.{Gives, IsEndOf};
ghost use Rattle.dna_packet.specs.Packet.{PacketValue, view, packet_bytes, IsPacket, PartsLieIn};
ghost use Rattle.dna_packet.specs.ReadingPacket.{data_at, packet_at};

use crate::fault::PacketFault;
use crate::fields;
use crate::packet::{CONTROL, FORMAT, LONG_FORMAT, PADDED, Packet, SHORT_FORMAT};

/// The fields after RTFLG.
fn data(rtflg: u8, bytes: &[u8]) -> Result<Packet<'_>, PacketFault>
    ensures read { Gives view result (data_at rtflg bytes.now) }
    ensures lies { IfOk result (PartsLieIn bytes.entry) }
{
    let (dst, rest) = fields::word(bytes, PacketFault::Short)?;
    let (src, rest) = fields::word(rest, PacketFault::Short)?;
    let (forward, nsp) = fields::byte(rest, PacketFault::Short)?;
    Ok(Packet::Data {
        rtflg,
        dst,
        src,
        forward,
        nsp,
    })
}

fn packet(bytes: &[u8]) -> Result<Packet<'_>, PacketFault>
    ensures read { Gives view result (packet_at bytes.now) }
    ensures lies { IfOk result (PartsLieIn bytes.entry) }
{
    let (rtflg, rest) = fields::byte(bytes, PacketFault::Short)?;
    if rtflg & PADDED != 0 {
        return Err(PacketFault::Padded);
    }
    if rtflg & CONTROL != 0 {
        return Ok(Packet::Control(bytes));
    }
    match rtflg & FORMAT {
        SHORT_FORMAT => data(rtflg, rest),
        LONG_FORMAT => Err(PacketFault::LongFormat),
        _ => Err(PacketFault::UnknownFlags),
    }
}

/// Reads a packet, all of the bytes, and takes no memory (Routing Layer 2.0, packet formats). The part of what
/// it answers is a slice of `bytes`.
///
/// The tests, in this order: no byte is [`PacketFault::Short`]; bit 7 of the first byte [`PacketFault::Padded`];
/// bit 0 a control packet, whole; the low three bits 110 [`PacketFault::LongFormat`], any but 010
/// [`PacketFault::UnknownFlags`]; fewer than 6 bytes [`PacketFault::Short`].
///
/// `02 0204 0104 00 08` is a data packet from node 1.1 to node 1.2 with the NSP message `08`; `80` is padded; no
/// bytes are short.
pub fn read_packet(bytes: &[u8]) -> Result<Packet<'_>, PacketFault>
    // What is read is a packet, and these are its bytes.
    ensures found { IfOk result (λ p. IsPacket (view p) × (bytes.now ≡ packet_bytes (view p))) }
    // What has these bytes is read.
    ensures only { (p : PacketValue) → IsPacket p → bytes.now ≡ packet_bytes p → Gives view result (Ok p) }
    // Which fault it is: the first departure from the left.
    ensures exact { Gives view result (packet_at bytes.now) }
    // The part is a slice of the bytes.
    ensures lies { IfOk result (PartsLieIn bytes.entry) }
{
    packet(bytes)
}
