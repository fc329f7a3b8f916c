//! The bytes in front of a message's part, as they are written field by field.

ghost use Rattle.std.specs.Prelude.{◌≡◌, ◌+◌, ◌*◌, ◌≤◌, ◌^◌, ◌<◌, ◌++◌, [], ◌∷◌, All, length, IfOk};
ghost use Rattle.arrayvec.specs.ArrayVec.{array_vec_len};
ghost use Rattle.dna_packet.specs.Fields.{word};
ghost use Rattle.dna_packet.specs.AckWord.{IsAckWord, ack_bytes};
ghost use Rattle.dna_packet.specs.Nsp.{addresses, connect_fields};

use crate::ack_word::AckWord;
use arrayvec::ArrayVec;
use byteorder::{ByteOrder, LittleEndian};
use std::alloc::{AllocError, Global};

/// Room for the longest: a flag byte, two addresses, two acknowledgement words and SEGNUM.
pub(crate) const ROOM: usize = 11;

/// The bytes in front of a message's part.
pub(crate) type Header = ArrayVec<u8, ROOM>;

/// Puts a word at the end, low byte first.
pub(crate) fn put_word(header: &mut Header, value: u16)
    requires { array_vec_len header.old + 2 ≤ ROOM }
    ensures items { header.new.items ≡ header.old.items ++ word value }
    ensures len { array_vec_len header.new ≡ array_vec_len header.old + 2 }
    ensures fits { value < 2 ^ 16 }
{
    let mut bytes = [0u8; 2];
    LittleEndian::write_u16(&mut bytes, value);
    header.push(bytes[0]);
    header.push(bytes[1]);
}

/// A header of a flag byte.
pub(crate) fn flagged(flag: u8) -> Header
    ensures { result.items ≡ flag ∷ [] }
{
    let mut header = ArrayVec::new();
    header.push(flag);
    header
}

/// A header of a flag byte and two addresses.
pub(crate) fn addressed(flag: u8, dstaddr: u16, srcaddr: u16) -> Header
    ensures items { result.items ≡ flag ∷ addresses dstaddr srcaddr }
    ensures dst { dstaddr < 2 ^ 16 }
    ensures src { srcaddr < 2 ^ 16 }
{
    let mut header = flagged(flag);
    put_word(&mut header, dstaddr);
    put_word(&mut header, srcaddr);
    header
}

/// Puts acknowledgement words at the end.
pub(crate) fn put_acks(header: &mut Header, acks: &[AckWord])
    requires room { array_vec_len header.old + 2 * length acks.now ≤ ROOM }
    requires in_range { All IsAckWord acks.now }
    ensures items { header.new.items ≡ header.old.items ++ ack_bytes acks.now }
    ensures len { array_vec_len header.new ≡ array_vec_len header.old + 2 * length acks.now }
{
    for ack in acks {
        put_word(header, ack.to_word());
    }
}

/// Puts SERVICES, INFO and SEGSIZE at the end.
pub(crate) fn put_connect_fields(header: &mut Header, services: u8, info: u8, segsize: u16)
    requires { array_vec_len header.old + 4 ≤ ROOM }
    ensures items { header.new.items ≡ header.old.items ++ connect_fields services info segsize }
    ensures services_fits { services < 2 ^ 8 }
    ensures info_fits { info < 2 ^ 8 }
    ensures segsize_fits { segsize < 2 ^ 16 }
{
    header.push(services);
    header.push(info);
    put_word(header, segsize);
}

/// The header and then the part, in memory that is taken at once.
pub(crate) fn joined(alloc: Global, header: &[u8], part: &[u8]) -> Result<Vec<u8>, AllocError>
    ensures { IfOk result (λ v. v.items ≡ header.now ++ part.now) }
{
    let mut out = Vec::with_capacity(alloc, header.len() + part.len())?;
    out.extend_from_slice(header)?;
    out.extend_from_slice(part)?;
    Ok(out)
}
