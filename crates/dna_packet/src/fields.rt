//! The two kinds of field that both layouts have.

ghost use Rattle.std.specs.Prelude.{IfOk};
ghost use Rattle.dna_packet.specs.Fields.{Gives, byte_at, word_at, IsEndOf};

use byteorder::{ByteOrder, LittleEndian};

/// The byte in front, and the bytes after it; `missing` where there is none.
pub(crate) fn byte<Z: Drop>(bytes: &[u8], missing: Z) -> Result<(u8, &[u8]), Z>
    ensures read { Gives (λ x. (x.0, x.1.now)) result (byte_at missing bytes.now) }
    ensures lies { IfOk result (λ x. IsEndOf bytes.entry x.1) }
{
    match bytes {
        [byte, rest @ ..] => Ok((*byte, rest)),
        [] => Err(missing),
    }
}

/// The word in front, low byte first, and the bytes after it; `missing` where there are not two bytes.
pub(crate) fn word<Z: Drop>(bytes: &[u8], missing: Z) -> Result<(u16, &[u8]), Z>
    ensures read { Gives (λ x. (x.0, x.1.now)) result (word_at missing bytes.now) }
    ensures lies { IfOk result (λ x. IsEndOf bytes.entry x.1) }
{
    if bytes.len() < 2 {
        return Err(missing);
    }
    Ok((LittleEndian::read_u16(bytes), &bytes[2..]))
}
