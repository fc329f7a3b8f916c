//! Packets that no link meets.

ghost use Rattle.std.specs.Prelude.{◌≡◌, IfOk};
ghost use Rattle.leaving_out.specs.Packets.{carried, unmet};

use std::alloc::{AllocError, Global};

/// A packet that can't be read, as a routing control packet of the same length, for an empty packet of one byte: bit 0 of the first byte is set
/// and bit 7 is clear.
pub(crate) fn carried(alloc: Global, packet: &[u8]) -> Result<Vec<u8>, AllocError>
    ensures { IfOk result (λ v. v.items ≡ carried packet.now) }
{
    let mut bytes = Vec::with_capacity(alloc, packet.len() + 1)?;
    match packet {
        [] => {
            bytes.push(1)?;
            Ok(bytes)
        }
        [first, rest @ ..] => {
            bytes.push(first % 128 / 2 * 2 + 1)?;
            bytes.extend_from_slice(rest)?;
            Ok(bytes)
        }
    }
}

/// The packet of a message, as a routing control packet of the same length; no two become one.
pub(crate) fn unmet(alloc: Global, packet: &[u8]) -> Result<Vec<u8>, AllocError>
    ensures { IfOk result (λ v. v.items ≡ unmet packet.now) }
{
    let mut bytes = Vec::with_capacity(alloc, packet.len() + 1)?;
    match packet {
        [] => {
            bytes.push(1)?;
            Ok(bytes)
        }
        [first, rest @ ..] => {
            bytes.push(129u8.saturating_sub(*first))?;
            bytes.extend_from_slice(rest)?;
            Ok(bytes)
        }
    }
}
