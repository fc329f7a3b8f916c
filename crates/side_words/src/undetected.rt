//! Bytes that came and are not those of the unit that their hint names, where no block check shows it.

ghost use Rattle.std.specs.Prelude.{◌≡◌};
ghost use Rattle.ddcmp_station.specs.Failed.{byte_at, first_difference};
ghost use Rattle.side_words.specs.inner.Undetected as spec;

use crate::data_bytes::ByteWords;
use ddcmp_msg::read_unit;
use ddcmp_station::DataByte;
use record_words::unit_words::ReadingName;
use record_words::words::ByteCount;
use std::alloc::{AllocError, Global};
use std::fmt::{self, Formatter, Write};

/// The first byte in which two units differ that read alike: as it came, and as it was sent.
#[derive(Clone, Copy)]
pub struct Differing {
    pub came: DataByte,
    pub sent: DataByte,
}

/// The first byte in which these bytes differ from those of the unit, where that is known and both have the same name; else `None`. Fails for want
/// of memory alone.
pub fn difference(
    alloc: Global,
    bytes: &[u8],
    unit: Option<&[u8]>,
) -> Result<Option<Differing>, AllocError> {
    match unit {
        Some(unit) => differing_from(alloc, bytes, unit),
        None => Ok(None),
    }
}

fn differing_from(
    alloc: Global,
    bytes: &[u8],
    unit: &[u8],
) -> Result<Option<Differing>, AllocError> {
    let (came, sent) = (name_of(alloc, bytes)?, name_of(alloc, unit)?);
    match came.as_str() == sent.as_str() {
        true => Ok(Some(first_differing(bytes, unit))),
        false => Ok(None),
    }
}

fn first_differing(bytes: &[u8], unit: &[u8]) -> Differing
    ensures { result ≡ spec.first_differing bytes.now unit.now }
{
    let place = first_place(bytes, unit);
    Differing {
        came: byte_in(bytes, place),
        sent: byte_in(unit, place),
    }
}

// The first place where two differ, or the end of the shorter.
fn first_place(bytes: &[u8], unit: &[u8]) -> usize
    ensures { result ≡ first_difference bytes.now unit.now }
{
    let shorter = bytes.len().min(unit.len());
    for place in 0..shorter {
        if bytes[place] != unit[place] {
            return place;
        }
    }
    shorter
}

/// The short name of a unit that is known, with a comma and a blank after it; nothing of one that is not. Fails for want of memory alone.
pub fn name_before(alloc: Global, unit: Option<&[u8]>) -> Result<String, AllocError> {
    match unit {
        Some(unit) => named(alloc, unit),
        None => Ok(String::new(alloc)),
    }
}

fn named(alloc: Global, unit: &[u8]) -> Result<String, AllocError> {
    let reading = read_unit(unit);
    format!(in alloc; "{}, ", ReadingName { reading })
}

// What the bytes of a unit say, in a few letters.
fn name_of(alloc: Global, unit: &[u8]) -> Result<String, AllocError> {
    let reading = read_unit(unit);
    format!(in alloc; "{}", ReadingName { reading })
}

// A place in bytes.
fn byte_in(bytes: &[u8], place: usize) -> DataByte
    ensures { result ≡ byte_at place bytes.now }
{
    DataByte {
        place,
        byte: bytes.get(place).copied(),
        length: bytes.len(),
    }
}

/// The byte as it came.
pub fn came_byte(differs: Option<Differing>) -> Option<DataByte> {
    match differs {
        Some(differing) => Some(differing.came),
        None => None,
    }
}

/// The byte as it was sent.
pub fn sent_byte(differs: Option<Differing>) -> Option<DataByte> {
    match differs {
        Some(differing) => Some(differing.sent),
        None => None,
    }
}

/// Writes, after the name of its unit, a byte in which units differ, as `, of which byte 2 is 80, and it has 8 bytes`; nothing where none is told.
pub fn write_byte<W: Write>(f: &mut Formatter<W>, byte: Option<DataByte>) -> fmt::Result {
    let Some(
        DataByte {
            place,
            byte,
            length,
        },
    ) = byte
    else {
        return Ok(());
    };
    let byte = ByteWords { byte };
    let bytes = ByteCount { count: length };
    write!(f, ", of which byte {place} is {byte}, and it has {bytes}")
}
