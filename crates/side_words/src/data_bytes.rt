//! The byte in which data that are sent again differ from those of their first sending, in words.

use ddcmp_station::DataByte;
use record_words::packet_words::ByteDigits;
use record_words::words::ByteCount;
use std::fmt::{self, Formatter, Write};

/// Writes the byte as it is seen, as `byte 0 of the data is 07, and it has 1 byte`.
pub fn write_seen_byte<W: Write>(f: &mut Formatter<W>, seen: DataByte) -> fmt::Result {
    let DataByte {
        place,
        byte,
        length,
    } = seen;
    let byte = ByteWords { byte };
    let bytes = ByteCount { count: length };
    write!(f, "byte {place} of the data is {byte}, and it has {bytes}")
}

/// Writes the byte as the packet of this number was first sent, as `byte 0 is 05, and 1 byte, as number 1 was first sent`.
pub fn write_first_byte<W: Write>(
    f: &mut Formatter<W>,
    number: u8,
    first: DataByte,
) -> fmt::Result {
    let DataByte {
        place,
        byte,
        length,
    } = first;
    let byte = ByteWords { byte };
    let bytes = ByteCount { count: length };
    write!(
        f,
        "byte {place} is {byte}, and {bytes}, as number {number} was first sent"
    )
}

/// A byte; `none` where the data end before it.
#[derive(Clone, Copy)]
pub struct ByteWords {
    pub byte: Option<u8>,
}

impl fmt::Display for ByteWords {
    fn fmt<W: Write>(&self, f: &mut Formatter<W>) -> fmt::Result {
        match self.byte {
            Some(byte) => write!(f, "{}", ByteDigits { byte }),
            None => f.write_str("none"),
        }
    }
}
