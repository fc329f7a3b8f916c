//! An acknowledgement word that is read as the number of a segment, since its bit 15 is missing (NSP 4.0, data segment format).

use dna_packet::{Nsp, read_nsp};
use nsp_link::{FailedLinkSending, Numbers};
use record_words::layers::message_in_unit;
use std::fmt::{self, Formatter, Write};

/// Writes, after the number of a segment that is not allowed, that it may be such a word: it does where a number that is allowed comes next.
pub fn write_unmarked_word<W: Write>(
    f: &mut Formatter<W>,
    failed: FailedLinkSending,
    bytes: &[u8],
) -> fmt::Result {
    match (failed, message_in_unit(bytes)) {
        (FailedLinkSending::Number { allowed, .. }, Some(message)) => {
            write_number_after(f, allowed, message)
        }
        _ => Ok(()),
    }
}

fn write_number_after<W: Write>(
    f: &mut Formatter<W>,
    allowed: Numbers,
    message: &[u8],
) -> fmt::Result {
    match &read_nsp(message) {
        Ok(Nsp::DataSegment(segment)) => {
            match first_word(segment.body) {
                Some(word) if word == allowed.lowest || word == allowed.highest => {
                    write!(
                        f,
                        ", or an acknowledgement word without bit 15 before segment {word}"
                    )
                }
                _ => Ok(()),
            }
        }
        _ => Ok(()),
    }
}

// The word that bytes begin with, low byte first.
fn first_word(bytes: &[u8]) -> Option<u16> {
    match bytes {
        [low, high, ..] => Some(u16::from_le_bytes([*low, *high])),
        _ => None,
    }
}
