//! Acknowledgement words, in words (NSP 4.0, data segment format).

use dna_packet::{AckQualifier, AckWord};
use std::fmt::{self, Formatter, Write};

/// Writes the acknowledgement words of a message, of which there are at most two.
pub fn write_acks<W: Write>(f: &mut Formatter<W>, acks: &[AckWord]) -> fmt::Result {
    match acks {
        [] => Ok(()),
        [first] => write_ack(f, *first),
        [first, second, ..] => {
            write_ack(f, *first)?;
            write_ack(f, *second)
        }
    }
}

fn write_ack<W: Write>(f: &mut Formatter<W>, ack: AckWord) -> fmt::Result {
    let number = ack.number;
    match ack.qualifier {
        AckQualifier::Ack => write!(f, ", acks {number}"),
        AckQualifier::Nak => write!(f, ", naks {number}"),
        AckQualifier::OtherAck => write!(f, ", acks {number} of the other subchannel"),
        AckQualifier::OtherNak => write!(f, ", naks {number} of the other subchannel"),
    }
}
