//! What the bytes of a unit say, in words (DDCMP 4.1, message formats).

use crate::damage_words::{write_data_fault, write_header_fault};
use crate::field_words::write_wrong_field;
use ddcmp_msg::{Departure, Flags, Message, NakReason, Reading};
use std::fmt::{self, Formatter, Write};

/// What these bytes of a unit say: the message with its fields, or how they depart from one. Printed as `data  NUM 2  RESP 1  COUNT 14`.
#[derive(Clone, Copy)]
pub struct ReadingWords<'a> {
    pub bytes: &'a [u8],
    pub reading: Reading<'a>,
}

impl fmt::Display for ReadingWords<'_> {
    fn fmt<W: Write>(&self, f: &mut Formatter<W>) -> fmt::Result {
        match self.reading {
            Reading::Sound(message) => write_message(f, message),
            Reading::HeaderBad => write_header_fault(f, self.bytes),
            Reading::DataBad => write_data_fault(f, self.bytes),
            Reading::Malformed(Departure::WrongField) => write_wrong_field(f, self.bytes),
            Reading::Malformed(departure) => f.write_str(departure_words(departure)),
        }
    }
}

// Writes a message with its fields.
fn write_message<W: Write>(f: &mut Formatter<W>, message: Message<'_>) -> fmt::Result {
    match message {
        Message::Data {
            flags,
            resp,
            num,
            body,
        } => {
            let flags = flag_words(flags);
            let count = body.len();
            write!(f, "data  NUM {num}  RESP {resp}  COUNT {count}{flags}")
        }
        Message::Ack { flags, resp } => write!(f, "ACK  RESP {resp}{}", flag_words(flags)),
        Message::Nak {
            flags,
            reason,
            resp,
        } => {
            let reason = nak_words(reason);
            write!(f, "NAK  reason {reason}  RESP {resp}{}", flag_words(flags))
        }
        Message::Rep { flags, num } => write!(f, "REP  NUM {num}{}", flag_words(flags)),
        Message::Strt { flags } => write!(f, "STRT{}", flag_words(flags)),
        Message::Stack { flags } => write!(f, "STACK{}", flag_words(flags)),
    }
}

// The flags of a message, where there are any.
fn flag_words(flags: Flags) -> &'static str {
    match (flags.quick_sync, flags.select) {
        (false, false) => "",
        (true, false) => "  flags QSYNC",
        (false, true) => "  flags SELECT",
        (true, true) => "  flags QSYNC SELECT",
    }
}

/// The reason of a NAK: its number and its meaning (DDCMP 4.1, NAK message).
pub fn nak_words(reason: NakReason) -> &'static str {
    match reason {
        NakReason::HeaderCheck => "1 (header check)",
        NakReason::DataCheck => "2 (data check)",
        NakReason::RepResponse => "3 (REP response)",
        NakReason::NoBuffer => "8 (no buffer)",
        NakReason::Overrun => "9 (overrun)",
        NakReason::MessageTooLong => "16 (message too long)",
        NakReason::HeaderFormat => "17 (header format)",
    }
}

// Where bytes whose checks are good depart from the formats.
fn departure_words(departure: Departure) -> &'static str {
    match departure {
        Departure::UnknownStart => "malformed 1: the first byte starts no message",
        Departure::Maintenance => "malformed 2: a maintenance message, not read further",
        Departure::WrongLength => "malformed 3: a COUNT of 0, or bytes after the end",
        Departure::UnknownType => "malformed 4: no control message has this TYPE and SUBTYPE",
        Departure::WrongField => {
            "malformed 5: a byte that has to be 0 is not 0, or the address is not 1"
        }
    }
}

/// What the bytes of a unit say, in a few letters: `DATA 5/1`, `ACK /2`, `NAK 2 /1`, `REP 3`, `STRT`, `STACK`.
#[derive(Clone, Copy)]
pub struct ReadingName<'a> {
    pub reading: Reading<'a>,
}

impl fmt::Display for ReadingName<'_> {
    fn fmt<W: Write>(&self, f: &mut Formatter<W>) -> fmt::Result {
        match self.reading {
            Reading::Sound(message) => write_name(f, message),
            Reading::HeaderBad => f.write_str("header bad"),
            Reading::DataBad => f.write_str("data bad"),
            Reading::Malformed(_) => f.write_str("no message"),
        }
    }
}

// Writes a message in a few letters.
fn write_name<W: Write>(f: &mut Formatter<W>, message: Message<'_>) -> fmt::Result {
    match message {
        Message::Data { resp, num, .. } => write!(f, "DATA {num}/{resp}"),
        Message::Ack { resp, .. } => write!(f, "ACK /{resp}"),
        Message::Nak { reason, resp, .. } => write!(f, "NAK {} /{resp}", reason.number()),
        Message::Rep { num, .. } => write!(f, "REP {num}"),
        Message::Strt { .. } => f.write_str("STRT"),
        Message::Stack { .. } => f.write_str("STACK"),
    }
}
