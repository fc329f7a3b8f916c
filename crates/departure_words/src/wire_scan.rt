//! Where a line of the text of a wire departs from the format. It is a reading of its own, which decides nothing: the reader of pieces does.

use crate::faulty_line::FaultyLine;
use crate::text_scan::{Place, Scan, begins_with};
use wire_text::MAX_PIECE;

impl Scan<'_> {
    /// The head of the text of a wire: `ddwire 1 1.1 1.2`.
    pub fn wire_head(&mut self) -> Result<(), Place> {
        if !self.takes(b"ddwire ") {
            return self.departs("the head of the text of a wire, such as: ddwire 1 1.1 1.2");
        }
        if !self.takes(b"1") {
            return self.departs("the format, which is 1");
        }
        self.space()?;
        self.node()?;
        self.space()?;
        self.node()?;
        self.end()
    }

    /// Bytes that one side sent: `a 0506c00000017595`.
    pub fn piece(&mut self) -> Result<(), Place> {
        if !self.takes(b"a") && !self.takes(b"b") {
            return self.departs("a or b, the side that sent these bytes");
        }
        self.space()?;
        if let Some(b'-') = self.next() {
            return self.departs("two hexadecimal digits for each byte, and at least one byte");
        }
        self.digits(MAX_PIECE, "at most 65,539 bytes")?;
        self.end()
    }
}

/// What such a line of the text of a wire is likely to come from.
pub fn likely_in_wire(line: FaultyLine<'_>) -> Option<&'static str> {
    if line.number == 1 && begins_with(line.first, b"ddcap ") {
        return Some("a capture: ddcap check judges both captures of a line");
    }
    match line.bytes {
        [.., b'\r'] => Some("a text with CR and LF at the end of its lines: remove each CR"),
        [] => match line.has_lf {
            true => Some("an empty line: the text of a wire has none"),
            false => Some("an empty file, or one that was not written to its end"),
        },
        [b'#', ..] | [b';', ..] | [b'/', ..] => Some("a comment: the text of a wire has none"),
        [b'0'..=b'9', ..] | [b'[', ..] => Some(
            "a time before the side: the text of a wire has none",
        ),
        _ => match line.has_lf {
            true => headless(line),
            false => {
                Some("a recorder that was stopped, or that writes no LF after the last line")
            }
        },
    }
}

// What the first line of a text is likely to come from that does not begin as its head.
fn headless(line: FaultyLine<'_>) -> Option<&'static str> {
    if line.number != 1 || begins_with(line.first, b"ddwire ") {
        return None;
    }
    Some("a file of another program, or the text of a wire without its head")
}
