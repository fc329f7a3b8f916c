//! Where a line of a capture departs from the format. It is a reading of its own, which decides nothing: the reader of captures does.

use capture::Format;
use capture_record::{MAX_HINT, MAX_INTERRUPT, MAX_LINK, MAX_MESSAGE, MAX_PACKET, MAX_UNIT};

/// Where a line departs, in bytes from its beginning, and what would be right there.
#[derive(Clone, Copy)]
pub struct Place {
    pub at: usize,
    pub allowed: &'static str,
}

/// A line that is read from left to right, without its LF.
#[derive(Clone, Copy)]
pub struct Scan<'l> {
    line: &'l [u8],
    at: usize,
}

impl<'l> Scan<'l> {
    /// Nothing of this line was read yet.
    pub fn new(line: &'l [u8]) -> Scan<'l> {
        Scan { line, at: 0 }
    }

    /// The head of a capture: `ddcap 1 1.1 1.2`; or of a part: `ddcap 4 1.1 1.2 part`.
    pub fn head(&mut self) -> Result<(), Place> {
        if !self.takes(b"ddcap ") {
            return self.departs("the head of a capture, such as: ddcap 1 1.1 1.2");
        }
        let of_part = self.takes(b"4");
        if !of_part && !self.takes(b"1") && !self.takes(b"2") && !self.takes(b"3") {
            return self.departs("the format, which is 1, 2 or 3");
        }
        self.space()?;
        self.node()?;
        self.space()?;
        self.node()?;
        if of_part && !self.takes(b" part") {
            return self.departs("a space and the word part, since format 4 is that of parts");
        }
        self.end()
    }

    /// A record; in format 2 a hint may have a sign, and format 3 has more records.
    pub fn record(&mut self, format: Format) -> Result<(), Place> {
        match self.next() {
            Some(b's') | Some(b'n') => {
                self.step();
                self.space()?;
                self.digits(MAX_UNIT, "at most 16,393 bytes")?;
            }
            Some(b'r') | Some(b'k') => self.receipt(format)?,
            Some(b'd') if format == Format::Three => self.receipt(format)?,
            Some(b'x') if format == Format::Three => {
                self.step();
                self.space()?;
                self.digits(MAX_PACKET, "at most 16,383 bytes")?;
            }
            Some(b'u') => {
                self.step();
                self.space()?;
                self.event(format)?;
            }
            _ => return self.departs(letters(format)),
        }
        self.end()
    }

    fn receipt(&mut self, format: Format) -> Result<(), Place> {
        self.step();
        self.space()?;
        self.hint(format == Format::Two)?;
        self.space()?;
        self.digits(MAX_UNIT, "at most 16,393 bytes")
    }

    fn event(&mut self, format: Format) -> Result<(), Place> {
        let has_more = format == Format::Three;
        if has_more && (self.takes(b"interrupted") || self.takes(b"interrupt")) {
            return self.link_bytes(MAX_INTERRUPT, "at most 16 bytes");
        }
        if self.takes(b"start") || self.takes(b"halt") || has_more && self.takes(b"boot") {
            return Ok(());
        }
        if self.takes(b"open") || self.takes(b"close") || has_more && self.takes(b"abort") {
            self.space()?;
            return self.link();
        }
        if self.takes(b"accept") || self.takes(b"reject") {
            self.space()?;
            self.link()?;
            self.space()?;
            return self.link();
        }
        if self.takes(b"in") || self.takes(b"up") {
            return self.link_bytes(MAX_MESSAGE, "at most 65,535 bytes");
        }
        self.departs(events(format))
    }

    // A link, and at most so many BYTES.
    fn link_bytes(&mut self, most: usize, too_many: &'static str) -> Result<(), Place> {
        self.space()?;
        self.link()?;
        self.space()?;
        self.digits(most, too_many)
    }

    // A node's address.
    pub(crate) fn node(&mut self) -> Result<(), Place> {
        self.number((1, 63), "an area from 1 to 63, with no zero before it")?;
        if !self.takes(b".") {
            return self.departs("a dot between area and node, as in 1.2");
        }
        self.number((1, 1023), "a node from 1 to 1023, with no zero before it")
    }

    fn link(&mut self) -> Result<(), Place> {
        self.number(
            (1, MAX_LINK),
            "a link address from 1 to 65535, with no zero before it",
        )
    }

    fn hint(&mut self, has_distances: bool) -> Result<(), Place> {
        if has_distances && self.takes(b"-") {
            return self.number(
                (1, MAX_HINT),
                "a distance below the mark: a number from 1 on, with no zero before it",
            );
        }
        self.number((0, MAX_HINT), "a hint: a number with no zero before it")
    }

    // A decimal number in this range; it departs where its first digit is, or should be.
    fn number(&mut self, range: (u64, u64), allowed: &'static str) -> Result<(), Place> {
        let first = self.at;
        let mut count: usize = 0;
        let mut value: u64 = 0;
        let mut has_zero = false;
        for digit in self.rest() {
            if !digit.is_ascii_digit() {
                break;
            }
            if count > 0 && value == 0 {
                has_zero = true;
            }
            let added = u64::from(digit.saturating_sub(b'0'));
            value = value.saturating_mul(10).saturating_add(added);
            count = count.saturating_add(1);
        }
        self.at = first.saturating_add(count);
        let (lowest, highest) = range;
        if count == 0 || has_zero || value < lowest || value > highest {
            return Err(Place { at: first, allowed });
        }
        Ok(())
    }

    // BYTES, of which there are at most so many.
    pub(crate) fn digits(&mut self, most: usize, too_many: &'static str) -> Result<(), Place> {
        if self.takes(b"-") {
            return Ok(());
        }
        let first = self.at;
        let count = digits_before(self.rest());
        self.at = first.saturating_add(count);
        if let Some(b'A'..=b'F') = self.next() {
            return self.departs("digits from 0 to 9 and a to f: capital letters are not used");
        }
        if count == 0 {
            return self.departs("two hexadecimal digits for each byte, or - for no bytes");
        }
        if !self.is_behind_digits() {
            return self.departs("digits from 0 to 9 and a to f");
        }
        if count % 2 != 0 {
            return self.departs("one more hexadecimal digit, since each byte has two");
        }
        if count / 2 > most {
            return Err(Place {
                at: first,
                allowed: too_many,
            });
        }
        Ok(())
    }

    // Whether what comes next ends a part of a line, or is meant to.
    fn is_behind_digits(&self) -> bool {
        match self.next() {
            None | Some(b' ') | Some(b'\t') | Some(b'\r') => true,
            Some(_) => false,
        }
    }

    pub(crate) fn space(&mut self) -> Result<(), Place> {
        if self.takes(b" ") {
            return Ok(());
        }
        self.departs("a space, one between the parts of a line")
    }

    pub(crate) fn end(&self) -> Result<(), Place> {
        if self.at == self.line.len() {
            return Ok(());
        }
        self.departs("the end of the line")
    }

    // The next byte.
    pub(crate) fn next(&self) -> Option<u8> {
        self.line.get(self.at).copied()
    }

    fn step(&mut self) {
        if self.at < self.line.len() {
            self.at += 1;
        }
    }

    // What was not read yet.
    fn rest(&self) -> &'l [u8] {
        match self.line.get(self.at..) {
            Some(rest) => rest,
            None => &[],
        }
    }

    // Goes on past these bytes, if they come next.
    pub(crate) fn takes(&mut self, bytes: &[u8]) -> bool {
        if !begins_with(self.rest(), bytes) {
            return false;
        }
        self.at = self.at.saturating_add(bytes.len());
        true
    }

    pub(crate) fn departs(&self, allowed: &'static str) -> Result<(), Place> {
        Err(Place {
            at: self.at,
            allowed,
        })
    }
}

// How a record begins.
fn letters(format: Format) -> &'static str {
    match format {
        Format::One | Format::Two => {
            "s, r, k, n or u: a record begins with one of these letters"
        }
        Format::Three => "s, r, k, d, x, n or u: a record begins with one of these letters",
    }
}

// What a user's record tells.
fn events(format: Format) -> &'static str {
    match format {
        Format::One | Format::Two => "start, halt, open, accept, reject, in, up or close",
        Format::Three =>
            "start, halt, boot, open, accept, reject, abort, in, up, close, interrupt or interrupted",
    }
}

/// Whether these bytes begin with those.
pub fn begins_with(bytes: &[u8], first: &[u8]) -> bool {
    if bytes.len() < first.len() {
        return false;
    }
    for index in 0..first.len() {
        if bytes[index] != first[index] {
            return false;
        }
    }
    true
}

// How many hexadecimal digits are at the front of these bytes.
fn digits_before(bytes: &[u8]) -> usize {
    let mut count: usize = 0;
    for byte in bytes {
        if !is_digit(*byte) {
            break;
        }
        count = count.saturating_add(1);
    }
    count
}

fn is_digit(byte: u8) -> bool {
    byte.is_ascii_digit() || (byte >= b'a' && byte <= b'f')
}
