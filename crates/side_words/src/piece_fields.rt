//! What a segment carries and what the next one has to carry, in words.

use crate::front_behind::FrontBehind;
use nsp_link::{NextPiece, PieceShape};
use record_words::words::ByteCount;
use std::fmt::{self, Formatter, Write};

/// What a segment carries, with the digits of its first bytes. Printed as `1 byte 05, begins and ends`.
#[derive(Clone, Copy)]
pub struct ShapeWords<'t> {
    pub shape: PieceShape,
    pub front: &'t str,
}

impl fmt::Display for ShapeWords<'_> {
    fn fmt<W: Write>(&self, f: &mut Formatter<W>) -> fmt::Result {
        let PieceShape {
            begins,
            ends,
            length,
        } = self.shape;
        let bytes = FrontBehind {
            lead: " ",
            front: self.front,
            count: length,
        };
        let count = ByteCount { count: length };
        write!(f, "{count}{bytes}, {}", ends_words(begins, ends))
    }
}

// What a segment does with a message.
fn ends_words(begins: bool, ends: bool) -> &'static str {
    match (begins, ends) {
        (true, true) => "begins and ends",
        (true, false) => "begins",
        (false, true) => "ends",
        (false, false) => "neither begins nor ends",
    }
}

/// Writes what the next new segment has to carry where it has so many bytes, with the digits of the first bytes that are left, as
/// `the next of 2 bytes of the message: 0506, begins it`.
pub fn write_next<W: Write>(
    f: &mut Formatter<W>,
    length: usize,
    next: Option<NextPiece>,
    front: &str,
) -> fmt::Result {
    match next {
        Some(next) => write_piece(f, length, next, front),
        None => f.write_str("no new segment: nothing is left of what was handed in"),
    }
}

fn write_piece<W: Write>(
    f: &mut Formatter<W>,
    length: usize,
    next: NextPiece,
    front: &str,
) -> fmt::Result {
    let left = next.left;
    let bytes = FrontBehind {
        lead: ": ",
        front,
        count: left,
    };
    let count = ByteCount { count: left };
    let part = part_words(next.begins, left <= length);
    write!(f, "the next of {count} of the message{bytes}, {part}")
}

// What the next segment does with the message: it begins it or goes on with it, and ends it where it carries all that is left.
fn part_words(begins: bool, ends: bool) -> &'static str {
    match (begins, ends) {
        (true, true) => "begins and ends it",
        (true, false) => "begins it",
        (false, true) => "goes on with it and ends it",
        (false, false) => "goes on with it",
    }
}
