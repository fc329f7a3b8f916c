//! What occurs in several phrases.

use std::fmt::{self, Formatter, Write};
use wire_base::Side;

/// These words, where that is so; else none.
pub fn words_if(is_so: bool, words: &str) -> &str {
    if is_so {
        return words;
    }
    ""
}

/// A number, or this word where there is none.
#[derive(Clone, Copy)]
pub struct NumberOr<'w> {
    pub word: &'w str,
    pub number: Option<u64>,
}

impl fmt::Display for NumberOr<'_> {
    fn fmt<W: Write>(&self, f: &mut Formatter<W>) -> fmt::Result {
        match self.number {
            Some(number) => write!(f, "{number}"),
            None => f.write_str(self.word),
        }
    }
}

/// The same of a short number.
pub fn short_number_or(word: &str, number: Option<u16>) -> NumberOr<'_> {
    let number = match number {
        Some(number) => Some(u64::from(number)),
        None => None,
    };
    NumberOr { word, number }
}

/// Writes a start of a side after what is said of it, as `, goes with start 1 of b`; nothing where the start is not known.
pub fn write_known_start<W: Write>(
    f: &mut Formatter<W>,
    verb: &str,
    side: Side,
    period: Option<u64>,
) -> fmt::Result {
    match period {
        Some(period) => write!(f, ", {verb} start {period} of {side}"),
        None => Ok(()),
    }
}

/// Numbers from a first one through a last one. Printed as `1 to 2`, or as the one where both are the same.
#[derive(Clone, Copy)]
pub struct Range {
    pub first: u16,
    pub last: u16,
}

impl fmt::Display for Range {
    fn fmt<W: Write>(&self, f: &mut Formatter<W>) -> fmt::Result {
        let Range { first, last } = *self;
        if first == last {
            return write!(f, "{first}");
        }
        write!(f, "{first} to {last}")
    }
}

/// What makes a word of several things: `s`; nothing of one thing.
pub fn plural(count: u64) -> &'static str {
    words_if(count != 1, "s")
}

/// How many bytes there are. Printed as `2 bytes`, or as `1 byte`.
#[derive(Clone, Copy)]
pub struct ByteCount {
    pub count: usize,
}

impl fmt::Display for ByteCount {
    fn fmt<W: Write>(&self, f: &mut Formatter<W>) -> fmt::Result {
        let count = self.count;
        if count == 1 {
            return f.write_str("1 byte");
        }
        write!(f, "{count} bytes")
    }
}
