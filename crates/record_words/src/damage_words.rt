//! What is wrong with bytes that show damage, in words (DDCMP 4.1, message formats).

ghost use Rattle.std.specs.Prelude.{◌≡◌, ◌≤◌, ◌/◌, ◌%◌, length};

use crate::packet_words::ByteDigits;
use crate::words::ByteCount;
use std::fmt::{self, Formatter, Write};
use wire_base::block_check;

// The byte that a line sends before a unit, which is none of its own.
const SYN: u8 = 0x96;

/// Writes what is wrong with a bad header: it begins with SYN, it is cut, or its block check is wrong, as `header bad: block check 7596 instead of
/// 7595`.
pub fn write_header_fault<W: Write>(f: &mut Formatter<W>, bytes: &[u8]) -> fmt::Result {
    let length = bytes.len();
    if let Some(first) = bytes.first() {
        if *first == SYN {
            return f.write_str("header bad: begins with SYN (96)");
        }
    }
    if length < 8 {
        return write_cut(f, "header bad: ", length, 8);
    }
    f.write_str("header bad: ")?;
    write_check(f, &bytes[..6], bytes[6], bytes[7])
}

/// Writes what is wrong with bad data after a good header: there are more than COUNT says, they are cut, or their block check is wrong; and the
/// numbers in the header, as `data bad: COUNT says 159 bytes, 415 came  NUM 3  RESP 2`.
pub fn write_data_fault<W: Write>(f: &mut Formatter<W>, bytes: &[u8]) -> fmt::Result {
    let length = bytes.len();
    if length < 8 {
        return f.write_str("data bad");
    }
    write_bad_data(f, bytes)?;
    let resp = bytes[3];
    let num = bytes[4];
    write!(f, "  NUM {num}  RESP {resp}")
}

fn write_bad_data<W: Write>(f: &mut Formatter<W>, bytes: &[u8]) -> fmt::Result
    requires { 8 ≤ length bytes.now }
{
    let length = bytes.len();
    let count = usize::from(bytes[1]) + 256 * usize::from(bytes[2] % 64);
    let end = 8 + count;
    if length < end + 2 {
        return write_cut(f, "data bad: ", length, end + 2);
    }
    if length > end + 2 {
        let came = length - 10;
        return write!(f, "data bad: COUNT says {count} bytes, {came} came");
    }
    f.write_str("data bad: ")?;
    write_check(f, &bytes[8..end], bytes[end], bytes[end + 1])
}

// Writes how many bytes there are, and how many there should be.
fn write_cut<W: Write>(f: &mut Formatter<W>, lead: &str, length: usize, due: usize) -> fmt::Result {
    let count = ByteCount { count: length };
    write!(f, "{lead}{count} instead of {due}")
}

// Writes the block check that came with a field, and the one that it should have, both as they are sent.
fn write_check<W: Write>(f: &mut Formatter<W>, field: &[u8], first: u8, second: u8) -> fmt::Result {
    let check = block_check(field);
    write_both(f, (first, second), (low_byte(check), high_byte(check)))
}

// Writes the two bytes that came, and the two that should have come.
fn write_both<W: Write>(f: &mut Formatter<W>, came: (u8, u8), due: (u8, u8)) -> fmt::Result {
    let first = ByteDigits { byte: came.0 };
    let second = ByteDigits { byte: came.1 };
    let low = ByteDigits { byte: due.0 };
    let high = ByteDigits { byte: due.1 };
    write!(f, "block check {first}{second} instead of {low}{high}")
}

// The byte of a check that is sent first.
fn low_byte(check: u16) -> u8
    ensures { result ≡ check % 256 }
{
    (check % 256) as u8
}

// And the other one.
fn high_byte(check: u16) -> u8
    ensures { result ≡ check / 256 }
{
    (check / 256) as u8
}
