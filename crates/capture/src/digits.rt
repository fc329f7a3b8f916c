//! BYTES: the bytes of a unit or of a message, as digits.

ghost use Rattle.std.specs.Prelude.{◌≡◌, ◌↔◌, ◌+◌, ◌*◌, ◌≤◌, ◌<◌, ◌%◌, ◌/◌, min, length, slice_index, true, false};
ghost use Rattle.std.specs.Prelude.{IsTrue, Some, None, Err, IfOk, if◌then◌else◌};
ghost use Rattle.std.specs.Option.{is_some};
ghost use Rattle.std.specs.List.{list_all};
ghost use Rattle.hex.specs.Hex.{IsBytes, lower_digits};
ghost use Rattle.capture.specs.inner.Spelled.{IsSpelled};
ghost use Rattle.capture.specs.Entries.{front_of};
ghost use Rattle.capture.specs.declared.digits.TheConstants.{EIGHT, SIXTEEN};
ghost use Rattle.capture.specs.Reading.{Gives, bytes_at, is_digit, pairs_at};

use crate::fault::{Departure, PartFault};
use crate::lanes::{are_values, eight_of, sixteen_of, values_of};
use capture_record::Bytes;
use std::alloc::Global;
use std::simd::prelude::*;

// As many bytes are read at once: of a long text, and of a short one.
const SIXTEEN: usize = 16;

const EIGHT: usize = 8;

// Reads pairs of digits 0 to 9 and a to f: sixteen bytes at a time, or eight, the last ones too, some of which may have been read before.
fn pairs_into(text: &[u8], bytes: &mut [u8]) -> bool
    requires long { length text.now ≡ 2 * length bytes.old }
    requires some { 0 < length bytes.old }
    ensures { pairs_at text.now ≡ (if result then Some bytes.new else None) }
{
    let len = bytes.len();
    if len < SIXTEEN {
        return few_into(text, bytes);
    }
    for block in 0..len / SIXTEEN {
        if !sixteen_into(text, block * SIXTEEN, bytes) {
            return false;
        }
    }
    if len % SIXTEEN == 0 {
        return true;
    }
    sixteen_into(text, len - SIXTEEN, bytes)
}

// Reads the sixteen bytes from this place on.
#[inline(always)]
fn sixteen_into(text: &[u8], at: usize, bytes: &mut [u8]) -> bool
    requires long { length text.now ≡ 2 * length bytes.old }
    requires within { at + SIXTEEN ≤ length bytes.old }
    requires fit { IsBytes bytes.old }
    ensures spelled { IsTrue result → IsSpelled bytes.old text.now at → IsSpelled bytes.new text.now (at + SIXTEEN) }
    ensures others { result ≡ false → list_all is_digit text.now ≡ false }
    ensures bytes { IsBytes bytes.new }
    ensures length { length bytes.new ≡ length bytes.old }
{
    let values = values_of(u8x32::from_slice(&text[2 * at..]));
    sixteen_of(values).copy_to_slice(&mut bytes[at..]);
    are_values(values)
}

// Reads fewer than sixteen bytes.
#[inline(always)]
fn few_into(text: &[u8], bytes: &mut [u8]) -> bool
    requires long { length text.now ≡ 2 * length bytes.old }
    requires some { 0 < length bytes.old }
    requires few { length bytes.old < SIXTEEN }
    ensures { pairs_at text.now ≡ (if result then Some bytes.new else None) }
{
    let len = bytes.len();
    if len < EIGHT {
        return each_into(text, bytes);
    }
    if !eight_into(text, 0, bytes) {
        return false;
    }
    if len == EIGHT {
        return true;
    }
    eight_into(text, len - EIGHT, bytes)
}

// Reads the eight bytes from this place on.
#[inline(always)]
fn eight_into(text: &[u8], at: usize, bytes: &mut [u8]) -> bool
    requires long { length text.now ≡ 2 * length bytes.old }
    requires within { at + EIGHT ≤ length bytes.old }
    requires fit { IsBytes bytes.old }
    ensures spelled { IsTrue result → IsSpelled bytes.old text.now at → IsSpelled bytes.new text.now (at + EIGHT) }
    ensures others { result ≡ false → list_all is_digit text.now ≡ false }
    ensures bytes { IsBytes bytes.new }
    ensures length { length bytes.new ≡ length bytes.old }
{
    let values = values_of(u8x16::from_slice(&text[2 * at..]));
    eight_of(values).copy_to_slice(&mut bytes[at..]);
    are_values(values)
}

// Reads pairs of digits, and goes on after what is none: with no way out of the loop, many are read at once.
#[inline(always)]
fn each_into(text: &[u8], bytes: &mut [u8]) -> bool
    requires { length text.now ≡ 2 * length bytes.old }
    ensures spelled { IsTrue result → IsSpelled bytes.new text.now (length bytes.old) }
    ensures others { result ≡ false → list_all is_digit text.now ≡ false }
    ensures bytes { IsBytes bytes.new }
    ensures length { length bytes.new ≡ length bytes.old }
{
    let mut all = true;
    for i in 0..bytes.len() {
        let high = text[2 * i];
        let low = text[2 * i + 1];
        all &= is_lower_digit(high) & is_lower_digit(low);
        bytes[i] = byte_of(high, low);
    }
    all
}

// What two digits are as a byte: a digit's low four bits, and 9 more for a letter, which has bit 6. A branch for each digit would go wrong
// at every other one. Of other characters it answers what it likes.
#[inline(always)]
fn byte_of(high: u8, low: u8) -> u8
    ensures { is_digit high ≡ true → is_digit low ≡ true →
        (slice_index lower_digits (result / 16) ≡ high) × (slice_index lower_digits (result % 16) ≡ low) }
{
    let digits = u16::from_le_bytes([high, low]);
    let values = (digits & 0x0f0f).wrapping_add(((digits >> 6) & 0x0101).wrapping_mul(9));
    ((values.wrapping_shl(4) | (values >> 8)) & 0xff) as u8
}

// Whether it is a digit 0 to 9 or a to f.
#[inline(always)]
fn is_lower_digit(character: u8) -> bool
    ensures { result ≡ is_digit character }
{
    character.is_ascii_digit() || (character >= b'a' && character <= b'f')
}

// Whether the text is such digits alone; many are tested at once, as above.
fn are_digits(text: &[u8]) -> bool
    ensures { result ≡ list_all is_digit text.now }
{
    let mut all = true;
    for digit in text {
        all &= is_lower_digit(*digit);
    }
    all
}

/// The bytes that the text spells, at most `most`: `-` for none, else two digits 0 to 9 and a to f
/// for each.
///
/// Faults: `Departs(Syntax)` where it is no BYTES, so at an odd number of digits, another digit or
/// an empty text; `Departs(TooLong)` where there are more than `most` bytes; `OutOfMemory`.
pub fn bytes_of(alloc: Global, text: &[u8], most: usize) -> Result<Bytes, PartFault>
    ensures { Gives result (bytes_at most text.now) }
{
    let Ok(mut room) = vec![in alloc; 0u8; most.min(text.len() / 2)] else {
        return Err(PartFault::OutOfMemory);
    };
    match bytes_into(text, most, &mut room) {
        Ok(_) => Ok(Bytes::new(room)),
        Err(kind) => Err(PartFault::Departs(kind)),
    }
}

/// Writes the bytes that the text spells, at most `most`, to the front of the room, which has room for them, and answers how many they are. It spells
/// and departs as for [`bytes_of`]; a departure may leave anything in the room. Takes no memory.
#[tactic(auto, unfolding(crate::specs::Reading::bytes_at, crate::specs::Reading::any_bytes_at))]
#[inline(always)]
pub fn bytes_into(text: &[u8], most: usize, room: &mut [u8]) -> Result<usize, Departure>
    requires { min most (length text.now / 2) ≤ length room.old }
    ensures bytes { bytes_at most text.now ≡ front_of room.new result }
    ensures len { IfOk result (λ len. (len ≤ most) × (len ≡ length text.now / 2)) }
    ensures room { length room.new ≡ length room.old }
{
    if text == b"-".as_slice() {
        return Ok(0);
    }
    if text.is_empty() {
        return Err(Departure::Syntax);
    }
    if text.len() % 2 != 0 {
        return Err(Departure::Syntax);
    }
    let len = text.len() / 2;
    if len > most {
        return Err(long_departure(most, text));
    }
    if !pairs_into(text, &mut room[..len]) {
        return Err(Departure::Syntax);
    }
    Ok(len)
}

// How a text of more bytes than it may have departs.
#[tactic(auto, unfolding(crate::specs::Reading::bytes_at, crate::specs::Reading::any_bytes_at))]
fn long_departure(most: usize, text: &[u8]) -> Departure
    requires even { length text.now % 2 ≡ 0 }
    requires long { 2 * most < length text.now }
    ensures { bytes_at most text.now ≡ Err result }
{
    if are_digits(text) {
        return Departure::TooLong;
    }
    Departure::Syntax
}
