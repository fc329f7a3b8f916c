//! Decimal numbers in a line.

ghost use Rattle.std.specs.Prelude.{◌≡◌, ◌≤◌, IfSome};
ghost use Rattle.std.specs.Option.{option_map};
ghost use Rattle.capture.specs.Reading.{cut_at, number_at, positive_at};
ghost use Rattle.capture.specs.Worded.{numbered};

use crate::part::cut_at;

// As many digits at most are read as they come: as many as the greatest hint has.
const FEW: usize = 18;

/// The number that the text spells, if it is at most `most`: decimal digits, at least 1 and at most
/// 19, without a leading zero. `0`, `7` and `120` are numbers; `07`, `+7` and an empty text are none.
pub fn number_of(text: &[u8], most: u64) -> Option<u64>
    ensures value { result ≡ number_at most text.now }
    ensures most { IfSome result (λ number. number ≤ most) }
{
    if text.is_empty() || text.len() > 19 {
        return None;
    }
    if text[0] == b'0' && text.len() != 1 {
        return None;
    }
    let mut value = 0u64;
    for digit in text {
        if !digit.is_ascii_digit() {
            return None;
        }
        value = value * 10 + u64::from(*digit - b'0');
    }
    if value > most {
        return None;
    }
    Some(value)
}

/// The number that the text spells, if it is from 1 to `most`.
#[tactic(auto, unfolding(crate::specs::Reading::positive_at))]
pub fn positive_of(text: &[u8], most: u64) -> Option<u64>
    ensures value { result ≡ positive_at most text.now }
    ensures range { IfSome result (λ number. (1 ≤ number) × (number ≤ most)) }
{
    let number = number_of(text, most)?;
    if number == 0 {
        return None;
    }
    Some(number)
}

/// The number before the first space, if it is at most `most`, and what follows that space. `7 -` is 7 and `-`; `07 -`, ` -` and `7` are
/// none.
#[inline(always)]
pub fn number_before(text: &[u8], most: u64) -> Option<(u64, &[u8])>
    ensures value { option_map (λ parts. (parts.0, parts.1.now)) result ≡ numbered most (cut_at 32 text.now) }
    ensures most { IfSome result (λ parts. parts.0 ≤ most) }
{
    let end = text.len().min(FEW + 1);
    if end == 0 {
        return number_cut_copied(text, most);
    }
    if !text[0].is_ascii_digit() {
        return number_cut_copied(text, most);
    }
    if text[0] == b'0' {
        return number_cut_copied(text, most);
    }
    let mut value = u64::from(text[0] - b'0');
    for at in 1..end {
        let digit = text[at];
        if !digit.is_ascii_digit() {
            if digit != b' ' {
                return number_cut_copied(text, most);
            }
            if most < value {
                return number_cut_copied(text, most);
            }
            return Some((value, &text[at + 1..]));
        }
        value = value * 10 + u64::from(digit - b'0');
    }
    number_cut_copied(text, most)
}

// The same in two steps, with an answer of its own, so that on the way of other numbers nothing goes through memory.
#[inline(always)]
fn number_cut_copied(text: &[u8], most: u64) -> Option<(u64, &[u8])>
    ensures value { option_map (λ parts. (parts.0, parts.1.now)) result ≡ numbered most (cut_at 32 text.now) }
    ensures most { IfSome result (λ parts. parts.0 ≤ most) }
{
    match number_cut(text, most) {
        Some((number, rest)) => Some((number, rest)),
        None => None,
    }
}

// The same in two steps: where the number is 0 or long, or there is none.
#[inline(never)]
fn number_cut(text: &[u8], most: u64) -> Option<(u64, &[u8])>
    ensures value { option_map (λ parts. (parts.0, parts.1.now)) result ≡ numbered most (cut_at 32 text.now) }
    ensures most { IfSome result (λ parts. parts.0 ≤ most) }
{
    let (number, rest) = cut_at(text, b' ')?;
    let number = number_of(number, most)?;
    Some((number, rest))
}
