//! The unit that a receipt gets.

ghost use Rattle.std.specs.Prelude.{◌≡◌, ◌+◌, ◌<◌, ◌≤◌, ◌^◌, IsTrue, length};
ghost use Rattle.ddcmp_msg.specs.Reading.{reading};
ghost use Rattle.aligning.specs.Aligned as spec;

use capture_record::Record;
use ddcmp_msg::{Reading, read_unit};

/// The unit that a receipt gets.
#[derive(Clone, Copy)]
pub struct Chosen<'r> {
    /// Its number; where there is none, the next number.
    pub unit: u64,
    /// The records of the other side after it; none where there is no such unit.
    pub rest: &'r [Record],
    /// Whether there is such a unit.
    pub is_found: bool,
}

/// The unit that a receipt with these bytes gets, where the next unit of the other side is the first of these records and has this number: the first
/// one with the same bytes; if they show damage, the next one. The records up to it are looked at once.
pub fn choose<'r>(other: &'r [Record], next: u64, received: &[u8]) -> Chosen<'r>
    requires { next + length other.now < 2 ^ 63 }
    ensures choice { (result.unit, result.rest.now) ≡ spec.choice received.now next other.now }
    ensures bound { result.unit + length result.rest.now ≤ next + length other.now }
    ensures shorter { length result.rest.now ≤ length other.now }
    ensures found { IsTrue result.is_found → length result.rest.now < length other.now }
{
    let damaged = is_damaged(received);
    let mut rest = other;
    let mut unit = next;
    while let Some((record, after)) = rest.split_first() {
        rest = after;
        if let Record::Sent(bytes) = record {
            if fits(damaged, received, bytes.as_slice()) {
                return Chosen {
                    unit,
                    rest,
                    is_found: true,
                };
            }
            unit += 1;
        }
    }
    Chosen {
        unit: next,
        rest: &other[other.len()..],
        is_found: false,
    }
}

/// Whether these bytes show damage: a block check is cut or wrong.
pub fn is_damaged(received: &[u8]) -> bool
    ensures { result ≡ spec.shows_damage (reading received.now) }
{
    match read_unit(received) {
        Reading::HeaderBad | Reading::DataBad => true,
        Reading::Sound(_) | Reading::Malformed(_) => false,
    }
}

/// Whether a receipt may have been this unit.
pub fn fits(damaged: bool, received: &[u8], unit: &[u8]) -> bool
    requires { damaged ≡ spec.shows_damage (reading received.now) }
    ensures { result ≡ spec.fits received.now unit.now }
{
    if damaged {
        return true;
    }
    received == unit
}
