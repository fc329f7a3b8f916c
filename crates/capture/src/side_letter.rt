//! The side that a line names.

ghost use Rattle.std.specs.Prelude.{◌≡◌};
ghost use Rattle.std.specs.Option.{option_map};
ghost use Rattle.capture.specs.Sided.{side_at};

use crate::part::after;
use wire_base::Side;

/// The side whose letter a line begins with, and what follows the letter and a space; `None` where it begins with neither side's. Takes no
/// memory.
#[tactic(auto, unfolding(crate::specs::Sided::side_at))]
#[inline(always)]
pub fn side_of(line: &[u8]) -> Option<(Side, &[u8])>
    ensures { option_map (λ parts. (parts.0, parts.1.now)) result ≡ side_at line.now }
{
    if let Some(rest) = after(line, b"a ") {
        return Some((Side::A, rest));
    }
    if let Some(rest) = after(line, b"b ") {
        return Some((Side::B, rest));
    }
    None
}
