//! The format of both captures.

ghost use Rattle.std.specs.Prelude.{◌≡◌};
ghost use Rattle.std.specs.List.{list_all};
ghost use Rattle.wire_tap.specs.Tapping as spec;

use capture::Format;
use placing::{Assumed, Turn};

/// The format of captures of which this is assumed: 1, or 3 where a node boots or gives a call up.
pub(crate) fn format_of(turns: &[Turn]) -> Format
    ensures { result ≡ spec.format_of turns.now }
{
    match all_in_one(turns) {
        true => Format::One,
        false => Format::Three,
    }
}

fn all_in_one(turns: &[Turn]) -> bool
    ensures { result ≡ list_all spec.turn_is_in_one turns.now }
{
    let mut all = true;
    for index in 0..turns.len() {
        all = all && is_in_one(turns[index]);
    }
    all
}

// Whether format 1 has the lines of what is assumed.
fn is_in_one(turn: Turn) -> bool
    ensures { result ≡ spec.turn_is_in_one turn }
{
    match turn.what {
        Assumed::Keeps { most: _ } | Assumed::Anew { is_anew: _ } | Assumed::Answers { .. } => true,
        Assumed::Boots | Assumed::GivesUp => false,
    }
}
