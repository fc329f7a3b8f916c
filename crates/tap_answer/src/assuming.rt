//! The text of what is assumed.

ghost use Rattle.std.specs.Prelude.{◌≡◌, ◌++◌, IfOk, OnOk, string_bytes};
ghost use Rattle.std.specs.List.{flat_map};
ghost use Rattle.tap_answer.specs.Words.{assumed_words, turn_words};

use crate::accused_text::UnitWords;
use placing::{Assumed, Turn};
use std::alloc::{AllocError, Global};
use std::fmt;
use wire_tap::Passed;

// A boot or an abort that is assumed.
#[derive(Clone, Copy)]
struct TurnWords {
    turn: Turn,
}

impl fmt::Display for TurnWords {
    ghost use Rattle.std.specs.Prelude.{Some};
    ghost use Rattle.tap_answer.specs.Words.{turn_words};

    ghost output = { λ words. Some (turn_words words.turn) };

    fn fmt<W: fmt::Write>(&self, f: &mut fmt::Formatter<W>) -> fmt::Result {
        let Turn {
            side,
            unit,
            line,
            what,
        } = self.turn;
        let unit = UnitWords {
            passed: Passed { side, unit, line },
        };
        match what {
            Assumed::Keeps { most: _ } | Assumed::Anew { is_anew: _ } | Assumed::Answers { .. } =>
                Ok(()),
            Assumed::Boots => write!(f, "this assumes a boot before {unit}\n"),
            Assumed::GivesUp => write!(f, "this assumes an abort of the call in {unit}\n"),
        }
    }
}

/// `this assumes a boot before a unit 7 line 16`, or `this assumes an abort of the call in a unit 7 line 16`, with its LF, for each of these that is
/// one. Fails for want of memory alone.
pub fn assumed_text(alloc: Global, turns: &[Turn]) -> Result<String, AllocError>
    ensures { IfOk result (λ text. string_bytes text ≡ assumed_words turns.now) }
{
    let mut text = String::new(alloc);
    put_turns(alloc, &mut text, turns)?;
    Ok(text)
}

// Appends their lines.
#[tactic(auto, unfolding(crate::specs::Words::assumed_words))]
fn put_turns(alloc: Global, text: &mut String, turns: &[Turn]) -> Result<(), AllocError>
    ensures { OnOk result (string_bytes text.new ≡ string_bytes text.old ++ assumed_words turns.now) }
{
    for turn in turns {
        put_turn(alloc, text, *turn)?;
    }
    Ok(())
}

fn put_turn(alloc: Global, text: &mut String, turn: Turn) -> Result<(), AllocError>
    ensures { OnOk result (string_bytes text.new ≡ string_bytes text.old ++ turn_words turn) }
{
    let words = TurnWords { turn };
    let line = format!(in alloc; "{words}")?;
    text.push_str(line.as_str())
}
