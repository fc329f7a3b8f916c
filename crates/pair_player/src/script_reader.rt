//! Reading a script, step by step.

use crate::limit::MAX_STEPS;
use crate::step::LineEntry;
use crate::words::line_into;
use capture::{Departure, ListItem, ListReader};
use capture_record::MAX_MESSAGE;

/// What a script lists: steps. What is read of one beside its message or noise is a [`LineEntry`]. A script may have 100,000,000 of them; a line
/// departs with `Syntax` where it is no step's, and with `TooLong` where it is one except that it has a message of more than 65,535 bytes, or
/// noise of more than 16,393.
pub struct Steps;

impl ListItem for Steps {
    ghost use Rattle.capture_record.specs.declared.limit.TheConstants.{MAX_MESSAGE};
    ghost use Rattle.dna_play.specs.Script.{ScriptStep};
    ghost use Rattle.dna_play.specs.ScriptText.{script_form};
    ghost use Rattle.pair_player.specs.Step.{line_with};

    type Entry = LineEntry;

    ghost Item = { ScriptStep };

    ghost item = { line_with };

    ghost form = { script_form };

    ghost ROOM = { MAX_MESSAGE };

    const ROOM: usize = MAX_MESSAGE;

    fn first_words() -> &'static [u8] {
        b"ddplay 1 "
    }

    fn most() -> u64 {
        MAX_STEPS
    }

    #[inline(always)]
    fn read(line: &[u8], room: &mut [u8]) -> Result<(LineEntry, usize), Departure> {
        line_into(line, room)
    }

    fn lines_are_apart() {}
}

/// Reads the head of a script, `ddplay 1 ADDRA ADDRB`, and then its steps, as a [`ListReader`] does.
pub type ScriptReader = ListReader<Steps>;
