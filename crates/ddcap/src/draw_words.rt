//! The words after `draw`.

ghost use Rattle.std.specs.Prelude.{◌≤◌, IfSome};
ghost use Rattle.drawing.specs.declared.range.TheConstants.{MAX_ROWS};

use crate::judging_words::{judged_layers_of, refusals_of};
use crate::words::WordsFault;
use capture::{MAX_RECORDS, positive_of};
use clap::ArgMatches;
use draw_command::draw_files::Asked;
use drawing::{MAX_ROWS, ROWS, Range, Start};
use wire_base::Side;

/// What the words ask for: a line from 2 on, of side a or b, and 1 to 200 rows.
pub fn drawing_asked<'a>(found: &ArgMatches<'a>) -> Result<Asked<'a>, WordsFault> {
    let (Some(a), Some(b)) = (found.get_str("A"), found.get_str("B")) else {
        return Err(WordsFault::BadWords);
    };
    let start = match found.get_str("from") {
        None => None,
        Some(words) => match start_spelled(words) {
            Some(start) => Some(start),
            None => return Err(WordsFault::BadWords),
        },
    };
    let rows = match found.get_str("rows") {
        None => ROWS,
        Some(words) => match rows_spelled(words) {
            Some(rows) => rows,
            None => return Err(WordsFault::BadWords),
        },
    };
    let svg = found.get_str("svg");
    let Some(layers) = judged_layers_of(found) else {
        return Err(WordsFault::BadWords);
    };
    Ok(Asked {
        a,
        b,
        range: Range {
            start,
            rows,
            layers,
        },
        svg,
        refusals: refusals_of(found),
    })
}

// `a:23`: the record in this line of this side's capture. Line 1 is the head.
fn start_spelled(words: &str) -> Option<Start> {
    let (side, line) = words.split_once(':')?;
    let side = match side {
        "a" => Side::A,
        "b" => Side::B,
        _ => return None,
    };
    let line = positive_of(line.as_bytes(), MAX_RECORDS.saturating_add(1))?;
    if line == 1 {
        return None;
    }
    Some(Start { side, line })
}

// 1 to 200, in its one spelling.
fn rows_spelled(words: &str) -> Option<usize>
    ensures { IfSome result (λ rows. (1 ≤ rows) × (rows ≤ MAX_ROWS)) }
{
    let rows = positive_of(words.as_bytes(), MAX_ROWS as u64)?;
    Some(rows as usize)
}
