//! The rows of the ladder before a refused record, and what they tell of its unit.

use crate::last_rows::ROWS_BEFORE;
use crate::recorder::ComesLater;
use crate::telling::Printout;
use capture_record::{Entry, Fate};
use ladder::{Drawn, Ladder, Sending, What};
use std::alloc::{AllocError, Global};
use wire_base::Side;

/// The ladder is told what comes later.
pub fn tell_later(ladder: &mut Ladder, later: &ComesLater) {
    tell_hints(ladder, Side::A, &later.hints_a);
    tell_hints(ladder, Side::B, &later.hints_b);
    if later.is_all {
        ladder.end();
    }
}

fn tell_hints(ladder: &mut Ladder, side: Side, hints: &[u64]) {
    for hint in hints {
        let entry = Entry::Received {
            fate: Fate::NotKept,
            hint: *hint,
        };
        ladder.follows(side, entry);
    }
}

/// The rows of a refused record.
#[derive(Drop)]
pub struct Rungs {
    /// That of the unit that its hint names; nothing where it names none that may come.
    pub unit: String,
    /// The rows before it and its own.
    pub ladder: String,
}

/// The rows of the refused record that was told last. Fails for want of memory alone.
pub fn rungs_of(
    alloc: Global,
    printout: Printout<'_>,
    ladder: &Ladder,
) -> Result<Rungs, AllocError> {
    let drawn = ladder.drawn(alloc)?;
    let unit = unit_text(alloc, printout, &drawn)?;
    let ladder = ladder_text(alloc, &drawn)?;
    Ok(Rungs { unit, ladder })
}

/// The rows before the refused record of one end and its own. Fails for want of memory alone.
pub fn end_rungs(alloc: Global, ladder: &Ladder) -> Result<String, AllocError> {
    let drawn = ladder.drawn(alloc)?;
    ladder_text(alloc, &drawn)
}

// The rows before the refused record and its own, which comes last, below a heading. Fails for want of memory alone.
fn ladder_text(alloc: Global, drawn: &Drawn) -> Result<String, AllocError> {
    let mut text = match drawn.len() <= ROWS_BEFORE {
        true => String::from_str(
            alloc,
            "  line all rows before it, a on the left, b on the right\n",
        )?,
        false => format!(in alloc;
            "  line the {ROWS_BEFORE} rows before it, a on the left, b on the right\n"
        )?,
    };
    put_rows(alloc, drawn, &mut text)?;
    Ok(text)
}

fn put_rows(alloc: Global, drawn: &Drawn, text: &mut String) -> Result<(), AllocError> {
    for index in 0..drawn.len() {
        if let Some(row) = drawn.text(alloc, index)? {
            text.push_str(row.as_str())?;
            text.push_str("\n")?;
        }
    }
    Ok(())
}

// The row of the unit that the hint of the refused record names; nothing where it names none that may come.
fn unit_text(alloc: Global, printout: Printout<'_>, drawn: &Drawn) -> Result<String, AllocError> {
    let Some(row) = drawn.row(drawn.len().saturating_sub(1)) else {
        return Ok(String::new(alloc));
    };
    match row.told.what {
        What::Came {
            hint,
            sent: Some(Sending { line, said }),
            ..
        } => {
            let sender = row.told.side.other();
            let name = printout.name_of(sender);
            let words = said.brief();
            format!(in alloc; "  unit     {hint} of {sender}, {name}:{line}: {words}\n")
        }
        _ => Ok(String::new(alloc)),
    }
}
