//! `k` for `r`, and back.

use super::Near;
use crate::edits::Edits;
use crate::line_changes::line_replaced;
use crate::mistake::Mistake;
use crate::row::Row;
use crate::spelling::receipt_line;
use capture_record::{Entry, Fate};
use std::alloc::AllocError;

/// How many rows in front of the refused one are looked at.
pub(crate) const ROWS: usize = 10;

pub(crate) fn add_letters(edits: &mut Edits, near: Near<'_>) -> Result<(), AllocError> {
    add_letter(edits, near, near.row)?;
    for row in near.before.iter().rev().take(ROWS) {
        add_letter(edits, near, row)?;
    }
    Ok(())
}

fn add_letter(edits: &mut Edits, near: Near<'_>, row: &Row) -> Result<(), AllocError> {
    match row.entry {
        Entry::Received { fate, hint } => match fate {
            Fate::NotKept => add_fate(edits, near, row, (Fate::Kept, hint)),
            Fate::Kept => add_fate(edits, near, row, (Fate::NotKept, hint)),
            Fate::Dropped => {
                add_fate(edits, near, row, (Fate::Kept, hint))?;
                add_fate(edits, near, row, (Fate::NotKept, hint))
            }
        },
        _ => Ok(()),
    }
}

// The receipt in this row should have another letter.
fn add_fate(
    edits: &mut Edits,
    near: Near<'_>,
    row: &Row,
    entry: (Fate, u64),
) -> Result<(), AllocError> {
    let Some(put) = receipt_line(near.alloc, row.form, entry, &row.bytes)? else {
        return Ok(());
    };
    let changes = line_replaced(near.alloc, row.line, put)?;
    match wrong_letter(row, entry.0) {
        Some(mistake) => edits.add(near.side, mistake, changes),
        None => Ok(()),
    }
}

// That this became of the packet in the receipt of the row, and not what it says.
pub(crate) fn wrong_letter(row: &Row, fate: Fate) -> Option<Mistake> {
    match row.entry {
        Entry::Received {
            fate: said,
            hint: _,
        } => Some(Mistake::WrongLetter {
            line: row.line,
            said,
            fate,
        }),
        _ => None,
    }
}
