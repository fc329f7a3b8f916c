//! Lines that format 3 alone has: of a node that starts anew, gives a call up, or loses what it kept. Where a capture is of format 1 its head
//! becomes one of format 3; in format 2 they are not tried, since there every hint would be another number.

use super::Near;
use super::letters::{ROWS, wrong_letter};
use super::missing::add_user_line;
use crate::change::Change;
use crate::edits::Edits;
use crate::line_changes::with_first_line;
use crate::mistake::Mistake;
use crate::row::Row;
use crate::spelling::line_of;
use capture::{Format, HintForm, put_head_line};
use capture_record::{Entry, Fate};
use std::alloc::AllocError;

pub(crate) fn add_anew(edits: &mut Edits, near: Near<'_>) -> Result<(), AllocError> {
    if let Some(halt) = last_of(near.before, Entry::Halt) {
        add_boot_for(edits, near, halt)?;
    }
    if let Some(start) = last_of(near.before, Entry::Start) {
        add_user_line(edits, near, start.line, (Entry::Boot, &[]))?;
    }
    add_user_line(edits, near, near.row.line, (Entry::Boot, &[]))?;
    if let Some(link) = link_begun(near.row) {
        add_user_line(edits, near, near.row.line, (Entry::Abort { link }, &[]))?;
    }
    add_dropped(edits, near, near.row)?;
    for row in near.before.iter().rev().take(ROWS) {
        add_dropped(edits, near, row)?;
    }
    Ok(())
}

// The last row of this entry.
fn last_of(rows: &[Row], entry: Entry) -> Option<&Row> {
    for row in rows.iter().rev() {
        if row.entry == entry {
            return Some(row);
        }
    }
    None
}

// The link that begins in this row.
fn link_begun(row: &Row) -> Option<u16> {
    match row.entry {
        Entry::Open { link } => Some(link),
        Entry::Accept { partner: _, link } | Entry::Reject { partner: _, link } => Some(link),
        _ => None,
    }
}

// The node was started anew where it was only halted.
fn add_boot_for(edits: &mut Edits, near: Near<'_>, halt: &Row) -> Result<(), AllocError> {
    let Some(put) = line_of(near.alloc, Entry::Boot, &[])? else {
        return Ok(());
    };
    let line = halt.line;
    match in_format_3(near, replaced(line, put))? {
        Some(changes) => edits.add(near.side, Mistake::BootAsHalt { line }, changes),
        None => Ok(()),
    }
}

// What was kept was lost before the links met it.
fn add_dropped(edits: &mut Edits, near: Near<'_>, row: &Row) -> Result<(), AllocError> {
    let Entry::Received {
        fate: Fate::Kept,
        hint,
    } = row.entry
    else {
        return Ok(());
    };
    let entry = Entry::Received {
        fate: Fate::Dropped,
        hint,
    };
    let Some(put) = line_of(near.alloc, entry, &row.bytes)? else {
        return Ok(());
    };
    let Some(mistake) = wrong_letter(row, Fate::Dropped) else {
        return Ok(());
    };
    match in_format_3(near, replaced(row.line, put))? {
        Some(changes) => edits.add(near.side, mistake, changes),
        None => Ok(()),
    }
}

// A line that format 3 alone has is missing in front of that line.
pub(crate) fn add_wide_line(
    edits: &mut Edits,
    near: Near<'_>,
    before: u64,
    line: (Entry, Vec<u8>),
) -> Result<(), AllocError> {
    let (entry, put) = line;
    let change = Change {
        passed: before.saturating_sub(1),
        put,
        dropped: 0,
    };
    match in_format_3(near, change)? {
        Some(changes) => edits.add(near.side, Mistake::UserMissing { before, entry }, changes),
        None => Ok(()),
    }
}

// Bytes in the place of a line.
fn replaced(line: u64, put: Vec<u8>) -> Change {
    Change {
        passed: line.saturating_sub(1),
        put,
        dropped: 1,
    }
}

// A change after the head, with the head that it needs; `None` where each hint would be another number, and in a part of a run.
fn in_format_3(near: Near<'_>, change: Change) -> Result<Option<Vec<Change>>, AllocError> {
    match near.row.form {
        HintForm::Wide => {
            let mut changes = Vec::new(near.alloc);
            changes.push(change)?;
            Ok(Some(changes))
        }
        HintForm::Distance { mark: _ } | HintForm::Part => Ok(None),
        HintForm::Number => {
            let (own, peer) = near.head;
            let mut first = Vec::new(near.alloc);
            put_head_line(&mut first, Format::Three, own, peer)?;
            Ok(Some(with_first_line(near.alloc, first, change)?))
        }
    }
}
