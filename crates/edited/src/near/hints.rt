//! Hints that are shifted.

use super::Near;
use super::moves::{first_receipt, last_receipt, lowest_unit};
use crate::change::Change;
use crate::edits::Edits;
use crate::line_changes::line_replaced;
use crate::mistake::Mistake;
use crate::row::Row;
use crate::spelling::receipt_line;
use capture::HintForm;
use capture_record::Entry;
use std::alloc::AllocError;

pub(crate) fn add_hints(edits: &mut Edits, near: Near<'_>) -> Result<(), AllocError> {
    let row = near.row;
    let Some(unit) = row.received() else {
        return Ok(());
    };
    let next = first_receipt(near.behind);
    let low = lowest_unit(near.before);
    if unit < low {
        add_begun_again(edits, near, low)?;
    }
    for other in [unit.checked_sub(1), unit.checked_add(1)] {
        if let Some(unit) = other {
            add_hint(edits, near, row, next, unit)?;
            add_hints_from(edits, near, unit)?;
        }
    }
    add_last_hint(edits, near)
}

// The hints begin at 0 again, where the other side goes on: with its next unit, or with the first one that has these bytes.
fn add_begun_again(edits: &mut Edits, near: Near<'_>, low: u64) -> Result<(), AllocError> {
    if let Some(unit) = unit_like(near.other, low, &near.row.bytes)
        && unit != low
    {
        add_hints_from(edits, near, unit)?;
    }
    add_hints_from(edits, near, low)
}

// The first unit, from that one on, that was sent with these bytes.
fn unit_like(other: &[Row], low: u64, bytes: &[u8]) -> Option<u64> {
    for row in other {
        if let Some(unit) = row.sent()
            && unit >= low
            && row.bytes.as_slice() == bytes
        {
            return Some(unit);
        }
    }
    None
}

// The last receipt in front of the refused one names a unit that is one too high.
fn add_last_hint(edits: &mut Edits, near: Near<'_>) -> Result<(), AllocError> {
    let Some(row) = last_receipt(near.before) else {
        return Ok(());
    };
    let Some(unit) = row.received() else {
        return Ok(());
    };
    match unit.checked_sub(1) {
        Some(lower) => add_hint(edits, near, row, Some(near.row), lower),
        None => Ok(()),
    }
}

// One receipt alone. In format 2 the distance of the next one is another one then; where that is not at hand, the later ones would be shifted too.
fn add_hint(
    edits: &mut Edits,
    near: Near<'_>,
    row: &Row,
    next: Option<&Row>,
    unit: u64,
) -> Result<(), AllocError> {
    let line = row.line;
    let Entry::Received { fate, hint: _ } = row.entry else {
        return Ok(());
    };
    if next.is_none() && row.is_told_by_distance() {
        return Ok(());
    }
    let Some(put) = receipt_line(near.alloc, row.form, (fate, unit), &row.bytes)? else {
        return Ok(());
    };
    let mut changes = line_replaced(near.alloc, line, put)?;
    if let Some(next) = next {
        let passed = next.line.saturating_sub(line).saturating_sub(1);
        add_next_distance(&mut changes, near, unit, passed, next)?;
    }
    edits.add(near.side, Mistake::WrongHint { line, unit }, changes)
}

// In format 2 the distance of this receipt is counted from one of that unit, after which so many lines pass before it.
pub(crate) fn add_next_distance(
    changes: &mut Vec<Change>,
    near: Near<'_>,
    unit: u64,
    passed: u64,
    next: &Row,
) -> Result<(), AllocError> {
    let HintForm::Distance { mark: _ } = near.row.form else {
        return Ok(());
    };
    let form = HintForm::Distance {
        mark: unit.saturating_add(1),
    };
    let Entry::Received { fate, hint } = next.entry else {
        return Ok(());
    };
    let Some(put) = receipt_line(near.alloc, form, (fate, hint), &next.bytes)? else {
        return Ok(());
    };
    changes.push(Change {
        passed,
        put,
        dropped: 1,
    })?;
    Ok(())
}

// From the refused receipt on, which is one line in format 2, and each receipt in format 1.
fn add_hints_from(edits: &mut Edits, near: Near<'_>, unit: u64) -> Result<(), AllocError> {
    let (form, line) = (near.row.form, near.row.line);
    let Entry::Received { fate, hint } = near.row.entry else {
        return Ok(());
    };
    let Some(put) = receipt_line(near.alloc, form, (fate, unit), &near.row.bytes)? else {
        return Ok(());
    };
    let mut changes = line_replaced(near.alloc, line, put)?;
    if !near.row.is_told_by_distance() {
        let Some(later) = near.later else {
            return Ok(());
        };
        if later.is_empty() || !add_later_hints(&mut changes, near, (line, hint, unit), later)? {
            return Ok(());
        }
    }
    edits.add(near.side, Mistake::WrongHints { line, unit }, changes)
}

// Shifts the hints after a line as far as that line's, whose hint names this unit; where they begin again, they go on from the last one. `false`
// where a number would be none.
fn add_later_hints(
    changes: &mut Vec<Change>,
    near: Near<'_>,
    first: (u64, u64, u64),
    later: &[Row],
) -> Result<bool, AllocError> {
    let (mut line, mut hint, mut unit) = first;
    for row in later {
        let Entry::Received { fate, hint: next } = row.entry else {
            continue;
        };
        unit = match next.checked_sub(hint) {
            Some(far) => unit.saturating_add(far),
            None => unit.saturating_add(1),
        };
        let Some(put) = receipt_line(near.alloc, row.form, (fate, unit), &row.bytes)? else {
            return Ok(false);
        };
        let passed = row.line.saturating_sub(line).saturating_sub(1);
        changes.push(Change {
            passed,
            put,
            dropped: 1,
        })?;
        line = row.line;
        hint = next;
    }
    Ok(true)
}
