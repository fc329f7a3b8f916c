//! Lines that come too early or too late.

use super::Near;
use crate::edits::Edits;
use crate::line_changes::{line_moved_down, line_moved_up};
use crate::mistake::Mistake;
use crate::row::Row;
use crate::spelling::line_as_it_is;
use std::alloc::AllocError;

// Across how many lines one is moved.
const FAR: usize = 3;

pub(crate) fn add_moves(edits: &mut Edits, near: Near<'_>) -> Result<(), AllocError> {
    if near.row.received().is_none() {
        add_last_receipt(edits, near)?;
        add_next_receipt(edits, near)?;
    }
    for other in near.before.iter().rev().take(FAR) {
        if !may_pass(near.row, other) {
            break;
        }
        add_up(edits, near, near.row, other)?;
    }
    for other in near.behind.iter().take(FAR) {
        if !may_pass(near.row, other) {
            break;
        }
        add_down(edits, near, near.row, other)?;
    }
    Ok(())
}

// Receipts keep their order: their hints would fall.
fn may_pass(row: &Row, other: &Row) -> bool {
    row.received().is_none() || other.received().is_none()
}

// The last receipt in front of the refused record belongs after it, or further on.
fn add_last_receipt(edits: &mut Edits, near: Near<'_>) -> Result<(), AllocError> {
    let Some(row) = last_receipt(near.before) else {
        return Ok(());
    };
    add_down(edits, near, row, near.row)?;
    for other in near.behind.iter().take(FAR) {
        if !may_pass(row, other) {
            return Ok(());
        }
        add_down(edits, near, row, other)?;
    }
    Ok(())
}

pub(crate) fn last_receipt(rows: &[Row]) -> Option<&Row> {
    for row in rows.iter().rev() {
        if row.received().is_some() {
            return Some(row);
        }
    }
    None
}

// The unit after that of the last receipt.
pub(crate) fn lowest_unit(before: &[Row]) -> u64 {
    match last_receipt(before) {
        Some(row) => match row.received() {
            Some(unit) => unit.saturating_add(1),
            None => 0,
        },
        None => 0,
    }
}

// The next receipt belongs in front of the refused record, or further in front.
fn add_next_receipt(edits: &mut Edits, near: Near<'_>) -> Result<(), AllocError> {
    let Some(row) = first_receipt(near.behind) else {
        return Ok(());
    };
    add_up(edits, near, row, near.row)?;
    for other in near.before.iter().rev().take(FAR) {
        if !may_pass(row, other) {
            return Ok(());
        }
        add_up(edits, near, row, other)?;
    }
    Ok(())
}

pub(crate) fn first_receipt(rows: &[Row]) -> Option<&Row> {
    for row in rows {
        if row.received().is_some() {
            return Some(row);
        }
    }
    None
}

fn add_up(edits: &mut Edits, near: Near<'_>, row: &Row, other: &Row) -> Result<(), AllocError> {
    let (line, before) = (row.line, other.line);
    if line <= before {
        return Ok(());
    }
    let Some(put) = line_as_it_is(near.alloc, row)? else {
        return Ok(());
    };
    let changes = line_moved_up(near.alloc, line, before, put)?;
    edits.add(near.side, Mistake::TooLate { line, before }, changes)
}

fn add_down(edits: &mut Edits, near: Near<'_>, row: &Row, other: &Row) -> Result<(), AllocError> {
    let (line, behind) = (row.line, other.line);
    if behind <= line {
        return Ok(());
    }
    let Some(put) = line_as_it_is(near.alloc, row)? else {
        return Ok(());
    };
    let changes = line_moved_down(near.alloc, line, behind, put)?;
    edits.add(near.side, Mistake::TooEarly { line, behind }, changes)
}
