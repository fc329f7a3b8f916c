//! Receipts that are missing.

use super::Near;
use super::hints::add_next_distance;
use super::moves::{first_receipt, lowest_unit};
use crate::edits::Edits;
use crate::line_changes::put_before;
use crate::mistake::Mistake;
use crate::row::{Damage, Row};
use crate::spelling::receipt_line;
use capture_record::Fate;
use std::alloc::AllocError;

// How many bytes the header of a unit has, with its check.
const HEADER_LEN: usize = 8;

// How many units that have no receipt are looked at in front of the refused record.
const UNITS: usize = 4;

// How a unit of data begins: no other one has a packet that could be kept.
const DATA: u8 = 0x81;

// A receipt belongs in front of this row; the next one is that, where it is at hand.
#[derive(Clone, Copy)]
struct Place<'r> {
    row: &'r Row,
    next: Option<&'r Row>,
}

// The receipts of units that have none, in front of the refused record. In format 2 the next receipt has to be at hand, or the later ones would be
// shifted.
pub(crate) fn add_receipts(
    edits: &mut Edits,
    near: Near<'_>,
    damage: Option<Damage>,
) -> Result<(), AllocError> {
    let next = next_receipt(near);
    if near.row.is_told_by_distance() && next.is_none() {
        return Ok(());
    }
    let place = Place {
        row: near.row,
        next,
    };
    let low = lowest_unit(near.before);
    let mut seen: usize = 0;
    for sent in near.other {
        let Some(unit) = sent.sent() else {
            continue;
        };
        if unit < low {
            continue;
        }
        if seen == UNITS || is_taken(next, unit) {
            return Ok(());
        }
        seen = seen.saturating_add(1);
        add_each(edits, near, place, sent, (unit, damage), true)?;
    }
    Ok(())
}

// Those of units that the receipts in front of the refused record pass over, each in front of the next one, the last unit first.
pub(crate) fn add_earlier_receipts(
    edits: &mut Edits,
    near: Near<'_>,
    damage: Option<Damage>,
) -> Result<(), AllocError> {
    let mut next: Option<&Row> = None;
    for row in near.before.iter().rev() {
        let Some(unit) = row.received() else {
            continue;
        };
        if let Some(next) = next {
            add_passed_over(edits, near, unit, next, damage)?;
        }
        next = Some(row);
    }
    Ok(())
}

// Those of the units between this one and that of the next receipt.
fn add_passed_over(
    edits: &mut Edits,
    near: Near<'_>,
    last: u64,
    next: &Row,
    damage: Option<Damage>,
) -> Result<(), AllocError> {
    let place = Place {
        row: next,
        next: Some(next),
    };
    for sent in near.other.iter().rev() {
        let Some(unit) = sent.sent() else {
            continue;
        };
        if unit <= last {
            return Ok(());
        }
        if !is_taken(Some(next), unit) {
            let may_be_kept = sent.bytes.first() == Some(&DATA);
            add_each(edits, near, place, sent, (unit, damage), may_be_kept)?;
        }
    }
    Ok(())
}

// What may have become of a unit that came to this place.
fn add_each(
    edits: &mut Edits,
    near: Near<'_>,
    place: Place<'_>,
    sent: &Row,
    came: (u64, Option<Damage>),
    may_be_kept: bool,
) -> Result<(), AllocError> {
    let (unit, damage) = came;
    if let Some(damage) = damage {
        add_damaged(edits, near, place, sent, (unit, damage))?;
    }
    if may_be_kept {
        add_receipt(edits, near, place, sent, (Fate::Kept, unit))?;
    }
    add_receipt(edits, near, place, sent, (Fate::NotKept, unit))
}

// Whether the next receipt is of this unit or a lower one.
fn is_taken(next: Option<&Row>, unit: u64) -> bool {
    match next {
        Some(row) => match row.received() {
            Some(next) => next <= unit,
            None => false,
        },
        None => false,
    }
}

// The refused record or the first one after it that is a receipt.
fn next_receipt<'r>(near: Near<'r>) -> Option<&'r Row> {
    if near.row.received().is_some() {
        return Some(near.row);
    }
    first_receipt(near.behind)
}

fn add_receipt(
    edits: &mut Edits,
    near: Near<'_>,
    place: Place<'_>,
    sent: &Row,
    entry: (Fate, u64),
) -> Result<(), AllocError> {
    let (fate, unit) = entry;
    let mistake = Mistake::ReceiptMissing {
        before: place.row.line,
        fate,
        unit,
        like: sent.line,
    };
    add_receipt_line(edits, near, place, mistake, (entry, &sent.bytes))
}

// The unit came with other bytes, so that a check of it failed.
fn add_damaged(
    edits: &mut Edits,
    near: Near<'_>,
    place: Place<'_>,
    sent: &Row,
    damaged: (u64, Damage),
) -> Result<(), AllocError> {
    let (unit, damage) = damaged;
    let mut bytes = sent.bytes.to_vec(near.alloc)?;
    if !turn_bit(&mut bytes, damage) {
        return Ok(());
    }
    let mistake = Mistake::DamagedMissing {
        before: place.row.line,
        unit,
        like: sent.line,
    };
    add_receipt_line(edits, near, place, mistake, ((Fate::NotKept, unit), &bytes))
}

// Turns a bit of the check: whether the unit has that check.
fn turn_bit(bytes: &mut [u8], damage: Damage) -> bool {
    let len = bytes.len();
    let at = match damage {
        Damage::Header => HEADER_LEN - 1,
        Damage::Body if len > HEADER_LEN => len - 1,
        Damage::Body => len,
    };
    if at >= len {
        return false;
    }
    bytes[at] ^= 1;
    true
}

// A receipt in its place.
fn add_receipt_line(
    edits: &mut Edits,
    near: Near<'_>,
    place: Place<'_>,
    mistake: Mistake,
    receipt: ((Fate, u64), &[u8]),
) -> Result<(), AllocError> {
    let (entry, bytes) = receipt;
    let Place { row, next } = place;
    let Some(put) = receipt_line(near.alloc, row.form, entry, bytes)? else {
        return Ok(());
    };
    let mut changes = put_before(near.alloc, row.line, put)?;
    if let Some(next) = next {
        let passed = next.line.saturating_sub(row.line);
        add_next_distance(&mut changes, near, entry.1, passed, next)?;
    }
    edits.add(near.side, mistake, changes)
}
