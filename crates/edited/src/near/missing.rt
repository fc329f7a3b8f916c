//! Lines that are missing.

use super::Near;
use super::anew::add_wide_line;
use crate::edits::Edits;
use crate::line_changes::put_before;
use crate::mistake::Mistake;
use crate::row::{Due, Row};
use crate::spelling::line_of;
use capture::Format;
use capture_record::Entry;
use std::alloc::AllocError;
use wire_base::Side;

// Of how many units, the last ones, it may be one that has no `s` line.
const LAST_UNITS: u64 = 3;

// An `s` line of the other side, whose bytes the refused receipt has; or one of this side, whose bytes a receipt of the other side has.
pub(crate) fn add_sent(edits: &mut Edits, near: Near<'_>) -> Result<(), AllocError> {
    if near.row.received().is_some() {
        return add_sent_places(edits, near, (near.side.other(), near.other), near.row);
    }
    let highest = near.row.units;
    for receipt in near.other.iter().rev() {
        let Some(unit) = receipt.received() else {
            continue;
        };
        if unit == highest {
            add_sent_place(edits, near, near.side, near.row.line, (unit, receipt))?;
        }
        if unit <= highest && highest.saturating_sub(unit) < LAST_UNITS {
            add_sent_places(edits, near, (near.side, near.before), receipt)?;
        }
    }
    Ok(())
}

// Of a unit that a receipt has: in front of each line between the units before it and after it, the last one first.
fn add_sent_places(
    edits: &mut Edits,
    near: Near<'_>,
    sender: (Side, &[Row]),
    receipt: &Row,
) -> Result<(), AllocError> {
    let (side, rows) = sender;
    let Some(unit) = receipt.received() else {
        return Ok(());
    };
    for row in rows.iter().rev() {
        if row.units < unit {
            return Ok(());
        }
        if row.units == unit {
            add_sent_place(edits, near, side, row.line, (unit, receipt))?;
        }
    }
    Ok(())
}

fn add_sent_place(
    edits: &mut Edits,
    near: Near<'_>,
    side: Side,
    before: u64,
    sent: (u64, &Row),
) -> Result<(), AllocError> {
    let (unit, receipt) = sent;
    let Some(put) = line_of(near.alloc, Entry::Sent, &receipt.bytes)? else {
        return Ok(());
    };
    let changes = put_before(near.alloc, before, put)?;
    let like = receipt.line;
    edits.add(side, Mistake::SentMissing { before, unit, like }, changes)
}

// The lines that bytes near by tell of, and in front of the refused record `u start` and `u halt`. What format 3 alone has is put in in that.
pub(crate) fn add_user(edits: &mut Edits, near: Near<'_>, due: &[Due]) -> Result<(), AllocError> {
    for line in due {
        add_user_line(edits, near, line.before, (line.entry, &line.bytes))?;
    }
    let before = near.row.line;
    add_user_line(edits, near, before, (Entry::Start, &[]))?;
    add_user_line(edits, near, before, (Entry::Halt, &[]))
}

pub(crate) fn add_user_line(
    edits: &mut Edits,
    near: Near<'_>,
    before: u64,
    line: (Entry, &[u8]),
) -> Result<(), AllocError> {
    let (entry, bytes) = line;
    let Some(put) = line_of(near.alloc, entry, bytes)? else {
        return Ok(());
    };
    if !Format::One.has(entry) {
        return add_wide_line(edits, near, before, (entry, put));
    }
    let changes = put_before(near.alloc, before, put)?;
    let mistake = match entry {
        Entry::Noise => Mistake::NoiseMissing { before },
        _ => Mistake::UserMissing { before, entry },
    };
    edits.add(near.side, mistake, changes)
}
