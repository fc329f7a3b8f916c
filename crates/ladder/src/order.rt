//! In which order records are drawn: those that depend on each other as they were told, and the others so that few arrows cross.

ghost use Rattle.std.specs.Prelude.{◌≡◌, ◌≤◌, ◌<◌, IfOk, IsTrue, length};
ghost use Rattle.std.specs.List.{list_all};
ghost use Rattle.ladder.specs.declared.row.Row.{Row as RowView};
ghost use Rattle.ladder.specs.Order as spec;

use crate::row::Row;
use crate::sides::{faces, is_side};
use crate::told::What;
use std::alloc::{AllocError, Global};
use wire_base::Side;

/// The told records in the order in which they are drawn, the first one first where `pinned`. `AllocError` where there is no memory for it.

pub fn in_order(alloc: Global, told: Vec<Row>, pinned: bool) -> Result<Vec<Row>, AllocError>
    ensures { IfOk result (λ order. spec.IsOrder told.items order.items) }
{
    let mut left = told;
    let mut order = Vec::new(alloc);
    while 0 < left.as_slice().len() {
        let place = place_of_next(&left, order.last(), pinned);
        let row = left.remove(place);
        order.push(row)?;
    }
    Ok(order)
}

// Which of these records is drawn next.
fn place_of_next(left: &[Row], above: Option<&Row>, pinned: bool) -> usize
    requires { 1 ≤ length left.now }
    ensures within { result < length left.now }
    ensures first { (row : RowView) × spec.MayBeFirst left.now result row }
{
    let place = match above {
        Some(above) => wished_below(left, above),
        None if pinned => 0,
        None => wished(left),
    };
    if may_be_first(left, place) {
        return place;
    }
    let Some(_first) = left.get(0) else {
        unreachable!();
    };
    0
}

// Whether the record in this place may be drawn above all others.
fn may_be_first(left: &[Row], place: usize) -> bool
    ensures within { IsTrue result → place < length left.now }
    ensures first { IsTrue result → (row : RowView) × spec.MayBeFirst left.now place row }
{
    let Some(row) = left.get(place) else {
        return false;
    };
    may_pass_all(row, &left[..place])
}

fn may_pass_all(row: &Row, before: &[Row]) -> bool
    ensures { result ≡ list_all (spec.may_pass row.now) before.now }
{
    let mut all = true;
    for index in 0..before.len() {
        all = all && may_pass(row, &before[index]);
    }
    all
}

// Whether a record may be drawn above one that was told before it.
fn may_pass(row: &Row, before: &Row) -> bool
    ensures { result ≡ spec.may_pass row.now before.now }
{
    if is_side(before.told.side, row.told.side) {
        return false;
    }
    if rests_on(row.told.what, before.told.what) {
        return false;
    }
    true
}

// Whether by the first record comes what the second one sent, if the other side made it.
fn rests_on(what: What, before: What) -> bool
    ensures { result ≡ spec.rests_on what before }
{
    match (what, before) {
        (What::Came { hint, .. }, What::Sent { unit, .. }) => hint == unit,
        _ => false,
    }
}

// The record that should be drawn below this one: the receipt of its unit, if that is next on its side.
fn wished_below(left: &[Row], above: &Row) -> usize {
    let place = first_of(left, above.told.side.other());
    if let Some(row) = left.get(place)
        && rests_on(row.told.what, above.told.what)
    {
        return place;
    }
    wished(left)
}

// The record that should be drawn next, as people like it: one of a that waits for nothing, else one of b, else the sending that comes
// soonest at the other side.
fn wished(left: &[Row]) -> usize {
    let a = first_of(left, Side::A);
    let b = first_of(left, Side::B);
    if waits_for_nothing(left, a) {
        return a;
    }
    if waits_for_nothing(left, b) {
        return b;
    }
    if records_before_receipt(left, a).unwrap_or(usize::MAX)
        <= records_before_receipt(left, b).unwrap_or(usize::MAX)
    {
        return a;
    }
    b
}

// The side's first record that was made.
fn first_of(left: &[Row], side: Side) -> usize {
    for index in 0..left.len() {
        let row = &left[index];
        if is_side(row.told.side, side) && !row.refused {
            return index;
        }
    }
    left.len()
}

// Whether the record neither rests on one that is left, nor sends what one brings that is left.
fn waits_for_nothing(left: &[Row], place: usize) -> bool {
    let Some(row) = left.get(place) else {
        return false;
    };
    match row.told.what {
        What::Sent { .. } => records_before_receipt(left, place).is_none(),
        What::Came { .. } => may_be_first(left, place),
        What::Noise { .. } | What::Composed { .. } | What::User { .. } => true,
    }
}

// How many records of the other side come before the receipt of the unit that this record sends; `None` where it sends none, or no record
// is its receipt.
fn records_before_receipt(left: &[Row], place: usize) -> Option<usize> {
    let sending = left.get(place)?;
    let mut count: usize = 0;
    for index in 0..left.len() {
        let row = &left[index];
        if faces(sending.told.side, row.told.side) && !row.refused {
            if rests_on(row.told.what, sending.told.what) {
                return Some(count);
            }
            count = count.saturating_add(1);
        }
    }
    None
}
