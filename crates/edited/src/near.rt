//! Which edits are worth a try near a refused record.

ghost use Rattle.std.specs.Prelude.{◌<◌, length, IfSome};

mod anew;
mod hints;
mod letters;
mod missing;
mod moves;
mod receipts;

use crate::edits::Edits;
use crate::row::{Refused, Row, Stretch};
use std::alloc::{AllocError, Global};
use wire_base::Side;

/// What is known where a record of a side is refused: its side, the addresses of its head, the rows of this side in front of it, its own,
/// those after it, all receipts after it, if they are at hand, and the rows of the other side.
#[derive(Clone, Copy)]
pub(crate) struct Near<'r> {
    pub(crate) alloc: Global,
    pub(crate) side: Side,
    pub(crate) head: (u16, u16),
    pub(crate) before: &'r [Row],
    pub(crate) row: &'r Row,
    pub(crate) behind: &'r [Row],
    pub(crate) later: Option<&'r [Row]>,
    pub(crate) other: &'r [Row],
}

// The reason that no order of the records goes on.
const NO_ORDER: u64 = 4;

// Kinds of edits.
#[derive(Clone, Copy)]
enum Group {
    Letters,
    Sent,
    Receipts,
    Earlier,
    User,
    Moves,
    Hints,
    Anew,
}

/// The edits that are worth a try, the likeliest for this reason first; none where the refused record is not among the rows of its side.
///
/// `own` is of the side of the refused record, and `other` of the other side. Where no order of the records goes on (4), the record that
/// the other side comes to may as well be the wrong one, and edits of it come last. `AllocError` where there is no memory for an edit.
pub fn candidates(
    alloc: Global,
    side: Side,
    refused: &Refused,
    own: &Stretch,
    other: &Stretch,
) -> Result<Edits, AllocError> {
    let mut edits = Edits::new(alloc);
    if let Some(near) = near_of(alloc, side, own, other) {
        add_near(&mut edits, near, refused)?;
        if refused.reason == NO_ORDER
            && let Some(near) = near_of(alloc, side.other(), other, own)
        {
            add_near(&mut edits, near, refused)?;
        }
    }
    Ok(edits)
}

// What is known of the record that this side comes to; `None` where it is not among the rows.
fn near_of<'r>(
    alloc: Global,
    side: Side,
    own: &'r Stretch,
    other: &'r Stretch,
) -> Option<Near<'r>> {
    let at = place_of(&own.rows, own.line)?;
    Some(Near {
        alloc,
        side,
        head: (own.own, own.peer),
        before: &own.rows[..at],
        row: &own.rows[at],
        behind: &own.rows[at + 1..],
        later: rows_of(&own.later),
        other: &other.rows,
    })
}

fn rows_of(later: &Option<Vec<Row>>) -> Option<&[Row]> {
    match later {
        Some(rows) => Some(rows.as_slice()),
        None => None,
    }
}

// The edits near one record.
fn add_near(edits: &mut Edits, near: Near<'_>, refused: &Refused) -> Result<(), AllocError> {
    for group in order(refused.reason) {
        match group {
            Group::Letters => letters::add_letters(edits, near)?,
            Group::Sent => missing::add_sent(edits, near)?,
            Group::Receipts => receipts::add_receipts(edits, near, refused.damage)?,
            Group::Earlier => receipts::add_earlier_receipts(edits, near, refused.damage)?,
            Group::User => missing::add_user(edits, near, &refused.due)?,
            Group::Moves => moves::add_moves(edits, near)?,
            Group::Hints => hints::add_hints(edits, near)?,
            Group::Anew => anew::add_anew(edits, near)?,
        }
    }
    Ok(())
}

// Where the row of this line is.
fn place_of(rows: &[Row], line: u64) -> Option<usize>
    ensures { IfSome result (λ at. at < length rows.now) }
{
    for (at, row) in rows.iter().enumerate() {
        if row.line == line {
            return Some(at);
        }
    }
    None
}

// What a reason comes from, mostly, first; last come receipts that are missing further in front.
fn order(reason: u64) -> [Group; 8] {
    let [letters, sent, receipts] = [Group::Letters, Group::Sent, Group::Receipts];
    let [user, moves, hints] = [Group::User, Group::Moves, Group::Hints];
    let [anew, earlier] = [Group::Anew, Group::Earlier];
    match reason {
        2 => [hints, sent, letters, moves, receipts, user, anew, earlier],
        3..=5 => [sent, hints, moves, letters, receipts, user, anew, earlier],
        6 | 14 => [user, anew, receipts, moves, letters, sent, hints, earlier],
        7 => [sent, receipts, moves, letters, user, hints, anew, earlier],
        18..=26 => [user, anew, letters, moves, receipts, sent, hints, earlier],
        _ => [letters, moves, receipts, sent, hints, user, anew, earlier],
    }
}
