//! The rows of a ladder, as they are drawn.

ghost use Rattle.std.specs.Prelude.{◌≡◌, [], IfOk, OnOk};
ghost use Rattle.circular_buffer.specs.Buffer.{last_item};
ghost use Rattle.ladder.specs.Drawn as spec;
ghost use Rattle.ladder.specs.Row.{joined_all, last_joined, with_record};

use crate::order::in_order;
use crate::row::Row;
use crate::rows::{Keep, Rows};
use std::alloc::{AllocError, Global};
use std::marker::Model;

/// The rows of a ladder: each kept record once, those of a side in the order of its capture, and a receipt in the row of its sending or
/// below it.
#[derive(Drop)]
pub struct Drawn {
    rows: Vec<Row>,
    ended: bool,
}

impl Model for Drawn {
    ghost use Rattle.ladder.specs.Drawn.{DrawnView};

    ghost Value = { DrawnView };

    ghost view = { λ d. record { rows = d.rows.items; ended = d.ended } };
}

impl Drawn {
    ghost use Rattle.std.specs.Prelude.{is_some, length, option_copied, slice_get};

    // Those of the records that are kept.
    pub(crate) fn new(alloc: Global, kept: &Rows, ended: bool) -> Result<Drawn, AllocError>
        ensures { IfOk result (λ drawn. spec.IsDrawn kept.now ended drawn) }
    {
        let told = kept.told(alloc)?;
        let order = in_order(alloc, told, is_from(kept.keep()))?;
        let rows = joined_rows(alloc, &order)?;
        let mut drawn = Drawn { rows, ended };
        drawn.cut(kept.keep(), kept.room());
        Ok(drawn)
    }

    // At most so many rows are left.
    fn cut(&mut self, keep: Keep, room: usize)
        ensures { self.new ≡ record self.old { rows = spec.cut keep room self.old.rows } }
    {
        match keep {
            Keep::Last => {
                let count = self.rows.len().saturating_sub(room);
                self.rows.drain(..count);
            }
            Keep::First | Keep::From { .. } => self.rows.truncate(room),
        }
    }

    /// How many rows there are.
    pub fn len(&self) -> usize
        ensures { result ≡ length self.now.rows }
    {
        self.rows.len()
    }

    /// Whether no record was left to be told, so that a unit which has not come never comes.
    pub fn has_ended(&self) -> bool
        ensures { result ≡ self.now.ended }
    {
        self.ended
    }

    /// The row with this number, from 0 on.
    pub fn row(&self, index: usize) -> Option<&Row>
        ensures { option_copied result ≡ slice_get self.now.rows index }
    {
        self.rows.get(index)
    }

    /// The text of the row with this number, as [`Row::text`] writes it; `None` where there is no such row.
    pub fn text(&self, alloc: Global, index: usize) -> Result<Option<String>, AllocError>
        ensures { IfOk result (λ text. is_some text ≡ is_some (slice_get self.now.rows index)) }
    {
        match self.row(index) {
            Some(row) => Ok(Some(row.text(alloc, self.ended)?)),
            None => Ok(None),
        }
    }
}

fn is_from(keep: Keep) -> bool {
    match keep {
        Keep::Last | Keep::First => false,
        Keep::From { .. } => true,
    }
}

// These records one below the other, with each receipt in the row of its sending where it is the next record.
#[tactic(auto, using(crate::proofs::Orders::joined_taken))]
fn joined_rows(alloc: Global, order: &[Row]) -> Result<Vec<Row>, AllocError>
    ensures { IfOk result (λ rows. rows.items ≡ joined_all [] order.now) }
{
    let mut rows = Vec::new(alloc);
    for index in 0..order.len() {
        add(&mut rows, &order[index])?;
    }
    Ok(rows)
}

// One more record. `AllocError` where there is no memory for its row.
fn add(rows: &mut Vec<Row>, next: &Row) -> Result<(), AllocError>
    ensures { OnOk result (rows.new.items ≡ with_record rows.old.items next.now) }
{
    match joined_last(rows, next) {
        Some(both) => {
            rows.pop();
            rows.push(both)?;
            Ok(())
        }
        None => {
            rows.push(*next)?;
            Ok(())
        }
    }
}

// The last row with the next record in it, where that is the receipt of its unit.
fn joined_last(rows: &[Row], next: &Row) -> Option<Row>
    ensures { result ≡ last_joined (last_item rows.now) next.now }
{
    match rows.last() {
        Some(last) => last.with_next(next),
        None => None,
    }
}
