//! A row of the ladder.

ghost use Rattle.std.specs.Prelude.{◌≡◌};
ghost use Rattle.ladder.specs.Row as spec;

use crate::said::Said;
use crate::sides::faces;
use crate::told::{Told, What};
use capture_record::Fate as Became;
use dna_station::State;
use wire_base::Side;

/// A row: one record, or the sending of a unit and its receipt, where that is the next record.
#[derive(Clone, Copy)]
pub struct Row {
    /// The record; the sending, where there are two.
    pub told: Told,
    /// What became of the unit that the record sent: `Open` of a record that sent none.
    pub fate: Fate,
    /// Whether the record was refused, and not made.
    pub refused: bool,
    /// Whether it is a receipt of other bytes than those of its unit, which no block check shows: that was refused for them.
    pub changed: bool,
}

/// What became of a unit that was sent, by the records told since.
#[derive(Clone, Copy)]
pub enum Fate {
    /// It may still come.
    Open,
    /// Its receipt is the next record, and is in the same row.
    Here(Receipt),
    /// Its receipt was told later.
    Came,
    /// A later unit came before it, so it never comes.
    Lost,
}

/// The receipt of a unit in the row of its sending.
#[derive(Clone, Copy)]
pub struct Receipt {
    /// Which line of the receiver's capture it is on.
    pub line: u64,
    /// What became of the packet.
    pub became: Became,
    /// What the bytes say that came.
    pub said: Said,
    /// The state of the receiver's station after it.
    pub state: State,
}

impl Row {
    /// A row of this record alone.
    pub fn alone(told: Told, refused: bool) -> Row
        ensures { result ≡ spec.alone told refused }
    {
        Row {
            told,
            fate: Fate::Open,
            refused,
            changed: false,
        }
    }

    /// A row of this record alone, which was refused, and with `changed` for bytes that are not those of its unit and show no damage.
    pub fn of_refused(told: Told, changed: bool) -> Row
        ensures { result ≡ spec.of_refused told changed }
    {
        Row {
            told,
            fate: Fate::Open,
            refused: true,
            changed,
        }
    }

    /// This row with the record of the next one in it too, where that was made and is the receipt of the unit that this row sent.
    pub fn with_next(&self, next: &Row) -> Option<Row>
        ensures { result ≡ spec.with_next self.now next.now }
    {
        if next.refused {
            return None;
        }
        self.joined(&next.told)
    }

    // This row with the next record in it too, where that is the receipt of the unit that the row sent.
    fn joined(&self, next: &Told) -> Option<Row>
        ensures { result ≡ spec.joined self.now next.now }
    {
        let What::Came {
            hint,
            became,
            said,
            ..
        } = next.what
        else {
            return None;
        };
        if !self.sends(next.side, hint) {
            return None;
        }
        Some(Row {
            told: self.told,
            fate: Fate::Here(Receipt {
                line: next.line,
                became,
                said,
                state: next.state,
            }),
            refused: self.refused,
            changed: self.changed,
        })
    }

    // Whether the row sent the unit with this number to this side, where it came in another row.
    fn sends(&self, receiver: Side, hint: u64) -> bool
        ensures { result ≡ spec.sends self.now receiver hint }
    {
        match (self.told.what, self.fate) {
            (What::Sent { unit, .. }, Fate::Came) => {
                faces(self.told.side, receiver) && unit == hint
            }
            _ => false,
        }
    }

    /// What becomes of the row's unit where this side receives the unit with the hint's number: that one comes, and one with a lower
    /// number never does.
    pub fn pass(&mut self, receiver: Side, hint: u64)
        ensures { self.new ≡ spec.passed receiver hint self.old }
    {
        if let What::Sent { unit, .. } = self.told.what
            && faces(self.told.side, receiver)
        {
            self.fate = after(self.fate, unit, hint);
        }
    }
}

// What becomes of a unit where the one with the hint's number comes.
fn after(fate: Fate, unit: u64, hint: u64) -> Fate
    ensures { result ≡ spec.after hint unit fate }
{
    match fate {
        Fate::Open => open_after(unit, hint),
        _ => fate,
    }
}

fn open_after(unit: u64, hint: u64) -> Fate
    ensures { result ≡ spec.open_after hint unit }
{
    if unit == hint {
        return Fate::Came;
    }
    if unit < hint {
        return Fate::Lost;
    }
    Fate::Open
}
