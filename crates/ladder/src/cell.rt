//! What is at both sides of a row, and how its arrow ends.

ghost use Rattle.std.specs.Prelude.{◌≡◌};
ghost use Rattle.ladder.specs.Cell as spec;

use crate::note::Note;
use crate::row::{Fate, Row};
use crate::sides::is_side;
use crate::told::What;
use wire_base::Side;

/// What is at one side of a row: the line of its record, and a note beside it.
#[derive(Clone, Copy)]
pub struct Cell {
    pub line: u64,
    pub note: Note,
}

/// How the arrow of a unit ends that a row sent.
#[derive(Clone, Copy)]
pub enum End {
    /// The unit comes in this row.
    Here,
    /// It comes in another one, or it may come.
    Elsewhere,
    /// It never comes.
    Never,
}

impl Row {
    /// What is at this side; `None` where the row has no record of it.
    pub fn cell(&self, side: Side) -> Option<Cell>
        ensures { result ≡ spec.cell self.now side }
    {
        if is_side(self.told.side, side) {
            return Some(Cell {
                line: self.told.line,
                note: own_note(self.told.what),
            });
        }
        receipt_cell(self.fate)
    }

    /// How the arrow ends. With `ended` no record was left to be told, so that a unit which has not come never comes.
    pub fn end(&self, ended: bool) -> End
        ensures { result ≡ spec.end self.now ended }
    {
        match self.fate {
            Fate::Here(_) => End::Here,
            Fate::Came => End::Elsewhere,
            Fate::Lost => End::Never,
            Fate::Open => open_end(ended, self.refused),
        }
    }
}

// That of a unit which may come, unless no record is left.
fn open_end(ended: bool, refused: bool) -> End
    ensures { result ≡ spec.open_end ended refused }
{
    match (ended, refused) {
        (true, false) => End::Never,
        _ => End::Elsewhere,
    }
}

// The note of a row's first record.
fn own_note(what: What) -> Note
    ensures { result ≡ spec.own_note what }
{
    match what {
        What::Sent { .. } | What::Noise { .. } => Note::Nothing,
        What::Came { became, said, .. } => Note::of_receipt(became, said),
        What::Composed { .. } => Note::Composed,
        What::User { entry, bytes } => Note::User { entry, bytes },
    }
}

// The receipt in the row of its unit.
fn receipt_cell(fate: Fate) -> Option<Cell>
    ensures { result ≡ spec.receipt_cell fate }
{
    match fate {
        Fate::Here(receipt) => Some(Cell {
            line: receipt.line,
            note: Note::of_receipt(receipt.became, receipt.said),
        }),
        Fate::Open | Fate::Came | Fate::Lost => None,
    }
}
