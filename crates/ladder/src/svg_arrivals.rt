//! What becomes of a unit, in the rows that a picture has.

use crate::drawn::Drawn;
use crate::row::{Fate, Row};
use crate::said::Said;
use crate::sides::faces;
use crate::svg_places::Places;
use crate::told::What;
use capture_record::Fate as Became;
use wire_base::Side;

/// Where a unit came: the level of that record, its line, what came, what became of its packet, and whether other bytes came than were sent,
/// although they may read alike.
#[derive(Clone, Copy)]
pub struct Arrival {
    pub level: usize,
    pub line: u64,
    pub said: Said,
    pub became: Became,
    pub changed: bool,
}

impl Arrival {
    /// Whether what came is not this, which was sent.
    pub fn is_other_than(self, sent: Said) -> bool {
        self.changed || self.said != sent
    }
}

/// Where the unit that the row with this number sends comes, if that is drawn.
pub fn arrival_of(drawn: &Drawn, places: &Places, index: usize) -> Option<Arrival> {
    let row = drawn.row(index)?;
    let What::Sent { unit, .. } = row.told.what else {
        return None;
    };
    match row.fate {
        Fate::Here(receipt) => Some(Arrival {
            level: places.of(index).receipt,
            line: receipt.line,
            said: receipt.said,
            became: receipt.became,
            changed: false,
        }),
        Fate::Open | Fate::Came | Fate::Lost => arrival_below(drawn, places, row.told.side, unit),
    }
}

fn arrival_below(drawn: &Drawn, places: &Places, sender: Side, unit: u64) -> Option<Arrival> {
    for index in 0..drawn.len() {
        if let Some(row) = drawn.row(index)
            && let What::Came {
                hint,
                became,
                said,
                sent: Some(_),
            } = row.told.what
            && faces(sender, row.told.side)
            && hint == unit
        {
            return Some(Arrival {
                level: places.of(index).told,
                line: row.told.line,
                said,
                became,
                changed: row.changed,
            });
        }
    }
    None
}

/// What becomes of a unit whose receipt is not drawn.
#[derive(Clone, Copy)]
pub enum Ending {
    /// Nothing, since it was not sent: its record is refused.
    Refused,
    /// It never comes.
    Lost,
    /// It comes after what is drawn.
    Later,
    /// It may come.
    Open,
}

impl Ending {
    /// What becomes of the unit of a row. `ended`: no record was left to be told.
    pub fn of(row: &Row, ended: bool) -> Ending {
        if row.refused {
            return Ending::Refused;
        }
        match row.fate {
            Fate::Lost => Ending::Lost,
            Fate::Came | Fate::Here(_) => Ending::Later,
            Fate::Open => match ended {
                true => Ending::Lost,
                false => Ending::Open,
            },
        }
    }

    /// What is said of it, after the words of the unit.
    pub fn note(self) -> &'static str {
        match self {
            Ending::Refused => "",
            Ending::Lost => " lost",
            Ending::Later => " (comes later)",
            Ending::Open => " (not come yet)",
        }
    }
}
