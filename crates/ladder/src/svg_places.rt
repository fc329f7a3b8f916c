//! Where the records of a picture are.

use crate::drawn::Drawn;
use crate::row::{Fate, Row};
use crate::sides::faces;
use crate::svg_parts::y_of;
use crate::told::What;
use std::alloc::{AllocError, Global};
use wire_base::Side;

// How far below the refused record the time lines end, and its box, in which there are two lines of words.
const LINES: usize = 9;

const CHECK: usize = 44;

/// Where the records of one row are, in steps below the first record: the record, and the receipt in its row, if there is one.
#[derive(Clone, Copy)]
pub struct Place {
    pub told: usize,
    pub receipt: usize,
}

/// Where the records of all rows are, and how many steps there are.
#[derive(Drop)]
pub struct Places {
    rows: Vec<Place>,
    next_a: usize,
    next_b: usize,
    has_refused: bool,
}

impl Places {
    /// Where the row with this number is.
    pub fn of(&self, index: usize) -> Place {
        match self.rows.get(index) {
            Some(place) => *place,
            None => Place {
                told: 0,
                receipt: 0,
            },
        }
    }

    /// Where the time lines end: at the refused record, which is below all others, if there is one.
    pub fn lines_end(&self) -> usize {
        let last = self.next_a.max(self.next_b);
        match self.has_refused {
            true => y_of(last.saturating_sub(1)).saturating_add(LINES),
            false => y_of(last),
        }
    }

    /// Where all rows end.
    pub fn bottom(&self) -> usize {
        let last = self.next_a.max(self.next_b);
        match self.has_refused {
            true => y_of(last.saturating_sub(1)).saturating_add(CHECK),
            false => y_of(last),
        }
    }

    // A side's next record goes here or below, and the one after it below that.
    fn put(&mut self, side: Side, least: usize) -> usize {
        let level = self.next(side).max(least);
        match side {
            Side::A => self.next_a = level.saturating_add(1),
            Side::B => self.next_b = level.saturating_add(1),
        }
        level
    }

    fn next(&self, side: Side) -> usize {
        match side {
            Side::A => self.next_a,
            Side::B => self.next_b,
        }
    }

    // Where a record of the row may be at best: below the sending of what came by it; a refused one below all.
    fn least(&self, drawn: &Drawn, row: &Row) -> usize {
        if row.refused {
            return self.next_a.max(self.next_b);
        }
        if let What::Came { hint, .. } = row.told.what
            && let Some(index) = row_of_unit(drawn, row.told.side, hint)
        {
            return self.of(index).told.saturating_add(1);
        }
        0
    }

    fn put_row(&mut self, drawn: &Drawn, row: &Row) -> Result<(), AllocError> {
        let side = row.told.side;
        let told = self.put(side, self.least(drawn, row));
        let receipt = match row.fate {
            Fate::Here(_) => self.put(side.other(), told.saturating_add(1)),
            Fate::Open | Fate::Came | Fate::Lost => told,
        };
        if row.refused {
            self.has_refused = true;
        }
        self.rows.push(Place { told, receipt })?;
        Ok(())
    }
}

/// Where the records of these rows are: below the one before on their side, and below the sending of what came.
pub fn places_of(alloc: Global, drawn: &Drawn) -> Result<Places, AllocError> {
    let mut places = Places {
        rows: Vec::new(alloc),
        next_a: 0,
        next_b: 0,
        has_refused: false,
    };
    for index in 0..drawn.len() {
        if let Some(row) = drawn.row(index) {
            places.put_row(drawn, row)?;
        }
    }
    Ok(places)
}

/// The row in which the unit of this hint is sent to this side.
pub fn row_of_unit(drawn: &Drawn, receiver: Side, hint: u64) -> Option<usize> {
    for index in 0..drawn.len() {
        if let Some(row) = drawn.row(index)
            && let What::Sent { unit, .. } = row.told.what
            && faces(row.told.side, receiver)
            && hint == unit
        {
            return Some(index);
        }
    }
    None
}
