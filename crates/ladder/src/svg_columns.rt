//! The columns of words at both edges of a picture, with nothing but its arrows between them.

use crate::svg_parts::{MARGIN, WIDTH};
use wire_base::Side;

// How much a letter takes of a column, in hundredths: of words, and of a line number. Of the usual fonts whose letters have one width this is the
// widest.
const LETTER: usize = 663;

const DIGIT: usize = 542;

// How far words are from a time line, and a line number from them.
const APART: usize = 12;

// How broad a column is at least, and at most.
const LEAST: usize = 210;

const MOST: usize = 310;

/// The columns at both edges, each as broad as its labels want it, and not so broad that the arrows have no room.
#[derive(Clone, Copy)]
pub struct Columns {
    breadth: usize,
}

impl Columns {
    /// Those without labels.
    pub fn new() -> Columns {
        Columns { breadth: LEAST }
    }

    /// These, where they have to have room for a label with so many letters beside a line number with so many digits.
    pub fn with_label(self, digits: usize, letters: usize) -> Columns {
        let taken = digits
            .saturating_mul(DIGIT)
            .saturating_add(letters.saturating_mul(LETTER));
        let breadth = (taken / 100).saturating_add(MARGIN + 2 * APART + 1);
        Columns {
            breadth: self.breadth.max(breadth).min(MOST),
        }
    }

    /// Where the time line of this side is drawn.
    pub fn time_line(self, side: Side) -> usize {
        self.inside(side, 0)
    }

    /// So far from the time line of this side, to the middle.
    pub fn inside(self, side: Side, distance: usize) -> usize {
        match side {
            Side::A => self.breadth.saturating_add(distance),
            Side::B => WIDTH.saturating_sub(self.breadth).saturating_sub(distance),
        }
    }

    /// Where the words of a label of this side end at its time line.
    pub fn words(self, side: Side) -> usize {
        match side {
            Side::A => self.breadth.saturating_sub(APART),
            Side::B => WIDTH.saturating_sub(self.breadth).saturating_add(APART),
        }
    }
}

/// How many letters a label may have beside a line number with so many digits.
pub fn label_room(digits: usize) -> usize {
    let free = 100 * (MOST - MARGIN - 2 * APART);
    free.saturating_sub(digits.saturating_mul(DIGIT)) / LETTER
}
