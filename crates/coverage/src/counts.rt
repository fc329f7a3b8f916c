//! How often each row was gone through.

ghost use Rattle.std.specs.Prelude.{◌≡◌, ◌+◌, [], min};
ghost use Rattle.coverage.specs.Counts.{AreCounts, MOST};
ghost use Rattle.coverage.specs.Text.{count_of, met_rows};
ghost use Rattle.coverage.specs.declared.row.Row.{Row};
ghost use Rattle.coverage.specs.inner.Met.{counted_in};

use crate::row::Row;

/// How many rows there are.
pub const ROWS: usize = 88;

/// How often each row was gone through, at its place. A count stops at 2^64 - 1.
#[derive(Clone, Copy, PartialEq, Eq)]
pub struct Counts {
    pub met: [u64; ROWS],
}

impl Counts {
    /// None of them yet.
    pub fn new() -> Counts
        ensures { AreCounts result.met [] }
    {
        Counts { met: [0; ROWS] }
    }

    /// This row was gone through, if there is one.
    #[inline(always)]
    pub(crate) fn count(&mut self, row: Option<Row>)
        ensures { self.new ≡ counted_in self.old row }
    {
        if let Some(row) = row {
            let place = row.place();
            self.met[place] = self.met[place].saturating_add(1);
        }
    }
    /// How often this row was gone through.
    pub fn of(&self, row: Row) -> u64
        ensures { result ≡ count_of self.now.met row }
    {
        self.met[row.place()]
    }

    /// How many rows were gone through.
    pub fn met_rows(&self) -> usize
        ensures { result ≡ met_rows self.now.met }
    {
        self.met.iter().filter(|count| **count > 0).count()
    }

    /// These and those of another pair.
    pub fn add(&mut self, other: &Counts)
        ensures { (row : Row) → count_of self.new.met row ≡ min (count_of self.old.met row + count_of other.now.met row) MOST }
    {
        for place in 0..ROWS {
            self.met[place] = self.met[place].saturating_add(other.met[place]);
        }
    }
}
