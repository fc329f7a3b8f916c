//! The records that a ladder keeps, each in a row of its own.

ghost use Rattle.std.specs.Prelude.{◌≡◌, ◌≤◌, ◌*◌, [], ◌∷◌, ◌++◌, IfOk, length};
ghost use Rattle.ladder.specs.Rows as spec;

use crate::row::Row;
use crate::sides::is_side;
use crate::told::Told;
use circular_buffer::HeapCircularBuffer;
use std::alloc::{AllocError, Global};
use std::marker::Model;
use wire_base::Side;

// So many records are kept for each row that may be drawn: a row has two at most, and some more tell better how those near the end are placed.
const RECORDS: usize = 4;

/// Which rows a ladder draws.
#[derive(Clone, Copy)]
pub enum Keep {
    /// The last rows.
    Last,
    /// The first rows.
    First,
    /// The first rows, starting with the record on this line of this side's capture.
    From { side: Side, line: u64 },
}

/// Whether a record that is told is kept.
#[derive(Clone, Copy)]
pub enum Phase {
    /// The one from which on they are kept is still to come.
    Before,
    /// It is kept.
    Open,
    /// It is not, nor is any after it.
    Closed,
}

/// The records that are kept, in the order in which they were told.
#[derive(Drop)]
pub struct Rows {
    keep: Keep,
    phase: Phase,
    // How many rows are drawn at most.
    room: usize,
    rows: HeapCircularBuffer<Row>,
}

impl Model for Rows {
    ghost use Rattle.std.specs.Prelude.{◌≡◌, ◌≤◌, ◌*◌};
    ghost use Rattle.ladder.specs.Rows.{Kept};
    ghost use Rattle.ladder.specs.declared.rows.TheConstants.{RECORDS};

    ghost Value = { Kept };

    ghost view = { λ r. record { keep = r.keep; phase = r.phase; rows = r.rows.items; room = r.room } };

    ghost invariant = { λ r. (1 ≤ r.room) × (r.rows.capacity ≡ RECORDS * r.room) };
}

impl Rows {
    /// No record yet, where so many rows are drawn at most, 1 to 200. `AllocError` where there is no memory for the records.
    pub fn new(alloc: Global, keep: Keep, room: usize) -> Result<Rows, AllocError>
        requires low { 1 ≤ room }
        requires high { room ≤ 200 }
        ensures { IfOk result (λ made. made ≡ spec.no_rows keep room) }
    {
        Ok(Rows {
            keep,
            phase: first_phase(keep),
            room,
            rows: HeapCircularBuffer::with_capacity(alloc, RECORDS * room)?,
        })
    }

    /// The next record was made. Takes no memory.
    pub fn made(&mut self, told: &Told)
        ensures { self.new ≡ spec.with_made self.old told.now }
    {
        self.go_on(Row::alone(*told, false), told);
    }

    /// The next record was refused, with `changed` for bytes that are not those of its unit and show no damage. Takes no memory.
    pub fn refused(&mut self, told: &Told, changed: bool)
        ensures { self.new ≡ spec.with_refused self.old told.now changed }
    {
        self.go_on(Row::of_refused(*told, changed), told);
    }

    // This row is next, which has this record.
    fn go_on(&mut self, row: Row, told: &Told)
        ensures { self.new ≡ spec.going_on self.old (self.old.rows ++ row ∷ []) told.now }
    {
        match self.phase {
            Phase::Before => {
                self.rows.push_back(row);
                self.leave_last(told);
            }
            Phase::Open => self.append(row),
            Phase::Closed => {}
        }
    }

    // Only the last row is left, which begins the rows that are kept if it has the named record.
    fn leave_last(&mut self, told: &Told)
        ensures { self.new ≡ spec.beginning self.old self.old.rows told.now }
    {
        self.rows.truncate_front(1);
        self.phase = phase_at(self.keep, told);
    }

    // The row comes after the others, in the place of the first one where there is no room and the last are kept.
    fn append(&mut self, row: Row)
        ensures { self.new ≡ spec.opened self.old.keep self.old (self.old.rows ++ row ∷ []) }
    {
        match self.keep {
            Keep::Last => {
                self.rows.push_back(row);
            }
            Keep::First | Keep::From { .. } => self.fill(row),
        }
    }

    // The row comes after the others, if there is room.
    #[tactic(auto, using(crate::proofs::Keeping::fills, crate::proofs::Keeping::closes))]
    fn fill(&mut self, row: Row)
        ensures { self.new ≡ spec.filling self.old (self.old.rows ++ row ∷ []) }
    {
        match self.rows.try_push_back(row) {
            Ok(()) => {}
            Err(_) => self.phase = Phase::Closed,
        }
    }

    /// What becomes of the units in the rows where this side receives the one with the hint's number. Takes no memory.
    pub fn pass(&mut self, receiver: Side, hint: u64)
        ensures { self.new ≡ spec.passed_in self.old receiver hint }
    {
        for index in 0..self.rows.len() {
            let Some(row) = self.rows.get_mut(index) else {
                unreachable!();
            };
            row.pass(receiver, hint);
        }
    }

    /// How many rows are drawn at most.
    pub fn room(&self) -> usize
        ensures { result ≡ self.now.room }
    {
        self.room
    }

    /// Which rows are drawn.
    pub fn keep(&self) -> Keep
        ensures { result ≡ self.now.keep }
    {
        self.keep
    }

    /// A copy of the records. `AllocError` where there is no memory for it.
    pub fn told(&self, alloc: Global) -> Result<Vec<Row>, AllocError>
        ensures { IfOk result (λ rows. rows.items ≡ spec.shown self.now) }
    {
        match self.phase {
            Phase::Before => Ok(Vec::new(alloc)),
            Phase::Open | Phase::Closed => self.copied(alloc),
        }
    }

    fn copied(&self, alloc: Global) -> Result<Vec<Row>, AllocError>
        ensures { IfOk result (λ rows. rows.items ≡ self.now.rows) }
    {
        let mut rows = Vec::new(alloc);
        for index in 0..self.rows.len() {
            let Some(row) = self.rows.get(index) else {
                unreachable!();
            };
            rows.push(*row)?;
        }
        Ok(rows)
    }
}

// A row that comes at the beginning is kept, but where a record is named.
fn first_phase(keep: Keep) -> Phase
    ensures { result ≡ spec.first_phase keep }
{
    match keep {
        Keep::Last | Keep::First => Phase::Open,
        Keep::From { .. } => Phase::Before,
    }
}

// Whether the rows begin with this record.
fn phase_at(keep: Keep, told: &Told) -> Phase
    ensures { result ≡ spec.phase_at keep told.now }
{
    match keep {
        Keep::Last | Keep::First => Phase::Before,
        Keep::From { side, line } => {
            if is_side(told.side, side) && told.line == line {
                return Phase::Open;
            }
            Phase::Before
        }
    }
}
