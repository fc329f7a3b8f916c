//! The answer of `cover` as a JSON object.

ghost use Rattle.printing.specs.Statuses.{EndsWith};

use crate::went::{Went, judge_went};
use coverage::{Counts, Hint, ORDER, Row, Setup, all_setups};
use json_text::{Elements, Members};
use printing::answers::print_object;
use printing::check::print_fault;
use printing::fault_told::FaultTold;
use printing::layers::Layers;
use printing::objects::verdict_object;
use printing::text::verdict_status;
use std::alloc::Global;
use std::io::{Read, Write};
use wire_base::Tally;

/// What was found of the pairs so far: the object of each verdict, how often each side went through each row in all of them, and whether one was
/// refused.
#[derive(Drop)]
pub struct CoveredObjects {
    pairs: Elements,
    a: Counts,
    b: Counts,
    status: u8,
}

impl CoveredObjects {
    /// No pair yet. Takes no memory.
    pub fn new(alloc: Global) -> CoveredObjects {
        CoveredObjects {
            pairs: Elements::new(alloc),
            a: Counts::new(),
            b: Counts::new(),
            status: 0,
        }
    }

    // One pair more, whose first file has this name.
    fn add(&mut self, alloc: Global, layers: Layers, name: &str, went: Went) {
        let object = verdict_object(alloc, layers, name, went.verdict);
        self.pairs.object(&object);
        self.a.add(&went.a);
        self.b.add(&went.b);
        self.status = self.status.max(verdict_status(went.verdict));
    }
}

/// Judges one more pair, and counts which rows each side went through. `Err`: there is no verdict. That was told to `err` as `check` tells it.
pub fn cover_object<A: Read, B: Read, E: Write>(
    alloc: Global,
    layers: Layers,
    name: &str,
    a: &mut Tally<A>,
    b: &mut Tally<B>,
    covered: &mut CoveredObjects,
    err: &mut Tally<E>,
) -> Result<(), FaultTold> {
    let went = match judge_went(alloc, layers, a, b) {
        Ok(went) => went,
        Err(fault) => {
            let status = print_fault(alloc, fault, err);
            return Err(FaultTold::of_judge(fault, status));
        }
    };
    covered.add(alloc, layers, name, went);
    Ok(())
}

/// Prints what was found of all pairs as one object, with hints also which of their rows are missing, and answers the status: 0 where all are
/// accepted, 1 where one is refused, and 3 where there is no memory for it or a write failed. No contract tells the object.
pub fn print_covered_object<O: Write, E: Write>(
    alloc: Global,
    covered: &CoveredObjects,
    hints: Option<&[Hint]>,
    out: &mut Tally<O>,
    err: &mut Tally<E>,
) -> u8
    ensures { EndsWith covered.now.status result }
{
    let object = covered_object(alloc, covered, hints);
    print_object(object, covered.status, out, err)
}

// The pairs, how many rows each side went through, how often through each, and which of those with hints are missing.
fn covered_object(alloc: Global, covered: &CoveredObjects, hints: Option<&[Hint]>) -> Members {
    let mut object = Members::new(alloc);
    object.text("what", "cover");
    object.array("pairs", &covered.pairs);
    let (of_a, of_b) = (covered.a.met_rows(), covered.b.met_rows());
    object.object("met", &of_both(alloc, of_a as u64, of_b as u64));
    object.array("rows", &rows_of(alloc, covered));
    if let Some(hints) = hints {
        object.array("missing", &missing_of(alloc, covered, hints));
        object.array("setups", &setups_of(alloc));
    }
    object
}

fn of_both(alloc: Global, of_a: u64, of_b: u64) -> Members {
    let mut both = Members::new(alloc);
    both.number("a", of_a);
    both.number("b", of_b);
    both
}

// The rows, with how often each side went through each.
fn rows_of(alloc: Global, covered: &CoveredObjects) -> Elements {
    let mut rows = Elements::new(alloc);
    for row in ORDER.iter() {
        let mut object = Members::new(alloc);
        object.shown("row", row);
        object.number("a", covered.a.of(*row));
        object.number("b", covered.b.of(*row));
        rows.object(&object);
    }
    rows
}

// The rows that neither side went through, with what meets each.
fn missing_of(alloc: Global, covered: &CoveredObjects, hints: &[Hint]) -> Elements {
    let mut missing = Elements::new(alloc);
    for hint in hints {
        let Hint(row, how) = *hint;
        if covered.a.of(row) > 0 || covered.b.of(row) > 0 {
            continue;
        }
        let mut object = Members::new(alloc);
        object.shown("row", &row);
        object.text("hint", how);
        missing.object(&object);
    }
    missing
}

// What the names in hints stand for.
fn setups_of(alloc: Global) -> Elements {
    let mut setups = Elements::new(alloc);
    for setup in all_setups() {
        let Setup(name, steps) = *setup;
        let mut object = Members::new(alloc);
        object.text("name", name);
        object.text("steps", steps);
        setups.object(&object);
    }
    setups
}
