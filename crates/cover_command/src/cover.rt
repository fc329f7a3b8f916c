//! `cover`: which rows of the rule tables pairs of captures went through.

ghost use Rattle.std.specs.Prelude.{◌≡◌, IfOk, OnOk, [], string_bytes};
ghost use Rattle.coverage.specs.Counts.{AreCounts};
ghost use Rattle.cover_command.specs.Covering as spec;
ghost use Rattle.printing.specs.NotOpened as names;
ghost use Rattle.printing.specs.Printed.{moved, stream_of};

use crate::went::{Went, judge_went};
use coverage::{Counts, Cover, Hint, Setup, judge_covered, missing_text, table};
use pair_judge::Verdict;
use printing::check::{print, print_fault, print_out_of_memory};
use printing::layers::Layers;
use printing::path_text::put_path;
use printing::text::{verdict_line, verdict_status};
use std::alloc::{AllocError, Global};
use std::io::{Read, Write};
use std::marker::Model;
use wire_base::{Side, Tally};

/// What was found of the pairs so far: the first line of each answer, how often each side went through each row in all of them, and whether one
/// was refused.
#[derive(Drop)]
pub struct Covered {
    lines: String,
    a: Counts,
    b: Counts,
    status: u8,
}

impl Model for Covered {
    ghost use Rattle.cover_command.specs.Covering.{CoveredView};
    ghost use Rattle.std.specs.Prelude.{string_bytes};

    ghost Value = { CoveredView };

    ghost view = { λ c. record { lines = string_bytes c.lines; a = c.a.met; b = c.b.met; status = c.status } };
}

impl Covered {
    /// No pair yet, and no row was gone through. Takes no memory.
    pub fn new(alloc: Global) -> Covered
        ensures lines { result.lines ≡ [] }
        ensures counts_a { AreCounts result.a [] }
        ensures counts_b { AreCounts result.b [] }
        ensures status { result.status ≡ 0 }
    {
        Covered {
            lines: String::new(alloc),
            a: Counts::new(),
            b: Counts::new(),
            status: 0,
        }
    }

    // One pair more. `AllocError`: there is no memory for its line, and nothing was added.
    fn add(&mut self, alloc: Global, verdict: Verdict, cover: &Cover) -> Result<(), AllocError>
        ensures { OnOk result (spec.IsAdded verdict cover.now self.old self.new) }
    {
        let line = verdict_line(alloc, verdict)?;
        self.lines.push_str(line.as_str())?;
        self.a.add(&cover.of_side(Side::A));
        self.b.add(&cover.of_side(Side::B));
        self.status = self.status.max(verdict_status(verdict));
        Ok(())
    }

    // One pair more, of which no contract tells the counts. `AllocError` as above.
    fn add_went(&mut self, alloc: Global, went: Went) -> Result<(), AllocError> {
        let line = verdict_line(alloc, went.verdict)?;
        self.lines.push_str(line.as_str())?;
        self.a.add(&went.a);
        self.b.add(&went.b);
        self.status = self.status.max(verdict_status(went.verdict));
        Ok(())
    }
}

/// Judges one more pair, and counts which rows each side went through.
///
/// `Err`: there is no verdict, or no memory for its line. That was told to `err` as `check` tells it, with this status, 2 or 3.
pub fn cover_pair<A: Read, B: Read, E: Write>(
    alloc: Global,
    a: &mut Tally<A>,
    b: &mut Tally<B>,
    covered: &mut Covered,
    err: &mut Tally<E>,
) -> Result<(), u8>
    ensures { spec.CoversPair (spec.pair_moved (moved A.remaining a.old a.new) (moved B.remaining b.old b.new)) covered.old covered.new
        (moved E.contents err.old err.new) result }
{
    let watched = match judge_covered(alloc, a, b) {
        Ok(watched) => watched,
        Err(fault) => return Err(print_fault(alloc, fault, err)),
    };
    let added = covered.add(alloc, watched.ends.verdict(), &watched.observer);
    watched.ends.let_go();
    match added {
        Ok(()) => Ok(()),
        Err(_) => Err(print_out_of_memory(err)),
    }
}

/// Judges one more pair over these layers, and counts which of their rows each side went through. `Err` as for `cover_pair`. No contract tells the
/// counts.
pub fn cover_pair_over<A: Read, B: Read, E: Write>(
    alloc: Global,
    layers: Layers,
    a: &mut Tally<A>,
    b: &mut Tally<B>,
    covered: &mut Covered,
    err: &mut Tally<E>,
) -> Result<(), u8> {
    let went = match judge_went(alloc, layers, a, b) {
        Ok(went) => went,
        Err(fault) => return Err(print_fault(alloc, fault, err)),
    };
    match covered.add_went(alloc, went) {
        Ok(()) => Ok(()),
        Err(_) => Err(print_out_of_memory(err)),
    }
}

/// Prints what was found of all pairs, of so many rows that are counted, and answers the status: 0 where all are accepted, 1 where one is
/// refused, and 3 where there is no memory for the text or a write failed. The whole text is put together before the first write.
pub fn print_covered<O: Write, E: Write>(
    alloc: Global,
    rows: usize,
    covered: &Covered,
    out: &mut Tally<O>,
    err: &mut Tally<E>,
) -> u8
    ensures { spec.PrintsCovered rows covered.now (moved O.contents out.old out.new) (moved E.contents err.old err.new) result }
{
    match covered_text(alloc, rows, covered) {
        Ok(text) => print(out, text.as_bytes(), covered.status),
        Err(_) => print_out_of_memory(err),
    }
}

// The first lines, and the table.
fn covered_text(alloc: Global, rows: usize, covered: &Covered) -> Result<String, AllocError>
    ensures { IfOk result (λ text. string_bytes text ≡ spec.covered_text rows covered.now) }
{
    let table = table(alloc, rows, &covered.a, &covered.b)?;
    let lines = &covered.lines;
    format!(in alloc; "{lines}{table}")
}

/// Prints which of the rows of these hints neither side went through in all pairs, with what meets each; and answers the status as `print_covered`
/// does.
pub fn print_missing<O: Write, E: Write>(
    alloc: Global,
    covered: &Covered,
    hints: &[Hint],
    setups: &[Setup],
    out: &mut Tally<O>,
    err: &mut Tally<E>,
) -> u8
    ensures { spec.PrintsMissing hints.now setups.now covered.now (moved O.contents out.old out.new) (moved E.contents err.old err.new) result }
{
    match text_of_missing(alloc, covered, hints, setups) {
        Ok(text) => print(out, text.as_bytes(), covered.status),
        Err(_) => print_out_of_memory(err),
    }
}

// The first lines, and the missing rows.
fn text_of_missing(
    alloc: Global,
    covered: &Covered,
    hints: &[Hint],
    setups: &[Setup],
) -> Result<String, AllocError>
    ensures { IfOk result (λ text. string_bytes text ≡ spec.missing_of hints.now setups.now covered.now) }
{
    let missing = missing_text(alloc, hints, setups, &covered.a, &covered.b)?;
    let lines = &covered.lines;
    format!(in alloc; "{lines}{missing}")
}

/// Prints which of several pairs it was of which a fault was told: `pair 2: A B`, and answers that fault's status, or 3 where a write failed. Where
/// there is no memory for the line, nothing more is told.
pub fn print_pair<E: Write>(
    alloc: Global,
    err: &mut Tally<E>,
    number: u64,
    path_a: &str,
    path_b: &str,
    status: u8,
) -> u8
    ensures { names.PrintsPair (moved E.contents err.old err.new) (names.pair_text number path_a.now path_b.now) status result }
{
    match pair_text(alloc, number, path_a, path_b) {
        Ok(text) => print(err, text.as_slice(), status),
        Err(_) => status,
    }
}

// The line of a pair. Fails for want of memory alone.
fn pair_text(alloc: Global, number: u64, path_a: &str, path_b: &str) -> Result<Vec<u8>, AllocError>
    ensures { IfOk result (λ text. text.items ≡ names.pair_text number path_a.now path_b.now) }
{
    let head = format!(in alloc; "pair {number}: ")?;
    let mut text = Vec::new(alloc);
    text.extend_from_slice(head.as_bytes())?;
    put_path(&mut text, path_a)?;
    text.push(b' ')?;
    put_path(&mut text, path_b)?;
    text.push(b'\n')?;
    Ok(text)
}
