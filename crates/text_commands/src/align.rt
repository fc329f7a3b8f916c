//! `align`: the hints of both captures of a pair, found by the bytes.

ghost use Rattle.std.specs.Prelude.{◌≡◌, IfOk};
ghost use Rattle.aligning.specs.Aligned.{aligned};
ghost use Rattle.capture.specs.Range.{IsCapture, format_for};
ghost use Rattle.capture.specs.Text.{capture_text};

use aligning::{Note, Report, Whole, aligned_text, read_whole, told_of};
use capture::CaptureFault;
use pair_judge::{JudgeFault, TextFault};
use printing::check::{print, print_fault, print_out_of_memory};
use printing::fault_told::FaultTold;
use std::alloc::{AllocError, Global};
use std::io::{Read, Write};
use wire_base::{Side, Tally};

/// The status where each receipt got a unit.
const ALIGNED: u8 = 0;

/// The status where one got none.
const NOT_ALIGNED: u8 = 1;

/// What is written into both files, and what is printed.
#[derive(Drop)]
pub struct Alignment {
    pub a: Vec<u8>,
    pub b: Vec<u8>,
    text: String,
    status: u8,
}

/// Reads both captures whole, and finds the hints of each by the bytes of the other. `Err`: a text is faulty, a read failed, or memory was wanting;
/// it was told as `check` tells it.
pub fn alignment_of<A: Read, B: Read, E: Write>(
    alloc: Global,
    a: &mut Tally<A>,
    b: &mut Tally<B>,
    err: &mut Tally<E>,
) -> Result<Alignment, FaultTold> {
    let whole_a = match read_whole(alloc, a) {
        Ok(whole) => whole,
        Err(fault) => return Err(told_fault(alloc, Side::A, fault, err)),
    };
    let whole_b = match read_whole(alloc, b) {
        Ok(whole) => whole,
        Err(fault) => return Err(told_fault(alloc, Side::B, fault, err)),
    };
    match aligned_pair(alloc, &whole_a, &whole_b) {
        Ok(alignment) => Ok(alignment),
        Err(_) => Err(FaultTold::out_of_memory(print_out_of_memory(err))),
    }
}

// Tells of a fault of a capture.
fn told_fault<E: Write>(
    alloc: Global,
    side: Side,
    fault: CaptureFault,
    err: &mut Tally<E>,
) -> FaultTold {
    let fault = match fault {
        CaptureFault::Departs { kind, line } => JudgeFault::Capture {
            side,
            fault: TextFault::Departs { kind, line },
        },
        CaptureFault::Read | CaptureFault::Failed => JudgeFault::Capture {
            side,
            fault: TextFault::Read,
        },
        CaptureFault::OutOfMemory => JudgeFault::OutOfMemory,
    };
    let status = print_fault(alloc, fault, err);
    FaultTold::of_judge(fault, status)
}

// Both captures with their hints, and what is printed. Fails for want of memory alone.
fn aligned_pair(alloc: Global, a: &Whole, b: &Whole) -> Result<Alignment, AllocError>
    requires a { IsCapture a.now.own a.now.peer a.now.records.items }
    requires b { IsCapture b.now.own b.now.peer b.now.records.items }
    ensures a { IfOk result (λ alignment. alignment.a.items ≡
        capture_text (format_for a.now.records.items) a.now.own a.now.peer (aligned 0 b.now.records.items a.now.records.items)) }
    ensures b { IfOk result (λ alignment. alignment.b.items ≡
        capture_text (format_for b.now.records.items) b.now.own b.now.peer (aligned 0 a.now.records.items b.now.records.items)) }
{
    let told_a = told_of(alloc, a, b.records.as_slice())?;
    let told_b = told_of(alloc, b, a.records.as_slice())?;
    let (a, b) = (
        aligned_text(alloc, a, b.records.as_slice())?,
        aligned_text(alloc, b, a.records.as_slice())?,
    );
    let mut text = counts_line(alloc, &told_a, &told_b)?;
    put_notes(alloc, &mut text, Side::A, &told_a)?;
    put_notes(alloc, &mut text, Side::B, &told_b)?;
    Ok(Alignment {
        a,
        b,
        text,
        status: status_of(&told_a, &told_b),
    })
}

// 0 where each receipt got a unit.
fn status_of(a: &Report, b: &Report) -> u8 {
    if a.found == a.receipts && b.found == b.receipts {
        return ALIGNED;
    }
    NOT_ALIGNED
}

fn counts_line(alloc: Global, a: &Report, b: &Report) -> Result<String, AllocError> {
    let (found_a, all_a, found_b, all_b) = (a.found, a.receipts, b.found, b.receipts);
    format!(in alloc; "aligned {found_a} of {all_a} receipts of a, {found_b} of {all_b} of b\n")
}

// Appends a line for each receipt of this side of which something is to be told.
fn put_notes(
    alloc: Global,
    text: &mut String,
    side: Side,
    told: &Report,
) -> Result<(), AllocError> {
    for note in &told.notes {
        let line = note_line(alloc, side, *note)?;
        text.push_str(line.as_str())?;
    }
    Ok(())
}

fn note_line(alloc: Global, side: Side, note: Note) -> Result<String, AllocError> {
    match note {
        Note::Chosen {
            place,
            unit,
            others,
        } => {
            let (line, count) = (line_of(place), u128::from(others) + 1);
            format!(in alloc;
                "{side} line {line}: unit {unit}, the first of {count} that would do\n"
            )
        }
        Note::NoUnit { place, unit } => {
            let line = line_of(place);
            format!(in alloc; "{side} line {line}: no unit from {unit} on would do\n")
        }
    }
}

// Line 1 is the head, and record 0 is on line 2.
fn line_of(place: u64) -> u128 {
    u128::from(place) + 2
}

/// Prints what was found, and answers the status: 0, 1 where a receipt got no unit, or 3 where a write failed.
pub fn print_alignment<O: Write>(alignment: &Alignment, out: &mut Tally<O>) -> u8 {
    print(out, alignment.text.as_bytes(), alignment.status)
}
