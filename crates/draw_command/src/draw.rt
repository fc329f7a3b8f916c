//! `draw`: the ladder of two captures, as text or as a picture.

ghost use Rattle.std.specs.Prelude.{◌≤◌};
ghost use Rattle.drawing.specs.declared.range.TheConstants.{MAX_ROWS};
ghost use Rattle.printing.specs.Printed.{moved, stream_of};
ghost use Rattle.draw_command.specs.PrintedDrawing.{DrawsRows, PrintsDrawFault};

use drawing::{DrawFault, Range, draw_to};
use printing::check::print_fault;
use printing::text::{FAILED, verdict_status};
use std::alloc::Global;
use std::io::{Read, Seek, Write};
use wire_base::Tally;

/// Judges the captures that two files give from where they are, prints the rows of this range, and answers the status.
///
/// The rows are printed to `out`, status 0 of an accepted pair, 1 of a refused one. A fault is printed to `err` as `check` prints it. A failed write
/// ends the printing, with status 3.
pub fn draw_rows_to<A: Read + Seek, B: Read + Seek, O: Write, E: Write>(
    alloc: Global,
    range: Range,
    a: &mut A,
    b: &mut B,
    out: &mut Tally<O>,
    err: &mut Tally<E>,
) -> u8
    requires low { 1 ≤ range.rows }
    requires high { range.rows ≤ MAX_ROWS }
    ensures { DrawsRows range (A.remaining a.old, B.remaining b.old) (moved O.contents out.old out.new) (moved E.contents err.old err.new) result }
{
    match draw_to(alloc, a, b, range, out) {
        Ok(verdict) => verdict_status(verdict),
        Err(fault) => print_draw_fault(alloc, fault, err),
    }
}

// Prints why nothing is drawn, and answers the status; a failed write is not told.
fn print_draw_fault<E: Write>(alloc: Global, fault: DrawFault, err: &mut Tally<E>) -> u8
    ensures { PrintsDrawFault (moved E.contents err.old err.new) fault result }
{
    match fault {
        DrawFault::Judge(fault) => print_fault(alloc, fault, err),
        DrawFault::Write => FAILED,
    }
}
