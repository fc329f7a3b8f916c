//! `alone`: one capture, judged without that of the other end.

ghost use Rattle.std.specs.Prelude.{◌≢◌};
ghost use Rattle.capture.specs.declared.fault.CaptureFault.TheVariants as CaptureFault;
ghost use Rattle.printing.specs.Printed.{moved};
ghost use Rattle.pair_judge.specs.JudgedAs.{end_of};
ghost use Rattle.printing.specs.PrintedAlone.{ChecksEnd, TellsEndFault, end_text_over};

use crate::check::{print, print_failed_read, print_out_of_memory};
use crate::end_text::{end_status, end_text};
use crate::layers::{Layers, judge_end_over};
use crate::text::{FAULTY, line_fault_text};
use capture::CaptureFault;
use std::alloc::Global;
use std::io::{Read, Write};
use wire_base::{Side, Tally};

/// Judges the capture that a reader gives without that of the other end, over these layers, prints the answer, and answers the status.
///
/// A verdict is printed to `out`: `passed` and the line of counts, which of a station alone ends with its periods, status 0, or `refused a RECORD
/// line LINE: NUMBER NAME`, with ` by the other end` after it where that end broke the rule, status 1. A fault is printed to `err`: the text's faulty
/// line and its kind, status 2; a failed read or want of memory, status 3. The whole text is put together before the first write; where there is no
/// memory for it, the answer is `out of memory`. A failed write ends the printing, with status 3.
pub fn alone_to<A: Read, O: Write, E: Write>(
    alloc: Global,
    layers: Layers,
    a: &mut Tally<A>,
    out: &mut Tally<O>,
    err: &mut Tally<E>,
) -> u8
    ensures { ChecksEnd (end_of layers) (end_text_over layers) (moved A.remaining a.old a.new) (moved O.contents out.old out.new)
        (moved E.contents err.old err.new) result }
{
    match judge_end_over(alloc, layers, a) {
        Ok(verdict) => match end_text(alloc, layers, verdict) {
            Ok(text) => print(out, text.as_bytes(), end_status(verdict)),
            Err(_) => print_out_of_memory(err),
        },
        Err(fault) => print_end_fault(alloc, fault, err),
    }
}

/// Prints why there is no verdict, and answers the status.
pub fn print_end_fault<E: Write>(alloc: Global, fault: CaptureFault, err: &mut Tally<E>) -> u8
    requires { fault ≢ CaptureFault.Failed }
    ensures { TellsEndFault (moved E.contents err.old err.new) fault result }
{
    match fault {
        CaptureFault::Departs { kind, line } => match line_fault_text(alloc, Side::A, kind, line) {
            Ok(text) => print(err, text.as_bytes(), FAULTY),
            Err(_) => print_out_of_memory(err),
        },
        CaptureFault::Read => print_failed_read(err, Side::A),
        CaptureFault::OutOfMemory => print_out_of_memory(err),
        CaptureFault::Failed => unreachable!(),
    }
}
