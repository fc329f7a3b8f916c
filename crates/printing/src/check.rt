//! `check`: two captures, one answer.

ghost use Rattle.pair_judge.specs.declared.fault.JudgeFault.TheVariants.{Capture, OutOfMemory};
ghost use Rattle.pair_judge.specs.declared.fault.TextFault.TheVariants.{Read as FailedRead};
ghost use Rattle.printing.specs.Printed.{Checks, TellsFault, Writes, moved, stream_of};
ghost use Rattle.printing.specs.Printed.{failed_write_text, fault_text as text_of};
ghost use Rattle.pair_judge.specs.JudgedAs.{nodes_of};
ghost use Rattle.printing.specs.Layers.{verdict_text_over};

use crate::layers::{Layers, judge_over};
use crate::text::{FAILED, FAULTY, line_fault_text, verdict_status, verdict_text};
use pair_judge::{JudgeFault, TextFault};
use std::alloc::Global;
use std::io::{Read, Write};
use wire_base::{Side, Tally, write_whole};

/// Judges the captures that two readers give over these layers, prints the answer, and answers the status.
///
/// A verdict is printed to `out`: `accepted` and a line a side, which of stations alone ends with its periods, status 0, or `refused SIDE RECORD line
/// LINE: NUMBER NAME`, status 1. A fault is printed to `err`: a faulty text's line and kind, status 2; a failed read or want of memory, status 3. The
/// whole text is put together before the first write, so that no allocation comes between two writes; where there is no memory for it, the answer is
/// `out of memory`. That and a failed read are printed without memory, so that a failed read is always told. A failed write ends the printing, with
/// status 3.
pub fn check_to<A: Read, B: Read, O: Write, E: Write>(
    alloc: Global,
    layers: Layers,
    a: &mut Tally<A>,
    b: &mut Tally<B>,
    out: &mut Tally<O>,
    err: &mut Tally<E>,
) -> u8
    ensures { Checks (nodes_of layers) (verdict_text_over layers) (moved A.remaining a.old a.new) (moved B.remaining b.old b.new)
        (moved O.contents out.old out.new) (moved E.contents err.old err.new) result }
{
    match judge_over(alloc, layers, a, b) {
        Ok(verdict) => match verdict_text(alloc, layers, verdict) {
            Ok(text) => print(out, text.as_bytes(), verdict_status(verdict)),
            Err(_) => print_out_of_memory(err),
        },
        Err(fault) => print_fault(alloc, fault, err),
    }
}

/// Prints why there is no verdict, and answers the status: 2 where a text departs, else 3.
pub fn print_fault<E: Write>(alloc: Global, fault: JudgeFault, err: &mut Tally<E>) -> u8
    ensures { TellsFault (moved E.contents err.old err.new) fault result }
{
    match fault {
        JudgeFault::Capture { side, fault } => match fault {
            TextFault::Departs { kind, line } => match line_fault_text(alloc, side, kind, line) {
                Ok(text) => print(err, text.as_bytes(), FAULTY),
                Err(_) => print_out_of_memory(err),
            },
            TextFault::Read => print_failed_read(err, side),
        },
        JudgeFault::OutOfMemory => print_out_of_memory(err),
    }
}

/// Writes a text, and answers the status: the given one, or 3 where a write failed.
pub fn print<W: Write>(stream: &mut Tally<W>, text: &[u8], status: u8) -> u8
    ensures { Writes (stream_of W.contents stream.old) (stream_of W.contents stream.new) text.now status result }
{
    match write_whole(stream, text) {
        Ok(()) => status,
        Err(_) => FAILED,
    }
}

/// Writes `out of memory` from a constant, so that it needs no memory, and answers the status, 3.
pub fn print_out_of_memory<W: Write>(stream: &mut Tally<W>) -> u8
    ensures { Writes (stream_of W.contents stream.old) (stream_of W.contents stream.new)
        (text_of OutOfMemory) 3 result }
{
    print(stream, b"out of memory\n", FAILED)
}

/// Writes that a read of this side failed, from a constant, and answers the status, 3.
pub fn print_failed_read<W: Write>(stream: &mut Tally<W>, side: Side) -> u8
    ensures { Writes (stream_of W.contents stream.old) (stream_of W.contents stream.new)
        (text_of (Capture side FailedRead)) 3 result }
{
    match side {
        Side::A => print(stream, b"a: read failed\n", FAILED),
        Side::B => print(stream, b"b: read failed\n", FAILED),
    }
}

/// Prints that a write to the capture of this side failed, from a constant, and answers the status, 3.
pub fn print_failed_write<W: Write>(err: &mut Tally<W>, side: Side) -> u8
    ensures { Writes (stream_of W.contents err.old) (stream_of W.contents err.new) (failed_write_text side) 3 result }
{
    match side {
        Side::A => print(err, b"a: write failed\n", FAILED),
        Side::B => print(err, b"b: write failed\n", FAILED),
    }
}

/// Writes that the file of this side can't be read again, and answers the status, 3.
pub fn print_read_once<W: Write>(err: &mut Tally<W>, side: Side) -> u8 {
    match side {
        Side::A => print(err, b"a: cannot be read twice\n", FAILED),
        Side::B => print(err, b"b: cannot be read twice\n", FAILED),
    }
}
