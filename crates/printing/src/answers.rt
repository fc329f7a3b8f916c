//! The answers of `check` and `alone` as JSON objects, and those of `check` on several pairs.

ghost use Rattle.std.specs.Prelude.{◌≡◌, IfErr};
ghost use Rattle.wire_base.specs.Tally.{tally_lent};
ghost use Rattle.printing.specs.Statuses.{EndsAsJudged, EndsWith};
ghost use Rattle.pair_judge.specs.JudgedAs.{nodes_of};

use crate::alone::print_end_fault;
use crate::check::{print, print_fault, print_out_of_memory};
use crate::end_text::end_status;
use crate::fault_told::FaultTold;
use crate::how::Form;
use crate::layers::{Layers, judge_end_over, judge_over};
use crate::objects::{NO_MEMORY, end_object, fault_object, verdict_object};
use crate::path_text::put_path;
use crate::text::{FAILED, verdict_status, verdict_text};
use json_text::Members;
use pair_judge::Verdict;
use std::alloc::{AllocError, Global};
use std::io::{Read, Write};
use wire_base::{Side, Tally, write_whole};

/// Judges a pair as `check_to` does, and prints the verdict or the fault as one JSON object. A fault is told to `err` too. Status and order of
/// reading are those of `check_to`. No contract tells them, or the object.
pub fn check_json_to<A: Read, B: Read, O: Write, E: Write>(
    alloc: Global,
    layers: Layers,
    name: &str,
    a: &mut Tally<A>,
    b: &mut Tally<B>,
    out: &mut Tally<O>,
    err: &mut Tally<E>,
) -> u8 {
    match judge_over(alloc, layers, a, b) {
        Ok(verdict) => {
            let object = verdict_object(alloc, layers, name, verdict);
            print_object(object, verdict_status(verdict), out, err)
        }
        Err(fault) => {
            let status = print_fault(alloc, fault, err);
            print_told(alloc, name, FaultTold::of_judge(fault, status), out)
        }
    }
}

/// Judges one end as `alone_to` does, and prints the verdict or the fault as one JSON object. A fault is told to `err` too. No contract tells the
/// object or the status.
pub fn alone_json_to<A: Read, O: Write, E: Write>(
    alloc: Global,
    layers: Layers,
    name: &str,
    a: &mut Tally<A>,
    out: &mut Tally<O>,
    err: &mut Tally<E>,
) -> u8 {
    match judge_end_over(alloc, layers, a) {
        Ok(verdict) => {
            let object = end_object(alloc, layers, name, verdict);
            print_object(object, end_status(verdict), out, err)
        }
        Err(fault) => {
            let status = print_end_fault(alloc, fault, err);
            print_told(
                alloc,
                name,
                FaultTold::of_capture(Side::A, fault, status),
                out,
            )
        }
    }
}

/// Judges one of several pairs, and prints the answer as `check_to` does, with the name of its first file before it. No contract tells the text.
pub fn check_named_to<A: Read, B: Read, O: Write, E: Write>(
    alloc: Global,
    layers: Layers,
    name: &str,
    a: &mut Tally<A>,
    b: &mut Tally<B>,
    out: &mut Tally<O>,
    err: &mut Tally<E>,
) -> u8
    ensures { EndsAsJudged (nodes_of layers) (A.remaining (tally_lent a.old)) (B.remaining (tally_lent b.old)) result }
{
    match judge_over(alloc, layers, a, b) {
        Ok(verdict) => match named_verdict(alloc, layers, name, verdict) {
            Ok(text) => print(out, text.as_slice(), verdict_status(verdict)),
            Err(_) => print_out_of_memory(err),
        },
        Err(fault) => match print_name(alloc, name, err) {
            Ok(()) => print_fault(alloc, fault, err),
            Err(status) => status,
        },
    }
}

/// Prints an object with its LF, and answers the status: the given one; or 3 where there was no memory for it, which is told, or a write failed.
pub fn print_object<O: Write, E: Write>(
    object: Members,
    status: u8,
    out: &mut Tally<O>,
    err: &mut Tally<E>,
) -> u8
    ensures { EndsWith status result }
{
    match object.into_line() {
        Ok(line) => print(out, line.as_slice(), status),
        Err(_) => {
            let status = print_out_of_memory(err);
            print(out, NO_MEMORY.as_bytes(), status)
        }
    }
}

/// Prints a fault that was told already, and answers its status, or 3 where a write failed.
pub fn print_told<O: Write>(alloc: Global, name: &str, told: FaultTold, out: &mut Tally<O>) -> u8
    ensures { EndsWith told.status result }
{
    match fault_object(alloc, name, told).into_line() {
        Ok(line) => print(out, line.as_slice(), told.status),
        Err(_) => print(out, NO_MEMORY.as_bytes(), FAILED),
    }
}

/// Prints the name of the first file before a fault. `Err`: there is no memory for it, which was told, or the write failed; with status 3.
pub fn print_name<E: Write>(alloc: Global, name: &str, err: &mut Tally<E>) -> Result<(), u8>
    ensures { IfErr result (λ status. status ≡ 3) }
{
    let Ok(text) = name_text(alloc, name) else {
        return Err(print_out_of_memory(err));
    };
    match write_whole(err, text.as_slice()) {
        Ok(()) => Ok(()),
        Err(_) => Err(FAILED),
    }
}

// The verdict with the name before it.
fn named_verdict(
    alloc: Global,
    layers: Layers,
    name: &str,
    verdict: Verdict,
) -> Result<Vec<u8>, AllocError> {
    let mut text = name_text(alloc, name)?;
    let answer = verdict_text(alloc, layers, verdict)?;
    text.extend_from_slice(answer.as_bytes())?;
    Ok(text)
}

fn name_text(alloc: Global, name: &str) -> Result<Vec<u8>, AllocError> {
    let mut text = Vec::new(alloc);
    put_path(&mut text, name)?;
    text.extend_from_slice(b": ")?;
    Ok(text)
}

/// Prints a fault that was told, where the answer is an object, and answers the status.
pub fn not_judged<R: AllocGlobal, O: Write>(
    rt: &R,
    form: Form,
    name: &str,
    told: FaultTold,
    out: &mut Tally<O>,
) -> u8 {
    match form {
        Form::Json => print_told(rt.alloc(), name, told, out),
        Form::Rows => told.status,
    }
}
