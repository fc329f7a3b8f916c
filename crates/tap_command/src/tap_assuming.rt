//! What is assumed of the captures that were written, where the judge refuses them.

use crate::tap::tell_tap_fault;
use crate::tap_files::TapPaths;
use crate::tap_naming::tell_failed_read;
use assuming::{Assumptions, assume, tell_lines};
use capture::{CaptureFault, Departure};
use placing::{Assumed, Turn};
use printing::check::print_out_of_memory;
use printing::fault_told::FaultTold;
use printing::files::{Named, Wanted, opened, opened_plain};
use std::alloc::{AllocError, Global};
use std::io::Write;
use std::rt::Files;
use wire_base::{Side, Tally};
use wire_tap::TapFault;

/// Assumes of the captures that were written what mends them at their links, in the order of the text; whether that is something else than before. Of
/// which packets were kept before a start, what was assumed before stays. `Err`: a fault, which was told.
pub fn assume_more<R: Files + AllocGlobal, E: Write>(
    rt: &R,
    paths: TapPaths<'_>,
    assumptions: &mut Assumptions,
    err: &mut Tally<E>,
) -> Result<bool, FaultTold> {
    if paths.line_alone {
        return Ok(false);
    }
    let Assumptions {
        mut turns,
        too_long,
    } = assumed_now(rt, paths, err)?;
    if put_kept(&mut turns, assumptions.turns.as_slice()).is_err() {
        return Err(FaultTold::out_of_memory(print_out_of_memory(err)));
    }
    let told = told_lines(rt, paths, turns.as_slice(), err)?;
    let is_more = told.as_slice() != assumptions.turns.as_slice();
    assumptions.turns = told;
    assumptions.too_long = too_long;
    Ok(is_more)
}

/// Where the captures are refused with this unit because a user's message is too long for them: the fault, which is told. Else nothing.
pub fn tell_too_long<R: Files + AllocGlobal, E: Write>(
    rt: &R,
    paths: TapPaths<'_>,
    assumptions: &Assumptions,
    named: (Side, u64),
    err: &mut Tally<E>,
) -> Result<(), FaultTold> {
    if assumptions.too_long != Some(named) {
        return Ok(());
    }
    let (side, unit) = named;
    let at_unit = [Turn {
        side,
        unit,
        line: 0,
        what: Assumed::GivesUp,
    }];
    let told = told_lines(rt, paths, &at_unit, err)?;
    let line = match told.first() {
        Some(turn) => turn.line,
        None => 0,
    };
    let fault = TapFault::Departs {
        kind: Departure::TooLong,
        line,
    };
    Err(tell_tap_fault(rt.alloc(), fault, err))
}

// What is assumed of the captures as they were written.
fn assumed_now<R: Files + AllocGlobal, E: Write>(
    rt: &R,
    paths: TapPaths<'_>,
    err: &mut Tally<E>,
) -> Result<Assumptions, FaultTold> {
    let mut a = opened(rt, Wanted::by_path(Named::A, paths.a), err)?;
    let mut b = opened(rt, Wanted::by_path(Named::B, paths.b), err)?;
    match assume(rt.alloc(), &mut a, &mut b) {
        Ok(assumptions) => Ok(assumptions),
        Err((side, fault)) => Err(tell_failed_read(side, fault, err)),
    }
}

// What was assumed before of the packets that were kept.
fn put_kept(assumed: &mut Vec<Turn>, before: &[Turn]) -> Result<(), AllocError> {
    for turn in before {
        if let Assumed::Keeps { most: _ } = turn.what {
            assumed.push(*turn)?;
        }
    }
    Ok(())
}

// In the order of the text, with their lines.
fn told_lines<R: Files + AllocGlobal, E: Write>(
    rt: &R,
    paths: TapPaths<'_>,
    turns: &[Turn],
    err: &mut Tally<E>,
) -> Result<Vec<Turn>, FaultTold> {
    let wire = opened_plain(rt, Wanted::by_path(Named::Wire, paths.wire), err)?;
    match tell_lines(rt.alloc(), &mut Tally::new(wire), turns) {
        Ok(told) => Ok(told),
        Err(fault) => Err(tell_tap_fault(rt.alloc(), wire_fault_of(fault), err)),
    }
}

fn wire_fault_of(fault: CaptureFault) -> TapFault {
    match fault {
        CaptureFault::OutOfMemory => TapFault::OutOfMemory,
        CaptureFault::Departs { kind, line } => TapFault::Departs { kind, line },
        CaptureFault::Read | CaptureFault::Failed => TapFault::Read,
    }
}
