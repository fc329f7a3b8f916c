//! Whether each side of a line that was tapped is explained by itself: by a capture of each that a node alone makes.

ghost use Rattle.std.specs.Prelude.{◌≡◌, true, IfOk};
ghost use Rattle.wire_base.specs.Tally.{tally_lent};
ghost use Rattle.pair_judge.specs.JudgedAs.{end_of};
ghost use Rattle.tap_command.specs.PrintedTap.{BothPass};

use crate::tap_files::{TapPaths, write_captures};
use crate::tap_naming::{Unit, tell_failed_read};
use capture::CaptureFault;
use pair_judge::EndVerdict;
use placing::{Assumed, Explained, Turn};
use printing::check::print_out_of_memory;
use printing::fault_told::FaultTold;
use printing::files::{Named, Wanted, opened};
use printing::layers::{Layers, judge_end_over};
use std::alloc::{AllocError, Global};
use std::io::{Read, Write};
use std::rt::Files;
use wire_base::{Side, Tally};
use wire_tap::{Ending, Tapped};

/// Whether each side is explained by itself as far as this unit, with which captures of both are refused: captures of both are written once more that
/// end with it, and each passes alone. Boots and aborts are assumed for that too. `Err`: a fault, which was told.
pub fn are_apart<R: Files + AllocGlobal, E: Write>(
    rt: &R,
    paths: TapPaths<'_>,
    turns: &[Turn],
    unit: Unit,
    err: &mut Tally<E>,
) -> Result<bool, FaultTold> {
    if are_explained(rt, paths, Explained::Together, turns, unit, err)? {
        return Ok(true);
    }
    let Ok(events) = events_of(rt.alloc(), turns) else {
        return Err(FaultTold::out_of_memory(print_out_of_memory(err)));
    };
    are_explained(rt, paths, Explained::Apart, events.as_slice(), unit, err)
}

// The boots and aborts among these turns.
fn events_of(alloc: Global, turns: &[Turn]) -> Result<Vec<Turn>, AllocError> {
    let mut events = Vec::new(alloc);
    for turn in turns {
        match turn.what {
            Assumed::Keeps { most: _ } | Assumed::Answers { .. } => {}
            Assumed::Boots | Assumed::GivesUp | Assumed::Anew { is_anew: _ } => events.push(*turn)?,
        }
    }
    Ok(events)
}

// Whether the captures that are found so end with the unit, and pass alone.
fn are_explained<R: Files + AllocGlobal, E: Write>(
    rt: &R,
    paths: TapPaths<'_>,
    explained: Explained,
    turns: &[Turn],
    unit: Unit,
    err: &mut Tally<E>,
) -> Result<bool, FaultTold> {
    let tapped = write_captures(rt, paths, explained, turns, Some(unit), err)?;
    if !end_with(tapped, unit) {
        return Ok(false);
    }
    let mut a = opened(rt, Wanted::by_path(Named::A, paths.a), err)?;
    let mut b = opened(rt, Wanted::by_path(Named::B, paths.b), err)?;
    match both_pass(rt.alloc(), paths.layers(), &mut a, &mut b) {
        Ok(both) => Ok(both),
        Err((side, fault)) => Err(tell_failed_read(side, fault, err)),
    }
}

// Whether the captures end with this unit.
fn end_with(tapped: Tapped, unit: Unit) -> bool {
    match tapped.ending {
        Ending::Whole => false,
        Ending::Unplaced(passed) | Ending::TooWide(passed) | Ending::Asked(passed) => {
            (passed.side, passed.unit) == unit
        }
    }
}

// Whether both captures pass alone. `Err`: the fault of this side's.
fn both_pass<A: Read, B: Read>(
    alloc: Global,
    layers: Layers,
    a: &mut Tally<A>,
    b: &mut Tally<B>,
) -> Result<bool, (Side, CaptureFault)>
    ensures { IfOk result (λ both. both ≡ true → BothPass (end_of layers) (A.remaining (tally_lent a.old)) (B.remaining (tally_lent b.old))) }
{
    match judge_end_over(alloc, layers, a) {
        Ok(EndVerdict::Passed(_)) => {}
        Ok(EndVerdict::Refused { .. }) => return Ok(false),
        Err(fault) => return Err((Side::A, fault)),
    }
    match judge_end_over(alloc, layers, b) {
        Ok(EndVerdict::Passed(_)) => Ok(true),
        Ok(EndVerdict::Refused { .. }) => Ok(false),
        Err(fault) => Err((Side::B, fault)),
    }
}
