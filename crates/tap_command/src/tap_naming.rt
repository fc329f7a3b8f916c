//! Which unit is named where the captures of all that passed are refused: the captures that end with it are refused too, and those that end with the
//! unit before it are accepted.

use crate::tap::{RefusedAt, refused_at};
use crate::tap_files::{TapPaths, write_captures};
use capture::CaptureFault;
use placing::{Explained, Turn};
use printing::check::{print_failed_read, print_fault, print_out_of_memory};
use printing::fault_told::FaultTold;
use printing::files::{Named, Wanted, opened};
use printing::layers::judge_over;
use std::io::Write;
use std::rt::Files;
use tap_answer::units_before;
use wire_base::{Side, Tally};
use wire_tap::Tapped;

// How often the captures are cut at most: at an earlier unit each time, and then at one between two that halve what is between them.
const MOST_CUTS: usize = 256;

/// A unit of a side, counted from 0.
pub type Unit = (Side, u64);

// How many units of both sides captures have.
#[derive(Clone, Copy, PartialEq, Eq)]
pub(crate) struct Reach {
    a: u64,
    b: u64,
}

impl Reach {
    // How far captures of which this was told reach.
    fn told(tapped: Tapped) -> Reach {
        Reach {
            a: tapped.units_a.count,
            b: tapped.units_b.count,
        }
    }

    // How many units the capture of this side has.
    fn of(self, side: Side) -> u64 {
        match side {
            Side::A => self.a,
            Side::B => self.b,
        }
    }

    // How many more units there are here than there, of side a and of side b.
    fn beyond(self, low: Reach) -> (u64, u64) {
        (self.a.saturating_sub(low.a), self.b.saturating_sub(low.b))
    }
}

/// The unit that is named, where this record of the captures of all that passed is refused, of which `tapped` was told. For that the captures are
/// written again, and judged. `Err`: a fault, which was told.
pub fn named_unit<R: Files + AllocGlobal, E: Write>(
    rt: &R,
    paths: TapPaths<'_>,
    turns: &[Turn],
    tapped: Tapped,
    refused: RefusedAt,
    err: &mut Tally<E>,
) -> Result<Unit, FaultTold> {
    let mut high = Reach::told(tapped);
    let mut unit = unit_of(rt, paths, refused, err)?;
    for _ in 0..MOST_CUTS {
        let (cut, again) = judge_cut(rt, paths, turns, unit, err)?;
        let Some(refused) = again else {
            return unit_between(rt, paths, turns, cut, high, err);
        };
        let mut earlier = unit_of(rt, paths, refused, err)?;
        if earlier == unit {
            earlier = unit_before(rt, paths, turns, unit, cut, err)?;
        }
        if earlier == unit {
            return Ok(unit);
        }
        high = cut;
        unit = earlier;
    }
    Ok(unit)
}

// The unit of a refused record of the captures that end with the last unit of the other side before this one; or this one, where they are accepted.
fn unit_before<R: Files + AllocGlobal, E: Write>(
    rt: &R,
    paths: TapPaths<'_>,
    turns: &[Turn],
    unit: Unit,
    cut: Reach,
    err: &mut Tally<E>,
) -> Result<Unit, FaultTold> {
    let other = unit.0.other();
    let Some(last) = cut.of(other).checked_sub(1) else {
        return Ok(unit);
    };
    let (_, refused) = judge_cut(rt, paths, turns, (other, last), err)?;
    match refused {
        Some(refused) => unit_of(rt, paths, refused, err),
        None => Ok(unit),
    }
}

// The first unit that was found, by halves, with which captures are refused, while those that end with the unit before it are accepted: `low` are
// accepted, and `high` are refused.
fn unit_between<R: Files + AllocGlobal, E: Write>(
    rt: &R,
    paths: TapPaths<'_>,
    turns: &[Turn],
    mut low: Reach,
    mut high: Reach,
    err: &mut Tally<E>,
) -> Result<Unit, FaultTold> {
    for _ in 0..MOST_CUTS {
        let (of_a, of_b) = high.beyond(low);
        if of_a.saturating_add(of_b) <= 1 {
            break;
        }
        let mut middle = middle_unit(low, of_a, of_b);
        let (mut cut, mut refused) = judge_cut(rt, paths, turns, middle, err)?;
        if cut == high {
            // One unit of each side is left, and this one is the last of both.
            middle = (Side::B, low.b);
            (cut, refused) = judge_cut(rt, paths, turns, middle, err)?;
        }
        match refused {
            None => low = cut,
            Some(_) => high = cut,
        }
    }
    Ok(last_unit(low, high))
}

// A unit about half the way from the captures that have so few to those with so many more, of the side that has more of them.
fn middle_unit(low: Reach, of_a: u64, of_b: u64) -> Unit {
    if of_a >= of_b {
        return (Side::A, low.a.saturating_add(of_a.saturating_sub(1) / 2));
    }
    (Side::B, low.b.saturating_add(of_b.saturating_sub(1) / 2))
}

// The unit that the captures have which reach beyond these by one.
fn last_unit(low: Reach, high: Reach) -> Unit {
    let (of_a, _) = high.beyond(low);
    if of_a > 0 {
        return (Side::A, high.a.saturating_sub(1));
    }
    (Side::B, high.b.saturating_sub(1))
}

/// Writes the captures that end with this unit, and judges them: how far they reach, and the refused record. `Err`: a fault, which was told.
pub(crate) fn judge_cut<R: Files + AllocGlobal, E: Write>(
    rt: &R,
    paths: TapPaths<'_>,
    turns: &[Turn],
    unit: Unit,
    err: &mut Tally<E>,
) -> Result<(Reach, Option<RefusedAt>), FaultTold> {
    let tapped = write_captures(rt, paths, Explained::Together, turns, Some(unit), err)?;
    let mut a = opened(rt, Wanted::by_path(Named::A, paths.a), err)?;
    let mut b = opened(rt, Wanted::by_path(Named::B, paths.b), err)?;
    match judge_over(rt.alloc(), paths.layers(), &mut a, &mut b) {
        Ok(verdict) => Ok((Reach::told(tapped), refused_at(verdict))),
        Err(fault) => {
            let status = print_fault(rt.alloc(), fault, err);
            Err(FaultTold::of_judge(fault, status))
        }
    }
}

// The unit of a refused record, or, where it is no unit's, the next one of its side.
fn unit_of<R: Files + AllocGlobal, E: Write>(
    rt: &R,
    paths: TapPaths<'_>,
    refused: RefusedAt,
    err: &mut Tally<E>,
) -> Result<Unit, FaultTold> {
    let (path, named) = match refused.side {
        Side::A => (paths.a, Named::A),
        Side::B => (paths.b, Named::B),
    };
    let mut capture = opened(rt, Wanted::by_path(named, path), err)?;
    match units_before(rt.alloc(), &mut capture, refused.place) {
        Ok(unit) => Ok((refused.side, unit)),
        Err(fault) => Err(tell_failed_read(refused.side, fault, err)),
    }
}

/// Tells that this side's capture, which was written, could not be read; or that there is no memory for it.
pub(crate) fn tell_failed_read<E: Write>(
    side: Side,
    fault: CaptureFault,
    err: &mut Tally<E>,
) -> FaultTold {
    match fault {
        CaptureFault::OutOfMemory => FaultTold::out_of_memory(print_out_of_memory(err)),
        _ => {
            let status = print_failed_read(err, side);
            FaultTold::of_capture(side, CaptureFault::Read, status)
        }
    }
}
