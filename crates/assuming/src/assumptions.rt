//! From two captures that a tap wrote to what is assumed.

ghost use Rattle.std.specs.Prelude.{IfOk};
ghost use Rattle.wire_base.specs.Tally.{tally_lent};
ghost use Rattle.assuming.specs.Assuming.{AreAssumptions};

use crate::loading::load;
use crate::log::{Log, SideLog};
use crate::seeker::Seeker;
use crate::sifted::{Proposal, sift, too_long};
use capture::CaptureFault;
use placing::Turn;
use std::alloc::{AllocError, Global};
use std::io::Read;
use wire_base::{Side, Tally};

/// What is assumed, and the first unit, if there is one, with which a message that a user handed in is longer than the 65,535 bytes that a line of a
/// capture tells.
#[derive(Drop)]
pub struct Assumptions {
    pub turns: Vec<Turn>,
    pub too_long: Option<(Side, u64)>,
}

/// What is assumed of both sides, so that what these captures tell of their links is right; up to the first record for which nothing mends it. What
/// the captures say of boots, calls given up and answers is not asked. Lines are not told. `Err`: the fault of this side's capture.
///
/// That it is so much, and that the links are right by it, is the search's, of which nothing is promised: the captures that are written of it are
/// judged. What is promised: whatever the search finds, no turn is answered but where one of its kind may stand, and none twice.
///
/// ```text
/// a sends a CI as its unit 2, and answers the CC by a DC that names no link     Turn { side: A, unit: 2, line: 0, what: GivesUp }
/// two captures whose links are right                                          no turn
/// a capture of side b that begins with ddcap 9                                  Err((B, Departs { kind: Syntax, line: 1 }))
/// ```
pub fn assume<A: Read, B: Read>(
    alloc: Global,
    a: &mut Tally<A>,
    b: &mut Tally<B>,
) -> Result<Assumptions, (Side, CaptureFault)>
    ensures { IfOk result (λ found.
        AreAssumptions (A.remaining (tally_lent a.old)) (B.remaining (tally_lent b.old)) found.turns.items found.too_long) }
{
    let of_a = match load(alloc, a) {
        Ok(loaded) => loaded,
        Err(fault) => return Err((Side::A, fault)),
    };
    let of_b = match load(alloc, b) {
        Ok(loaded) => loaded,
        Err(fault) => return Err((Side::B, fault)),
    };
    let (spots_a, spots_b) = (of_a.spots, of_b.spots);
    let Ok(found) = search(alloc, of_a.log, of_b.log) else {
        return Err((Side::A, CaptureFault::OutOfMemory));
    };
    let Ok(turns) = sift(alloc, &spots_a, &spots_b, found.proposals.as_slice()) else {
        return Err((Side::A, CaptureFault::OutOfMemory));
    };
    let too_long = too_long(&spots_a, &spots_b, found.too_long);
    Ok(Assumptions { turns, too_long })
}

// What the search proposes, and the spot at which a message is too long.
#[derive(Drop)]
struct Sought {
    proposals: Vec<Proposal>,
    too_long: Option<(Side, u64)>,
}

fn search(alloc: Global, a: SideLog, b: SideLog) -> Result<Sought, AllocError> {
    let log = Log::of(alloc, a, b)?;
    let mut seeker = Seeker::new(alloc, &log)?;
    seeker.seek()?;
    Ok(Sought {
        proposals: seeker.proposals()?,
        too_long: seeker.too_long,
    })
}
