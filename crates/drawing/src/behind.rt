//! What comes after a refused record: it tells which units come still.

ghost use Rattle.std.specs.Prelude.{Err, IfErr, OnOk};
ghost use Rattle.pair_judge.specs.Judged.{JudgesOrFails};
ghost use Rattle.drawing.specs.Drawing.{Followed};
ghost use Rattle.drawing.specs.Telling.{WereFollowed};

use capture::{CaptureFault, CaptureReader};
use capture_record::Entry;
use ladder::Ladder;
use pair_judge::{JudgeFault, JudgedEnds, TextFault, Verdict};
use std::alloc::Global;
use std::io::{Read, Seek};
use wire_base::{Side, Tally};

/// Reads both captures again from their beginnings, and tells the ladder of the records that were not made, except the refused one. Where a file
/// can't be read again, or a text departs from its format, what is there is not known, and neither are units that never come. `Err`: memory
/// was wanting, or a read failed.
#[tactic(auto, using(crate::proofs::Told::followed_all, crate::proofs::Told::followed_ended))]
pub fn tell_behind<A: Read + Seek, B: Read + Seek>(
    alloc: Global,
    ladder: &mut Ladder,
    ends: &JudgedEnds,
    a: &mut A,
    b: &mut B,
) -> Result<(), JudgeFault>
    ensures ok { OnOk result (Followed ladder.old ladder.new) }
    ensures err { IfErr result (λ fault. JudgesOrFails (Err fault)) }
{
    let is_all_a = match tell_side(alloc, ladder, Side::A, passed(ends, Side::A), a) {
        Ok(is_all) => is_all,
        Err(fault) => return Err(fault),
    };
    let is_all_b = match tell_side(alloc, ladder, Side::B, passed(ends, Side::B), b) {
        Ok(is_all) => is_all,
        Err(fault) => return Err(fault),
    };
    if is_all_a && is_all_b {
        ladder.end();
    }
    Ok(())
}

// How many records of this side were made, or refused.
fn passed(ends: &JudgedEnds, side: Side) -> u64 {
    let made = ends.records(side);
    match ends.verdict() {
        Verdict::Refused { side: refused, .. } if refused == side => made.saturating_add(1),
        _ => made,
    }
}

// Tells of this side's records after so many; whether all were read.
#[tactic(auto, using(crate::proofs::Told::followed_none))]
fn tell_side<R: Read + Seek>(
    alloc: Global,
    ladder: &mut Ladder,
    side: Side,
    passed: u64,
    file: &mut R,
) -> Result<bool, JudgeFault>
    ensures ok { OnOk result (WereFollowed ladder.old ladder.new) }
    ensures err { IfErr result (λ fault. JudgesOrFails (Err fault)) }
{
    if file.rewind().is_err() {
        return Ok(false);
    }
    let mut reader = Tally::new(&mut *file);
    match CaptureReader::open(alloc, &mut reader) {
        Ok(mut capture) => tell_records(ladder, side, passed, &mut capture, &mut reader),
        Err(fault) => unread(side, fault),
    }
}

#[tactic(auto, using(crate::proofs::Told::followed_none, crate::proofs::Told::followed_on))]
fn tell_records<R: Read>(
    ladder: &mut Ladder,
    side: Side,
    passed: u64,
    capture: &mut CaptureReader,
    reader: &mut Tally<R>,
) -> Result<bool, JudgeFault>
    ensures ok { OnOk result (WereFollowed ladder.old ladder.new) }
    ensures err { IfErr result (λ fault. JudgesOrFails (Err fault)) }
{
    for number in 0..u64::MAX {
        match capture.advance(reader) {
            Ok(Some(entry)) => {
                follow(ladder, side, entry, passed <= number);
            }
            Ok(None) => return Ok(true),
            Err(fault) => return unread(side, fault),
        }
    }
    Ok(false)
}

// Tells of a record, if it comes after the refused one.
#[tactic(auto, using(crate::proofs::Told::followed_none, crate::proofs::Told::followed_one))]
fn follow(ladder: &mut Ladder, side: Side, entry: Entry, is_behind: bool)
    ensures { WereFollowed ladder.old ladder.new }
{
    if is_behind {
        ladder.follows(side, entry);
    }
}

// That not all was read, or why that is told.
fn unread(side: Side, fault: CaptureFault) -> Result<bool, JudgeFault>
    ensures { IfErr result (λ fault. JudgesOrFails (Err fault)) }
{
    match fault {
        CaptureFault::Departs { .. } | CaptureFault::Failed => Ok(false),
        CaptureFault::Read => Err(JudgeFault::Capture {
            side,
            fault: TextFault::Read,
        }),
        CaptureFault::OutOfMemory => Err(JudgeFault::OutOfMemory),
    }
}
