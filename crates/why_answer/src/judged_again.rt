//! A pair that is judged again under changes of its captures.

ghost use Rattle.pair_judge.specs.Judged.{IsAnswer};
ghost use Rattle.why_answer.specs.inner.Edits.{with_changes};
ghost use Rattle.pair_judge.specs.JudgedAs.{nodes_of};

use edited::{Change, EditedReader};
use pair_judge::{JudgeFault, TextFault, Verdict};
use printing::layers::{Layers, judge_over};
use std::alloc::Global;
use std::io::{Read, Seek};
use wire_base::{Side, Tally};

/// Changes of the lines of both captures.
#[derive(Drop)]
pub struct PairChanges {
    pub a: Vec<Change>,
    pub b: Vec<Change>,
}

impl PairChanges {
    /// These of this side, and those of the other one.
    pub fn of(side: Side, own: Vec<Change>, other: Vec<Change>) -> PairChanges {
        match side {
            Side::A => PairChanges { a: own, b: other },
            Side::B => PairChanges { a: other, b: own },
        }
    }
}

/// Whether the pair is a run under these changes; `None` where a file can't be read again. `Err`: want of memory, or a read that failed.
pub fn is_run_again<A: Read + Seek, B: Read + Seek>(
    alloc: Global,
    layers: Layers,
    a: &mut A,
    b: &mut B,
    changes: PairChanges,
) -> Result<Option<bool>, JudgeFault> {
    if a.rewind().is_err() || b.rewind().is_err() {
        return Ok(None);
    }
    match judge_edited(alloc, layers, &mut *a, &mut *b, changes) {
        Ok(Verdict::Accepted(_)) => Ok(Some(true)),
        Ok(Verdict::Refused { .. }) => Ok(Some(false)),
        Err(
            JudgeFault::Capture {
                fault: TextFault::Departs { .. },
                ..
            },
        ) => Ok(Some(false)),
        Err(fault) => Err(fault),
    }
}

/// Judges the captures that two readers give with these changes of their lines, as the edited texts are judged.
pub fn judge_edited<A: Read, B: Read>(
    alloc: Global,
    layers: Layers,
    a: &mut A,
    b: &mut B,
    changes: PairChanges,
) -> Result<Verdict, JudgeFault>
    ensures { IsAnswer (nodes_of layers) (with_changes changes.a.items (A.remaining a.old)) (with_changes changes.b.items (B.remaining b.old))
        result }
{
    let PairChanges {
        a: changes_a,
        b: changes_b,
    } = changes;
    let Ok(edited_a) = EditedReader::new(alloc, changes_a, &mut *a) else {
        return Err(JudgeFault::OutOfMemory);
    };
    let Ok(edited_b) = EditedReader::new(alloc, changes_b, &mut *b) else {
        return Err(JudgeFault::OutOfMemory);
    };
    judge_over(
        alloc,
        layers,
        &mut Tally::new(edited_a),
        &mut Tally::new(edited_b),
    )
}

/// How far a file was read; 0 where it does not say.
pub fn bytes_read<R: Seek>(file: &mut R) -> u64 {
    match file.stream_position() {
        Ok(at) => at,
        Err(_) => 0,
    }
}
