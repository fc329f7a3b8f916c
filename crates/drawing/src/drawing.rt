//! `draw`: two captures, and the rows of their ladder.

ghost use Rattle.std.specs.Prelude.{◌≡◌, ◌≤◌, [], IfErr, IfOk, List, None, OnOk, Some, Ok, Err};
ghost use Rattle.ladder.specs.declared.rows.Keep.TheVariants.{First, Last};
ghost use Rattle.pair_judge.specs.Ends.{verdict_in};
ghost use Rattle.pair_judge.specs.Judged.{IsAnswer, JudgesOrFails};
ghost use Rattle.pair_judge.specs.JudgedAs.{nodes_of};
ghost use Rattle.pair_judge.specs.Order.{MadeRecord};
ghost use Rattle.pair_judge.specs.Watched.{WasTold, only};
ghost use Rattle.wire_base.specs.Tally.{tally_faults, tally_lent};
ghost use Rattle.drawing.specs.declared.range.TheConstants.{MAX_ROWS};
ghost use Rattle.drawing.specs.Drawing as spec;
ghost use Rattle.drawing.specs.Telling.{keep_for};
ghost use Rattle.drawing.specs.inner.Ending.{EndsDrawing, IsBegun};
ghost use Rattle.drawing.specs.inner.Kept.{IsEnds, Rest};

use crate::begun::Begun;
use crate::behind::tell_behind;
use crate::fault::DrawFault;
use crate::range::{MAX_ROWS, Range, Start};
use crate::telling::{BothEnds, Onward};
use ladder::{Drawn, Ladder};
use pair_judge::{JudgeFault, JudgedEnds, Layers, Observer, Reason, Verdict, Watched, judge};
use std::alloc::{AllocError, Global};
use std::io::{Read, Seek, Write};
use wire_base::{Side, Tally, write_whole};

/// The rows of a pair, with both ends as `judge` gives them: which record of each is ahead, and how many were made.
#[derive(Drop)]
pub struct DrawnPair {
    pub ends: JudgedEnds,
    pub drawn: Drawn,
}

/// Judges the captures that two files give from where they are, writes the rows of this range to `out`, and answers the verdict.
///
/// A row is written as [`ladder::Row::text`] tells it, with its LF, which no clause says; none, where the range begins after what was read.
/// A refused pair is read again from its beginning, to see which units come after the refused record; where that can't be, it is told of none that it
/// never comes. The whole text is put together before the first write. `Err`: there is no verdict, memory was wanting, or a read failed, and
/// nothing is written; or a write failed, and a beginning is.
#[tactic(auto, using(crate::proofs::Writings::draws_all, crate::proofs::Writings::draws_some, crate::proofs::Ladders::failed_answer))]
pub fn draw_to<A: Read + Seek, B: Read + Seek, O: Write>(
    alloc: Global,
    a: &mut A,
    b: &mut B,
    range: Range,
    out: &mut Tally<O>,
) -> Result<Verdict, DrawFault>
    requires low { 1 ≤ range.rows }
    requires high { range.rows ≤ MAX_ROWS }
    ensures { spec.Draws range (A.remaining a.old) (B.remaining b.old) (record {
      old = O.contents (tally_lent out.old);
      new = O.contents (tally_lent out.new);
      old_faults = tally_faults out.old;
      new_faults = tally_faults out.new;
    }) result }
{
    let drawing = match drawing_of(alloc, a, b, range) {
        Ok(drawing) => drawing,
        Err(fault) => return Err(DrawFault::Judge(fault)),
    };
    let Ok(text) = rows_text(alloc, &drawing.drawn) else {
        return Err(DrawFault::Judge(JudgeFault::OutOfMemory));
    };
    match write_whole(out, text.as_bytes()) {
        Ok(()) => Ok(drawing.ends.verdict()),
        Err(_) => Err(DrawFault::Write),
    }
}

/// The rows of this range, with both ends as `judge` gives them. `Err`: there is no verdict, memory was wanting, or a read failed.
pub fn drawing_of<A: Read + Seek, B: Read + Seek>(
    alloc: Global,
    a: &mut A,
    b: &mut B,
    range: Range,
) -> Result<DrawnPair, JudgeFault>
    requires low { 1 ≤ range.rows }
    requires high { range.rows ≤ MAX_ROWS }
    ensures { spec.IsDrawing range (A.remaining a.old) (B.remaining b.old) result }
{
    match range.start {
        None => ends_drawn(alloc, a, b, range),
        Some(start) => onward_drawn(alloc, a, b, range, start),
    }
}

// The first rows, or those up to a refused record.
#[tactic(auto, using(crate::proofs::Ladders::ends_so, crate::proofs::Ladders::failed_answer))]
fn ends_drawn<A: Read + Seek, B: Read + Seek>(
    alloc: Global,
    a: &mut A,
    b: &mut B,
    range: Range,
) -> Result<DrawnPair, JudgeFault>
    requires start { range.start ≡ None }
    requires low { 1 ≤ range.rows }
    requires high { range.rows ≤ MAX_ROWS }
    ensures { spec.IsDrawing range (A.remaining a.old) (B.remaining b.old) result }
{
    let Ok(telling) = BothEnds::new(alloc) else {
        return Err(JudgeFault::OutOfMemory);
    };
    let Watched { ends, observer } = match judged(alloc, a, b, range.layers, telling) {
        Ok(watched) => watched,
        Err(fault) => return Err(fault),
    };
    match ends_begun(alloc, &ends, observer, range.rows) {
        Ok(begun) => finished(alloc, begun, ends, a, b),
        Err(_) => Err(JudgeFault::OutOfMemory),
    }
}

// The rows from this record on.
#[tactic(auto, using(crate::proofs::Ladders::onward_so, crate::proofs::Ladders::failed_answer))]
fn onward_drawn<A: Read + Seek, B: Read + Seek>(
    alloc: Global,
    a: &mut A,
    b: &mut B,
    range: Range,
    start: Start,
) -> Result<DrawnPair, JudgeFault>
    requires start { range.start ≡ Some start }
    requires low { 1 ≤ range.rows }
    requires high { range.rows ≤ MAX_ROWS }
    ensures { spec.IsDrawing range (A.remaining a.old) (B.remaining b.old) result }
{
    let Ok(telling) = Onward::new(alloc, start) else {
        return Err(JudgeFault::OutOfMemory);
    };
    let Watched { ends, observer } = match judged(alloc, a, b, range.layers, telling) {
        Ok(watched) => watched,
        Err(fault) => return Err(fault),
    };
    match observer.begun(alloc, start, range.rows) {
        Ok(begun) => finished(alloc, begun, ends, a, b),
        Err(_) => Err(JudgeFault::OutOfMemory),
    }
}

// Judges both captures, while it is told of their records.
fn judged<O: Observer, A: Read, B: Read>(
    alloc: Global,
    a: &mut A,
    b: &mut B,
    layers: Layers,
    observer: O,
) -> Result<Watched<O>, JudgeFault>
    requires { O.told observer [] }
    ensures answer { IsAnswer (nodes_of layers) (A.remaining a.old) (B.remaining b.old)
        (verdict_in (only result (λ watched. watched.ends))) }
    ensures told { IfOk result (λ watched.
        WasTold (nodes_of layers) (A.remaining a.old) (B.remaining b.old) watched.ends (O.told watched.observer)) }
{
    let mut reader_a = Tally::new(&mut *a);
    let mut reader_b = Tally::new(&mut *b);
    judge(
        alloc,
        layers.of_period(),
        &mut reader_a,
        &mut reader_b,
        observer,
    )
}

// A ladder that was told of the first records of an accepted pair, or of the last ones of a refused pair.
fn ends_begun(
    alloc: Global,
    ends: &JudgedEnds,
    telling: BothEnds,
    rows: usize,
) -> Result<Begun, AllocError>
    requires low { 1 ≤ rows }
    requires high { rows ≤ MAX_ROWS }
    ensures { IfOk result (λ begun. (order : List MadeRecord) → IsEnds telling order
        → IsBegun (keep_for First Last ends.now.verdict) rows begun order) }
{
    let BothEnds { first, recent } = telling;
    match ends.verdict() {
        Verdict::Accepted(_) => first.begun(alloc, rows),
        Verdict::Refused { .. } => recent.begun(alloc, rows),
    }
}

// What is drawn of a ladder, which is told what comes after.
fn finished<A: Read + Seek, B: Read + Seek>(
    alloc: Global,
    begun: Begun,
    ends: JudgedEnds,
    a: &mut A,
    b: &mut B,
) -> Result<DrawnPair, JudgeFault>
    ensures { EndsDrawing ends begun result }
{
    let Begun { mut ladder, is_all } = begun;
    match tell_end(alloc, &mut ladder, is_all, &ends, a, b) {
        Ok(()) => match ladder.drawn(alloc) {
            Ok(drawn) => Ok(DrawnPair { ends, drawn }),
            Err(_) => Err(JudgeFault::OutOfMemory),
        },
        Err(fault) => Err(fault),
    }
}

// Tells what comes after the records that were made, if the ladder was told of them all.
#[tactic(auto, using(crate::proofs::Ladders::left_so, crate::proofs::Ladders::all_so))]
fn tell_end<A: Read + Seek, B: Read + Seek>(
    alloc: Global,
    ladder: &mut Ladder,
    is_all: bool,
    ends: &JudgedEnds,
    a: &mut A,
    b: &mut B,
) -> Result<(), JudgeFault>
    ensures ok { OnOk result ((rest : List MadeRecord) → Rest is_all rest
        → spec.IsLadderBy rest ends.now.verdict ends.now ladder.old ladder.new) }
    ensures err { IfErr result (λ fault. JudgesOrFails (Err fault)) }
{
    if !is_all {
        return Ok(());
    }
    tell_all_ended(alloc, ladder, ends, a, b)
}

// Tells that none is left, or which one is refused and what comes after it.
fn tell_all_ended<A: Read + Seek, B: Read + Seek>(
    alloc: Global,
    ladder: &mut Ladder,
    ends: &JudgedEnds,
    a: &mut A,
    b: &mut B,
) -> Result<(), JudgeFault>
    ensures ok { OnOk result (spec.IsLadder ends.now.verdict ends.now ladder.old ladder.new) }
    ensures err { IfErr result (λ fault. JudgesOrFails (Err fault)) }
{
    match ends.verdict() {
        Verdict::Accepted(_) => {
            ladder.end();
            Ok(())
        }
        Verdict::Refused { side, reason, .. } => {
            tell_ahead(ladder, ends, side, reason);
            tell_behind(alloc, ladder, ends, a, b)
        }
    }
}

// Tells of the refused record.
#[tactic(auto, using(crate::proofs::Ladders::told_ahead, crate::proofs::Ladders::none_ahead))]
fn tell_ahead(ladder: &mut Ladder, ends: &JudgedEnds, side: Side, reason: Reason)
    ensures { spec.TellsAhead side reason ends.now ladder.old ladder.new }
{
    if let Some((entry, bytes)) = ends.ahead(side) {
        ladder.refused(side, entry, bytes, reason.is_of_changed_bytes());
    }
}

// The rows, each with its LF. `AllocError` where there is no memory for them.
fn rows_text(alloc: Global, drawn: &Drawn) -> Result<String, AllocError> {
    let mut text = String::new(alloc);
    for index in 0..drawn.len() {
        if let Some(row) = drawn.text(alloc, index)? {
            text.push_str(row.as_str())?;
            text.push_str("\n")?;
        }
    }
    Ok(text)
}
