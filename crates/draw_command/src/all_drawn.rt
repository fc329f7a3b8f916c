//! The rows of a pair of which something is left out, as the captures have them.

ghost use Rattle.std.specs.Prelude.{◌≤◌};
ghost use Rattle.drawing.specs.declared.range.TheConstants.{MAX_ROWS};

use crate::all_draw::AllFound;
use all_answer::all_judged::{AllFault, in_memory};
use all_answer::all_pair::{Left, LeftTexts, PairCaptures, judge_texts, stopped_at};
use all_answer::all_stops::{Stops, put_end};
use all_answer::all_told::Refusal;
use all_answer::onlooker::{Onlooker, Originals};
use drawing::{DrawnPair, Range, tell_behind};
use ladder::{Drawn, Keep, Ladder};
use pair_judge::{JudgeFault, JudgedAs, JudgedEnds, Nobody, TextFault, Verdict, Watched, judge};
use printing::layers::Layers;
use std::alloc::Global;
use std::io::{Read, Seek};
use why::LinkPast;
use why_answer::last_rows::LastRows;
use wire_base::{Side, Tally};

/// Rows that were drawn while what is left was judged.
#[derive(Drop)]
pub struct AllDrawn {
    pub pair: DrawnPair,
    /// How the judgement ends; at a line that departs it ends as if that were refused.
    pub verdict: Verdict,
    /// Whether what is left shows why.
    pub is_shown: bool,
}

/// The rows of this range, as the captures have them, while what is left of both is judged: up to a line that departs, where one does. Where no start
/// is named they begin so far before the first refusal that it is in their middle.
pub fn all_drawn<A: Read + Seek, B: Read + Seek>(
    alloc: Global,
    captures: &mut PairCaptures<'_, '_, '_, A, B>,
    range: Range,
    all: &AllFound,
) -> Result<AllDrawn, AllFault>
    requires low { 1 ≤ range.rows }
    requires high { range.rows ≤ MAX_ROWS }
{
    let whole = captures.whole(alloc)?;
    let mut left = captures.left(alloc, Side::B, &all.not_judged)?;
    left_drawn(alloc, captures, range, all, &whole, &mut left)
}

// The same of the texts of both captures, with nothing left out and of what is left.
fn left_drawn<A: Read + Seek, B: Read + Seek>(
    alloc: Global,
    captures: &mut PairCaptures<'_, '_, '_, A, B>,
    range: Range,
    all: &AllFound,
    whole: &LeftTexts,
    left: &mut Left,
) -> Result<AllDrawn, AllFault>
    requires low { 1 ≤ range.rows }
    requires high { range.rows ≤ MAX_ROWS }
{
    let layers = captures.printout.layers;
    let any_period = all.not_judged.any_period();
    let departs = end_before_fault(alloc, layers, any_period, &mut left.texts)?;
    let originals = originals_of(alloc, range, all.refusals.as_slice(), whole)?;
    let onlooker = Onlooker::Originals(originals);
    let is_shown = !departs && all.not_judged.heads_fit();
    match judge_texts(alloc, layers, any_period, onlooker, &left.texts) {
        Ok(watched) => watched_drawn(alloc, captures, left.stops, is_shown, watched),
        Err(fault) => Err(AllFault::Judge(fault)),
    }
}

// Rows of this range that are told of the records of both texts.
fn originals_of<'t>(
    alloc: Global,
    range: Range,
    refusals: &[Refusal],
    whole: &'t LeftTexts,
) -> Result<Originals<'t>, AllFault>
    requires low { 1 ≤ range.rows }
    requires high { range.rows ≤ MAX_ROWS }
{
    let ladder = in_memory(Ladder::new(alloc, kept(range, refusals), range.rows))?;
    let past = LinkPast::new(alloc);
    in_memory(Originals::new(alloc, LastRows { ladder, past }, &whole.a, &whole.b))
}

// What is drawn where the judgement ends.
fn watched_drawn<A: Read + Seek, B: Read + Seek>(
    alloc: Global,
    captures: &mut PairCaptures<'_, '_, '_, A, B>,
    stops: Stops,
    is_shown: bool,
    watched: Watched<Onlooker<'_>>,
) -> Result<AllDrawn, AllFault> {
    let Watched { ends, mut observer } = watched;
    let rows = ended_rows(alloc, captures, stops, &ends, &mut observer);
    drop(observer);
    with_rows(ends, rows, is_shown)
}

// Rows, and how the judgement ends with them.
#[derive(Drop)]
struct EndedRows {
    drawn: Drawn,
    verdict: Verdict,
    // Whether it does not stop before.
    is_whole: bool,
}

// Both ends with their rows, where there are any. What is left may show why, or not.
fn with_rows(
    ends: JudgedEnds,
    rows: Result<EndedRows, AllFault>,
    is_shown: bool,
) -> Result<AllDrawn, AllFault> {
    match rows {
        Ok(rows) => Ok(AllDrawn {
            pair: DrawnPair {
                ends,
                drawn: rows.drawn,
            },
            verdict: rows.verdict,
            is_shown: rows.is_whole && is_shown,
        }),
        Err(fault) => {
            ends.let_go();
            Err(fault)
        }
    }
}

// The rows up to where the judgement ends. Somebody was told of them.
fn ended_rows<A: Read + Seek, B: Read + Seek>(
    alloc: Global,
    captures: &mut PairCaptures<'_, '_, '_, A, B>,
    stops: Stops,
    ends: &JudgedEnds,
    onlooker: &mut Onlooker<'_>,
) -> Result<EndedRows, AllFault> {
    let Onlooker::Originals(originals) = onlooker else {
        return Err(AllFault::OUT_OF_MEMORY);
    };
    let stopped = stopped_at(ends.verdict(), stops);
    let verdict = verdict_of(ends.verdict(), stopped);
    end_rows(alloc, captures, verdict, ends, originals)?;
    let drawn = in_memory(originals.rows.ladder.drawn(alloc))?;
    Ok(EndedRows {
        drawn,
        verdict,
        is_whole: stopped.is_none(),
    })
}

// Tells the rows how the judgement ends, and what comes after it.
fn end_rows<A: Read + Seek, B: Read + Seek>(
    alloc: Global,
    captures: &mut PairCaptures<'_, '_, '_, A, B>,
    verdict: Verdict,
    ends: &JudgedEnds,
    originals: &mut Originals<'_>,
) -> Result<(), AllFault> {
    let Verdict::Refused { side, reason, .. } = verdict else {
        originals.rows.ladder.end();
        return Ok(());
    };
    in_memory(originals.refused(side, reason.is_of_changed_bytes()))?;
    let ladder = &mut originals.rows.ladder;
    match tell_behind(alloc, ladder, ends, captures.a, captures.b) {
        Ok(()) => Ok(()),
        Err(fault) => Err(AllFault::Judge(fault)),
    }
}

// Ends these texts before the line that departs, if the judgement comes to one; whether it does.
fn end_before_fault(
    alloc: Global,
    layers: Layers,
    any_period: bool,
    texts: &mut LeftTexts,
) -> Result<bool, AllFault> {
    match verdict_on(alloc, layers, any_period, texts) {
        Ok(_) => Ok(false),
        Err(
            JudgeFault::Capture {
                side,
                fault: TextFault::Departs { line, .. },
            },
        ) => {
            in_memory(put_end(texts.of_mut(side), line))?;
            Ok(true)
        }
        Err(fault) => Err(AllFault::Judge(fault)),
    }
}

// The verdict on these texts, as `judge_texts` finds it.
fn verdict_on(
    alloc: Global,
    layers: Layers,
    any_period: bool,
    texts: &LeftTexts,
) -> Result<Verdict, JudgeFault> {
    let mut a = Tally::new(texts.a.as_slice());
    let mut b = Tally::new(texts.b.as_slice());
    match judge(
        alloc,
        JudgedAs { layers, any_period },
        &mut a,
        &mut b,
        Nobody,
    ) {
        Ok(watched) => {
            let verdict = watched.ends.verdict();
            watched.ends.let_go();
            Ok(verdict)
        }
        Err(fault) => Err(fault),
    }
}

// How the judgement ends, which is at this refusal if it stops there.
fn verdict_of(verdict: Verdict, stopped: Option<Refusal>) -> Verdict {
    match stopped {
        Some(refusal) => Verdict::Refused {
            side: refusal.side,
            place: refusal.place,
            reason: refusal.reason,
        },
        None => verdict,
    }
}

// Which rows are kept.
fn kept(range: Range, refusals: &[Refusal]) -> Keep {
    if let Some(start) = range.start {
        return Keep::From {
            side: start.side,
            line: start.line,
        };
    }
    let Some(first) = refusals.first() else {
        return Keep::First;
    };
    let before = (range.rows / 2) as u64;
    if first.place <= before {
        return Keep::First;
    }
    Keep::From {
        side: first.side,
        line: first.place.saturating_add(2).saturating_sub(before),
    }
}
