//! What is answered of refused captures as those of nodes with queues.

use crate::recorder::Tried;
use capture::CaptureFault;
use pair_judge::{Accused, EndVerdict, JudgeFault, Matter, Reason, TextFault, Verdict};
use printing::layers::{Layers, judge_end_over, judge_over};
use std::alloc::{AllocError, Global};
use std::io::{Read, Seek};
use why::QueuedAnswer;
use wire_base::{Side, Tally};

/// Judges the pair again as that of nodes with queues, where both layers were judged without them and such nodes may do what is refused for this
/// reason (a message or an event of a link that has ended or is in another phase, a piece, an older acknowledgement, a stale message), and keeps
/// the answer beside what small edits told. It is not known where a file can't be read again from its beginning, or where a read of one failed.
/// `AllocError`: there is no memory to judge it.
pub fn with_queues_too<A: Read + Seek, B: Read + Seek>(
    alloc: Global,
    layers: Layers,
    a: &mut A,
    b: &mut B,
    reason: Reason,
    mut tried: Tried,
) -> Result<Tried, AllocError> {
    if is_to_ask(layers, reason) {
        ask_queues(alloc, a, b, &mut tried)?;
    }
    Ok(tried)
}

fn ask_queues<A: Read + Seek, B: Read + Seek>(
    alloc: Global,
    a: &mut A,
    b: &mut B,
    tried: &mut Tried,
) -> Result<(), AllocError> {
    tried.queued = QueuedAnswer::NotKnown;
    if tried.failed.is_some() || a.rewind().is_err() || b.rewind().is_err() {
        return Ok(());
    }
    let mut tally_a = Tally::new(&mut *a);
    let mut tally_b = Tally::new(&mut *b);
    tried.queued = match judge_over(alloc, Layers::Queued, &mut tally_a, &mut tally_b) {
        Ok(verdict) => answer_of(verdict),
        Err(
            JudgeFault::Capture {
                side,
                fault: TextFault::Departs { kind, line },
            },
        ) => QueuedAnswer::Departs { side, kind, line },
        Err(fault) => return tried.stop(fault),
    };
    Ok(())
}

fn answer_of(verdict: Verdict) -> QueuedAnswer {
    match verdict {
        Verdict::Accepted(_) => QueuedAnswer::Accepted,
        Verdict::Refused {
            side,
            place,
            reason,
        } => QueuedAnswer::Refused {
            side,
            place,
            reason,
            by_other_end: false,
        },
    }
}

/// Judges the capture of one end again as that of a node with queues, likewise. `Err`: a read failed, or there is no memory to judge it.
pub fn end_with_queues<A: Read + Seek>(
    alloc: Global,
    layers: Layers,
    a: &mut A,
    reason: Reason,
) -> Result<QueuedAnswer, CaptureFault> {
    if !is_to_ask(layers, reason) {
        return Ok(QueuedAnswer::NotAsked);
    }
    if a.rewind().is_err() {
        return Ok(QueuedAnswer::NotKnown);
    }
    match judge_end_over(alloc, Layers::Queued, &mut Tally::new(&mut *a)) {
        Ok(EndVerdict::Passed(_)) => Ok(QueuedAnswer::Accepted),
        Ok(
            EndVerdict::Refused {
                place,
                accused,
                reason,
            },
        ) => Ok(QueuedAnswer::Refused {
            side: Side::A,
            place,
            reason,
            by_other_end: accused == Accused::OtherEnd,
        }),
        Err(CaptureFault::Departs { kind, line }) => Ok(QueuedAnswer::Departs {
            side: Side::A,
            kind,
            line,
        }),
        Err(fault) => Err(fault),
    }
}

/// What is known of nodes with queues where it is not asked over these layers.
pub fn unasked(layers: Layers) -> QueuedAnswer {
    match layers {
        Layers::Both => QueuedAnswer::NotKnown,
        Layers::Queued | Layers::Station => QueuedAnswer::NotAsked,
    }
}

// Whether nodes with queues may do what is refused for this reason, and were not judged yet.
fn is_to_ask(layers: Layers, reason: Reason) -> bool {
    if reason.matter() != Matter::LinkNow {
        return false;
    }
    layers == Layers::Both
}
