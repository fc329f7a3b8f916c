//! The text of a capture with the hints that were found.

ghost use Rattle.std.specs.Prelude.{◌≡◌, ◌+◌, ◌<◌, ◌≤◌, ◌^◌, List, ◌∷◌, ◌++◌, length, IfOk, OnOk};
ghost use Rattle.capture_record.specs.declared.limit.TheConstants.{MAX_MESSAGE};
ghost use Rattle.capture.specs.declared.limit.TheConstants.{MAX_RECORDS};
ghost use Rattle.capture.specs.declared.hint.HintForm.TheVariants.{Number};
ghost use Rattle.capture_record.specs.declared.record.Record.{Record as Line};
ghost use Rattle.capture_record.specs.Range.{record_bytes};
ghost use Rattle.capture.specs.Range.{IsCapture, format_for};
ghost use Rattle.capture.specs.Text.{capture_text, record_lines};
ghost use Rattle.aligning.specs.Aligned as spec;

use crate::choice::choose;
use crate::whole::Whole;
use capture::{format_for, put_head_line, put_line};
use capture_record::{Entry, Record};
use std::alloc::{AllocError, Global};

/// The records of the other side from the next unit on, and its number.
#[derive(Clone, Copy)]
pub struct Ahead<'r> {
    pub rest: &'r [Record],
    pub next: u64,
}

/// The text of this capture in format 1, or in format 3 where a record is in that alone, each receipt with the number of its unit among those of
/// the other side's records; all else is as it was. Fails for want of memory alone.
pub fn aligned_text(alloc: Global, capture: &Whole, other: &[Record]) -> Result<Vec<u8>, AllocError>
    requires fits { IsCapture capture.now.own capture.now.peer capture.now.records.items }
    requires few { length other.now ≤ MAX_RECORDS }
    ensures { IfOk result (λ text. text.items ≡
        capture_text (format_for capture.now.records.items) capture.now.own capture.now.peer
        (spec.aligned 0 other.now capture.now.records.items)) }
{
    let mut text = Vec::new(alloc);
    let format = format_for(capture.records.as_slice());
    put_head_line(&mut text, format, capture.own, capture.peer)?;
    let mut ahead = Ahead {
        rest: other,
        next: 0,
    };
    for record in &capture.records {
        ahead = put_record(&mut text, record, ahead)?;
    }
    Ok(text)
}

// Appends the line of a record, a receipt with the number of its unit, and answers what is ahead after it.
fn put_record<'r>(
    text: &mut Vec<u8>,
    record: &Record,
    ahead: Ahead<'r>,
) -> Result<Ahead<'r>, AllocError>
    requires few { ahead.next + length ahead.rest.now < 2 ^ 62 }
    requires short { length (record_bytes «record».now) ≤ MAX_MESSAGE }
    ensures lines { IfOk result (λ after. (rs : List Line) →
        text.new.items ++ record_lines Number (spec.aligned after.next after.rest.now rs)
        ≡ text.old.items ++ record_lines Number (spec.aligned ahead.entry.next ahead.entry.rest.now («record».now ∷ rs))) }
    ensures bound { IfOk result (λ after. after.next + length after.rest.now ≤ ahead.entry.next + length ahead.entry.rest.now + 1) }
{
    let (entry, bytes) = record.parts();
    match record {
        Record::Received { fate, .. } => {
            let choice = choose(ahead.rest, ahead.next, bytes);
            let hint = choice.unit;
            put_line(text, Entry::Received { fate: *fate, hint }, bytes)?;
            Ok(Ahead {
                rest: choice.rest,
                next: hint + 1,
            })
        }
        Record::Sent(_) => {
            put_line(text, entry, bytes)?;
            Ok(ahead)
        }
        Record::Noise(_) => {
            put_line(text, entry, bytes)?;
            Ok(ahead)
        }
        Record::User(_) => {
            put_line(text, entry, bytes)?;
            Ok(ahead)
        }
    }
}
