//! All that is said of a refused record of one end, of whose other side nothing is known.

ghost use Rattle.std.specs.Prelude.{◌≡◌, IfOk, string_bytes};
ghost use Rattle.why.specs.inner.EndAlone as spec;
ghost use Rattle.why.specs.Refused.{BeginsWith, line_of_end, refused_line};

use crate::accusation::Accusation;
use crate::accused_row::AccusedRow;
use crate::ends::state_at;
use crate::nobody::NobodyObject;
use crate::queued::{QueuedAnswer, QueuedObject, QueuedRow, Whole};
use crate::refused_line::RefusedLine;
use crate::refused_record::{Beside, RefusedRecord, end_told, record_objects, record_rows};
use capture_record::Entry;
use ddcmp_station::StationView;
use pair_judge::{FailedCheck, Reason, SideEnd};
use record_words::lines::Lines;
use side_words::form::Form;
use side_words::state_line::StateLine;
use side_words::subject::addresses_of;
use std::alloc::{AllocError, Global};
use wire_base::Side;

/// A record of one end that is refused. The end is side a.
#[derive(Clone, Copy)]
pub struct EndRefusal<'r> {
    /// Its number, from 0 on; it is on line `place + 2`.
    pub place: u64,
    /// Why it is refused.
    pub reason: Reason,
    /// Who is accused.
    pub accusation: Accusation,
    /// Which check it does not pass; `None` where none is named.
    pub failed: Option<FailedCheck>,
    /// What its line says beside its bytes.
    pub says: Entry,
    /// Its bytes: none where its line has none.
    pub bytes: &'r [u8],
    /// The lines that its check names.
    pub lines: Lines,
    /// What is answered of a node with queues.
    pub queued: QueuedAnswer,
}

/// All JSON objects of a refused record of one end, each with its LF: the refusal, the record, the check, the end with its live links, and what is
/// answered of a node with queues.
/// Fails for want of memory alone.
pub fn why_end_json(
    alloc: Global,
    refusal: EndRefusal<'_>,
    end: &SideEnd,
) -> Result<String, AllocError>
    ensures { IfOk result (λ text. BeginsWith (refused_line (line_of_end refusal.entry)) (string_bytes text)) }
{
    let record = record_objects(alloc, record_of(refusal), end)?;
    let named = addresses_of(refusal.says, refusal.bytes);
    let told = end_told(alloc, Form::Object, state_alone(end), named, end)?;
    let last = last_objects(alloc, refusal)?;
    format!(in alloc; "{record}{told}{last}")
}

// Why nobody is accused, and what is answered of a node with queues, as JSON objects with an LF each.
fn last_objects(alloc: Global, refusal: EndRefusal<'_>) -> Result<String, AllocError> {
    let nobody = NobodyObject {
        side: Side::A,
        accusation: refusal.accusation,
    };
    let queued = QueuedObject {
        whole: Whole::End,
        answer: refusal.queued,
    };
    format!(in alloc; "{nobody}{queued}")
}

/// All rows of a refused record of one end after the line of the verdict: the record; the check; the end with its live links; the rows before it,
/// which are put together already; who is accused, and what is answered of a node with queues. Fails for want of memory alone.
pub fn why_end_rows(
    alloc: Global,
    refusal: EndRefusal<'_>,
    end: &SideEnd,
    beside: Beside<'_>,
    ladder: &str,
) -> Result<String, AllocError> {
    let record = record_rows(alloc, record_of(refusal), end, beside)?;
    let named = addresses_of(refusal.says, refusal.bytes);
    let told = end_told(alloc, Form::Rows, state_alone(end), named, end)?;
    let accused = AccusedRow {
        whole: Whole::End,
        side: Side::A,
        line: refusal.place.saturating_add(2),
        reason: refusal.reason,
        says: refusal.says,
        accusation: refusal.accusation,
    };
    let queued = QueuedRow {
        whole: Whole::End,
        answer: refusal.queued,
    };
    format!(in alloc; "{record}{told}\n{ladder}\n{accused}{queued}")
}

fn record_of(refusal: EndRefusal<'_>) -> RefusedRecord<'_>
    ensures { result.line ≡ line_of_end refusal.entry }
{
    RefusedRecord {
        line: RefusedLine {
            side: Side::A,
            record_number: refusal.place,
            reason: refusal.reason,
            accusation: refusal.accusation,
        },
        failed: refusal.failed,
        says: refusal.says,
        bytes: refusal.bytes,
        unit: None,
        lines: refusal.lines,
    }
}

// The end as it was before the refused record. Which start of the other side its own goes with is not known.
fn state_alone(end: &SideEnd) -> StateLine
    ensures { result ≡ spec.state_alone end.now }
{
    let state = state_at(Side::A, end);
    StateLine {
        station: StationView {
            partner: None,
            ..state.station
        },
        ..state
    }
}
