//! All that is said of a refused record.

ghost use Rattle.std.specs.Prelude.{◌≡◌, IfOk, string_bytes};
ghost use Rattle.why.specs.Refused.{BeginsWith, line_of, refused_line};

use crate::accusation::Accusation;
use crate::accused_row::AccusedRow;
use crate::edits::{EditsTried, RecorderRow, so_row};
use crate::ends::state_at;
use crate::nobody::NobodyObject;
use crate::queued::{QueuedAnswer, QueuedObject, QueuedRow, Whole};
use crate::refused_line::RefusedLine;
use crate::refused_record::{Beside, RefusedRecord, end_told, record_objects, record_rows};
use capture_record::Entry;
use pair_judge::{FailedCheck, JudgedEnds, Reason};
use record_words::lines::Lines;
use side_words::form::Form;
use side_words::subject::{Addresses, addresses_of};
use std::alloc::{AllocError, Global};
use wire_base::Side;

/// A record that is refused.
#[derive(Clone, Copy)]
pub struct Refusal<'r> {
    /// Its side.
    pub side: Side,
    /// Its number, from 0 on; it is on line `place + 2`.
    pub place: u64,
    /// Why it is refused.
    pub reason: Reason,
    /// Who is accused.
    pub accusation: Accusation,
    /// Which check it does not pass.
    pub failed: FailedCheck,
    /// What its line says beside its bytes.
    pub says: Entry,
    /// Its bytes: none where its line has none.
    pub bytes: &'r [u8],
    /// The bytes of the unit that its hint names; `None` where it names none that is known.
    pub unit: Option<&'r [u8]>,
    /// The lines that its check names.
    pub lines: Lines,
}

/// What is shown beside it, put together already: rows with their LF.
#[derive(Clone, Copy)]
pub struct Shown<'t> {
    /// The name of the capture that it is in.
    pub name: &'t str,
    /// The row of the unit that its hint names; nothing where it names none that was sent.
    pub unit: &'t str,
    /// Whether all of its bytes are printed.
    pub full: bool,
    /// The rows before it, of both sides.
    pub ladder: &'t str,
    /// Whether a node that is wrong in this one unit explains the record as well.
    pub unit_as_well: bool,
    /// What else was asked of the captures.
    pub asked: AlsoAsked<'t>,
}

/// What else was asked of the captures; what is text of it is put together already, as rows or as JSON objects, each with its LF.
#[derive(Clone, Copy)]
pub struct AlsoAsked<'t> {
    /// What is answered of nodes with queues.
    pub queued: QueuedAnswer,
    /// What is answered where less is judged.
    pub less: &'t str,
    /// The edits that make the pair a run (`put_edit`, `EditLine`).
    pub edits: &'t str,
    /// How many small edits were tried; `None` where that was not asked.
    pub tried: Option<EditsTried>,
}

/// All JSON objects of a refused record, each with its LF: the refusal, the record, the check, the side of the record and its live links, the
/// other side and its, and what else was asked. Fails for want of memory alone.
pub fn why_json(
    alloc: Global,
    refusal: Refusal<'_>,
    ends: &JudgedEnds,
    asked: AlsoAsked<'_>,
) -> Result<String, AllocError>
    ensures { IfOk result (λ text. BeginsWith (refused_line (line_of refusal.entry)) (string_bytes text)) }
{
    let side = refusal.side;
    let record = record_objects(alloc, record_of(refusal), ends.end(side))?;
    let named = addresses_of(refusal.says, refusal.bytes);
    let own = side_told(alloc, Form::Object, side, named, ends)?;
    let other = side_told(alloc, Form::Object, side.other(), named.turned(), ends)?;
    let nobody = NobodyObject {
        side,
        accusation: refusal.accusation,
    };
    let last = last_objects(alloc, nobody, asked)?;
    format!(in alloc; "{record}{own}{other}{last}")
}

// Why nobody is accused, and what else was asked, as JSON objects with an LF each.
fn last_objects(
    alloc: Global,
    nobody: NobodyObject,
    asked: AlsoAsked<'_>,
) -> Result<String, AllocError> {
    let queued = QueuedObject {
        whole: Whole::Pair,
        answer: asked.queued,
    };
    let AlsoAsked { less, edits, .. } = asked;
    match asked.tried {
        Some(tried) => format!(in alloc; "{nobody}{queued}{less}{edits}{tried}"),
        None => format!(in alloc; "{nobody}{queued}{less}{edits}"),
    }
}

/// All rows of a refused record after the line of the verdict: the record and the unit that its hint names; the check; both sides, that of the
/// record first, with their live links, the one that the record is about first; the rows before it; who is accused, and what small edits tell.
/// Fails for want of memory alone.
pub fn why_rows(
    alloc: Global,
    refusal: Refusal<'_>,
    ends: &JudgedEnds,
    shown: Shown<'_>,
) -> Result<String, AllocError> {
    let side = refusal.side;
    let Shown {
        name,
        unit,
        full,
        ladder,
        ..
    } = shown;
    let beside = Beside { name, unit, full };
    let end = ends.end(side);
    let record = record_rows(alloc, record_of(refusal), end, beside)?;
    let named = addresses_of(refusal.says, refusal.bytes);
    let own = side_told(alloc, Form::Rows, side, named, ends)?;
    let other = side_told(alloc, Form::Rows, side.other(), named.turned(), ends)?;
    let accused = AccusedRow {
        whole: Whole::Pair,
        side,
        line: refusal.place.saturating_add(2),
        reason: refusal.reason,
        says: refusal.says,
        accusation: refusal.accusation,
    };
    let recorder = recorder_rows(alloc, shown)?;
    let queued = QueuedRow {
        whole: Whole::Pair,
        answer: shown.asked.queued,
    };
    let less = shown.asked.less;
    format!(in alloc; "{record}{own}{other}\n{ladder}\n{accused}{queued}{less}{recorder}")
}

// The record without what only a pair tells of it.
fn record_of(refusal: Refusal<'_>) -> RefusedRecord<'_>
    ensures { result.line ≡ line_of refusal.entry }
{
    RefusedRecord {
        line: RefusedLine {
            side: refusal.side,
            record_number: refusal.place,
            reason: refusal.reason,
            accusation: refusal.accusation,
        },
        failed: Some(refusal.failed),
        says: refusal.says,
        bytes: refusal.bytes,
        unit: refusal.unit,
        lines: refusal.lines,
    }
}

// A side and its live links, in rows first the one that has the named addresses.
fn side_told(
    alloc: Global,
    form: Form,
    side: Side,
    named: Addresses,
    ends: &JudgedEnds,
) -> Result<String, AllocError> {
    let end = ends.end(side);
    end_told(alloc, form, state_at(side, end), named, end)
}

// The rows of what small edits tell of the recorder.
fn recorder_rows(alloc: Global, shown: Shown<'_>) -> Result<String, AllocError> {
    let AlsoAsked {
        queued,
        edits,
        tried,
        ..
    } = shown.asked;
    let Some(tried) = tried else {
        return Ok(String::new(alloc));
    };
    let row = RecorderRow { edits: tried };
    let so = so_row(tried.accepted, shown.unit_as_well, queued);
    format!(in alloc; "{row}{edits}{so}")
}
