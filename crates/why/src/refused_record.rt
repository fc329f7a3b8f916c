//! What is said of a refused record beside the end of its side.

ghost use Rattle.std.specs.Prelude.{◌≡◌, IfOk, string_bytes};
ghost use Rattle.why.specs.Refused.{BeginsWith, refused_line};

use crate::checks::{Check, CheckObject, check_rows};
use crate::ends::live_links;
use crate::front_texts::FrontTexts;
use crate::other_end::{OtherEnd, OtherEndObject, other_end_rows};
use crate::refused_line::RefusedLine;
use capture_record::Entry;
use ddcmp_msg::read_unit;
use pair_judge::{FailedCheck, SideEnd};
use record_words::lines::Lines;
use record_words::record::{record_json, record_text};
use side_words::form::Form;
use side_words::sides::{side_json, side_text};
use side_words::state_line::StateLine;
use side_words::subject::{Addresses, addresses_of, subjects};
use std::alloc::{AllocError, Global};

/// A refused record, of a pair or of one end alone.
#[derive(Clone, Copy)]
pub struct RefusedRecord<'r> {
    /// Where it is, why it is refused, and who is accused.
    pub line: RefusedLine,
    /// Which check it does not pass; `None` where none is named, since the other end is accused.
    pub failed: Option<FailedCheck>,
    /// What its line says beside its bytes.
    pub says: Entry,
    /// Its bytes: none where its line has none.
    pub bytes: &'r [u8],
    /// The bytes of the unit that its hint names; `None` where it names none that is known.
    pub unit: Option<&'r [u8]>,
    /// The lines that its check names.
    pub lines: Lines,
}

/// Where a refused record is, and what is shown beside it in rows.
#[derive(Clone, Copy)]
pub struct Beside<'t> {
    /// The name of its capture.
    pub name: &'t str,
    /// The row of the unit that its hint names; nothing where it names none that was sent.
    pub unit: &'t str,
    /// Whether all of its bytes are printed.
    pub full: bool,
}

/// The JSON objects of the refusal, of the record and of the check. Fails for want of memory alone.
pub fn record_objects(
    alloc: Global,
    refused: RefusedRecord<'_>,
    end: &SideEnd,
) -> Result<String, AllocError>
    ensures { IfOk result (λ text. BeginsWith (refused_line refused.entry.line) (string_bytes text)) }
{
    let line = refused.line;
    let object = record_json(alloc, refused.says, refused.bytes)?;
    let check = check_told(alloc, Form::Object, refused, end)?;
    format!(in alloc; "{line}{object}{check}")
}

/// The rows of the record, with the row of the unit that its hint names; and of the check; after each an empty one. Fails for want of memory alone.
pub fn record_rows(
    alloc: Global,
    refused: RefusedRecord<'_>,
    end: &SideEnd,
    beside: Beside<'_>,
) -> Result<String, AllocError> {
    let Beside { name, unit, full } = beside;
    let line = u128::from(refused.line.record_number) + 2;
    let rows = record_text(alloc, (name, line), refused.says, refused.bytes, full)?;
    let check = check_told(alloc, Form::Rows, refused, end)?;
    format!(in alloc; "{rows}{unit}\n{check}\n")
}

// The check at this end; where none is named, what no right other end can have sent.
fn check_told(
    alloc: Global,
    form: Form,
    refused: RefusedRecord<'_>,
    end: &SideEnd,
) -> Result<String, AllocError> {
    let Some(failed) = refused.failed else {
        return other_end_told(alloc, form, refused, end);
    };
    let fronts = FrontTexts::of(alloc, end, refused.says, refused.bytes, refused.unit)?;
    let check = Check {
        side: refused.line.side,
        reason: refused.line.reason,
        failed,
        bytes: refused.bytes,
        reading: read_unit(refused.bytes),
        fronts: fronts.lent(),
        lines: refused.lines,
    };
    match form {
        Form::Object => format!(in alloc; "{}", CheckObject { check }),
        Form::Rows => check_rows(alloc, check),
    }
}

// What came to this end, and what a right other end could have sent.
fn other_end_told(
    alloc: Global,
    form: Form,
    refused: RefusedRecord<'_>,
    end: &SideEnd,
) -> Result<String, AllocError> {
    let live = live_links(alloc, end)?;
    let named = addresses_of(refused.says, refused.bytes);
    let found = subjects(alloc, named, live.as_slice())?;
    let link = match found.as_slice() {
        [link, ..] => Some(*link),
        [] => None,
    };
    let told = OtherEnd {
        reason: refused.line.reason,
        bytes: refused.bytes,
        station: end.station(),
        nodes: end.incoming(),
        link,
    };
    match form {
        Form::Object => format!(in alloc; "{}", OtherEndObject { told }),
        Form::Rows => other_end_rows(alloc, told),
    }
}

/// The end in this state, and its live links. Fails for want of memory alone.
pub fn end_told(
    alloc: Global,
    form: Form,
    state: StateLine,
    named: Addresses,
    end: &SideEnd,
) -> Result<String, AllocError> {
    let live = live_links(alloc, end)?;
    match form {
        Form::Object => side_json(alloc, state, live.as_slice()),
        Form::Rows => side_text(alloc, state, named, live.as_slice()),
    }
}
