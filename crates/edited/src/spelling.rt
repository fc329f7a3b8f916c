//! The lines that edits put in.

use crate::change::Change;
use crate::line_changes::line_replaced;
use crate::row::Row;
use capture::{HintForm, put_line};
use capture_record::{Entry, Fate, MAX_MESSAGE};
use std::alloc::{AllocError, Global};

// The line of this entry, with its LF; `None` where it has more bytes than a line may have.
pub(crate) fn line_of(
    alloc: Global,
    entry: Entry,
    bytes: &[u8],
) -> Result<Option<Vec<u8>>, AllocError> {
    if bytes.len() > MAX_MESSAGE {
        return Ok(None);
    }
    let mut line = Vec::new(alloc);
    put_line(&mut line, entry, bytes)?;
    Ok(Some(line))
}

// The line of a receipt of this unit with the bytes, in the place of this row or in front of it; `None` where its distance would be negative,
// which no right hint has, and in a part of a run, which is not edited.
pub(crate) fn receipt_line(
    alloc: Global,
    form: HintForm,
    entry: (Fate, u64),
    bytes: &[u8],
) -> Result<Option<Vec<u8>>, AllocError> {
    let (fate, unit) = entry;
    let hint = match form {
        HintForm::Number | HintForm::Wide => unit,
        HintForm::Distance { mark } if mark <= unit => unit - mark,
        HintForm::Distance { mark: _ } | HintForm::Part => return Ok(None),
    };
    line_of(alloc, Entry::Received { fate, hint }, bytes)
}

// The line of a row as it stands; `None` where it has a negative distance.
pub(crate) fn line_as_it_is(alloc: Global, row: &Row) -> Result<Option<Vec<u8>>, AllocError> {
    match row.entry {
        Entry::Received { fate, hint } => receipt_line(alloc, row.form, (fate, hint), &row.bytes),
        entry => line_of(alloc, entry, &row.bytes),
    }
}

/// The changes by which the line of a row has these bytes, and is the same else; `None` where that can't be spelled: with more bytes than a line may
/// have, or a negative distance. `AllocError` where there is no memory for them.
pub fn with_bytes(
    alloc: Global,
    row: &Row,
    bytes: &[u8],
) -> Result<Option<Vec<Change>>, AllocError> {
    let put = match row.entry {
        Entry::Received { fate, hint } => receipt_line(alloc, row.form, (fate, hint), bytes)?,
        entry => line_of(alloc, entry, bytes)?,
    };
    match put {
        Some(put) => Ok(Some(line_replaced(alloc, row.line, put)?)),
        None => Ok(None),
    }
}
