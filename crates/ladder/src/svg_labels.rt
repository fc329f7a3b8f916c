//! The labels of a picture: what its records say, beside the time line of their side.

use crate::drawn::Drawn;
use crate::row::{Fate, Row};
use crate::sides::is_side;
use crate::state::name_of;
use crate::svg_arrivals::{Ending, arrival_of};
use crate::svg_arrows::{is_from_outside, kind_of};
use crate::svg_columns::{Columns, label_room};
use crate::svg_marks::new_state;
use crate::svg_parts::{MARGIN, WIDTH, with_text, y_of};
use crate::svg_places::Places;
use crate::svg_words::{Detail, outside_words, packet_words, sent_words};
use crate::text::fitted;
use crate::told::What;
use crate::xml::Content;
use std::alloc::{AllocError, Global};
use wire_base::Side;

/// A label: of which side, and how many steps below the first record; the line of its record, and what that says, with its class.
#[derive(Drop)]
pub struct Label {
    side: Side,
    level: usize,
    line: String,
    kind: &'static str,
    words: String,
}

/// The labels of all rows. Each has a place of its own: its side's column, and there a level that no other record of that side has.
pub fn labels_of(alloc: Global, drawn: &Drawn, places: &Places) -> Result<Vec<Label>, AllocError> {
    let mut labels = Vec::new(alloc);
    for index in 0..drawn.len() {
        for side in [Side::A, Side::B] {
            if let Some(row) = drawn.row(index)
                && let Some(label) = label_of(alloc, drawn, places, index, row, side)?
            {
                labels.push(label)?;
            }
        }
    }
    Ok(labels)
}

/// The columns that have room for these labels.
pub fn columns_of(labels: &Vec<Label>) -> Columns {
    let mut columns = Columns::new();
    for label in labels {
        columns = columns.with_label(label.line.len(), label.words.len());
    }
    columns
}

fn label_of(
    alloc: Global,
    drawn: &Drawn,
    places: &Places,
    index: usize,
    row: &Row,
    side: Side,
) -> Result<Option<Label>, AllocError> {
    let Some(cell) = row.cell(side) else {
        return Ok(None);
    };
    let number = cell.line;
    let line = format!(in alloc; "{number}")?;
    let note = format!(in alloc; "{}", cell.note)?;
    let state = state_words(alloc, drawn, places, index, side)?;
    let is_own = is_side(row.told.side, side);
    let words = match is_own {
        true => own_words(
            alloc,
            drawn,
            places,
            index,
            note,
            state,
            label_room(line.len()),
        )?,
        false => joined(alloc, note.as_str(), state.as_str())?,
    };
    let place = places.of(index);
    let (level, kind) = match is_own {
        true => (place.told, label_kind(drawn, places, index, row)),
        false => (place.receipt, "note"),
    };
    Ok(Some(Label {
        side,
        level,
        line,
        kind,
        words,
    }))
}

// What a row's first record says, with its note and state after it. Where that would be too long, it goes without the words of a packet; then
// without the state, which the colour of the time line tells too; and then it is cut.
fn own_words(
    alloc: Global,
    drawn: &Drawn,
    places: &Places,
    index: usize,
    note: String,
    state: String,
    room: usize,
) -> Result<String, AllocError> {
    for detail in [Detail::Full, Detail::Brief] {
        let unit = unit_words(alloc, drawn, places, index, detail)?;
        let noted = joined(alloc, unit.as_str(), note.as_str())?;
        let words = joined(alloc, noted.as_str(), state.as_str())?;
        if words.len() <= room {
            return Ok(words);
        }
    }
    let unit = unit_words(alloc, drawn, places, index, Detail::Brief)?;
    let noted = joined(alloc, unit.as_str(), note.as_str())?;
    fitted(alloc, noted.as_str(), room)
}

// What is sent, or never sent, or received from where nothing is drawn.
fn unit_words(
    alloc: Global,
    drawn: &Drawn,
    places: &Places,
    index: usize,
    detail: Detail,
) -> Result<String, AllocError> {
    let Some(row) = drawn.row(index) else {
        return Ok(String::new(alloc));
    };
    match row.told.what {
        What::Sent { .. } => match arrival_of(drawn, places, index) {
            Some(arrival) => sent_words(alloc, row, Some(arrival), detail),
            None => {
                let words = sent_words(alloc, row, None, detail)?;
                let note = Ending::of(row, drawn.has_ended()).note();
                format!(in alloc; "{words}{note}")
            }
        },
        What::Came { .. } | What::Noise { .. } => match is_from_outside(drawn, row) {
            true => outside_words(alloc, row, detail),
            false => Ok(String::new(alloc)),
        },
        What::Composed { content } => packet_words(alloc, content, detail),
        What::User { .. } => Ok(String::new(alloc)),
    }
}

// The class of a row's first record.
fn label_kind(drawn: &Drawn, places: &Places, index: usize, row: &Row) -> &'static str {
    match row.told.what {
        What::Sent { .. } => match arrival_of(drawn, places, index) {
            Some(arrival) => kind_of(row, Some(arrival)),
            None => kind_of(row, None),
        },
        What::Came { .. } | What::Noise { .. } => match is_from_outside(drawn, row) {
            true => kind_of(row, None),
            false => "note",
        },
        What::Composed { .. } => kind_of(row, None),
        What::User { .. } => "note",
    }
}

// The state of this side's station, where the record changes it.
fn state_words(
    alloc: Global,
    drawn: &Drawn,
    places: &Places,
    index: usize,
    side: Side,
) -> Result<String, AllocError> {
    match new_state(drawn, places, index, side) {
        Some(state) => format!(in alloc; "[{}]", name_of(state)),
        None => Ok(String::new(alloc)),
    }
}

// Both, with a space between, if there are both.
fn joined(alloc: Global, left: &str, right: &str) -> Result<String, AllocError> {
    if left.is_empty() {
        return String::from_str(alloc, right);
    }
    if right.is_empty() {
        return String::from_str(alloc, left);
    }
    format!(in alloc; "{left} {right}")
}

/// A label: the line of its record at the edge of the picture, and its words at the time line.
pub fn with_label(
    svg: Content,
    alloc: Global,
    columns: Columns,
    label: &Label,
) -> Result<Content, AllocError> {
    let y = y_of(label.level).saturating_add(4);
    let (line_class, line_x, end) = match label.side {
        Side::A => ("line", MARGIN, " end"),
        Side::B => ("line end", WIDTH.saturating_sub(MARGIN), ""),
    };
    let svg = with_text(svg, alloc, line_class, (line_x, y), label.line.as_str())?;
    if label.words.is_empty() {
        return Ok(svg);
    }
    let kind = label.kind;
    let class = format!(in alloc; "{kind}{end}")?;
    let words_at = (columns.words(label.side), y);
    with_text(svg, alloc, class.as_str(), words_at, label.words.as_str())
}
