//! What is on the time lines of a picture: the states of both stations, what users do, and the box of the refused record.

use crate::drawn::Drawn;
use crate::row::{Fate, Row};
use crate::sides::is_side;
use crate::state::name_of;
use crate::svg::{Caption, Marked};
use crate::svg_columns::Columns;
use crate::svg_parts::{MARGIN, WIDTH, with_dot, with_rect, with_text, y_of};
use crate::svg_places::{Place, Places};
use crate::text::fitted;
use crate::told::What;
use crate::xml::Content;
use dna_station::State;
use std::alloc::{AllocError, Global};
use wire_base::Side;

// The box of the refused record: how far it begins above that, its height, and how far below the record its words are.
const ABOVE: usize = 9;

const HEIGHT: usize = 51;

// The box of a marked record has no words.
const MARK: usize = 18;

const SEEN: usize = 22;

const ALLOWED: usize = 36;

// How many letters a line of its words may have.
const LETTERS: usize = 124;

// A record of a side that was made: how far below the first one it is, and the state of its station after it.
#[derive(Clone, Copy)]
struct Mark {
    level: usize,
    state: State,
}

// That of the row with this number.
fn mark_of(drawn: &Drawn, places: &Places, index: usize, side: Side) -> Option<Mark> {
    let row = drawn.row(index)?;
    let place = places.of(index);
    if is_side(row.told.side, side) {
        if row.refused {
            return None;
        }
        return Some(Mark {
            level: place.told,
            state: row.told.state,
        });
    }
    match row.fate {
        Fate::Here(receipt) => Some(Mark {
            level: place.receipt,
            state: receipt.state,
        }),
        Fate::Open | Fate::Came | Fate::Lost => None,
    }
}

/// The time line of this side, in the colour of its station's state.
pub fn with_bands(
    svg: Content,
    alloc: Global,
    drawn: &Drawn,
    places: &Places,
    columns: Columns,
    side: Side,
) -> Result<Content, AllocError> {
    let x = columns.time_line(side).saturating_sub(3);
    let mut svg = svg;
    let mut above: Option<Mark> = None;
    for index in 0..drawn.len() {
        if let Some(mark) = mark_of(drawn, places, index, side) {
            svg = with_band(svg, alloc, x, above, y_of(mark.level))?;
            above = Some(mark);
        }
    }
    with_band(svg, alloc, x, above, places.lines_end())
}

fn with_band(
    svg: Content,
    alloc: Global,
    x: usize,
    above: Option<Mark>,
    bottom: usize,
) -> Result<Content, AllocError> {
    let Some(Mark { level, state }) = above else {
        return Ok(svg);
    };
    let y = y_of(level);
    with_rect(
        svg,
        alloc,
        name_of(state),
        (x, y),
        (6, bottom.saturating_sub(y)),
    )
}

// The state of this side's station before the row, where a row above tells it.
fn state_above(drawn: &Drawn, places: &Places, index: usize, side: Side) -> Option<State> {
    for below in 0..index {
        let above = index.saturating_sub(below).saturating_sub(1);
        if let Some(mark) = mark_of(drawn, places, above, side) {
            return Some(mark.state);
        }
    }
    None
}

/// The state of this side's station, where a record of the row changes it, or is the first that is drawn of its side.
pub fn new_state(drawn: &Drawn, places: &Places, index: usize, side: Side) -> Option<State> {
    let mark = mark_of(drawn, places, index, side)?;
    match state_above(drawn, places, index, side) {
        Some(above) if above == mark.state => None,
        _ => Some(mark.state),
    }
}

/// The dot on the time line, where the row with this number is of a user.
pub fn with_user(
    svg: Content,
    alloc: Global,
    columns: Columns,
    row: &Row,
    y: usize,
) -> Result<Content, AllocError> {
    match row.told.what {
        What::User { .. } => with_dot(svg, alloc, "user", (columns.time_line(row.told.side), y)),
        What::Sent { .. } | What::Came { .. } | What::Noise { .. } => Ok(svg),
        What::Composed { .. } => Ok(svg),
    }
}

/// The box of the refused record, with what is seen and what is allowed, where the row has it.
pub fn with_check(
    svg: Content,
    alloc: Global,
    caption: Caption<'_>,
    row: &Row,
    y: usize,
) -> Result<Content, AllocError> {
    if !row.refused {
        return Ok(svg);
    }
    let seen = format!(in alloc; "seen    {}", caption.seen)?;
    let allowed = format!(in alloc; "allowed {}", caption.allowed)?;
    let top = y.saturating_sub(ABOVE);
    let svg = with_rect(svg, alloc, "refused", (8, top), (WIDTH - 16, HEIGHT))?;
    let svg = with_caption(svg, alloc, "seen", y.saturating_add(SEEN), seen.as_str())?;
    let below = y.saturating_add(ALLOWED);
    with_caption(svg, alloc, "seen", below, allowed.as_str())
}

/// The boxes of the marked records among those of the row, which are in this place.
pub fn with_marks(
    svg: Content,
    alloc: Global,
    marked: &[Marked],
    row: &Row,
    place: Place,
) -> Result<Content, AllocError> {
    let mut svg = svg;
    for mark in marked {
        if let Some(level) = level_of(row, place, *mark) {
            let top = y_of(level).saturating_sub(ABOVE);
            svg = with_rect(svg, alloc, "refused", (8, top), (WIDTH - 16, MARK))?;
        }
    }
    Ok(svg)
}

// How far below the first record the marked one is, where the row has it.
fn level_of(row: &Row, place: Place, marked: Marked) -> Option<usize> {
    if is_side(row.told.side, marked.side) {
        if row.told.line == marked.line {
            return Some(place.told);
        }
        return None;
    }
    match row.fate {
        Fate::Here(receipt) if receipt.line == marked.line => Some(place.receipt),
        _ => None,
    }
}

/// A line of words at the left edge, cut to fit.
pub fn with_caption(
    svg: Content,
    alloc: Global,
    class: &str,
    y: usize,
    words: &str,
) -> Result<Content, AllocError> {
    let words = fitted(alloc, words, LETTERS)?;
    with_text(svg, alloc, class, (MARGIN, y), words.as_str())
}
