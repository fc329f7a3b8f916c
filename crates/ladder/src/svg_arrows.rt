//! The arrows of a picture.

use crate::drawn::Drawn;
use crate::row::Row;
use crate::said::{Content as Packet, Said};
use crate::svg_arrivals::{Arrival, Ending, arrival_of};
use crate::svg_columns::Columns;
use crate::svg_parts::{At, with_line, y_of};
use crate::svg_places::{Places, row_of_unit};
use crate::svg_words::{Detail, outside_title, packet_words, sent_words};
use crate::told::What;
use crate::xml::{Attributes, Content};
use crate::xml_names::Tag;
use capture_record::Fate as Became;
use std::alloc::{AllocError, Global};

// How far from a time line an arrow begins or ends, and how far it goes of what is never sent, whose other end is not drawn, or that is lost.
const GAP: usize = 5;

const STUB: usize = 40;

const CUT: usize = 90;

const LOST: usize = 130;

// How far such a one goes down.
const SLOPE: usize = 7;

/// An arrow: where it begins and ends, its classes, and its title.
#[derive(Drop)]
pub struct Arrow {
    start: At,
    stop: At,
    kind: &'static str,
    end: &'static str,
    title: String,
}

/// The arrow of the row with this number: of a sending, of a packet that is never sent, and of a receipt or noise whose sending is not drawn, or may
/// not come any more.
pub fn arrow_of(
    alloc: Global,
    drawn: &Drawn,
    places: &Places,
    columns: Columns,
    index: usize,
) -> Result<Option<Arrow>, AllocError> {
    let Some(row) = drawn.row(index) else {
        return Ok(None);
    };
    let y = y_of(places.of(index).told);
    match row.told.what {
        What::Sent { .. } => match arrival_of(drawn, places, index) {
            Some(arrival) => Ok(Some(whole(alloc, row, columns, y, arrival)?)),
            None => {
                let ending = Ending::of(row, drawn.has_ended());
                Ok(Some(cut(alloc, row, columns, y, ending)?))
            }
        },
        What::Came { .. } | What::Noise { .. } => match is_from_outside(drawn, row) {
            true => Ok(Some(from_outside(alloc, row, columns, y)?)),
            false => Ok(None),
        },
        What::Composed { content } => Ok(Some(never_sent(alloc, row, columns, y, content)?)),
        What::User { .. } => Ok(None),
    }
}

/// Whether what the row receives was sent in no row that is drawn.
pub fn is_from_outside(drawn: &Drawn, row: &Row) -> bool {
    match row.told.what {
        What::Came {
            hint,
            sent: Some(_),
            ..
        } => row_of_unit(drawn, row.told.side, hint).is_none(),
        What::Came { .. } | What::Noise { .. } => true,
        What::Sent { .. } | What::Composed { .. } | What::User { .. } => false,
    }
}

// From a sending to its receipt.
fn whole(
    alloc: Global,
    row: &Row,
    columns: Columns,
    y: usize,
    arrival: Arrival,
) -> Result<Arrow, AllocError> {
    let side = row.told.side;
    let to = side.other();
    let line = row.told.line;
    let there = arrival.line;
    let words = sent_words(alloc, row, Some(arrival), Detail::Full)?;
    Ok(Arrow {
        start: (columns.inside(side, GAP), y),
        stop: (columns.inside(to, GAP), y_of(arrival.level)),
        kind: kind_of(row, Some(arrival)),
        end: match head_of(arrival.said, arrival.became) {
            Head::Full => "",
            Head::Hollow => " hollow",
            Head::Dropped => " dropped",
        },
        title: format!(in alloc; "{side} line {line} to {to} line {there}\n{words}")?,
    })
}

// From a sending whose receipt is not drawn.
fn cut(
    alloc: Global,
    row: &Row,
    columns: Columns,
    y: usize,
    ending: Ending,
) -> Result<Arrow, AllocError> {
    let side = row.told.side;
    let line = row.told.line;
    let said = sent_words(alloc, row, None, Detail::Full)?;
    let note = ending.note();
    let (end, length) = match ending {
        Ending::Lost => (" lost", LOST),
        Ending::Refused | Ending::Later | Ending::Open => (" open", CUT),
    };
    Ok(Arrow {
        start: (columns.inside(side, GAP), y),
        stop: (columns.inside(side, length), y.saturating_add(SLOPE)),
        kind: kind_of(row, None),
        end,
        title: format!(in alloc; "{side} line {line}\n{said}{note}")?,
    })
}

// To a receipt whose sending is not drawn, or to noise.
fn from_outside(alloc: Global, row: &Row, columns: Columns, y: usize) -> Result<Arrow, AllocError> {
    let side = row.told.side;
    let head = match row.told.what {
        What::Came { said, became, .. } => head_of(said, became),
        _ => Head::Hollow,
    };
    Ok(Arrow {
        start: (columns.inside(side, CUT), y.saturating_sub(SLOPE)),
        stop: (columns.inside(side, GAP), y),
        kind: kind_of(row, None),
        end: match head {
            Head::Full => " outside",
            Head::Hollow => " outside hollow",
            Head::Dropped => " outside dropped",
        },
        title: outside_title(alloc, row)?,
    })
}

// A short one of a packet that is never sent.
fn never_sent(
    alloc: Global,
    row: &Row,
    columns: Columns,
    y: usize,
    content: Packet,
) -> Result<Arrow, AllocError> {
    let side = row.told.side;
    let line = row.told.line;
    let words = packet_words(alloc, content, Detail::Full)?;
    Ok(Arrow {
        start: (columns.inside(side, GAP), y),
        stop: (columns.inside(side, STUB), y),
        kind: kind_of(row, None),
        end: " unsent",
        title: format!(in alloc; "{side} line {line}\n{words} never sent")?,
    })
}

// The head of an arrow.
#[derive(Clone, Copy)]
enum Head {
    Full,
    Hollow,
    Dropped,
}

// That of what came: of data by what became of them; all else has a full one.
fn head_of(said: Said, became: Became) -> Head {
    match (said, became) {
        (_, Became::Dropped) => Head::Dropped,
        (Said::Data { .. }, Became::NotKept) => Head::Hollow,
        (Said::HeaderBad | Said::DataBad | Said::NoMessage, _) => Head::Hollow,
        _ => Head::Full,
    }
}

/// The class of what a row sends, and of what came of that, where it came; or of what it receives.
pub fn kind_of(row: &Row, came: Option<Arrival>) -> &'static str {
    match row.told.what {
        What::Sent { said, again, .. } => match came {
            Some(came) if came.is_other_than(said) => "bad",
            _ => match again {
                true => "again",
                false => said_kind(said),
            },
        },
        What::Came { .. } if row.changed => "bad",
        What::Came { said, .. } => said_kind(said),
        What::Noise { .. } => "bad",
        What::Composed { .. } => "data",
        What::User { .. } => "note",
    }
}

fn said_kind(said: Said) -> &'static str {
    match said {
        Said::Data { .. } => "data",
        Said::Ack { .. } => "ack",
        Said::Nak { .. } => "nak",
        Said::Rep { .. } => "rep",
        Said::Strt | Said::Stack => "start",
        Said::HeaderBad | Said::DataBad | Said::NoMessage => "bad",
    }
}

/// The arrow, with its title.
pub fn with_stroke(svg: Content, alloc: Global, arrow: &Arrow) -> Result<Content, AllocError> {
    let kind = arrow.kind;
    let end = arrow.end;
    let class = format!(in alloc; "{kind}{end}")?;
    let title = Content::new(alloc).with_words(arrow.title.as_str())?;
    let group = Content::new(alloc).with(Tag::Title, Attributes::new(alloc), title)?;
    let group = with_line(group, alloc, class.as_str(), arrow.start, arrow.stop)?;
    svg.with(Tag::Group, Attributes::new(alloc), group)?
        .with_words("\n")
}
