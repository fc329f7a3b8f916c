//! The words of units in a picture, and the titles of its arrows.

use crate::row::Row;
use crate::said::{Content, Said};
use crate::svg_arrivals::Arrival;
use crate::told::{Sending, What};
use std::alloc::{AllocError, Global};

/// How much is told of a unit.
#[derive(Clone, Copy)]
pub enum Detail {
    /// Nothing of the packet in a data message.
    Brief,
    Full,
}

fn told(said: Said, detail: Detail) -> Said {
    match detail {
        Detail::Brief => said.brief(),
        Detail::Full => said,
    }
}

/// The words of a sending: `again DATA 2/1`, with `~` before what came in its place, where it is another one. `AllocError` where there is no
/// memory for them, as of each below.
pub fn sent_words(
    alloc: Global,
    row: &Row,
    came: Option<Arrival>,
    detail: Detail,
) -> Result<String, AllocError> {
    let What::Sent { said, again, .. } = row.told.what else {
        return Ok(String::new(alloc));
    };
    let front = if again { "again " } else { "" };
    let sent = told(said, detail);
    match came {
        Some(came) if came.is_other_than(said) => {
            let came = told(came.said, detail);
            format!(in alloc; "{front}{sent} ~ {came}")
        }
        _ => format!(in alloc; "{front}{sent}"),
    }
}

/// The words of a packet that is never sent: `packet CI 1`.
pub fn packet_words(alloc: Global, content: Content, detail: Detail) -> Result<String, AllocError> {
    match detail {
        Detail::Brief => String::from_str(alloc, "packet"),
        Detail::Full => format!(in alloc; "packet{content}"),
    }
}

/// The title of an arrow to a receipt whose sending is not drawn, or to noise.
pub fn outside_title(alloc: Global, row: &Row) -> Result<String, AllocError> {
    let side = row.told.side;
    let from = side.other();
    let line = row.told.line;
    match row.told.what {
        What::Came {
            sent: Some(Sending { line: there, said }),
            said: came,
            ..
        } => {
            if came == said && !row.changed {
                return format!(in alloc; "{from} line {there} to {side} line {line}\n{said}");
            }
            format!(in alloc; "{from} line {there} to {side} line {line}\n{said} ~ {came}")
        }
        What::Came {
            hint,
            said,
            sent: None,
            ..
        } => {
            let mark = change_mark(row);
            format!(in alloc; "{from} unit {hint} to {side} line {line}\n{mark}{said}")
        }
        What::Noise { said } => format!(in alloc; "{side} line {line}\nnoise ~ {said}"),
        What::Sent { .. } | What::Composed { .. } | What::User { .. } => Ok(String::new(alloc)),
    }
}

/// Its words: `DATA 2/1 of a line 5`.
pub fn outside_words(alloc: Global, row: &Row, detail: Detail) -> Result<String, AllocError> {
    let from = row.told.side.other();
    match row.told.what {
        What::Came {
            sent: Some(Sending { line, said }),
            said: came,
            ..
        } => {
            let sent = told(said, detail);
            if came == said && !row.changed {
                return format!(in alloc; "{sent} of {from} line {line}");
            }
            let came = told(came, detail);
            format!(in alloc; "{sent} of {from} line {line} ~ {came}")
        }
        What::Came {
            hint,
            said,
            sent: None,
            ..
        } => {
            let mark = change_mark(row);
            let came = told(said, detail);
            format!(in alloc; "{mark}{came} of {from} unit {hint}")
        }
        What::Noise { said } => format!(in alloc; "noise ~ {said}"),
        What::Sent { .. } | What::Composed { .. } | What::User { .. } => Ok(String::new(alloc)),
    }
}

// What comes before bytes that are not those that were sent, where the sending is not known.
fn change_mark(row: &Row) -> &'static str {
    if row.changed { "~ " } else { "" }
}
