//! The key of a picture: what its colours and signs mean.

use crate::drawn::Drawn;
use crate::row::{Fate, Row};
use crate::svg_parts::{At, with_dot, with_line, with_rect, with_text};
use crate::told::What;
use crate::xml::Content;
use capture_record::Fate as Became;
use std::alloc::{AllocError, Global};

// How high the key is, and how much higher with the signs of what is lost above or never sent.
const HEIGHT: usize = 57;

const MORE: usize = 20;

// How far a form is from its words.
const APART: usize = 7;

// How far below the rows the middle of its lines is, and how far below that their words are.
const COLOURS: usize = 19;

const SIGNS: usize = 39;

const MORE_SIGNS: usize = 59;

const WORDS: usize = 4;

// What is drawn beside words of the key.
#[derive(Clone, Copy)]
enum Form {
    Line,
    Dot,
    Box,
    Nothing,
}

// What a form of this class means: where it begins, how wide it is, and its words.
struct Key {
    form: Form,
    class: &'static str,
    x: usize,
    width: usize,
    words: &'static str,
}

static COLOUR_KEYS: [Key; 10] = [
    Key {
        form: Form::Line,
        class: "data key",
        x: 16,
        width: 18,
        words: "data",
    },
    Key {
        form: Form::Line,
        class: "again key",
        x: 78,
        width: 18,
        words: "sent again",
    },
    Key {
        form: Form::Line,
        class: "ack key",
        x: 177,
        width: 18,
        words: "ACK",
    },
    Key {
        form: Form::Line,
        class: "nak key",
        x: 233,
        width: 18,
        words: "NAK",
    },
    Key {
        form: Form::Line,
        class: "bad key",
        x: 289,
        width: 18,
        words: "damaged",
    },
    Key {
        form: Form::Line,
        class: "rep key",
        x: 370,
        width: 18,
        words: "REP",
    },
    Key {
        form: Form::Line,
        class: "start key",
        x: 426,
        width: 18,
        words: "STRT STACK",
    },
    Key {
        form: Form::Box,
        class: "HALTED key",
        x: 525,
        width: 12,
        words: "HALTED",
    },
    Key {
        form: Form::Box,
        class: "ISTRT key",
        x: 595,
        width: 12,
        words: "starting",
    },
    Key {
        form: Form::Box,
        class: "RUNNING key",
        x: 677,
        width: 12,
        words: "RUNNING",
    },
];

static SIGN_KEYS: [Key; 8] = [
    Key {
        form: Form::Line,
        class: "sign",
        x: 16,
        width: 24,
        words: "arrives",
    },
    Key {
        form: Form::Line,
        class: "sign hollow",
        x: 101,
        width: 24,
        words: "arrives, not kept",
    },
    Key {
        form: Form::Line,
        class: "sign lost",
        x: 246,
        width: 20,
        words: "lost",
    },
    Key {
        form: Form::Line,
        class: "sign open",
        x: 309,
        width: 24,
        words: "end not drawn",
    },
    Key {
        form: Form::Line,
        class: "sign outside",
        x: 430,
        width: 24,
        words: "start not drawn",
    },
    Key {
        form: Form::Dot,
        class: "sign",
        x: 563,
        width: 6,
        words: "user event",
    },
    Key {
        form: Form::Box,
        class: "sign refused",
        x: 648,
        width: 12,
        words: "refused",
    },
    Key {
        form: Form::Nothing,
        class: "",
        x: 722,
        width: 0,
        words: "~ as received",
    },
];

// Those that are in the key only where one of them is drawn.
static MORE_KEYS: [Key; 2] = [
    Key {
        form: Form::Line,
        class: "sign dropped",
        x: 16,
        width: 24,
        words: "arrives, kept, lost above DDCMP",
    },
    Key {
        form: Form::Line,
        class: "sign unsent",
        x: 246,
        width: 24,
        words: "packet that is never sent",
    },
];

/// How high the key of these rows is.
pub fn key_height(drawn: &Drawn) -> usize {
    match has_more(drawn) {
        true => HEIGHT + MORE,
        false => HEIGHT,
    }
}

// Whether a packet is lost above in these rows, or never sent.
fn has_more(drawn: &Drawn) -> bool {
    for index in 0..drawn.len() {
        if let Some(row) = drawn.row(index)
            && is_more(row)
        {
            return true;
        }
    }
    false
}

fn is_more(row: &Row) -> bool {
    if let Fate::Here(receipt) = row.fate {
        return is_dropped(receipt.became);
    }
    match row.told.what {
        What::Came { became, .. } => is_dropped(became),
        What::Composed { .. } => true,
        What::Sent { .. } | What::Noise { .. } | What::User { .. } => false,
    }
}

fn is_dropped(became: Became) -> bool {
    match became {
        Became::Dropped => true,
        Became::Kept | Became::NotKept => false,
    }
}

/// The key, below this height.
pub fn with_key(
    svg: Content,
    alloc: Global,
    drawn: &Drawn,
    y: usize,
) -> Result<Content, AllocError> {
    let mut svg = svg;
    for key in &COLOUR_KEYS {
        svg = with_meaning(svg, alloc, key, y.saturating_add(COLOURS))?;
    }
    for key in &SIGN_KEYS {
        svg = with_meaning(svg, alloc, key, y.saturating_add(SIGNS))?;
    }
    if !has_more(drawn) {
        return Ok(svg);
    }
    for key in &MORE_KEYS {
        svg = with_meaning(svg, alloc, key, y.saturating_add(MORE_SIGNS))?;
    }
    Ok(svg)
}

// A form, with what it means beside it.
fn with_meaning(svg: Content, alloc: Global, key: &Key, y: usize) -> Result<Content, AllocError> {
    let words_at = (
        key.x.saturating_add(key.width).saturating_add(APART),
        y.saturating_add(WORDS),
    );
    let svg = with_form(svg, alloc, key, (key.x, y))?;
    with_text(svg, alloc, "key", words_at, key.words)
}

fn with_form(svg: Content, alloc: Global, key: &Key, (x, y): At) -> Result<Content, AllocError> {
    match key.form {
        Form::Line => with_line(
            svg,
            alloc,
            key.class,
            (x, y),
            (x.saturating_add(key.width), y),
        ),
        Form::Dot => with_dot(svg, alloc, key.class, (x.saturating_add(3), y)),
        Form::Box => with_rect(
            svg,
            alloc,
            key.class,
            (x, y.saturating_sub(4)),
            (key.width, 8),
        ),
        Form::Nothing => Ok(svg),
    }
}
