//! The text of a row, of at most 80 columns.

use crate::cell::{Cell, End};
use crate::note::Note;
use crate::row::Row;
use crate::row_words::{Received, WORDS, came_words, sent_words};
use crate::said::Content;
use crate::told::What;
use std::alloc::{AllocError, Global};
use wire_base::Side;

// A side has so many columns, and the middle 34, where all words have room so.
const SIDE: usize = 22;

// All of them without both bars.
const TOGETHER: usize = 78;

// How many columns each side of a row has.
#[derive(Clone, Copy)]
struct Columns {
    a: usize,
    b: usize,
}

impl Columns {
    // So many at this side, and as always at the other.
    fn with(side: Side, columns: usize) -> Columns {
        match side {
            Side::A => Columns {
                a: columns,
                b: SIDE,
            },
            Side::B => Columns {
                a: SIDE,
                b: columns,
            },
        }
    }

    // Those between both bars.
    fn middle(self) -> usize {
        TOGETHER.saturating_sub(self.a).saturating_sub(self.b)
    }
}

impl Row {
    /// The text of the row, with no line feed: `LINE note |34 columns| note LINE`, a on the left and b on the right, in 80 columns, and
    /// `  <== refused` after it where the record was refused. With `ended`, no record was left to be told, so that a unit which has not
    /// come never comes. `AllocError` where there is no memory for it. No clause tells the words; the lines and notes are those of
    /// [`Row::cell`], and the arrow ends as [`Row::end`] says.
    ///
    /// In the middle is what was sent, as `DATA 2/1`, with `again` before it where it was sent before, and `~` before what came in its
    /// place; then `>` or `<` where it comes in this row, `.` where in another one, and `x` where it never comes. A packet that is never sent has
    /// a short one, as `- packet CI 1 -|`. Where words have no room, the bar beside them moves: that at the side which sent, or that of what
    /// its user did. Words that still have none are cut, and end in `..`:
    ///
    /// `    21           kept |<-------- again DATA 2/1 ---------|                21`
    pub fn text(&self, alloc: Global, ended: bool) -> Result<String, AllocError> {
        let room = WORDS.saturating_add(self.spare(alloc)?);
        let all = self.words(alloc, room)?;
        let words = fitted(alloc, all.as_str(), room)?;
        let columns = self.columns(alloc, words.len())?;
        let left = left(alloc, self.cell(Side::A), columns.a)?;
        let middle = self.middle(alloc, words.as_str(), ended, columns.middle())?;
        let right = right(alloc, self.cell(Side::B), columns.b)?;
        let width = columns.b;
        match self.refused {
            true => format!(in alloc; "{left}|{middle}|{right:<width$}  <== refused"),
            false => format!(in alloc; "{left}|{middle}|{right}"),
        }
    }

    // The side whose columns the words in the middle may take: that which sent.
    fn sender(&self) -> Side {
        match self.told.what {
            What::Sent { .. } | What::Composed { .. } | What::User { .. } => self.told.side,
            What::Came { .. } | What::Noise { .. } => self.told.side.other(),
        }
    }

    // How many of that side's columns its line number leaves, with a space beside it.
    fn spare(&self, alloc: Global) -> Result<usize, AllocError> {
        let free = SIDE.saturating_sub(1);
        match self.cell(self.sender()) {
            Some(Cell { line, .. }) => Ok(free.saturating_sub(number_columns(alloc, line)?)),
            None => Ok(free),
        }
    }

    // The columns of both sides, where so many letters are in the middle.
    fn columns(&self, alloc: Global, letters: usize) -> Result<Columns, AllocError> {
        let side = self.sender();
        let What::User { .. } = self.told.what else {
            let taken = letters.saturating_sub(WORDS);
            return Ok(Columns::with(side, SIDE.saturating_sub(taken)));
        };
        let Some(Cell { line, note }) = self.cell(side) else {
            return Ok(Columns::with(side, SIDE));
        };
        let words = format!(in alloc; "{note}")?;
        let number = number_columns(alloc, line)?;
        let wanted = number.saturating_add(words.len()).saturating_add(2);
        Ok(Columns::with(side, wanted.max(SIDE)))
    }

    // The words in the middle, which have so much room.
    fn words(&self, alloc: Global, room: usize) -> Result<String, AllocError> {
        match self.told.what {
            What::User { .. } => Ok(String::new(alloc)),
            What::Composed { content } => format!(in alloc; "packet{content}"),
            What::Sent { said, again, .. } => sent_words(alloc, said, again, self.fate, room),
            What::Came {
                hint,
                said,
                sent,
                ..
            } => {
                let came = Received {
                    said,
                    changed: self.changed,
                };
                came_words(alloc, self.told.side.other(), hint, came, sent, room)
            }
            What::Noise { said } => format!(in alloc; "noise ~{said}"),
        }
    }

    // What is between the sides, in so many columns.
    fn middle(
        &self,
        alloc: Global,
        words: &str,
        ended: bool,
        columns: usize,
    ) -> Result<String, AllocError> {
        let side = self.told.side;
        let body = format!(in alloc; " {words} ")?;
        let arrow = columns.saturating_sub(1);
        match self.told.what {
            What::User { .. } => format!(in alloc; "{:columns$}", ""),
            What::Composed { .. } => never_sent(alloc, side, body.as_str()),
            What::Sent { .. } => sending(alloc, side, body.as_str(), self.end(ended), arrow),
            What::Came { .. } | What::Noise { .. } => receipt(alloc, side, body.as_str(), arrow),
        }
    }
}

// The columns of a line number.
fn number_columns(alloc: Global, line: u64) -> Result<usize, AllocError> {
    let number = format!(in alloc; "{line:>6}")?;
    Ok(number.len())
}

// An arrow from the side that sent.
fn sending(
    alloc: Global,
    sender: Side,
    body: &str,
    end: End,
    columns: usize,
) -> Result<String, AllocError> {
    let mark = mark(sender, end);
    match sender {
        Side::A => format!(in alloc; "{body:-^columns$}{mark}"),
        Side::B => format!(in alloc; "{mark}{body:-^columns$}"),
    }
}

// How the end of an arrow is drawn, at the side that did not send.
fn mark(sender: Side, end: End) -> &'static str {
    match (end, sender) {
        (End::Here, Side::A) => ">",
        (End::Here, Side::B) => "<",
        (End::Elsewhere, _) => ".",
        (End::Never, _) => "x",
    }
}

// The end of an arrow, at the side where it came.
fn receipt(
    alloc: Global,
    receiver: Side,
    body: &str,
    columns: usize,
) -> Result<String, AllocError> {
    match receiver {
        Side::A => format!(in alloc; "<{body:.^columns$}"),
        Side::B => format!(in alloc; "{body:.^columns$}>"),
    }
}

// What a packet that is never sent has for an arrow.
fn never_sent(alloc: Global, side: Side, body: &str) -> Result<String, AllocError> {
    match side {
        Side::A => {
            let arrow = format!(in alloc; "-{body}-|")?;
            format!(in alloc; "{arrow:<34}")
        }
        Side::B => {
            let arrow = format!(in alloc; "|-{body}-")?;
            format!(in alloc; "{arrow:>34}")
        }
    }
}

/// Words that are no longer than the room for them; what is cut ends in `..`. `AllocError` where there is no memory for them.
pub fn fitted(alloc: Global, words: &str, room: usize) -> Result<String, AllocError> {
    if words.len() <= room {
        return String::from_str(alloc, words);
    }
    let kept = room.saturating_sub(2);
    format!(in alloc; "{words:.kept$}..")
}

// The cell on the left, of so many columns.
fn left(alloc: Global, cell: Option<Cell>, columns: usize) -> Result<String, AllocError> {
    let Some(Cell { line, note }) = cell else {
        return format!(in alloc; "{:columns$}", "");
    };
    let number = format!(in alloc; "{line:>6}")?;
    let room = columns.saturating_sub(number.len()).saturating_sub(2);
    let words = note_words(alloc, note, room)?;
    format!(in alloc; "{number} {words:>room$} ")
}

// The cell on the right, with no spaces at its end.
fn right(alloc: Global, cell: Option<Cell>, columns: usize) -> Result<String, AllocError> {
    let Some(Cell { line, note }) = cell else {
        return Ok(String::new(alloc));
    };
    let number = number_columns(alloc, line)?;
    let room = columns.saturating_sub(number).saturating_sub(2);
    let words = note_words(alloc, note, room)?;
    format!(in alloc; " {words:<room$} {line}")
}

// The words of a note, cut to fit.
fn note_words(alloc: Global, note: Note, room: usize) -> Result<String, AllocError> {
    let words = format!(in alloc; "{note}")?;
    fitted(alloc, words.as_str(), room)
}
