//! The words of a unit between the sides of a row.

use crate::row::Fate;
use crate::said::Said;
use crate::told::Sending;
use std::alloc::{AllocError, Global};
use wire_base::Side;

/// The words for which the middle of a row has room while both bars are in their places, in columns.
pub const WORDS: usize = 30;

/// The words of a unit that was sent, and of what came of it in its row, if that reads as something else. Those go without the words of packets
/// where they would be longer than the room. `AllocError` where there is no memory for them, as of the other words.
pub fn sent_words(
    alloc: Global,
    said: Said,
    again: bool,
    fate: Fate,
    room: usize,
) -> Result<String, AllocError> {
    let front = match again {
        true => "again ",
        false => "",
    };
    match fate {
        Fate::Here(receipt) if receipt.said != said => {
            let words = damaged_words(alloc, front, said, receipt.said)?;
            if words.len() <= room {
                return Ok(words);
            }
            damaged_words(alloc, front, said.brief(), receipt.said.brief())
        }
        _ => format!(in alloc; "{front}{said}"),
    }
}

// The words of a unit that came as something else.
fn damaged_words(alloc: Global, front: &str, said: Said, came: Said) -> Result<String, AllocError> {
    format!(in alloc; "{front}{said} ~{came}")
}

/// What came: how it reads, and whether it is not what was sent although it may read alike.
#[derive(Clone, Copy)]
pub struct Received {
    pub said: Said,
    pub changed: bool,
}

impl Received {
    fn brief(self) -> Received {
        Received {
            said: self.said.brief(),
            changed: self.changed,
        }
    }
}

/// The words of a unit whose sending is in another row. They go without those of its packet where they would be too long: the row of the sending
/// has these, if that is known.
pub fn came_words(
    alloc: Global,
    sender: Side,
    hint: u64,
    came: Received,
    sent: Option<Sending>,
    room: usize,
) -> Result<String, AllocError> {
    let Some(sending) = sent else {
        return unit_words(alloc, sender, hint, came, room);
    };
    let words = of_line(alloc, sender, sending, came)?;
    if words.len() <= WORDS {
        return Ok(words);
    }
    let brief = Sending {
        line: sending.line,
        said: sending.said.brief(),
    };
    of_line(alloc, sender, brief, came.brief())
}

// The words of a unit with its number, where how it was sent is not known.
fn unit_words(
    alloc: Global,
    sender: Side,
    hint: u64,
    came: Received,
    room: usize,
) -> Result<String, AllocError> {
    let words = of_unit(alloc, sender, hint, came)?;
    if words.len() <= room {
        return Ok(words);
    }
    of_unit(alloc, sender, hint, came.brief())
}

fn of_unit(alloc: Global, sender: Side, hint: u64, came: Received) -> Result<String, AllocError> {
    let said = came.said;
    // bytes that are not those that were sent
    let mark = match came.changed {
        true => "~",
        false => "",
    };
    format!(in alloc; "{mark}{said} of {sender} unit {hint}")
}

// The words of a unit, the line of its sending, and how it reads where it came as something else.
fn of_line(
    alloc: Global,
    sender: Side,
    sending: Sending,
    came: Received,
) -> Result<String, AllocError> {
    let Sending { line, said } = sending;
    let words = format!(in alloc; "{said} of {sender} line {line}")?;
    if came.said == said && !came.changed {
        return Ok(words);
    }
    let came = came.said;
    format!(in alloc; "{words} ~{came}")
}
