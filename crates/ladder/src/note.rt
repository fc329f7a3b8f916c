//! What is beside a line number of a row.

ghost use Rattle.std.specs.Prelude.{◌≡◌};
ghost use Rattle.ladder.specs.Cell.{receipt_note};

use crate::said::Said;
use capture_record::{Entry, Fate as Became};
use std::fmt;

/// A note beside a line number.
#[derive(Clone, Copy)]
pub enum Note {
    /// Nothing is to be said: of a sending, and of a receipt that had no packet to keep.
    Nothing,
    /// The packet that came was kept.
    Kept,
    /// It was kept, and lost above.
    Dropped,
    /// It was not kept.
    NotKept,
    /// A packet was composed that is never sent.
    Composed,
    /// What else happened apart from the line, with a message of as many bytes.
    User { entry: Entry, bytes: usize },
}

impl Note {
    /// The note of a receipt.
    pub fn of_receipt(became: Became, said: Said) -> Note
        ensures { result ≡ receipt_note became said }
    {
        match (became, said) {
            (Became::Kept, _) => Note::Kept,
            (Became::Dropped, _) => Note::Dropped,
            (Became::NotKept, Said::Data { .. }) => Note::NotKept,
            (Became::NotKept, _) => Note::Nothing,
        }
    }
}

impl fmt::Display for Note {
    fn fmt<W: fmt::Write>(&self, f: &mut fmt::Formatter<W>) -> fmt::Result {
        match *self {
            Note::Nothing => Ok(()),
            Note::Kept => f.write_str("kept"),
            Note::Dropped => f.write_str("dropped"),
            Note::NotKept => f.write_str("not kept"),
            Note::Composed => f.write_str("composed"),
            Note::User { entry, bytes } => match entry {
                Entry::Start => f.write_str("start"),
                Entry::Halt => f.write_str("halt"),
                Entry::Open { link } => write!(f, "open {link}"),
                Entry::Accept { partner, link } => write!(f, "accept {partner} {link}"),
                Entry::Reject { partner, link } => write!(f, "reject {partner} {link}"),
                Entry::In { link } => write!(f, "in {link} {bytes} {}", byte_word(bytes)),
                Entry::Up { link } => write!(f, "up {link} {bytes} {}", byte_word(bytes)),
                Entry::Close { link } => write!(f, "close {link}"),
                Entry::Boot => f.write_str("boot"),
                Entry::Abort { link } => write!(f, "abort {link}"),
                Entry::Interrupt { link } => {
                    write!(f, "interrupt {link} {bytes} {}", byte_word(bytes))
                }
                Entry::Interrupted { link } => {
                    write!(f, "interrupted {link} {bytes} {}", byte_word(bytes))
                }
                Entry::Sent | Entry::Received { .. } | Entry::Noise | Entry::Composed => Ok(()),
            },
        }
    }
}

// The word for so many bytes.
fn byte_word(count: usize) -> &'static str {
    if count == 1 {
        return "byte";
    }
    "bytes"
}
