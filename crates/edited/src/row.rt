use capture::HintForm;
use capture_record::Entry;

/// A record of a capture near a refused one, with its line.
#[derive(Drop)]
pub struct Row {
    /// Which line of the text, counted from 1.
    pub line: u64,
    /// What the line says beside its bytes; the hint is the true one, in each format.
    pub entry: Entry,
    /// The bytes beside it.
    pub bytes: Vec<u8>,
    /// In which form a hint is given in this line.
    pub form: HintForm,
    /// How many units its side sent in front of it: the number of the unit where it was sent.
    pub units: u64,
}

impl Row {
    // The number of the unit that was sent.
    pub(crate) fn sent(&self) -> Option<u64> {
        match self.entry {
            Entry::Sent => Some(self.units),
            _ => None,
        }
    }

    // Whether a hint is given here as a distance from the last one, as in format 2.
    pub(crate) fn is_told_by_distance(&self) -> bool {
        match self.form {
            HintForm::Distance { mark: _ } => true,
            HintForm::Number | HintForm::Wide | HintForm::Part => false,
        }
    }

    // The number of the other side's unit that came.
    pub(crate) fn received(&self) -> Option<u64> {
        match self.entry {
            Entry::Received { fate: _, hint } => Some(hint),
            _ => None,
        }
    }
}

/// What a capture has near the record that its side comes to next.
#[derive(Drop)]
pub struct Stretch {
    /// The addresses of its head: that of its own node, and its peer's.
    pub own: u16,
    pub peer: u16,
    /// The line of that record, counted from 1.
    pub line: u64,
    /// The records near it, in the order of their lines.
    pub rows: Vec<Row>,
    /// All receipts after it, in the order of their lines; `None` where not all are at hand.
    pub later: Option<Vec<Row>>,
}

/// A line that may be missing: one that begins with `u`, or an `n` line.
#[derive(Drop)]
pub struct Due {
    /// In front of which line it belongs, counted from 1.
    pub before: u64,
    pub entry: Entry,
    pub bytes: Vec<u8>,
}

/// Which check of a unit that came fails where it was damaged.
#[derive(Clone, Copy)]
pub enum Damage {
    /// That of its header, of 8 bytes.
    Header,
    /// That of what comes after the header.
    Body,
}

/// The refused record.
#[derive(Drop)]
pub struct Refused {
    /// The number of the reason.
    pub reason: u64,
    /// The lines that may be missing by what the bytes near it tell, the likeliest first: `u open 1` where its own are a CI of link 1, and the like.
    pub due: Vec<Due>,
    /// The damage of which it tells, where it does.
    pub damage: Option<Damage>,
}
