//! The formats of a capture.

ghost use Rattle.std.specs.Prelude.{◌≡◌, ◌↔◌, ℕ, IsTrue, List};
ghost use Rattle.capture_record.specs.Entries.{record_with};
ghost use Rattle.capture.specs.Range.{FormFits, IsInFormat, format_for, in_each_format};
ghost use Rattle.capture.specs.Text.{first_form, format_number, format_of};

use crate::hint::HintForm;
use capture_record::{Entry, Fate, Record};

/// The format of a capture, as its head names it. Formats 1 and 2 hold the same records, and spell a hint in two ways; format 3 spells a
/// hint as format 1 does, and has lines for more records.
#[derive(Clone, Copy, PartialEq, Eq)]
pub enum Format {
    /// `ddcap 1`: a hint is a number.
    One,
    /// `ddcap 2`: a hint is its distance from the mark.
    Two,
    /// `ddcap 3`: a hint is a number; and there are lines of a node that starts anew, gives a call up, loses packets or has interrupts.
    Three,
}

impl Format {
    /// The number in the head: 1, 2 or 3. Takes no memory.
    pub fn number(self) -> u8
        ensures { result ≡ format_number self }
    {
        match self {
            Format::One => 1,
            Format::Two => 2,
            Format::Three => 3,
        }
    }

    /// The form of the first hint: in format 2 the mark is 0 at first. Takes no memory.
    pub fn first_form(self) -> HintForm
        ensures form { result ≡ first_form self }
        ensures format { format_of result ≡ self }
        ensures fits { FormFits result }
    {
        match self {
            Format::One => HintForm::Number,
            Format::Two => HintForm::Distance { mark: 0 },
            Format::Three => HintForm::Wide,
        }
    }

    /// Whether the format has a line for a record of this entry. Takes no memory.
    #[inline(always)]
    pub fn has(self, entry: Entry) -> bool
        ensures { (bytes : List ℕ) → IsTrue result ↔ IsInFormat self (record_with entry bytes) }
    {
        match self {
            Format::One | Format::Two => is_in_each(entry),
            Format::Three => true,
        }
    }

    /// Whether the format has a line for such a record; whether this one is in range is not asked. Takes no memory.
    pub fn has_record(self, record: &Record) -> bool
        ensures { IsTrue result ↔ IsInFormat self record.now }
    {
        let (entry, _) = record.parts();
        self.has(entry)
    }
}

/// The format that these records are written in where hints are numbers: 1 where it has a line for each, else 3. Takes no memory.
pub fn format_for(records: &[Record]) -> Format
    ensures { result ≡ format_for records.now }
{
    for record in records {
        if !Format::One.has_record(record) {
            return Format::Three;
        }
    }
    Format::One
}

// Whether each format has a line for a record of this entry.
fn is_in_each(entry: Entry) -> bool
    ensures { (bytes : List ℕ) → result ≡ in_each_format (record_with entry bytes) }
{
    match entry {
        Entry::Received { fate, hint: _ } => match fate {
            Fate::NotKept | Fate::Kept => true,
            Fate::Dropped => false,
        },
        Entry::Boot | Entry::Abort { .. } | Entry::Composed => false,
        Entry::Interrupt { .. } | Entry::Interrupted { .. } => false,
        Entry::Sent | Entry::Noise | Entry::Start | Entry::Halt | Entry::Open { .. } => true,
        Entry::Accept { .. } | Entry::Reject { .. } | Entry::Close { .. } => true,
        Entry::In { .. } | Entry::Up { .. } => true,
    }
}
