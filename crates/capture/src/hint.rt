//! How a line spells the hint of a receipt.

ghost use Rattle.std.specs.Prelude.{◌≡◌, ℕ, [], List};
ghost use Rattle.capture_record.specs.Entries.{record_with};
ghost use Rattle.capture_record.specs.Range.{NumbersFit};
ghost use Rattle.capture.specs.Reading.{is_wide};
ghost use Rattle.capture.specs.Text.{form_after, format_of, mark_after};

use crate::format::Format;
use capture_record::{Entry, Record};

/// The form of the next hint in a text.
#[derive(Clone, Copy, PartialEq, Eq)]
pub enum HintForm {
    /// The hint itself, as a decimal number: format 1.
    Number,
    /// Its distance from the mark, as a decimal number with `-` before it where the hint is below the mark: format 2. The
    /// mark is 0 at first and one more than the hint of the last receipt, wherever that lay: at most
    /// 1,000,000,000,000,000,000.
    Distance { mark: u64 },
    /// The hint itself, as a decimal number; and the lines that format 3 alone has are there too: format 3.
    Wide,
    /// A part of a run: the lines are those of format 3, but for hints. `-` is the hint 0, of a unit that was sent before the other capture
    /// begins, and the number k, of the other capture's line `s` k, is the hint k + 1.
    Part,
}

impl HintForm {
    /// The format that has such hints; of a part of a run format 3, which has the same lines but for hints. Takes no memory.
    pub fn format(self) -> Format
        ensures { result ≡ format_of self }
    {
        match self {
            HintForm::Number => Format::One,
            HintForm::Distance { mark: _ } => Format::Two,
            HintForm::Wide | HintForm::Part => Format::Three,
        }
    }

    /// Whether the lines that format 3 alone has are there. Takes no memory.
    #[inline(always)]
    pub(crate) fn is_wide(self) -> bool
        ensures { result ≡ is_wide self }
    {
        match self {
            HintForm::Number | HintForm::Distance { .. } => false,
            HintForm::Wide | HintForm::Part => true,
        }
    }

    /// The form after the line of a record of this entry, whose hint is at most 999,999,999,999,999,999. Takes no memory.
    #[inline(always)]
    pub fn after(self, entry: Entry) -> HintForm
        requires { NumbersFit (record_with entry []) }
        ensures { (bytes : List ℕ) → result ≡ form_after self (record_with entry bytes) }
    {
        match self {
            HintForm::Number => HintForm::Number,
            HintForm::Wide => HintForm::Wide,
            HintForm::Part => HintForm::Part,
            HintForm::Distance { mark } => HintForm::Distance {
                mark: next_mark(mark, entry),
            },
        }
    }

    /// The form after the record's line; a hint is at most 999,999,999,999,999,999. Takes no memory.
    pub fn after_record(self, record: &Record) -> HintForm
        requires { NumbersFit «record».now }
        ensures { result ≡ form_after self «record».now }
    {
        match self {
            HintForm::Number => HintForm::Number,
            HintForm::Wide => HintForm::Wide,
            HintForm::Part => HintForm::Part,
            HintForm::Distance { mark } => HintForm::Distance {
                mark: next_mark_of(mark, record),
            },
        }
    }
}

// The mark after the line of a record of this entry.
#[inline(always)]
fn next_mark(mark: u64, entry: Entry) -> u64
    requires { NumbersFit (record_with entry []) }
    ensures { (bytes : List ℕ) → result ≡ mark_after mark (record_with entry bytes) }
{
    match entry {
        Entry::Received { fate: _, hint } => hint + 1,
        Entry::Sent | Entry::Noise | Entry::Start | Entry::Halt => mark,
        Entry::Open { .. } | Entry::Close { .. } | Entry::Accept { .. } => mark,
        Entry::Reject { .. } | Entry::In { .. } | Entry::Up { .. } => mark,
        Entry::Boot | Entry::Abort { .. } | Entry::Composed => mark,
        Entry::Interrupt { .. } | Entry::Interrupted { .. } => mark,
    }
}

/// The mark after the record's line; a hint is at most 999,999,999,999,999,999. Takes no memory.
pub fn next_mark_of(mark: u64, record: &Record) -> u64
    requires { NumbersFit «record».now }
    ensures { result ≡ mark_after mark «record».now }
{
    match record {
        Record::Received { hint, .. } => *hint + 1,
        Record::Sent(_) | Record::Noise(_) | Record::User(_) => mark,
    }
}
