//! What the words of a line are read by.

ghost use Rattle.std.specs.Prelude.{◌≡◌, ℕ, [], List};
ghost use Rattle.capture_record.specs.Entries.{record_with};
ghost use Rattle.capture_record.specs.Range.{NumbersFit};
ghost use Rattle.capture.specs.Text.{form_after};

use crate::hint::HintForm;
use capture_record::Entry;

/// What the words of a line are read by, so that a call takes it by one pointer.
#[derive(Drop)]
pub struct Wording {
    /// The form of the line's hint.
    pub form: HintForm,
}

impl Wording {
    /// Goes on after the line of a record of this entry. Where hints are numbers nothing is written. Takes no memory.
    #[inline(always)]
    pub fn go_behind(&mut self, entry: Entry)
        requires { NumbersFit (record_with entry []) }
        ensures { (bytes : List ℕ) → self.new.form ≡ form_after self.old.form (record_with entry bytes) }
    {
        match self.form {
            HintForm::Number | HintForm::Wide | HintForm::Part => {}
            HintForm::Distance { .. } => self.form = self.form.after(entry),
        }
    }
}
