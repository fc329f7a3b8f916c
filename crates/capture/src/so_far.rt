//! Laws of a text as far as it was read, as functions that do nothing.

ghost use Rattle.std.specs.Prelude.{◌≡◌, ℕ, ◌<◌, [], ◌∷◌, ◌++◌, length, List, Option, Some, Ok};
ghost use Rattle.std.specs.Io.KnownBytes.{Consumes, IsAtEnd};
ghost use Rattle.capture.specs.declared.limit.TheConstants.{MAX_RECORDS};
ghost use Rattle.capture.specs.declared.fault.Departure.{Departure as Kind};
ghost use Rattle.capture_record.specs.declared.record.Record.{Record as Line};
ghost use Rattle.capture.specs.Lines.{to_come};
ghost use Rattle.capture.specs.declared.hint.HintForm.{HintForm as Form};
ghost use Rattle.capture.specs.Text.{form_after, record_line};
ghost use Rattle.capture_record.specs.Range.{IsRecord};
ghost use Rattle.capture.specs.Range.{IsInForm, IsText};
ghost use Rattle.capture.specs.Reader.{CaptureState, Opens};
ghost use Rattle.capture.specs.SoFar.{DepartsBehind, GoesOn, HeadDepartsAt, IsReadSoFar, ReadSoFar, TheEnd, ToCome, so_far};

/// How what was read of a text grows: a reader that opened has read the head, and then each record
/// that it gives is one more, until the end is found.
pub fn text_read_on()
    ensures opened { (text left : Option (List ℕ)) (state : CaptureState) → Opens text left (Ok state) →
        IsReadSoFar text (so_far state.form state.own state.peer [] (ToCome (to_come state.unread left))) }
    ensures one_more { (text before after : Option (List ℕ)) (form : Form) (own peer : ℕ) (rs : List Line) (r : Line) →
        IsReadSoFar text (so_far form own peer rs (ToCome before)) → length rs < MAX_RECORDS → IsRecord r →
        Consumes before after (record_line form r) → IsInForm form r →
        IsReadSoFar text (so_far (form_after form r) own peer (rs ++ r ∷ []) (ToCome after)) }
    ensures ended { (text before : Option (List ℕ)) (form : Form) (own peer : ℕ) (rs : List Line) →
        IsReadSoFar text (so_far form own peer rs (ToCome before)) → IsAtEnd before →
        IsReadSoFar text (so_far form own peer rs TheEnd) }
{}

/// What was read of known bytes: to their end it is the capture whose text they are, and of a
/// capture's text it is a beginning of that capture, after which no line departs.
pub fn whole_text()
    ensures ended { (bytes : List ℕ) (form : Form) (own peer : ℕ) (rs : List Line) →
        IsReadSoFar (Some bytes) (so_far form own peer rs TheEnd) → IsText own peer rs bytes }
    ensures goes_on { (bytes : List ℕ) (own peer : ℕ) (rs : List Line) (read : ReadSoFar) →
        IsText own peer rs bytes → IsReadSoFar (Some bytes) read → (own ≡ read.own) × (peer ≡ read.peer) × GoesOn read rs }
    ensures departs_nowhere { (bytes : List ℕ) (own peer : ℕ) (rs : List Line) (read : ReadSoFar) (kind : Kind) (line : ℕ) →
        IsText own peer rs bytes → IsReadSoFar (Some bytes) read → DepartsBehind read kind line → ⊥ }
    ensures head_stands { (bytes : List ℕ) (own peer : ℕ) (rs : List Line) (kind : Kind) (line : ℕ) →
        IsText own peer rs bytes → HeadDepartsAt (Some bytes) kind line → ⊥ }
{}
