//! Laws of the text of a part of a run, as functions that do nothing.

ghost use Rattle.std.specs.Prelude.{◌≡◌, ℕ, ◌<◌, [], ◌∷◌, ◌++◌, length, List, Option, Some};
ghost use Rattle.std.specs.Io.KnownBytes.{Consumes, IsAtEnd};
ghost use Rattle.capture.specs.declared.limit.TheConstants.{MAX_RECORDS};
ghost use Rattle.capture.specs.declared.fault.Departure.{Departure as Kind};
ghost use Rattle.capture.specs.declared.hint.HintForm.TheVariants.{Part};
ghost use Rattle.capture_record.specs.declared.record.Record.{Record as Line};
ghost use Rattle.capture.specs.Lines.{to_come};
ghost use Rattle.capture.specs.Text.{record_line};
ghost use Rattle.capture_record.specs.Range.{IsRecord};
ghost use Rattle.capture.specs.Range.{IsPartText, IsText};
ghost use Rattle.capture.specs.Opening.{EitherHeadDeparts};
ghost use Rattle.capture.specs.Reader.{CaptureState, OpensPart};
ghost use Rattle.capture.specs.SoFar.{DepartsBehind, GoesOn, IsPartSoFar, ReadSoFar, TheEnd, ToCome, so_far};

/// A text that is a part of a run has one head and one list of records, and is no whole capture.
pub fn one_part()
    ensures list { (own peer own' peer' : ℕ) (rs ss : List Line) (bytes : List ℕ) →
        IsPartText own peer rs bytes → IsPartText own' peer' ss bytes → (own ≡ own') × (peer ≡ peer') × (rs ≡ ss) }
    ensures apart { (own peer own' peer' : ℕ) (rs ss : List Line) (bytes : List ℕ) →
        IsPartText own peer rs bytes → IsText own' peer' ss bytes → ⊥ }
{}

/// How what was read of a part's text grows: a reader that opened one has read the head, and then each record that it gives is one more, until the
/// end is found.
pub fn part_read_on()
    ensures opened { (text left : Option (List ℕ)) (state : CaptureState) → OpensPart text left state →
        IsPartSoFar text (so_far state.form state.own state.peer [] (ToCome (to_come state.unread left))) }
    ensures one_more { (text before after : Option (List ℕ)) (own peer : ℕ) (rs : List Line) (r : Line) →
        IsPartSoFar text (so_far Part own peer rs (ToCome before)) → length rs < MAX_RECORDS → IsRecord r →
        Consumes before after (record_line Part r) → IsPartSoFar text (so_far Part own peer (rs ++ r ∷ []) (ToCome after)) }
    ensures ended { (text before : Option (List ℕ)) (own peer : ℕ) (rs : List Line) →
        IsPartSoFar text (so_far Part own peer rs (ToCome before)) → IsAtEnd before → IsPartSoFar text (so_far Part own peer rs TheEnd) }
{}

/// What was read of known bytes: to their end it is the part whose text they are, and of a part's text it is a beginning of it, after which no line
/// departs.
pub fn whole_part()
    ensures ended { (bytes : List ℕ) (own peer : ℕ) (rs : List Line) →
        IsPartSoFar (Some bytes) (so_far Part own peer rs TheEnd) → IsPartText own peer rs bytes }
    ensures goes_on { (bytes : List ℕ) (own peer : ℕ) (rs : List Line) (read : ReadSoFar) →
        IsPartText own peer rs bytes → IsPartSoFar (Some bytes) read → (own ≡ read.own) × (peer ≡ read.peer) × GoesOn read rs }
    ensures departs_nowhere { (bytes : List ℕ) (own peer : ℕ) (rs : List Line) (read : ReadSoFar) (kind : Kind) (line : ℕ) →
        IsPartText own peer rs bytes → IsPartSoFar (Some bytes) read → DepartsBehind read kind line → ⊥ }
    ensures head_stands { (bytes : List ℕ) (own peer : ℕ) (rs : List Line) (kind : Kind) →
        IsPartText own peer rs bytes → EitherHeadDeparts kind bytes → ⊥ }
{}
