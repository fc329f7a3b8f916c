//! Laws of the text, as functions that do nothing: a text is read in one way alone.

ghost use Rattle.std.specs.Prelude.{◌≡◌, ℕ, ◌<◌, [], ◌++◌, length, List, Some, Ok};
ghost use Rattle.std.specs.List.{AllByRecursion};
ghost use Rattle.capture.specs.declared.limit.TheConstants.{MAX_RECORDS};
ghost use Rattle.capture.specs.declared.fault.Departure.{Departure as Kind};
ghost use Rattle.capture_record.specs.declared.record.Record.{Record as Line};
ghost use Rattle.capture.specs.declared.hint.HintForm.{HintForm as Form};
ghost use Rattle.capture.specs.declared.format.Format.{Format as Layout};
ghost use Rattle.capture.specs.Text.{form_behind, head_line, record_line, record_lines, record_text};
ghost use Rattle.capture.specs.Converting.{Converts};
ghost use Rattle.capture_record.specs.Range.{IsRecord};
ghost use Rattle.capture.specs.Range.{FormFits, IsInForm, IsNode, IsText, IsTextIn};
ghost use Rattle.capture.specs.Departing.{HeadDeparts, RecordDeparts};
ghost use Rattle.capture.specs.Reading.{record_at};

/// A text has one format, one head and one list of records.
pub fn one_head_and_list()
    ensures format { (format format' : Layout) (own peer own' peer' : ℕ) (rs ss : List Line) (bytes : List ℕ) →
        IsTextIn format own peer rs bytes → IsTextIn format' own' peer' ss bytes → format ≡ format' }
    ensures list { (own peer own' peer' : ℕ) (rs ss : List Line) (bytes : List ℕ) →
        IsText own peer rs bytes → IsText own' peer' ss bytes → (own ≡ own') × (peer ≡ peer') × (rs ≡ ss) }
{}

/// Of records whose lines begin with the lines of others, in the same form of hints, the first are the others, and the
/// lines of the rest are what follows.
pub fn begun_list()
    ensures { (form : Form) (begun rs : List Line) (rest : List ℕ) → FormFits form →
        AllByRecursion IsRecord begun → AllByRecursion IsRecord rs →
        record_lines form rs ≡ record_lines form begun ++ rest →
        (more : List Line) × (rs ≡ begun ++ more) × (rest ≡ record_lines (form_behind form begun) more) }
{}

/// No record's line begins another's, in the same form of hints.
pub fn no_line_begins_another()
    ensures { (form : Form) (r s : Line) (x y : List ℕ) → FormFits form → IsRecord r → IsRecord s →
        record_line form r ++ x ≡ record_line form s ++ y → (r ≡ s) × (x ≡ y) }
{}

/// No head begins another.
pub fn no_head_begins_another()
    ensures { (format format' : Layout) (own peer own' peer' : ℕ) (x y : List ℕ) →
        IsNode own → IsNode peer → IsNode own' → IsNode peer' →
        head_line format own peer ++ x ≡ head_line format' own' peer' ++ y →
        (format ≡ format') × (own ≡ own') × (peer ≡ peer') × (x ≡ y) }
{}

/// Where the line of a record comes first that the format has, and a record may come, no line departs.
pub fn no_line_departs()
    ensures { (form : Form) (kind : Kind) (r : Line) (rest : List ℕ) (records : ℕ) → FormFits form → IsRecord r → records < MAX_RECORDS →
        IsInForm form r → RecordDeparts form records kind (record_line form r ++ rest) → ⊥ }
{}

/// What was written is read back as written: the words of a record's line, in each form of hints whose format has the record,
/// are read as that record.
pub fn written_is_read()
    ensures { (form : Form) (r : Line) → FormFits form → IsRecord r → IsInForm form r → record_at form (record_text form r) ≡ Ok r }
{}

/// A line departs in one way at most.
pub fn one_departure()
    ensures { (form : Form) (records : ℕ) (bytes : List ℕ) (a b : Kind) →
        RecordDeparts form records a bytes → RecordDeparts form records b bytes → a ≡ b }
{}

/// Where nothing is to come, nothing departs.
pub fn no_end_departs()
    ensures { (form : Form) (records : ℕ) (kind : Kind) → RecordDeparts form records kind [] → ⊥ }
{}

/// Where a head's line comes first, no head departs.
pub fn no_head_departs()
    ensures { (kind : Kind) (format : Layout) (own peer : ℕ) (rest : List ℕ) → IsNode own → IsNode peer →
        HeadDeparts kind (head_line format own peer ++ rest) → ⊥ }
{}

/// The first line of a text departs from a head in one way at most.
pub fn one_head_departure()
    ensures { (bytes : List ℕ) (a b : Kind) → HeadDeparts a bytes → HeadDeparts b bytes → a ≡ b }
{}

/// What was converted, in a writer that was empty, is the text of the same head and records in the format that was asked
/// for, and the answer is their number; so whatever is said of a head and records is said of both texts.
pub fn converted_is_same()
    ensures { (to : Layout) (bytes made : List ℕ) (own peer : ℕ) (rs : List Line) (count : ℕ) → IsText own peer rs bytes →
        Converts to (Some bytes) (Some []) (Some made) (Ok count) → IsTextIn to own peer rs made × (count ≡ length rs) }
{}

/// What is converted and then converted back is the first text again.
pub fn converted_back()
    ensures { (from to : Layout) (bytes made back : List ℕ) (own peer : ℕ) (rs : List Line) (count again : ℕ) →
        IsTextIn from own peer rs bytes →
        Converts to (Some bytes) (Some []) (Some made) (Ok count) →
        Converts from (Some made) (Some []) (Some back) (Ok again) → back ≡ bytes }
{}
