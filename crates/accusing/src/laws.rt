//! What holds of the definitions in `specs/`, whatever the code does.

ghost use Rattle.std.specs.Prelude.{◌≡◌, List, Err};
ghost use Rattle.capture_record.specs.declared.record.Record.{Record};
ghost use Rattle.accusing.specs.declared.wrong.Wrong.{Wrong};
ghost use Rattle.accusing.specs.Placing.{Passed, IsPlacing};
ghost use Rattle.accusing.specs.Sight.{first_sight, all_passed};

/// Units of which one is wrong have no placing, whatever a node puts beside packets: no right station sent the side's units among them. So of a
/// STACK alone, before which no STRT passed.
pub fn wrong_units_have_no_placing<L>()
    ensures { (passed : List Passed) (records : List Record) (wrong : Wrong) → all_passed first_sight passed ≡ Err wrong
        → IsPlacing L passed records → ⊥ }
{}
