//! What holds of the definitions in `specs/`, whatever the code does.

ghost use Rattle.std.specs.Prelude.{◌≡◌, ◌≢◌, ℕ, List};
ghost use Rattle.capture_record.specs.declared.record.Record.{Record};
ghost use Rattle.dna_node.specs.Alone.{Accused};
ghost use Rattle.dna_station.specs.declared.refusal.StepRefusal.{StepRefusal};
ghost use Rattle.dna_station.specs.declared.refusal.StepRefusal.TheVariants.{HintOrder};
ghost use Rattle.part_judge.specs.Steps.{Refused, judged_in_part};
ghost use Rattle.part_station.specs.Piece.{IsPiece};

/// A refusal is final, and true of whatever was before: records that are refused for another reason than the order of their hints are no piece of a
/// run of one station. Whatever records are put before them, and whatever their hints are then, the whole does not pass alone.
pub fn refused_part_is_no_piece()
    ensures { (records : List Record) (place : ℕ) (accused : Accused) (reason : StepRefusal) →
        judged_in_part records ≡ Refused place accused reason → reason ≢ HintOrder → IsPiece records → ⊥ }
{}
