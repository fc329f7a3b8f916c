//! What holds of the definitions in `specs/`, whatever the code does.

ghost use Rattle.std.specs.Prelude.{◌≡◌, Bool, ℕ, List};
ghost use Rattle.capture_record.specs.declared.record.Record.{Record};
ghost use Rattle.dna_node.specs.declared.finding.Cause.TheVariants as Cause;
ghost use Rattle.dna_station.specs.declared.refusal.StepRefusal.{StepRefusal};
ghost use Rattle.part_pair.specs.Courses.{JudgedInPair, Refused};
ghost use Rattle.part_pair.specs.Pieces.{IsOfOneSide, records_of};
ghost use Rattle.part_station.specs.Piece.{IsPiece};
ghost use Rattle.pair_judge.specs.Finding.{of_side};
ghost use Rattle.wire_base.specs.declared.side.Side.{Side as Which};

/// A refusal by what one side shows is final, and true of whatever was before and comes after: its records are no piece of a run of one station. So
/// there are none to put before and behind both captures with which the whole is a run. A whole capture is one that a halt comes before. Of the order
/// of hints, of units that are not those of the other side and of records that wait this law says nothing.
pub fn refused_parts_are_no_pieces()
    ensures { (a_is_part b_is_part : Bool) (of_a of_b : List Record) (side : Which) (place : ℕ) (refusal : StepRefusal) →
        JudgedInPair a_is_part b_is_part of_a of_b (Refused side place (Cause.Step refusal)) → IsOfOneSide refusal →
        IsPiece (of_side side (records_of a_is_part of_a) (records_of b_is_part of_b)) → ⊥ }
{}
