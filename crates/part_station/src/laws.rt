//! What holds of the definitions in `specs/`, whatever the code does.

ghost use Rattle.std.specs.Prelude.{◌≡◌, ◌+◌, ◌<◌, ◌≤◌, ℕ, Bool, List, Ok, Err};
ghost use Rattle.capture_record.specs.declared.record.Record.{Record};
ghost use Rattle.dna_station.specs.declared.refusal.StepRefusal.{StepRefusal};
ghost use Rattle.dna_station.specs.Book.{ArrivalValue, num_of};
ghost use Rattle.dna_station.specs.declared.state.StationEvent.{StationEvent};
ghost use Rattle.dna_station.specs.declared.tag.Tag.{Tag};
ghost use Rattle.ddcmp_msg.specs.Message.{MessageValue};
ghost use Rattle.part_station.specs.Cases.{Cases, cases_after, cases_meet, cases_send, cases_step, cases_user, first_cases};
ghost use Rattle.part_station.specs.Low.{AreAllLow, IsByteOf};
ghost use Rattle.part_station.specs.Piece.{HasBytes, IsPiece};

/// A refusal is final: records of which no case is left are no piece of a run of one station. Whatever records are put before them, and whatever
/// their hints are then, the whole does not pass alone. So of a REP with NUM 5 behind data with NUM 9 and no other.
pub fn refused_is_no_piece()
    ensures { (records : List Record) (refusal : StepRefusal) → cases_after first_cases records ≡ Err refusal → IsPiece records → ⊥ }
{}

/// Numbers and counts of the cases rise by at most one with a record. So who counts records knows that they fit: of n records they are below n +
/// 1,025.
pub fn numbers_rise_by_one()
    ensures first { AreAllLow 1024 first_cases }
    ensures sends { (bound : ℕ) (c after : Cases) (m : MessageValue) → 1024 ≤ bound → AreAllLow bound c → num_of m < 256 →
        cases_send c m ≡ Ok after → AreAllLow (bound + 1) after }
    ensures meets { (bound : ℕ) (c after : Cases) (arrival : ArrivalValue Tag) (kept : Bool) → 1024 ≤ bound → AreAllLow bound c →
        IsByteOf arrival → cases_meet c arrival kept ≡ Ok after → AreAllLow (bound + 1) after }
    ensures user { (bound : ℕ) (c after : Cases) (event : StationEvent) → 1024 ≤ bound → AreAllLow bound c → cases_user c event ≡ Ok after →
        AreAllLow (bound + 1) after }
    ensures step { (bound : ℕ) (c after : Cases) (r : Record) → 1024 ≤ bound → AreAllLow bound c → HasBytes r → cases_step c r ≡ Ok after →
        AreAllLow (bound + 1) after }
{}
