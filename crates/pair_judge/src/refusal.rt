//! What a refusal says of two whole captures, as a function that does nothing.

ghost use Rattle.std.specs.Prelude.{ℕ, List, Some};
ghost use Rattle.wire_base.specs.declared.side.Side.{Side as Of};
ghost use Rattle.capture.specs.Range.{IsText};
ghost use Rattle.pair_judge.specs.declared.reason.Reason.{Reason as Why};
ghost use Rattle.dna_node.specs.Kind.{both_layers, stations_alone};
ghost use Rattle.pair_judge.specs.Refusal.{AreRefused, IsRefusal, WholeCapture};

use capture::whole_text;

/// Where the two readers' bytes are the texts of two captures, a refusal that `judge` answers of them, of both layers or of the line alone, says that
/// the captures are no run, and, except for `NoSuchUnit` and `NoOrder`, that the named record offends: all that it rests on can be made, and then the
/// record can't, for the printed reason.
pub fn refused_captures()
    ensures nodes { (a b : WholeCapture) (bytes_a bytes_b : List ℕ) (side : Of) (place : ℕ) (reason : Why) →
        IsText a.head.own a.head.peer a.records bytes_a → IsText b.head.own b.head.peer b.records bytes_b →
        IsRefusal both_layers (Some bytes_a) (Some bytes_b) side place reason → AreRefused both_layers a b side place reason }
    ensures line { (a b : WholeCapture) (bytes_a bytes_b : List ℕ) (side : Of) (place : ℕ) (reason : Why) →
        IsText a.head.own a.head.peer a.records bytes_a → IsText b.head.own b.head.peer b.records bytes_b →
        IsRefusal stations_alone (Some bytes_a) (Some bytes_b) side place reason → AreRefused stations_alone a b side place reason }
{
    whole_text();
}
