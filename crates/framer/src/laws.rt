//! Laws of framing, as functions that do nothing.

ghost use Rattle.std.specs.Prelude.{◌≡◌, ◌<◌, ◌++◌, ℕ, [], length, List};
ghost use Rattle.std.specs.List.{AllByRecursion};
ghost use Rattle.ddcmp_msg.specs.Message.{MessageValue, IsBytes};
ghost use Rattle.ddcmp_msg.specs.Spelling.{IsUnit};
ghost use Rattle.framer.specs.declared.limit.TheConstants.{MAX_FRAME};
ghost use Rattle.framer.specs.declared.kind.Kind.{Kind as UnitKind};
ghost use Rattle.framer.specs.Framing.{Framing, framing, joined, only_left};
ghost use Rattle.framer.specs.Given.{IsUnitFound, NoneFound};
ghost use Rattle.framer.specs.SoFar.{IsFramedSoFar, nothing, with_strays, with_unit};
ghost use Rattle.framer.specs.Written.{IsFrame, IsGap, IsPlaced, Placed, line_of, units_of};

/// Units that were written with any SYN and pads between them come back, exactly these and in their order; nothing is stray, and nothing is left.
pub fn written_is_found()
    ensures { (placed : List Placed) (last : List ℕ) → AllByRecursion IsPlaced placed → IsGap last →
        framing (line_of placed last) ≡ record { units = units_of placed; strays = 0; left = [] } }
{}

/// However the bytes are cut into pieces, the units are the same: what is found in some bytes, and then in what they left and the next ones, is
/// what is found in all of them.
pub fn cuts_change_nothing()
    ensures { (bytes more : List ℕ) → framing (bytes ++ more) ≡ joined (framing bytes) (framing ((framing bytes).left ++ more)) }
{}

/// What was found so far, call by call: a framer begins with nothing; each unit that it finds is one more, after as many stray bytes as it says,
/// and the rest of the piece is to come; where no unit is whole, what it holds is to come; and a piece comes after that. So at last all bytes are
/// framed as what was found, and what is held is left.
pub fn framed_on()
    ensures start { IsFramedSoFar [] nothing [] }
    ensures unit { (all come : List ℕ) (found : Framing) (kind : UnitKind) (strays : ℕ) (unit rest : List ℕ) →
        IsFramedSoFar all found come → IsUnitFound come kind strays unit rest → IsFramedSoFar all (with_unit found strays unit) rest }
    ensures more { (all come held : List ℕ) (found : Framing) (strays : ℕ) →
        IsFramedSoFar all found come → NoneFound come strays held → IsFramedSoFar all (with_strays found strays) held }
    ensures piece { (all held piece : List ℕ) (found : Framing) → IsFramedSoFar all found held → framing held ≡ only_left held →
        IsFramedSoFar (all ++ piece) found (held ++ piece) }
    ensures whole { (all held : List ℕ) (found : Framing) → IsFramedSoFar all found held → framing held ≡ only_left held →
        framing all ≡ record found { left = held } }
{}

/// Each unit that is found begins with a header whose check is good, and has as many bytes as it says.
pub fn found_are_frames()
    ensures { (bytes : List ℕ) → IsBytes bytes → AllByRecursion IsFrame (framing bytes).units }
{}

/// What is left is shorter than the longest unit.
pub fn left_is_short()
    ensures { (bytes : List ℕ) → IsBytes bytes → length (framing bytes).left < MAX_FRAME }
{}

/// The unit of each DDCMP message is framed as one unit.
pub fn messages_are_frames()
    ensures { (message : MessageValue) (unit : List ℕ) → IsUnit message unit → IsFrame unit }
{}
