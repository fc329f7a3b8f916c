//! What is said of captures, by how they end and by the judge's verdict.

ghost use Rattle.std.specs.Prelude.{◌≡◌};
ghost use Rattle.tap_answer.specs.Telling.{telling, unexplained};

use pair_judge::{Reason, Verdict};
use wire_tap::{Ending, Passed};

/// What is said of the captures that a tap wrote.
#[derive(Clone, Copy, Debug, PartialEq, Eq)]
pub enum Told {
    /// They hold all that passed, and are accepted.
    Accepted,
    /// They end with this unit, and are refused for this reason.
    Unexplained { passed: Passed, reason: Reason },
    /// The same, though each side is explained by itself.
    Apart { passed: Passed, reason: Reason },
    /// They hold all that passed, and are refused after the last unit of a side, for this reason.
    UnexplainedEnd { reason: Reason },
    /// They end with this unit, before which there were too many states to try; or are accepted, though the search did not go on from there.
    TooWide(Passed),
}

/// What is said of captures that end so, by the verdict on them, and by whether each side is explained by itself. Takes no memory.
///
/// ```text
/// Whole, accepted                          Accepted
/// Unplaced(a 7), refused for 7             Unexplained, a 7, for 7
/// Unplaced(a 7), refused for 7, apart      Apart, a 7, for 7
/// TooWide(a 7)                             TooWide(a 7)
/// ```
pub fn said_of(ending: Ending, verdict: Verdict, is_apart: bool) -> Told
    ensures { result ≡ telling is_apart ending verdict }
{
    match ending {
        Ending::Whole => match verdict {
            Verdict::Accepted(_) => Told::Accepted,
            Verdict::Refused { reason, .. } => Told::UnexplainedEnd { reason },
        },
        Ending::Unplaced(passed) => unexplained(passed, verdict, is_apart),
        Ending::Asked(passed) => unexplained(passed, verdict, is_apart),
        Ending::TooWide(passed) => Told::TooWide(passed),
    }
}

// What is said of a unit with which the captures end.
fn unexplained(passed: Passed, verdict: Verdict, is_apart: bool) -> Told
    ensures { result ≡ unexplained is_apart passed verdict }
{
    match verdict {
        Verdict::Accepted(_) => Told::TooWide(passed),
        Verdict::Refused { reason, .. } => {
            if is_apart {
                return Told::Apart { passed, reason };
            }
            Told::Unexplained { passed, reason }
        }
    }
}
