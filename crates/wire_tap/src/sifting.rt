//! Who stays accused, where the recording may not be whole.

ghost use Rattle.std.specs.Prelude.{◌≡◌, ◌⊎◌, None};
ghost use Rattle.wire_tap.specs.Accusing.{AreEither, IsEither};
ghost use Rattle.wire_tap.specs.inner.Accused.{Leaves, LeavesSegment};

use crate::accusation::{Accusation, Accused, Broken};
use crate::evidence::Evidence;
use crate::suspects::Suspect;
use crate::tapped::Passed;
use wire_base::Side;

/// Both sides' first units that are accused, and their first segments that are if they send all they composed.
#[derive(Clone, Copy)]
pub(crate) struct Suspects {
    pub(crate) a: Option<Suspect>,
    pub(crate) b: Option<Suspect>,
    pub(crate) segment_a: Option<Suspect>,
    pub(crate) segment_b: Option<Suspect>,
}

// The first accusation against which the recording shows something.
#[derive(Clone, Copy)]
struct Stop {
    order: u64,
    broken: Option<Broken>,
}

impl Suspects {
    /// Those that passed before anything accuses the recording.
    pub(crate) fn sift(self, evidence: &Evidence) -> Accused
        ensures either { AreEither result }
        ensures a { Leaves self.a result.a }
        ensures b { Leaves self.b result.b }
        ensures segment_a { LeavesSegment self.segment_a result.segment_a }
        ensures segment_b { LeavesSegment self.segment_b result.segment_b }
    {
        let none = Stop {
            order: u64::MAX,
            broken: None,
        };
        let stop = none
            .or_at(self.a, evidence)
            .or_at(self.b, evidence)
            .or_at(self.segment_a, evidence)
            .or_at(self.segment_b, evidence);
        let (a, segment_a) = named(stop.keep(self.a), stop.keep(self.segment_a));
        let (b, segment_b) = named(stop.keep(self.b), stop.keep(self.segment_b));
        Accused {
            a,
            b,
            segment_a,
            segment_b,
            broken: stop.broken,
            kind_a: evidence.kind(Side::A),
            kind_b: evidence.kind(Side::B),
        }
    }
}

impl Stop {
    // This one, or that of a unit which passed earlier.
    fn or_at(self, suspect: Option<Suspect>, evidence: &Evidence) -> Stop {
        let Some(suspect) = suspect else {
            return self;
        };
        if suspect.order >= self.order {
            return self;
        }
        match evidence.against(&suspect) {
            Some(broken) => Stop {
                order: suspect.order,
                broken: Some(broken),
            },
            None => self,
        }
    }

    // The unit, if it passed before.
    fn keep(self, suspect: Option<Suspect>) -> Option<Suspect>
        ensures { (result ≡ None) ⊎ (result ≡ suspect) }
    {
        match suspect {
            Some(found) => {
                if found.order < self.order {
                    return Some(found);
                }
                None
            }
            None => None,
        }
    }
}

// What is said of a side; of a segment only where the side is not accused.
fn named(accused: Option<Suspect>, segment: Option<Suspect>) -> (Option<Accusation>, Option<Passed>)
    ensures either { IsEither result.0 result.1 }
    ensures accused { Leaves accused result.0 }
    ensures segment { LeavesSegment segment result.1 }
{
    match accused {
        Some(found) => {
            let accusation = Accusation {
                passed: found.passed,
                unless: found.unless,
            };
            (Some(accusation), None)
        }
        None => (None, passed_of(segment)),
    }
}

fn passed_of(segment: Option<Suspect>) -> Option<Passed>
    ensures { LeavesSegment segment result }
{
    match segment {
        Some(found) => Some(found.passed),
        None => None,
    }
}
