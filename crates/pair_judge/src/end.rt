//! One end of the line, as far as the judge has gone along its capture.

ghost use Rattle.std.specs.Prelude.{◌≡◌};

use crate::layers::SideLayers;
use crate::line::Line;
use crate::summary::SideSummary;
use crate::top::Top;
use dna_station::Head;

/// One side: the head of its capture, its station with its links on top, the units that it sent and the other may still receive, and its
/// counts so far.
#[derive(Drop)]
pub struct End {
    pub head: Head,
    pub layers: SideLayers,
    pub line: Line,
    pub counts: SideSummary,
}

impl End {
    ghost use Rattle.pair_judge.specs.Summary.{summary_at};

    /// Its counts, with how many links began.
    pub fn summary<T: Top>(&self) -> SideSummary
        ensures { result ≡ summary_at T.top.links self.now }
    {
        self.counts.with_links(T::links_begun(&self.layers))
    }
}
