//! What comes of the segments of one link.

ghost use Rattle.std.specs.Prelude.{◌≡◌, ◌<◌, true, OnOk, OnErr, IfErr};
ghost use Rattle.std.specs.List.{AllByRecursion};
ghost use Rattle.dna_packet.specs.AckWord.{IsAckWord};
ghost use Rattle.dna_packet.specs.Nsp.{segment_view};
ghost use Rattle.dna_links.specs.WireSegments.{takes_segment, takes_acks};
ghost use Rattle.nsp_link.specs.Segments.{with_held, is_held};

use super::Segments;
use dna_packet::{AckWord, Segment};
use link_segments::{Piece, REACH};
use std::alloc::{AllocError, Global};
use wire_base::{Seq, Window};

impl<W: Window<Piece, 4096> + Drop> Segments<W> {
    /// Acknowledgement words come. Takes no memory.
    #[tactic(auto, using(crate::proofs::Acknowledged::acknowledged))]
    pub fn take_acks(&mut self, words: &[AckWord])
        requires { AllByRecursion IsAckWord words.now }
        ensures { self.new ≡ takes_acks words.now tt self.old }
    {
        self.outstanding.acknowledge_all(words);
    }

    /// A segment comes: it is held, if it is missing and at most 2,047 above the highest received without a gap, and its words are
    /// taken. Where memory for it is refused, nothing changes.
    #[tactic(auto, using(crate::proofs::Acknowledged::acknowledged))]
    pub fn take_segment(&mut self, alloc: Global, segment: &Segment) -> Result<(), AllocError>
        requires acks { AllByRecursion IsAckWord segment.now.acks.items }
        requires number { segment.now.number < 4096 }
        ensures ok { OnOk result (self.new ≡ takes_segment (segment_view segment.now) tt self.old) }
        ensures held { IfErr result (λ e. is_held (segment_view segment.now) self.old.variables ≡ true) }
        ensures err { OnErr result (self.new ≡ self.old) }
    {
        self.hold(alloc, segment)?;
        self.outstanding.acknowledge_all(&segment.acks);
        Ok(())
    }

    // The piece of a segment that came is held.
    #[tactic(auto, using(crate::proofs::Holding::holding))]
    fn hold(&mut self, alloc: Global, segment: &Segment) -> Result<(), AllocError>
        requires { segment.now.number < 4096 }
        ensures ok { OnOk result (self.new ≡ with_held (segment_view segment.now) self.old) }
        ensures held { IfErr result (λ e. is_held (segment_view segment.now) self.old.variables ≡ true) }
        ensures err { OnErr result (self.new ≡ self.old) }
    {
        let highest = self.received.value();
        let above = Seq::distance(self.received, Seq::of(u64::from(segment.number)));
        if above == 0 || above > REACH {
            return Ok(());
        }
        let above = usize::from(above);
        if !self.pieces.is_missing(above) {
            return Ok(());
        }
        let piece = Piece::of(alloc, segment)?;
        let more = self.pieces.hold(above, piece)?;
        self.received = Seq::of(u64::from(highest) + more as u64);
        Ok(())
    }
}
