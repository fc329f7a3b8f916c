//! The bytes with which those of a segment or of a message are compared.

ghost use Rattle.std.specs.Prelude.{◌≡◌, ◌<◌, option_copied};
ghost use Rattle.dna_packet.specs.Nsp.{segment_view};
ghost use Rattle.dna_links.specs.SegmentBook.{distance};
ghost use Rattle.dna_links.specs.WireSegments.{highest_given};
ghost use Rattle.nsp_link.specs.Due as spec;

use super::Segments;
use dna_packet::Segment;
use link_segments::Piece;
use wire_base::{Seq, Window};

impl<W: Window<Piece, 4096> + Drop> Segments<W> {
    /// For a segment with the next number, what is left of the current message; for another one, what it first carried, while it is
    /// outstanding. `None` where there is none. Takes no memory.
    pub fn segment_due(&self, segment: &Segment) -> Option<&[u8]>
        requires { segment.now.number < 4096 }
        ensures { option_copied result ≡ spec.segment_due (segment_view segment.now) self.now }
    {
        if self.is_new(segment) {
            return self.unsent.rest();
        }
        let highest = self.outstanding.highest();
        let below = Seq::distance(Seq::of(u64::from(segment.number)), highest);
        self.first_body(usize::from(below))
    }

    // What the segment so far below the highest given first carried, while it is outstanding.
    fn first_body(&self, below: usize) -> Option<&[u8]>
        ensures { option_copied result ≡ spec.first_body below self.now.variables.outstanding }
    {
        let count = self.outstanding.len();
        if below >= count {
            return None;
        }
        match self.outstanding.segment(count - 1 - below) {
            Some(first) => Some(first.body()),
            None => None,
        }
    }

    /// With what the next message to be delivered begins: what its first segment carries; `None` where that did not come. Takes no memory.
    pub fn front_due(&self) -> Option<&[u8]>
        ensures { option_copied result ≡ spec.front_due self.now }
    {
        match self.pieces.piece(0) {
            Some(first) => Some(first.body()),
            None => None,
        }
    }
}
