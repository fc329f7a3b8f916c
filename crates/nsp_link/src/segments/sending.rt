//! What is sent of the segments of one link, once it was asked for.

ghost use Rattle.std.specs.Prelude.{◌≡◌, ◌<◌, true, length, OnOk, OnErr};
ghost use Rattle.dna_packet.specs.Nsp.{segment_view};
ghost use Rattle.dna_links.specs.Segmentation.{is_next_piece, piece_of};
ghost use Rattle.dna_links.specs.WireSegments.{with_last, with_new};
ghost use Rattle.dna_links.specs.SegmentBook.{distance};

use super::Segments;
use crate::last_sent::LastSent;
use dna_packet::Segment;
use link_segments::{Piece, REACH};
use std::alloc::{AllocError, Global};
use wire_base::Window;

impl<W: Window<Piece, 4096> + Drop> Segments<W> {
    /// A segment with the next number is sent, the words of which leave this as the last acknowledgement. Where memory for it is refused, nothing
    /// changes.
    pub fn give(
        &mut self,
        alloc: Global,
        segment: &Segment,
        last: LastSent,
    ) -> Result<(), AllocError>
        requires room { length self.old.variables.outstanding < 2047 }
        requires next { is_next_piece (piece_of (segment_view segment.now)) self.old.variables.unsent ≡ true }
        ensures ok { OnOk result (self.new ≡ with_last last (with_new (piece_of (segment_view segment.now)) self.old)) }
        ensures err { OnErr result (self.new ≡ self.old) }
    {
        let piece = Piece::of(alloc, segment)?;
        let highest = self.outstanding.highest().value();
        self.outstanding.give(alloc, piece)?;
        self.unsent.give(segment);
        self.gave_many = self.gave_many || highest + 1 >= REACH;
        self.last = last;
        Ok(())
    }

    /// Words are sent that leave this as the last acknowledgement, alone or with a segment that goes again. The answer is how far the last one went
    /// on.
    pub fn go_on(&mut self, last: LastSent) -> u16
        ensures goes { self.new ≡ with_last last self.old }
        ensures further { result ≡ distance self.old.last last.last }
    {
        let before = self.last;
        self.last = last;
        before.went_on(last)
    }
}
