//! The bytes of a link with which those of a segment or of a message are compared.

ghost use Rattle.std.specs.Prelude.{◌≡◌, ◌<◌, option_copied};
ghost use Rattle.dna_packet.specs.Nsp.{segment_view};
ghost use Rattle.nsp_link.specs.Due as spec;

use super::Link;
use crate::Piece;
use dna_packet::Segment;
use wire_base::Window;

impl<W: Window<Piece, 4096> + Drop> Link<W> {
    /// What a segment with this number has to carry or to begin, if there is such. Takes no memory.
    pub fn segment_due(&self, segment: &Segment) -> Option<&[u8]>
        requires { segment.now.number < 4096 }
        ensures { option_copied result ≡ spec.segment_due (segment_view segment.now) self.now.segments }
    {
        match &self.segments {
            Some(segments) => segments.segment_due(segment),
            None => None,
        }
    }

    /// With what the next message to be delivered begins, if its first segment came. Takes no memory.
    pub fn front_due(&self) -> Option<&[u8]>
        ensures { option_copied result ≡ spec.front_due self.now.segments }
    {
        match &self.segments {
            Some(segments) => segments.front_due(),
            None => None,
        }
    }
}
