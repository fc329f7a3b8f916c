//! The bytes of the links with which those of a segment or of a message are compared.

ghost use Rattle.std.specs.Prelude.{◌≡◌, ◌<◌, option_copied};
ghost use Rattle.dna_packet.specs.Nsp.{segment_view};
ghost use Rattle.nsp_link.specs.Due as spec;

use super::Links;
use super::sending::the_link;
use crate::Piece;
use dna_links::LinkTest;
use dna_packet::Segment;
use wire_base::Window;

impl<W: Window<Piece, 4096> + Drop> Links<W> {
    /// The bytes with which those of this segment are compared, if it were sent now (NSP 4.0, data segments): of a new one all that is left of the
    /// current message, which it has to begin with; of one that goes again those that it first carried, while it is not acknowledged. `None`
    /// where there are none, or no such link. Takes no memory.
    #[tactic(auto, using(crate::proofs::Found::found_links))]
    pub fn segment_due(&self, segment: &Segment) -> Option<&[u8]>
        requires { segment.now.number < 4096 }
        ensures { option_copied result ≡ spec.due_at_links (segment_view segment.now) self.now }
    {
        let Some((number, link)) = self.found(the_link(segment.srcaddr, segment.dstaddr)) else {
            return None;
        };
        link.segment_due(segment)
    }

    /// With what the next message begins that is delivered on the link with this own address: the bytes of its first segment; `None` where that
    /// did not come, or there is no such link. Takes no memory.
    #[tactic(auto, using(crate::proofs::Found::found_links))]
    pub fn delivery_due(&self, own: u16) -> Option<&[u8]>
        ensures { option_copied result ≡ spec.due_to_user own self.now }
    {
        let Some((number, link)) = self.found(LinkTest::HasAddress { own }) else {
            return None;
        };
        link.front_due()
    }
}
