//! The bytes with which those of a record are compared.

ghost use Rattle.std.specs.Prelude.{◌≡◌, ◌<◌, option_copied};
ghost use Rattle.dna_packet.specs.Nsp.{segment_view};
ghost use Rattle.nsp_link.specs.Due.{due_at_links, due_to_user};

use super::SideEnd;
use dna_packet::Segment;

impl SideEnd {
    /// The bytes with which those of this segment are compared, if it were sent now (NSP 4.0, data segments): of a new one all that is left of
    /// the current message, which it has to begin with; of one that goes again those that it first carried, while it is not acknowledged.
    /// `None` where there are none, or no such link. Takes no memory.
    pub fn segment_due(&self, segment: &Segment) -> Option<&[u8]>
        requires { segment.now.number < 4096 }
        ensures { option_copied result ≡ due_at_links (segment_view segment.now) self.now.links }
    {
        self.layers.segment_due(segment)
    }

    /// With what the next message begins that is delivered on the link with this own address: the bytes of its first segment; `None` where that
    /// did not come, or there is no such link. Takes no memory.
    pub fn delivery_due(&self, own: u16) -> Option<&[u8]>
        ensures { option_copied result ≡ due_to_user own self.now.links }
    {
        self.layers.delivery_due(own)
    }
}
