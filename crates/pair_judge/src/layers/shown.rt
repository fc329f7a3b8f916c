//! What is shown of a side.

ghost use Rattle.std.specs.Prelude.{◌≡◌, ◌<◌, option_map, option_and_then, option_copied, slice_get};
ghost use Rattle.ddcmp_station.specs.View.{view_of};
ghost use Rattle.dna_packet.specs.Nsp.{segment_view};
ghost use Rattle.nsp_link.specs.Due.{due_at_links, due_to_user};
ghost use Rattle.nsp_link.specs.View as link;

use super::SideLayers;
use ddcmp_station::StationView;
use dna_packet::Segment;
use nsp_link::{LinkView, Nodes};

impl SideLayers {
    /// The variables of the station as they are now.
    pub fn station_view(&self) -> StationView
        ensures { result ≡ view_of self.now.station }
    {
        self.station.view()
    }

    /// The link with this number, counted from 0 in the order in which they began, as it is now; `None` where there is none.
    pub fn link_view(&self, number: usize) -> Option<LinkView>
        ensures { result ≡ option_map link.view_of (slice_get self.now.links.links number) }
    {
        self.links.view(number)
    }

    /// Between which nodes a message comes: from the other node to this one.
    pub fn incoming(&self) -> Nodes
        ensures { result ≡ record { source = self.now.links.peer; destination = self.now.links.node } }
    {
        self.links.incoming()
    }

    /// What is left of the message that the link with this number sends, if there is one.
    pub fn rest(&self, number: usize) -> Option<&[u8]>
        ensures { option_copied result ≡ option_and_then link.rest_of (slice_get self.now.links.links number) }
    {
        self.links.rest(number)
    }
    /// The bytes of the links with which those of this segment are compared.
    pub fn segment_due(&self, segment: &Segment) -> Option<&[u8]>
        requires { segment.now.number < 4096 }
        ensures { option_copied result ≡ due_at_links (segment_view segment.now) self.now.links }
    {
        self.links.segment_due(segment)
    }

    /// With what the next message begins that is delivered on the link with this own address.
    pub fn delivery_due(&self, own: u16) -> Option<&[u8]>
        ensures { option_copied result ≡ due_to_user own self.now.links }
    {
        self.links.delivery_due(own)
    }
}
