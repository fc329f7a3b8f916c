//! What is shown of the links.

ghost use Rattle.std.specs.Prelude.{◌≡◌, option_map, option_and_then, option_copied, slice_get};
ghost use Rattle.nsp_link.specs.View.{rest_of, view_of};

use super::Links;
use crate::Piece;
use crate::failed::Nodes;
use crate::view::LinkView;
use wire_base::Window;

impl<W: Window<Piece, 4096> + Drop> Links<W> {
    /// The link with this number, counted from 0 in the order in which they began, as it is now; `None` where there is none. Takes no
    /// memory.
    pub fn view(&self, number: usize) -> Option<LinkView>
        ensures { result ≡ option_map view_of (slice_get self.now.links number) }
    {
        match self.links.get(number) {
            Some(link) => Some(link.view()),
            None => None,
        }
    }

    /// Between which nodes a message comes: from the other node to this one (Routing Layer 2.0, addresses).
    pub fn incoming(&self) -> Nodes
        ensures { result ≡ record { source = self.now.peer; destination = self.now.node } }
    {
        Nodes {
            source: self.peer,
            destination: self.node,
        }
    }

    /// What is left of the message that the link with this number sends: bytes with which its next new segment has to begin; `None` where there
    /// is no such link, or all that was handed in is given. Takes no memory.
    pub fn rest(&self, number: usize) -> Option<&[u8]>
        ensures { option_copied result ≡ option_and_then rest_of (slice_get self.now.links number) }
    {
        match self.links.get(number) {
            Some(link) => link.rest(),
            None => None,
        }
    }
}
