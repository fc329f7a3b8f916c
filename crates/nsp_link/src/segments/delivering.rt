//! Which message is the next to be delivered.

ghost use Rattle.std.specs.Prelude.{◌≡◌, ◌≤◌};
ghost use Rattle.dna_links.specs.Segmentation.{in_order};
ghost use Rattle.nsp_link.specs.FailedEvent.{asked_delivery};
ghost use Rattle.nsp_link.specs.inner.Acted.{without_pieces};

use super::Segments;
use crate::failed::FailedLinkEvent;
use crate::permit::LinkUserPermit;
use link_segments::Piece;
use wire_base::Window;

impl<W: Window<Piece, 4096> + Drop> Segments<W> {
    /// Whether the link with this number may deliver this message now: it is the next whole one. Takes no memory.
    #[inline(always)]
    #[tactic(auto, using(crate::proofs::Delivery::delivery))]
    pub fn ask_delivery(
        &self,
        link: usize,
        message: &[u8],
    ) -> Result<LinkUserPermit, FailedLinkEvent>
        ensures { result ≡ asked_delivery link message.now self.now.variables.pieces }
    {
        let Some(pieces) = self.pieces.pieces_of(message) else {
            return Err(FailedLinkEvent::Delivery {
                link: link as u64,
                seen: message.len(),
                allowed: self.pieces.next_length(),
            });
        };
        Ok(LinkUserPermit::Delivers { link, pieces })
    }

    /// So many pieces of whole messages are delivered.
    pub fn deliver(&mut self, pieces: usize)
        requires { pieces ≤ in_order self.old.variables.pieces }
        ensures { self.new ≡ without_pieces pieces self.old }
    {
        self.pieces.deliver(pieces);
    }
}
