//! Which message a link delivers.

ghost use Rattle.std.specs.Prelude.{◌≡◌, ◌≤◌};
ghost use Rattle.dna_links.specs.Links.{with_segments};
ghost use Rattle.dna_links.specs.Segmentation.{in_order};
ghost use Rattle.nsp_link.specs.FailedEvent.{asked_delivery};
ghost use Rattle.nsp_link.specs.inner.Acted.{without_pieces};

use super::Link;
use crate::Piece;
use crate::failed::FailedLinkEvent;
use crate::permit::LinkUserPermit;
use wire_base::Window;

impl<W: Window<Piece, 4096> + Drop> Link<W> {
    /// Whether this link, which has this number, may deliver this message now: it is the next whole one. Takes no memory.
    #[inline(always)]
    pub fn ask_delivery(
        &self,
        number: usize,
        message: &[u8],
    ) -> Result<LinkUserPermit, FailedLinkEvent>
        ensures { result ≡ asked_delivery number message.now self.now.segments.variables.pieces }
    {
        match &self.segments {
            Some(segments) => segments.ask_delivery(number, message),
            None => Err(FailedLinkEvent::Delivery {
                link: number as u64,
                seen: message.len(),
                allowed: None,
            }),
        }
    }

    /// So many pieces of whole messages are delivered.
    pub fn deliver(&mut self, pieces: usize)
        requires some { 1 ≤ pieces }
        requires few { pieces ≤ in_order self.old.segments.variables.pieces }
        ensures delivers { self.new ≡ with_segments (without_pieces pieces self.old.segments) self.old }
        ensures rest { self.new ≡ with_segments self.new.segments self.old }
    {
        match &mut self.segments {
            Some(segments) => segments.deliver(pieces),
            None => unreachable!(),
        }
    }
}
