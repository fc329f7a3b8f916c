//! What is shown of a link.

ghost use Rattle.std.specs.Prelude.{◌≡◌, option_copied};
ghost use Rattle.nsp_link.specs.View.{rest_of, view_of};

use super::Link;
use crate::Piece;
use crate::view::{LinkNumbers, LinkView};
use wire_base::Window;

impl<W: Window<Piece, 4096> + Drop> Link<W> {
    /// As it is now. Takes no memory.
    pub fn view(&self) -> LinkView
        ensures { result ≡ view_of self.now }
    {
        let numbers = match &self.segments {
            Some(segments) => segments.numbers(),
            None => NO_NUMBERS,
        };
        LinkView {
            port: self.port,
            partner: self.partner,
            segsize: self.segsize,
            numbers,
            queue: self.queue,
        }
    }

    /// What is left of the message that it sends, if there is one. Takes no memory.
    pub fn rest(&self) -> Option<&[u8]>
        ensures { option_copied result ≡ rest_of self.now }
    {
        match &self.segments {
            Some(segments) => segments.rest(),
            None => None,
        }
    }
}

// Of a link that has ended.
const NO_NUMBERS: LinkNumbers = LinkNumbers {
    given: 0,
    acknowledged: 0,
    outstanding: 0,
    received: 0,
    last_sent: 0,
};
