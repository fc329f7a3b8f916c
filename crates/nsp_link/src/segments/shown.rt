//! The numbers of the segments, to be shown.

ghost use Rattle.std.specs.Prelude.{◌≡◌, option_copied, slice_get};
ghost use Rattle.nsp_link.specs.View.{numbers_of};

use super::Segments;
use crate::view::LinkNumbers;
use link_segments::Piece;
use wire_base::Window;

impl<W: Window<Piece, 4096> + Drop> Segments<W> {
    /// The numbers as they are now. Takes no memory.
    pub fn numbers(&self) -> LinkNumbers
        ensures { result ≡ numbers_of self.now }
    {
        LinkNumbers {
            given: self.outstanding.highest().value(),
            acknowledged: self.outstanding.acknowledged().value(),
            outstanding: self.outstanding.len(),
            received: self.received.value(),
            last_sent: self.last.number(),
        }
    }
    /// What is left of the current message, if there is one. Takes no memory.
    pub fn rest(&self) -> Option<&[u8]>
        ensures { option_copied result ≡ slice_get self.now.variables.unsent.messages 0 }
    {
        self.unsent.rest()
    }
}
