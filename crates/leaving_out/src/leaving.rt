//! What is not judged of two captures.

ghost use Rattle.std.specs.Prelude.{◌≡◌};
ghost use Rattle.leaving_out.specs.Addresses.{head_of, is_left};

use link_groups::{LeftOut, OwnAddress};
use wire_base::Side;

/// Both node addresses of a capture's head: its area times 1,024, plus the node.
#[derive(Clone, Copy, Debug, PartialEq, Eq)]
pub struct Head {
    pub own: u16,
    pub peer: u16,
}

/// What is not judged of two captures.
#[derive(Clone, Copy)]
pub struct Leaving<'a> {
    /// The own addresses that are left out.
    pub left_out: &'a LeftOut,
    /// Packets that can't be read are carried.
    pub unread_packets: bool,
    /// Messages that can't be read are carried.
    pub unread_messages: bool,
    /// The head of the capture of side a.
    pub head_of_a: Head,
    /// The head of the capture of side b.
    pub head_of_b: Head,
}

impl Leaving<'_> {
    /// Whether this own address is left out. Takes no memory.
    pub fn has(&self, address: OwnAddress) -> bool
        ensures { result ≡ is_left self.now address }
    {
        self.left_out.has(address)
    }

    /// The head of this side's capture. Takes no memory.
    pub fn head(&self, side: Side) -> Head
        ensures { result ≡ head_of self.now side }
    {
        match side {
            Side::A => self.head_of_a,
            Side::B => self.head_of_b,
        }
    }
}
