//! What the user of a node's links does, or gets.

use capture_record::MAX_MESSAGE;

/// An event at a link, or a boot. `link` is an address of this node, and `partner` one of the other node's: each is from 1 to 65,535.
/// A message has at most 65,535 bytes.
#[derive(Clone, Copy, PartialEq, Eq)]
pub enum LinkEvent<'a> {
    /// A link is opened from here, and gets this address.
    Open { link: u16 },
    /// The call of the partner's link is accepted; the link gets this address here.
    Accept { partner: u16, link: u16 },
    /// The call of the partner's link is rejected; the link gets this address here.
    Reject { partner: u16, link: u16 },
    /// A message is handed in.
    In { link: u16, message: &'a [u8] },
    /// A message is delivered.
    Up { link: u16, message: &'a [u8] },
    /// The link is closed from here.
    Close { link: u16 },
    /// The call that was opened from here is given up.
    Abort { link: u16 },
    /// The node starts anew: all links are over, and no address is anybody's last any more.
    Boot,
}

impl LinkEvent<'_> {
    ghost use Rattle.std.specs.Prelude.{IsTrue, ◌↔◌};
    ghost use Rattle.dna_links.specs.User.{view, IsInRange};

    /// Whether its addresses are from 1, and its message has at most 65,535 bytes. Takes no memory.
    pub fn in_range(&self) -> bool
        ensures { IsTrue result ↔ IsInRange (view self.now) }
    {
        match self {
            LinkEvent::Open { link } | LinkEvent::Close { link } | LinkEvent::Abort { link } =>
                *link > 0,
            LinkEvent::Accept { partner, link } | LinkEvent::Reject { partner, link } => *partner
                > 0
                && *link > 0,
            LinkEvent::In { link, message } | LinkEvent::Up { link, message } => *link > 0
                && message.len() <= MAX_MESSAGE,
            LinkEvent::Boot => true,
        }
    }
}
