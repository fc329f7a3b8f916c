//! What an end sends next, before it is put together.

use crate::duty::Duty;
use ddcmp_msg::NakReason;

/// The two addresses and the reason of a DC.
#[derive(Clone, Copy, PartialEq, Eq)]
pub struct EndConfirm {
    pub dst: u16,
    pub src: u16,
    pub reason: u16,
}

/// The next message of the links.
#[derive(Clone, Copy, PartialEq, Eq)]
pub enum LinkChoice {
    /// The oldest DC that is owed.
    Confirms(EndConfirm),
    /// Of the link with this number: as many links began before it.
    OfLink { number: usize, duty: Duty },
}

/// The next unit.
#[derive(Clone, Copy, PartialEq, Eq)]
pub enum Choice {
    Strt,
    Stack,
    Nak(NakReason),
    Rep,
    /// The next packet to send, which is held, once more.
    Again,
    /// A new packet with this message.
    New(LinkChoice),
    Ack,
}
