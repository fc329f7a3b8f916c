//! The messages of a full-duplex point-to-point line.

ghost use Rattle.std.specs.Prelude.{IsTrue, ◌↔◌, ◌≤◌};

use crate::{Flags, NakReason};

/// A DDCMP message (DDCMP 4.1, message formats). Numbers and responses are those of the line, modulo 256.
#[derive(Clone, Copy, Debug, PartialEq, Eq)]
pub enum Message<'a> {
    /// A numbered data message, which also acknowledges all messages through `resp`.
    Data {
        flags: Flags,
        resp: u8,
        num: u8,
        /// The packet: 1 to 16,383 bytes.
        body: &'a [u8],
    },
    /// Acknowledges all messages through `resp`.
    Ack {
        flags: Flags,
        resp: u8,
    },
    /// Acknowledges all messages through `resp`, and asks for those after it again.
    Nak {
        flags: Flags,
        reason: NakReason,
        resp: u8,
    },
    /// Asks for the answer to the message numbered `num`, the highest that was sent.
    Rep {
        flags: Flags,
        num: u8,
    },
    /// Asks for startup.
    Strt {
        flags: Flags,
    },
    /// Answers a STRT: the sender has seen one.
    Stack {
        flags: Flags,
    },
}

impl Message<'_> {
    ghost use Rattle.ddcmp_msg.specs.Message.{view, IsInRange};

    /// The longest body of a data message, in bytes: the most that COUNT can say in 14 bits.
    pub const MAX_BODY: usize = 16383;

    /// Whether the message has a unit: the body of a data message has 1 to 16,383 bytes. Every other message does.
    pub fn in_range(&self) -> bool
        ensures { IsTrue result ↔ IsInRange (view self.now) }
    {
        match self {
            Message::Data { body, .. } => fits_count(body.len()),
            _ => true,
        }
    }
}

// Whether COUNT can say this many bytes of body.
fn fits_count(count: usize) -> bool
    ensures { IsTrue result ↔ (1 ≤ count) × (count ≤ 16383) }
{
    (1..=Message::MAX_BODY).contains(&count)
}
