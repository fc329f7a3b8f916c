//! What happened at a node apart from its line.

use crate::bytes::Bytes;
use crate::entry::Entry;
use crate::limit::{MAX_INTERRUPT, MAX_MESSAGE, MAX_PACKET};

/// What happened at a node apart from its line: mostly what its user did, or got. `link` is an address that this node gave to a link, and
/// `partner` one that the other node gave: each is from 1 to 65,535.
#[derive(Drop)]
pub enum Event {
    /// The station is started.
    Start,
    /// The station is halted.
    Halt,
    /// A link is opened from here.
    Open { link: u16 },
    /// The call of the partner's link is accepted, and gets a link here.
    Accept { partner: u16, link: u16 },
    /// The call of the partner's link is rejected, and gets a link here.
    Reject { partner: u16, link: u16 },
    /// A message is handed in, of at most 65,535 bytes.
    In { link: u16, bytes: Bytes },
    /// A message is delivered, of at most 65,535 bytes.
    Up { link: u16, bytes: Bytes },
    /// A link is closed from here.
    Close { link: u16 },
    /// The node is started anew: its station is halted, and it has no links any more.
    Boot,
    /// A call of this link is given up, and nothing is sent for that.
    Abort { link: u16 },
    /// A packet is composed that will never be sent, of at most 16,383 bytes.
    Composed { bytes: Bytes },
    /// An interrupt is handed in, of at most 16 bytes.
    Interrupt { link: u16, bytes: Bytes },
    /// An interrupt is delivered, of at most 16 bytes.
    Interrupted { link: u16, bytes: Bytes },
}

impl Event {
    ghost use Rattle.std.specs.Prelude.{◌≡◌, ◌↔◌, IsTrue};
    ghost use Rattle.capture_record.specs.declared.record.Record.TheVariants.{User};
    ghost use Rattle.capture_record.specs.Entries.{record_with};
    ghost use Rattle.capture_record.specs.Range.{IsEvent, event_bytes};

    /// Whether the event has a line: its addresses are from 1, its message has at most 65,535 bytes, its packet at most 16,383,
    /// and its interrupt at most 16. Takes no memory.
    pub fn in_range(&self) -> bool
        ensures { IsTrue result ↔ IsEvent self.now }
    {
        match self {
            Event::Start | Event::Halt | Event::Boot => true,
            Event::Open { link } | Event::Close { link } | Event::Abort { link } => *link > 0,
            Event::Accept { partner, link } | Event::Reject { partner, link } => *partner > 0
                && *link > 0,
            Event::In { link, bytes } | Event::Up { link, bytes } => {
                *link > 0 && bytes.as_slice().len() <= MAX_MESSAGE
            }
            Event::Composed { bytes } => bytes.as_slice().len() <= MAX_PACKET,
            Event::Interrupt { link, bytes } | Event::Interrupted { link, bytes } => {
                *link > 0 && bytes.as_slice().len() <= MAX_INTERRUPT
            }
        }
    }

    /// What the line of its record says beside its bytes, and the bytes: none where its line has no BYTES. Takes no memory.
    pub fn parts(&self) -> (Entry, &[u8])
        ensures whole { record_with result.0 result.1.now ≡ User self.now }
        ensures bytes { result.1.now ≡ event_bytes self.now }
    {
        match self {
            Event::Start => (Entry::Start, &[]),
            Event::Halt => (Entry::Halt, &[]),
            Event::Open { link } => (Entry::Open { link: *link }, &[]),
            Event::Accept { partner, link } => (
                Entry::Accept {
                    partner: *partner,
                    link: *link,
                },
                &[],
            ),
            Event::Reject { partner, link } => (
                Entry::Reject {
                    partner: *partner,
                    link: *link,
                },
                &[],
            ),
            Event::In { link, bytes } => (Entry::In { link: *link }, bytes.as_slice()),
            Event::Up { link, bytes } => (Entry::Up { link: *link }, bytes.as_slice()),
            Event::Close { link } => (Entry::Close { link: *link }, &[]),
            Event::Boot => (Entry::Boot, &[]),
            Event::Abort { link } => (Entry::Abort { link: *link }, &[]),
            Event::Composed { bytes } => (Entry::Composed, bytes.as_slice()),
            Event::Interrupt { link, bytes } => {
                (Entry::Interrupt { link: *link }, bytes.as_slice())
            }
            Event::Interrupted { link, bytes } => {
                (Entry::Interrupted { link: *link }, bytes.as_slice())
            }
        }
    }
}
