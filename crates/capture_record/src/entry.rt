//! What the line of a record says beside its BYTES.

ghost use Rattle.std.specs.Prelude.{◌≡◌};
ghost use Rattle.capture_record.specs.Entries.{limit_of, record_with};

use crate::bytes::Bytes;
use crate::event::Event;
use crate::fate::Fate;
use crate::limit::{MAX_INTERRUPT, MAX_MESSAGE, MAX_PACKET, MAX_UNIT};
use crate::record::Record;

/// What the line of a record says except for its bytes, which are kept beside it. It is small and owns nothing. The numbers are
/// those of [`Record`] and [`Event`].
#[derive(Clone, Copy, PartialEq, Eq)]
pub enum Entry {
    /// The bytes were sent as a unit.
    Sent,
    /// The bytes came for the unit of this hint, and this became of the packet in it.
    Received { fate: Fate, hint: u64 },
    /// The bytes came, and nobody sent them.
    Noise,
    /// The station was started.
    Start,
    /// The station was halted.
    Halt,
    /// A link was opened from here.
    Open { link: u16 },
    /// The call of the partner's link was accepted.
    Accept { partner: u16, link: u16 },
    /// The call of the partner's link was rejected.
    Reject { partner: u16, link: u16 },
    /// The bytes were handed in as a message.
    In { link: u16 },
    /// The bytes were delivered as a message.
    Up { link: u16 },
    /// A link was closed from here.
    Close { link: u16 },
    /// The node was started anew.
    Boot,
    /// A call was given up.
    Abort { link: u16 },
    /// The bytes were composed as a packet that will never be sent.
    Composed,
    /// The bytes were handed in as an interrupt.
    Interrupt { link: u16 },
    /// The bytes were delivered as an interrupt.
    Interrupted { link: u16 },
}

impl Entry {
    /// The most bytes that may be kept beside it; `None` where its line has no BYTES. Takes no memory.
    pub fn limit(self) -> Option<usize>
        ensures { result ≡ limit_of self }
    {
        match self {
            Entry::Sent | Entry::Received { .. } | Entry::Noise => Some(MAX_UNIT),
            Entry::In { .. } | Entry::Up { .. } => Some(MAX_MESSAGE),
            Entry::Start | Entry::Halt | Entry::Open { .. } | Entry::Accept { .. } => None,
            Entry::Reject { .. } | Entry::Close { .. } | Entry::Boot | Entry::Abort { .. } => None,
            Entry::Composed => Some(MAX_PACKET),
            Entry::Interrupt { .. } | Entry::Interrupted { .. } => Some(MAX_INTERRUPT),
        }
    }

    /// The record of this entry and these bytes, which it owns from then on. Takes no memory.
    pub fn with(self, bytes: Bytes) -> Record
        ensures { result ≡ record_with self bytes }
    {
        match self {
            Entry::Sent => Record::Sent(bytes),
            Entry::Received { fate, hint } => Record::Received { hint, fate, bytes },
            Entry::Noise => Record::Noise(bytes),
            Entry::Start => Record::User(Event::Start),
            Entry::Halt => Record::User(Event::Halt),
            Entry::Open { link } => Record::User(Event::Open { link }),
            Entry::Accept { partner, link } => Record::User(Event::Accept { partner, link }),
            Entry::Reject { partner, link } => Record::User(Event::Reject { partner, link }),
            Entry::In { link } => Record::User(Event::In { link, bytes }),
            Entry::Up { link } => Record::User(Event::Up { link, bytes }),
            Entry::Close { link } => Record::User(Event::Close { link }),
            Entry::Boot => Record::User(Event::Boot),
            Entry::Abort { link } => Record::User(Event::Abort { link }),
            Entry::Composed => Record::User(Event::Composed { bytes }),
            Entry::Interrupt { link } => Record::User(Event::Interrupt { link, bytes }),
            Entry::Interrupted { link } => Record::User(Event::Interrupted { link, bytes }),
        }
    }
}
