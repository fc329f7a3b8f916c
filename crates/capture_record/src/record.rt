//! One record of a capture: what one side saw.

use crate::bytes::Bytes;
use crate::entry::Entry;
use crate::event::Event;
use crate::fate::Fate;
use crate::limit::{MAX_HINT, MAX_UNIT};

/// What one side of the line saw.
#[derive(Drop)]
pub enum Record {
    /// The node sent this unit, of at most 16,393 bytes.
    Sent(Bytes),
    /// These bytes came, at most 16,393.
    Received {
        /// Which unit of the other side came, counted from 0, as the recorder has it: at most
        /// 999,999,999,999,999,999.
        hint: u64,
        /// What became of the packet in the unit.
        fate: Fate,
        /// The bytes as they came.
        bytes: Bytes,
    },
    /// These bytes came, at most 16,393, and nobody sent them.
    Noise(Bytes),
    /// Something happened at the node apart from its line.
    User(Event),
}

impl Record {
    ghost use Rattle.std.specs.Prelude.{◌≡◌, ◌↔◌, IsTrue};
    ghost use Rattle.capture_record.specs.Entries.{record_with};
    ghost use Rattle.capture_record.specs.Range.{IsRecord, record_bytes};

    /// Whether the record has a line: its hint is at most 999,999,999,999,999,999, its unit has at
    /// most 16,393 bytes, its noise as many, and its event is in range. Takes no memory.
    pub fn in_range(&self) -> bool
        ensures { IsTrue result ↔ IsRecord self.now }
    {
        match self {
            Record::Sent(bytes) => bytes.as_slice().len() <= MAX_UNIT,
            Record::Received {
                hint,
                fate: _,
                bytes,
            } => { *hint <= MAX_HINT && bytes.as_slice().len() <= MAX_UNIT }
            Record::Noise(bytes) => bytes.as_slice().len() <= MAX_UNIT,
            Record::User(event) => event.in_range(),
        }
    }

    /// What its line says beside its bytes, and the bytes: none where its line has no BYTES. Takes no memory.
    pub fn parts(&self) -> (Entry, &[u8])
        ensures whole { record_with result.0 result.1.now ≡ self.now }
        ensures bytes { result.1.now ≡ record_bytes self.now }
    {
        match self {
            Record::Sent(bytes) => (Entry::Sent, bytes.as_slice()),
            Record::Received { hint, fate, bytes } => (
                Entry::Received {
                    hint: *hint,
                    fate: *fate,
                },
                bytes.as_slice(),
            ),
            Record::Noise(bytes) => (Entry::Noise, bytes.as_slice()),
            Record::User(event) => event.parts(),
        }
    }
}
