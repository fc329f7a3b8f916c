//! What an end keeps of a packet that is not acknowledged.

ghost use Rattle.std.specs.Prelude.{◌≡◌, ◌≤◌, length};

use station_variables::PacketBytes;
use std::marker::Model;

/// A packet that has a number and is not acknowledged, with no label beside it.
pub type HeldPacket = station_variables::HeldPacket<(), ComposedPacket>;

/// The bytes of a packet that an end has put together, 1 to 16,383 of them: as many as a data message has.
#[derive(Drop)]
pub struct ComposedPacket {
    bytes: Vec<u8>,
}

impl Model for ComposedPacket {
    ghost use Rattle.std.specs.Prelude.{◌≤◌, ℕ, List, length};

    ghost Value = { List ℕ };

    ghost view = { λ p. p.bytes.items };

    ghost invariant = { λ p. (1 ≤ length p.bytes.items) × (length p.bytes.items ≤ 16383) };
}

impl ComposedPacket {
    /// These bytes, in the memory that they have. Takes no memory.
    pub fn new(bytes: Vec<u8>) -> ComposedPacket
        requires least { 1 ≤ length bytes.items }
        requires most { length bytes.items ≤ 16383 }
        ensures { result ≡ bytes.items }
    {
        ComposedPacket { bytes }
    }
}

impl PacketBytes for ComposedPacket {
    ghost bytes = { λ packet. packet };

    fn as_slice(&self) -> &[u8]
        ensures bytes { result.now ≡ self.now }
        ensures least { 1 ≤ length self.now }
        ensures most { length self.now ≤ 16383 }
    {
        let _ = &self.bytes;
        self.bytes.as_slice()
    }
}
