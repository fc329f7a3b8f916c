//! A packet that has a number and is not acknowledged.

ghost use Rattle.std.specs.Prelude.{◌≡◌, None, Some};

use crate::PacketBytes;
use std::marker::Model;

/// A packet that a station has given a number and that is not acknowledged: its bytes, kept in a `B`, and the label of type `T` that the node
/// put beside it, if it did. A contract sees it as the record of the two.
///
/// For example a `HeldPacket<u32, Copied>` is a copy of the bytes with a number beside it, and a `HeldPacket<(), Copied>` a copy alone.
#[derive(Drop)]
pub struct HeldPacket<T: Copy, B: PacketBytes> {
    body: B,
    label: Option<T>,
}

impl<T: Copy, B: PacketBytes> Model for HeldPacket<T, B> {
    ghost use Rattle.dna_station.specs.WireStation.{HeldPacket};

    ghost Value = { HeldPacket T };

    ghost view = { λ h. record { body = B.bytes h.body; label = h.label } };
}

impl<T: Copy, B: PacketBytes> HeldPacket<T, B> {
    /// A packet of these bytes, with no label yet. Takes no memory.
    pub fn new(body: B) -> HeldPacket<T, B>
        ensures { result ≡ record { body = B.bytes body; label = None } }
    {
        HeldPacket { body, label: None }
    }

    /// Its bytes, in what they are kept in.
    pub fn body(&self) -> &B
        ensures { B.bytes result.now ≡ self.now.body }
    {
        &self.body
    }

    /// The label beside it, if there is one.
    pub fn label(&self) -> Option<T>
        ensures { result ≡ self.now.label }
    {
        self.label
    }

    /// This label is put beside it, in the place of one that it had. Takes no memory.
    pub fn put_label(&mut self, label: T)
        ensures { self.new ≡ record self.old { label = Some label } }
    {
        self.label = Some(label);
    }
}
