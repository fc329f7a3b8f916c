//! What the bytes of a packet are kept in.

ghost use Rattle.std.specs.Prelude.{◌≡◌, ℕ, List};

use wire_base::Copied;

/// What the bytes of a packet are kept in while it is not acknowledged: a [`Copied`], where the node has them only lent; or a type that has a
/// bound on them, where the node needs that bound to send them again. A contract sees the list of the bytes.
pub trait PacketBytes: Drop {
    // The bytes.
    ghost bytes: { Self → List ℕ };

    /// The bytes, where they lie.
    fn as_slice(&self) -> &[u8]
        ensures { result.now ≡ bytes self.now };
}

impl PacketBytes for Copied {
    ghost bytes = { λ copy. copy };

    #[inline(always)]
    fn as_slice(&self) -> &[u8] {
        self.as_slice()
    }
}
