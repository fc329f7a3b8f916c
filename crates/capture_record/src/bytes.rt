//! The bytes of a unit or of a message, in memory of their own.

ghost use Rattle.std.specs.Prelude.{◌≡◌, ◌↔◌, [], length, IfOk, IsTrue};
ghost use Rattle.hex.specs.Hex.{IsBytes};

use std::alloc::{AllocError, Global};
use std::marker::Model;

/// Bytes that their record owns. A contract sees them as the list of the bytes.
#[derive(Drop)]
pub struct Bytes {
    owned: Vec<u8>,
}

impl Model for Bytes {
    ghost use Rattle.std.specs.Prelude.{List, ℕ};

    ghost Value = { List ℕ };

    ghost view = { λ b. b.owned.items };
}

impl Bytes {
    /// These bytes, in the memory that they have. Takes no memory.
    pub fn new(owned: Vec<u8>) -> Bytes
        ensures { result ≡ owned.items }
    {
        Bytes { owned }
    }

    /// A copy of these bytes, in memory of its own. `AllocError` where there is none.
    pub fn copied(alloc: Global, bytes: &[u8]) -> Result<Bytes, AllocError>
        ensures { IfOk result (λ copy. copy ≡ bytes.now) }
    {
        let owned = Vec::from_slice(alloc, bytes)?;
        Ok(Bytes { owned })
    }

    /// The bytes, in the memory that they have. Takes no memory.
    pub fn into_vec(self) -> Vec<u8>
        ensures { result.items ≡ self }
    {
        let Bytes { owned } = self;
        owned
    }

    /// The bytes, each of which is below 256. Takes no memory.
    pub fn as_slice(&self) -> &[u8]
        ensures value { result.now ≡ self.now }
        ensures bytes { IsBytes self.now }
    {
        let bytes = self.owned.as_slice();
        bytes
    }

    /// How many bytes there are. Takes no memory.
    pub fn len(&self) -> usize
        ensures { result ≡ length self.now }
    {
        self.owned.len()
    }

    /// Whether there are none. Takes no memory.
    pub fn is_empty(&self) -> bool
        ensures { IsTrue result ↔ (self.now ≡ []) }
    {
        self.owned.is_empty()
    }
}
