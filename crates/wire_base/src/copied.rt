//! A copy of bytes.

ghost use Rattle.std.specs.Prelude.{◌≡◌, [], IfOk};

use std::alloc::{AllocError, Global};
use std::marker::Model;

// As many bytes lie in the copy itself, with their count in the room that a `Vec` has.
const FEW: usize = 23;

/// A copy of bytes. Up to 23 of them lie in the copy itself, and more in memory of their own. A contract sees it as the list of the
/// bytes.
#[derive(Drop)]
pub struct Copied {
    room: Room,
}

// Where the bytes lie.
#[derive(Drop)]
enum Room {
    Few { len: u8, bytes: [u8; FEW] },
    Many(Vec<u8>),
}

impl Model for Copied {
    ghost use Rattle.std.specs.Prelude.{List, ℕ};
    ghost use Rattle.wire_base.specs.inner.Copied.{bytes_in, IsWithin};

    ghost Value = { List ℕ };

    ghost view = { λ c. bytes_in c.room };

    ghost invariant = { λ c. IsWithin c.room };
}

impl Copied {
    /// No bytes. Takes no memory.
    #[inline(always)]
    pub fn none() -> Copied
        ensures { result ≡ [] }
    {
        Copied {
            room: Room::Few {
                len: 0,
                bytes: [0; FEW],
            },
        }
    }

    /// A copy of these bytes. It takes memory for more than 23 of them. `AllocError` where that was refused.
    #[inline(always)]
    pub fn of(alloc: Global, bytes: &[u8]) -> Result<Copied, AllocError>
        ensures { IfOk result (λ copy. copy ≡ bytes.now) }
    {
        if bytes.len() > FEW {
            let many = Vec::from_slice(alloc, bytes)?;
            return Ok(Copied {
                room: Room::Many(many),
            });
        }
        let mut few = [0u8; FEW];
        few[..bytes.len()].copy_from_slice(bytes);
        Ok(Copied {
            room: Room::Few {
                len: bytes.len() as u8,
                bytes: few,
            },
        })
    }

    /// The bytes.
    #[inline(always)]
    pub fn as_slice(&self) -> &[u8]
        ensures { result.now ≡ self.now }
    {
        match &self.room {
            Room::Few { len, bytes } => &bytes[..usize::from(*len)],
            Room::Many(bytes) => bytes.as_slice(),
        }
    }
}
