//! Room for one unit.

ghost use Rattle.std.specs.Prelude.{◌≡◌, ◌≤◌, ◌<◌, ◌+◌, [], ◌∷◌, ◌++◌, length, drop, IfOk};
ghost use Rattle.framer.specs.declared.limit.TheConstants.{MAX_FRAME};

use crate::limit::MAX_FRAME;
use std::alloc::{AllocError, Global};
use std::marker::Model;

/// Room for the bytes of one unit, which takes its memory when it is made. A contract sees the bytes that it holds, and those that were completed
/// last.
#[derive(Drop)]
pub(crate) struct Room {
    bytes: Vec<u8>,
    len: usize,
    completed: usize,
}

impl Model for Room {
    ghost use Rattle.framer.specs.Given.{FramerState};
    ghost use Rattle.framer.specs.inner.Held.{held_in, IsRoom};

    ghost Value = { FramerState };

    ghost view = { held_in };

    ghost invariant = { IsRoom };
}

impl Room {
    /// Room that holds nothing.
    pub(crate) fn new(alloc: Global) -> Result<Room, AllocError>
        ensures { IfOk result (λ room. (room.held ≡ []) × (room.completed ≡ [])) }
    {
        let bytes = vec![in alloc; 0u8; MAX_FRAME]?;
        Ok(Room {
            bytes,
            len: 0,
            completed: 0,
        })
    }

    /// How many bytes it holds.
    #[inline(always)]
    pub(crate) fn len(&self) -> usize
        ensures value { result ≡ length self.now.held }
        ensures most { result ≤ MAX_FRAME }
    {
        self.len
    }

    /// The bytes that it holds.
    #[inline(always)]
    pub(crate) fn held(&self) -> &[u8]
        ensures { result.now ≡ self.now.held }
    {
        &self.bytes[..self.len]
    }

    /// The bytes that were completed last, until others are held.
    #[inline(always)]
    pub(crate) fn completed(&self) -> &[u8]
        ensures { result.now ≡ self.now.completed }
    {
        &self.bytes[..self.completed]
    }

    /// Holds these bytes too.
    #[inline(always)]
    pub(crate) fn hold(&mut self, bytes: &[u8])
        requires { length self.old.held + length bytes.now ≤ MAX_FRAME }
        ensures { self.new.held ≡ self.old.held ++ bytes.now }
    {
        let end = self.len + bytes.len();
        self.bytes[self.len..end].copy_from_slice(bytes);
        self.len = end;
    }

    /// Holds one byte more.
    #[inline(always)]
    pub(crate) fn hold_byte(&mut self, byte: u8)
        requires { length self.old.held < MAX_FRAME }
        ensures { self.new.held ≡ self.old.held ++ byte ∷ [] }
    {
        self.bytes[self.len] = byte;
        self.len += 1;
    }

    /// Holds the first bytes no more.
    #[inline(always)]
    pub(crate) fn drop_front(&mut self, count: usize)
        requires { count ≤ length self.old.held }
        ensures { self.new.held ≡ drop count self.old.held }
    {
        self.bytes.copy_within(count..self.len, 0);
        self.len -= count;
    }

    /// Holds nothing any more: what it held is completed.
    #[inline(always)]
    pub(crate) fn complete(&mut self)
        ensures held { self.new.held ≡ [] }
        ensures completed { self.new.completed ≡ self.old.held }
    {
        self.completed = self.len;
        self.len = 0;
    }
}
