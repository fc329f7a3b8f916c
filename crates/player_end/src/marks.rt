//! Which links may have something to send.

ghost use Rattle.std.specs.Prelude.{◌≡◌, ◌<◌, ◌++◌, ◌∷◌, [], ℕ, Some, length, slice_get, slice_set, OnOk, OnErr, IfSome, IfNone};
ghost use Rattle.std.specs.Vec.{vec_len, vec_capacity};
ghost use Rattle.player_end.specs.inner.Marks.{IsUnmarkedBelow};

use memchr::memchr;
use std::alloc::{AllocError, Global};

// A link that may have something to send.
const MARKED: u8 = 1;

/// A mark for each link, by its number: 1 where it may have something to send. After a change a link is marked; a mark goes where a
/// look at its link finds nothing to send.
#[derive(Drop)]
pub struct Marks {
    marks: Vec<u8>,
    // none has a lower number
    lowest: usize,
    ghost below: { IsUnmarkedBelow lowest marks.items },
}

impl Marks {
    /// Of no links. Takes no memory.
    pub fn new(alloc: Global) -> Marks
        ensures { result.marks.items ≡ [] }
    {
        Marks {
            marks: Vec::new(alloc),
            lowest: 0,
        }
    }

    /// There is room for the mark of one more link. Nothing else changes.
    pub fn reserve(&mut self) -> Result<(), AllocError>
        ensures ok { OnOk result (vec_len self.new.marks < vec_capacity self.new.marks) }
        ensures same { self.new.marks.items ≡ self.old.marks.items }
    {
        self.marks.reserve(1)
    }

    /// One more link begins, and is marked; there is room.
    pub fn begin(&mut self)
        requires { vec_len self.old.marks < vec_capacity self.old.marks }
        ensures { self.new.marks.items ≡ self.old.marks.items ++ 1 ∷ [] }
    {
        self.lowest = self.lowest.min(self.marks.len());
        self.marks.push_reserved(MARKED);
    }

    /// The link with this number may have something to send.
    pub fn mark(&mut self, number: usize)
        requires { number < length self.old.marks.items }
        ensures { self.new.marks.items ≡ slice_set self.old.marks.items number 1 }
    {
        self.lowest = self.lowest.min(number);
        self.marks[number] = MARKED;
    }

    /// The first link has nothing to send.
    pub fn unmark(&mut self, number: usize)
        requires { number < length self.old.marks.items }
        ensures { self.new.marks.items ≡ slice_set self.old.marks.items number 0 }
    {
        self.marks[number] = 0;
    }

    /// The first link that may have something to send. No mark changes.
    pub fn first(&mut self) -> Option<usize>
        ensures same { self.new.marks.items ≡ self.old.marks.items }
        ensures within { IfSome result (λ number. number < length self.old.marks.items) }
        ensures marked { IfSome result (λ number. slice_get self.old.marks.items number ≡ Some 1) }
        ensures first { IfSome result (λ number. IsUnmarkedBelow number self.old.marks.items) }
        ensures none { IfNone result (IsUnmarkedBelow (length self.old.marks.items) self.old.marks.items) }
    {
        let lowest = self.lowest;
        if lowest > self.marks.len() {
            return None;
        }
        let Some(ahead) = memchr(MARKED, &self.marks[lowest..]) else {
            self.lowest = self.marks.len();
            return None;
        };
        self.lowest = lowest + ahead;
        Some(lowest + ahead)
    }
}
