ghost use Rattle.std.specs.Prelude.{◌≡◌, ◌%◌, ◌^◌, ◌<◌, ◌≤◌, ◌↔◌, length, slice_get, option_copied, Some, IfOk, IfErr, OnOk};
ghost use Rattle.std.specs.Fn.{FnOnceReturnsAtMut};
ghost use Rattle.wire_base.specs.Window.{WindowView, empty_from, pushed, released, replaced};

use crate::Seq;
use std::alloc::{AllocError, Global};

/// Why a window took no further item.
#[derive(Clone, Copy, PartialEq, Eq)]
pub enum PushFault {
    /// It holds as many items as it may.
    Full,
    /// There was room in the window, and an allocation for it was refused.
    OutOfMemory,
}

/// Items that are given and not yet acknowledged, in the order of their numbers, which are wire values modulo `M`.
///
/// A contract sees a window as its first number, its items and its capacity. Only `make` and `push` may take memory.
pub trait Window<T, const M: u16> {
    // The first number, the items and the capacity.
    ghost window: { Self → WindowView T };

    /// An empty window that may hold `capacity` items and whose first item will have the number `first`.
    fn make(alloc: Global, capacity: u16, first: u16) -> Result<Self, AllocError>
    where
        Self: Sized,
        requires wraps { 2 ^ 64 % M ≡ 0 }
        requires first { first < M }
        ensures { IfOk result (λ made. window made ≡ empty_from capacity first) };

    /// The number of the first item, or of the next one to come where there is none.
    fn first(&self) -> Seq<M>
        ensures { result ≡ (window self.now).first };

    /// How many items there are.
    fn len(&self) -> usize
        ensures len { result ≡ length (window self.now).items }
        ensures within { result ≤ (window self.now).capacity };

    /// How many items there may be.
    fn capacity(&self) -> usize
        ensures { result ≡ (window self.now).capacity };

    /// The item at an index, counted from the first.
    fn item(&self, index: usize) -> Option<&T>
        ensures { option_copied result ≡ slice_get (window self.now).items index };

    /// Changes the item at an index where it lies, by one call of `change`; there is one. Takes no memory of its own.
    fn amend<F: FnOnce(&mut T)>(&mut self, index: usize, change: F)
        requires within { index < length (window self.old).items }
        requires callable { F.IsAlwaysCallable change }
        ensures { (item : T) × (amended : T) × (slice_get (window self.old).items index ≡ Some item)
            × FnOnceReturnsAtMut F.FnOnce change item tt amended × (window self.new ≡ replaced (window self.old) index amended) };

    /// Empties the window and sets its first number.
    fn restart(&mut self, first: Seq<M>)
        ensures { window self.new ≡ empty_from (window self.old).capacity first.entry };

    /// Appends an item. A refused one comes back, and nothing changes: `Full` where the window holds as many items as it
    /// may, and only there; `OutOfMemory` where an allocation was refused.
    fn push(&mut self, item: T) -> Result<(), (T, PushFault)>
        ensures ok { OnOk result (window self.new ≡ pushed (window self.old) item) }
        ensures err { IfErr result (λ refused. (refused.0 ≡ item) × (window self.new ≡ window self.old)) }
        ensures full { (result ≡ Err (item, PushFault.Full))
            ↔ (length (window self.old).items ≡ (window self.old).capacity) };

    /// Takes the first `count` items away, which moves the first number up by as many.
    fn release(&mut self, count: usize)
        requires { count ≤ length (window self.old).items }
        ensures { window self.new ≡ released M (window self.old) count };

    // A window holds no more items than it may, and its first number is a wire value.
    ghost bounded: { (w : Self) → length (window w).items ≤ (window w).capacity };

    ghost wrapped: { (w : Self) → (window w).first < M };
}
