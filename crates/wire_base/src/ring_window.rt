ghost use Rattle.std.specs.Prelude.{◌≡◌, ◌<◌, ◌≤◌, ◌↔◌, length, IfErr, OnOk};

use crate::{PushFault, Seq, Window};
use circular_buffer::HeapCircularBuffer;
use std::alloc::{AllocError, Global};

/// A window over a ring, whose memory is taken when it is made. Its first number is a wire value, and its `push` takes no
/// memory.
#[derive(Drop)]
pub struct RingWindow<T, const M: u16> {
    first: Seq<M>,
    items: HeapCircularBuffer<T>,
    ghost within: { length items.items ≤ items.capacity },
    ghost wire: { first < M },
}

impl<T: Drop, const M: u16> Window<T, M> for RingWindow<T, M> {
    ghost use Rattle.wire_base.specs.Window.{empty_from, pushed};
    ghost use Rattle.wire_base.specs.RingWindow.{ring_view};

    ghost window = { ring_view };

    fn make(alloc: Global, capacity: u16, first: u16) -> Result<Self, AllocError> {
        Ok(RingWindow {
            first: Seq::of(u64::from(first)),
            items: HeapCircularBuffer::with_capacity(alloc, usize::from(capacity))?,
        })
    }

    fn first(&self) -> Seq<M> {
        self.first
    }

    fn len(&self) -> usize {
        self.items.len()
    }

    fn capacity(&self) -> usize {
        self.items.capacity()
    }

    fn item(&self, index: usize) -> Option<&T> {
        self.items.get(index)
    }

    fn amend<F: FnOnce(&mut T)>(&mut self, index: usize, change: F) {
        let Some(item) = self.items.get_mut(index) else {
            unreachable!();
        };
        change(item);
    }

    fn restart(&mut self, first: Seq<M>)
        ensures { ring_view self.new ≡ empty_from (ring_view self.old).capacity first.entry }
    {
        self.first = first;
        self.items.clear();
    }

    /// Appends an item, without taking memory. It is refused, as `Full`, only where the window holds as many items as it
    /// may; it then comes back, and nothing changes.
    fn push(&mut self, item: T) -> Result<(), (T, PushFault)>
        ensures ok { OnOk result (ring_view self.new ≡ pushed (ring_view self.old) item) }
        ensures err { IfErr result (λ refused. (refused.0 ≡ item) × (ring_view self.new ≡ ring_view self.old)) }
        ensures full { (result ≡ Err (item, PushFault.Full))
            ↔ (length (ring_view self.old).items ≡ (ring_view self.old).capacity) }
        ensures full_alone { IfErr result (λ refused. refused.1 ≡ PushFault.Full) }
    {
        match self.items.try_push_back(item) {
            Ok(()) => Ok(()),
            Err(item) => Err((item, PushFault::Full)),
        }
    }

    fn release(&mut self, count: usize) {
        let left = self.items.len() - count;
        self.items.truncate_front(left);
        self.first = Seq::of(u64::from(self.first.value()) + count as u64);
    }

    ghost bounded = { λ w. w.within };

    ghost wrapped = { λ w. w.wire };
}
