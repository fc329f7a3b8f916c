ghost use Rattle.std.specs.Prelude.{◌≡◌, ◌%◌, ◌^◌, ◌≤◌, length};

use crate::{PushFault, Seq, Window};
use std::alloc::{AllocError, AllocFailed, Global};

/// A window over a list, whose first number is a count that wraps at 2^64.
#[derive(Drop)]
pub struct PlainWindow<T, const M: u16> {
    first: u64,
    items: Vec<T>,
    capacity: u16,
    ghost within: { length items.items ≤ capacity },
    ghost wraps: { 2 ^ 64 % M ≡ 0 },
}

impl<T: Drop, const M: u16> Window<T, M> for PlainWindow<T, M> {
    ghost use Rattle.wire_base.specs.Window.{empty_from};
    ghost use Rattle.wire_base.specs.PlainWindow.{plain_view};
    ghost use Rattle.wire_base.specs.inner.Wrapped.{wire_value_lt};

    ghost window = { plain_view };

    fn make(alloc: Global, capacity: u16, first: u16) -> Result<Self, AllocError> {
        Ok(PlainWindow {
            first: u64::from(first),
            items: Vec::new(alloc),
            capacity,
        })
    }

    fn first(&self) -> Seq<M> {
        Seq::of(self.first)
    }

    fn len(&self) -> usize {
        self.items.len()
    }

    fn capacity(&self) -> usize {
        usize::from(self.capacity)
    }

    fn item(&self, index: usize) -> Option<&T> {
        self.items.get(index)
    }

    fn amend<F: FnOnce(&mut T)>(&mut self, index: usize, change: F) {
        change(&mut self.items[index]);
    }

    fn restart(&mut self, first: Seq<M>)
        ensures { plain_view self.new ≡ empty_from (plain_view self.old).capacity first.entry }
    {
        self.first = u64::from(first.value());
        self.items.clear();
    }

    fn push(&mut self, item: T) -> Result<(), (T, PushFault)> {
        if self.items.len() >= usize::from(self.capacity) {
            return Err((item, PushFault::Full));
        }
        match self.items.push(item) {
            Ok(()) => Ok(()),
            Err(AllocFailed { value }) => Err((value, PushFault::OutOfMemory)),
        }
    }

    fn release(&mut self, count: usize) {
        self.first = self.first.wrapping_add(count as u64);
        self.items.drain(..count);
    }

    ghost bounded = { λ w. w.within };

    ghost wrapped = { λ w. wire_value_lt M w.first w.wraps };
}
