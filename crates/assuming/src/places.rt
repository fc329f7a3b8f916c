//! What something was assumed of so far.

ghost use Rattle.std.specs.Prelude.{◌≡◌, ◌||◌, ℕ, false, OnOk, OnErr};
ghost use Rattle.assuming.specs.inner.Places.{has, is_this};

use std::alloc::{AllocError, Global};
use std::collections::BTreeSet;
use std::marker::Model;

/// Places, each by three numbers.
#[derive(Drop)]
pub(crate) struct Places {
    set: BTreeSet<(u8, u8, u64)>,
}

impl Model for Places {
    ghost use Rattle.std.specs.Prelude.{ℕ, List};

    ghost Value = { List (ℕ × ℕ × ℕ) };

    ghost view = { λ s. s.set.keys };
}

impl Places {
    /// None.
    pub(crate) fn none(alloc: Global) -> Places
        ensures { (first second third : ℕ) → has result first second third ≡ false }
    {
        Places {
            set: BTreeSet::new(alloc),
        }
    }

    /// Whether this is among them.
    pub(crate) fn has(&self, first: u8, second: u8, third: u64) -> bool
        ensures { result ≡ has self.now first second third }
    {
        self.set.contains(&(first, second, third))
    }

    /// One more. Where memory is refused, nothing changes.
    pub(crate) fn add(&mut self, first: u8, second: u8, third: u64) -> Result<(), AllocError>
        ensures ok { (a b c : ℕ) → OnOk result (has self.new a b c ≡ (is_this (first, second, third) a b c || has self.old a b c)) }
        ensures err { (a b c : ℕ) → OnErr result (has self.new a b c ≡ has self.old a b c) }
    {
        self.set.insert((first, second, third))?;
        Ok(())
    }
}
