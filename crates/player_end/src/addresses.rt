//! Which links have which address.

ghost use Rattle.std.specs.Prelude.{◌≡◌, ◌≤◌, ◌<◌, ℕ, true, false, OnOk, OnErr, IfSome, IfNone};
ghost use Rattle.player_end.specs.inner.Addresses.{has};

use std::alloc::{AllocError, Global};
use std::collections::BTreeSet;

/// The addresses that live links have, each with the number of its link. Links with the same address are next to each other, the
/// first one first.
#[derive(Drop)]
pub struct Addresses {
    pairs: BTreeSet<(u16, usize)>,
}

impl Addresses {
    /// Of no links. Takes no memory.
    pub fn new(alloc: Global) -> Addresses {
        Addresses {
            pairs: BTreeSet::new(alloc),
        }
    }

    /// The first link from this number on that has this address.
    pub fn first_from(&self, address: u16, from: usize) -> Option<usize>
        ensures behind { IfSome result (λ number. from ≤ number) }
        ensures first { IfSome result (λ number. (other : ℕ) → from ≤ other → other < number → has self.now.pairs address other ≡ false) }
        ensures none { IfNone result ((other : ℕ) → from ≤ other → has self.now.pairs address other ≡ false) }
    {
        let Some(pair) = self.pairs.range((address, from)..).next() else {
            return None;
        };
        let (known, number) = *pair;
        if known != address {
            return None;
        }
        Some(number)
    }

    /// The link with this number has an address. Where memory is refused, nothing changes.
    pub fn insert(&mut self, address: u16, number: usize) -> Result<(), AllocError>
        ensures this { OnOk result (has self.new.pairs address number ≡ true) }
        ensures others { (q other : ℕ) → has self.old.pairs q other ≡ true → has self.new.pairs q other ≡ true }
    {
        match self.pairs.insert((address, number)) {
            Ok(_) => Ok(()),
            Err(_) => Err(AllocError),
        }
    }

    /// The link with this number has this address no more. What other links have stays.
    pub fn remove(&mut self, address: u16, number: usize)
        ensures { (q other : ℕ) → (other ≡ number → ⊥) → has self.old.pairs q other ≡ true → has self.new.pairs q other ≡ true }
    {
        self.pairs.remove(&(address, number));
    }
}
