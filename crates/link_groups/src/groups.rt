//! Groups of own addresses. Each place has a label, the same one as all of its group, and the places of a group stand in a ring, so that a
//! binding of two groups looks at the smaller one alone.

ghost use Rattle.std.specs.Prelude.{◌≡◌, ℕ, [], ◌∷◌, ◌++◌, List, length, slice_index, IfOk, IsTrue, ◌<◌, ◌≢◌, ◌↔◌};
ghost use Rattle.link_groups.specs.Groups.{AreGroupsOf, AreTogether, Binding};
ghost use Rattle.link_groups.specs.inner.Labels.{AreNumbered, AreRelabelled};
ghost use Rattle.link_groups.specs.inner.Rings.{AreRings};

use crate::own_address::{OWN_ADDRESSES, OwnAddress};
use std::alloc::{AllocError, Global};
use std::marker::Model;

/// Which own addresses of both ends are bound to each other, one after another. A contract sees it as the labels of all places. It takes 1.5
/// MB, whatever is bound.
#[derive(Drop)]
pub struct Groups {
    // the label of each place: a place that it is together with
    labels: Vec<u32>,
    // the place after it in the ring of those that it is together with
    next: Vec<u32>,
    // how many have each label: the fewer get another. It decides no answer
    sizes: Vec<u32>,
}

impl Model for Groups {
    ghost use Rattle.std.specs.Prelude.{◌≡◌, ℕ, List, length};
    ghost use Rattle.link_groups.specs.declared.own_address.TheConstants.{OWN_ADDRESSES};
    ghost use Rattle.link_groups.specs.inner.Rings.{AreRings};

    ghost Value = { List ℕ };

    ghost view = { λ groups. groups.labels.items };

    ghost invariant = { λ groups. AreRings groups.labels.items groups.next.items × (length groups.sizes.items ≡ OWN_ADDRESSES) };
}

impl Groups {
    /// Nothing is bound: each own address is a group of its own. `AllocError` where there is no memory for it.
    pub fn new(alloc: Global) -> Result<Groups, AllocError>
        ensures { IfOk result (λ groups. AreGroupsOf [] groups) }
    {
        Ok(Groups {
            labels: numbered(alloc)?,
            next: numbered(alloc)?,
            sizes: ones(alloc, OWN_ADDRESSES)?,
        })
    }

    /// One more binding: both groups are one from now on. Takes no memory, and time for the smaller group alone.
    pub fn bind(&mut self, one: OwnAddress, other: OwnAddress)
        ensures { (bindings : List Binding) → AreGroupsOf bindings self.old → AreGroupsOf (bindings ++ (one, other) ∷ []) self.new }
    {
        let first = one.place();
        let second = other.place();
        let of_first = self.labels[first];
        let of_second = self.labels[second];
        if of_first == of_second {
            return;
        }
        if self.sizes[of_first as usize] < self.sizes[of_second as usize] {
            self.join(second, first);
        } else {
            self.join(first, second);
        }
    }

    // All that are together with the place `gone` get the label of the place `kept`, and their rings become one.
    fn join(&mut self, kept: usize, gone: usize)
        requires kept_in { kept < OWN_ADDRESSES }
        requires gone_in { gone < OWN_ADDRESSES }
        requires apart { slice_index self.old kept ≢ slice_index self.old gone }
        ensures { AreRelabelled (slice_index self.old gone) (slice_index self.old kept) self.old self.new }
    {
        let of_kept = self.labels[kept];
        let of_gone = self.labels[gone];
        relabel(&mut self.labels, &self.next, gone, of_kept);
        self.next.swap(kept, gone);
        let more = self.sizes[of_gone as usize];
        let size = self.sizes[of_kept as usize];
        self.sizes[of_kept as usize] = size.saturating_add(more);
    }

    /// Whether two own addresses are of one group.
    pub fn are_together(&self, one: OwnAddress, other: OwnAddress) -> bool
        ensures { (bindings : List Binding) → AreGroupsOf bindings self.now → (IsTrue result ↔ AreTogether bindings one other) }
    {
        self.labels[one.place()] == self.labels[other.place()]
    }

    /// The label of each place: the same one for those that are together.
    pub(crate) fn labels(&self) -> &[u32]
        ensures labels { result.now ≡ self.now }
        ensures count { length result.now ≡ OWN_ADDRESSES }
    {
        self.labels.as_slice()
    }
}

// The numbers from 0 on, one for each own address.
fn numbered(alloc: Global) -> Result<Vec<u32>, AllocError>
    ensures { IfOk result (λ labels. AreNumbered labels.items) }
{
    let mut labels = Vec::with_capacity(alloc, OWN_ADDRESSES)?;
    for place in 0..OWN_ADDRESSES as u32 {
        labels.push(place)?;
    }
    Ok(labels)
}

// So many ones.
fn ones(alloc: Global, count: usize) -> Result<Vec<u32>, AllocError>
    ensures { IfOk result (λ sizes. length sizes.items ≡ count) }
{
    vec![in alloc; 1; count]
}

// Gives all in the ring of the place `start` this label. The walk ends where it comes to one that has it: at `start`.
fn relabel(labels: &mut Vec<u32>, next: &Vec<u32>, start: usize, kept: u32)
    requires rings { AreRings labels.old.items next.now.items }
    requires within { start < OWN_ADDRESSES }
    requires other { slice_index labels.old.items start ≢ kept }
    ensures { AreRelabelled (slice_index labels.old.items start) kept labels.old.items labels.new.items }
{
    let mut place = start;
    while labels[place] != kept {
        labels[place] = kept;
        place = next[place] as usize;
    }
}
