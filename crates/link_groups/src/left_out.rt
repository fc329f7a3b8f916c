//! Own addresses that are left out, a mark for each.

ghost use Rattle.std.specs.Prelude.{◌≡◌, ℕ, length, Some, true, slice_get, IfOk, IsTrue, ◌↔◌};
ghost use Rattle.link_groups.specs.LeftOut.{IsLeftOut, IsLeftToo};
ghost use Rattle.link_groups.specs.inner.Labels.{AreMarked};
ghost use Rattle.link_groups.specs.declared.own_address.OwnAddress.{OwnAddress as Address};

use crate::groups::Groups;
use crate::own_address::{OWN_ADDRESSES, OwnAddress};
use std::alloc::{AllocError, Global};
use std::marker::Model;

/// A set of own addresses that are left out. A contract sees it as the marks of all places. It takes 128 KB.
#[derive(Drop)]
pub struct LeftOut {
    marks: Vec<bool>,
}

impl Model for LeftOut {
    ghost use Rattle.std.specs.Prelude.{◌≡◌, Bool, List, length};
    ghost use Rattle.link_groups.specs.declared.own_address.TheConstants.{OWN_ADDRESSES};

    ghost Value = { List Bool };

    ghost view = { λ left_out. left_out.marks.items };

    ghost invariant = { λ left_out. length left_out.marks.items ≡ OWN_ADDRESSES };
}

impl LeftOut {
    /// Nothing is left out. `AllocError` where there is no memory for a mark for each own address.
    pub fn new(alloc: Global) -> Result<LeftOut, AllocError>
        ensures { IfOk result (λ left_out. (own : Address) → ¬ IsLeftOut left_out own) }
    {
        Ok(LeftOut {
            marks: no_marks(alloc, OWN_ADDRESSES)?,
        })
    }

    /// Leaves out an own address and all that are together with it, beside those that are left out already. Takes no memory, and looks at
    /// the label of each place once.
    pub fn leave(&mut self, groups: &Groups, of: OwnAddress)
        ensures { IsLeftToo of groups.now self.old self.new }
    {
        let labels = groups.labels();
        mark(&mut self.marks, labels, labels[of.place()]);
    }

    /// Whether an own address is left out.
    pub fn has(&self, address: OwnAddress) -> bool
        ensures { IsTrue result ↔ IsLeftOut self.now address }
    {
        self.marks[address.place()]
    }
}

// So many places without a mark.
fn no_marks(alloc: Global, count: usize) -> Result<Vec<bool>, AllocError>
    ensures count { IfOk result (λ marks. length marks.items ≡ count) }
    ensures none { IfOk result (λ marks. (place : ℕ) → slice_get marks.items place ≡ Some true → ⊥) }
{
    vec![in alloc; false; count]
}

// Marks each place that has this label.
fn mark(marks: &mut Vec<bool>, labels: &[u32], label: u32)
    requires marks { length marks.old.items ≡ OWN_ADDRESSES }
    requires labels { length labels.now ≡ OWN_ADDRESSES }
    ensures { AreMarked labels.now label marks.old.items marks.new.items }
{
    for place in 0..OWN_ADDRESSES {
        if labels[place] == label {
            marks[place] = true;
        }
    }
}
