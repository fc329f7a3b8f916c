//! Groups of which some are left out.

ghost use Rattle.std.specs.Prelude.{◌≡◌, List, IfOk};
ghost use Rattle.link_groups.specs.Groups.{AreGroupsOf, Binding};
ghost use Rattle.link_groups.specs.LeftOut.{AreWhole, IsLeftOut, Leaves};
ghost use Rattle.link_groups.specs.declared.own_address.OwnAddress.{OwnAddress as Address};

use crate::groups::Groups;
use crate::left_out::LeftOut;
use crate::own_address::OwnAddress;
use std::alloc::{AllocError, Global};
use std::marker::Model;

/// Groups of own addresses, of which some are left out, each as a whole. A contract sees it as the labels of all places, and their marks.
#[derive(Drop)]
pub struct LeftGroups {
    groups: Groups,
    left_out: LeftOut,
}

impl Model for LeftGroups {
    ghost use Rattle.std.specs.Prelude.{List};
    ghost use Rattle.link_groups.specs.Groups.{AreGroupsOf, Binding};
    ghost use Rattle.link_groups.specs.LeftOut.{AreWhole, LeftGroupsValue};

    ghost Value = { LeftGroupsValue };

    ghost view = { λ left. record { labels = left.groups; left_out = left.left_out } };

    ghost invariant = { λ left. (bindings : List Binding) → AreGroupsOf bindings left.groups → AreWhole bindings left.left_out };
}

impl LeftGroups {
    /// Of these groups none is left out. `AllocError` where there is no memory for a mark for each own address.
    pub fn new(alloc: Global, groups: Groups) -> Result<LeftGroups, AllocError>
        ensures labels { IfOk result (λ left. left.labels ≡ groups) }
        ensures none { IfOk result (λ left. (own : Address) → ¬ IsLeftOut left.left_out own) }
    {
        Ok(LeftGroups {
            groups,
            left_out: LeftOut::new(alloc)?,
        })
    }

    /// Leaves out the group of an own address too. Whether it was not left out yet. Takes no memory.
    pub fn leave(&mut self, of: OwnAddress) -> bool
        ensures { Leaves of self.old self.new result }
    {
        if self.left_out.has(of) {
            return false;
        }
        self.left_out.leave(&self.groups, of);
        true
    }

    /// What is left out: whole groups.
    pub fn left_out(&self) -> &LeftOut
        ensures marks { result.now ≡ self.now.left_out }
        ensures whole { (bindings : List Binding) → AreGroupsOf bindings self.now.labels → AreWhole bindings result.now }
    {
        &self.left_out
    }
}
