//! The links of both nodes, with all that is needed to take back what changed.

use crate::link::{Called, Link};
use std::alloc::{AllocError, Global};
use std::collections::BTreeMap;
use wire_base::Side;

// What was at an address before a change.
#[derive(Clone, Copy)]
enum Before {
    Link(Option<Link>),
    Called(Option<Called>),
    Reached(Option<u16>),
    Answered(Option<u16>),
}

#[derive(Clone, Copy)]
struct Change {
    side: Side,
    address: u16,
    before: Before,
}

// The links of a node: by their own addresses; by the far address, where they are called and not answered yet; and the own address by the far one, of
// those that live and know both, and of the last one that was called from there.
#[derive(Drop)]
struct Table {
    links: BTreeMap<u16, Link>,
    called: BTreeMap<u16, Called>,
    reached: BTreeMap<u16, u16>,
    answered: BTreeMap<u16, u16>,
}

impl Table {
    fn new(alloc: Global) -> Table {
        Table {
            links: BTreeMap::new(alloc),
            called: BTreeMap::new(alloc),
            reached: BTreeMap::new(alloc),
            answered: BTreeMap::new(alloc),
        }
    }

    // Sets what is at an address, and answers what was there.
    fn set(&mut self, address: u16, value: Before) -> Result<Before, AllocError> {
        Ok(match value {
            Before::Link(link) => Before::Link(set(&mut self.links, address, link)?),
            Before::Called(called) => Before::Called(set(&mut self.called, address, called)?),
            Before::Reached(own) => Before::Reached(set(&mut self.reached, address, own)?),
            Before::Answered(own) => Before::Answered(set(&mut self.answered, address, own)?),
        })
    }
}

fn set<T: Copy>(
    map: &mut BTreeMap<u16, T>,
    address: u16,
    value: Option<T>,
) -> Result<Option<T>, AllocError> {
    match value {
        Some(value) => match map.insert(address, value) {
            Ok(before) => Ok(before),
            Err(_) => Err(AllocError),
        },
        None => Ok(map.remove(&address)),
    }
}

/// The links of both nodes, and what changed.
#[derive(Drop)]
pub(crate) struct Book {
    a: Table,
    b: Table,
    changes: Vec<Change>,
}

impl Book {
    /// No link.
    pub(crate) fn new(alloc: Global) -> Book {
        Book {
            a: Table::new(alloc),
            b: Table::new(alloc),
            changes: Vec::new(alloc),
        }
    }

    fn table(&self, side: Side) -> &Table {
        match side {
            Side::A => &self.a,
            Side::B => &self.b,
        }
    }

    fn table_mut(&mut self, side: Side) -> &mut Table {
        match side {
            Side::A => &mut self.a,
            Side::B => &mut self.b,
        }
    }

    /// The link with this own address.
    pub(crate) fn link(&self, side: Side, own: u16) -> Option<Link> {
        self.table(side).links.get(&own).copied()
    }

    /// The link that was called from this far address, and is not answered.
    pub(crate) fn called(&self, side: Side, far: u16) -> Option<Called> {
        self.table(side).called.get(&far).copied()
    }

    /// The own address of the live link with this far one.
    pub(crate) fn reached(&self, side: Side, far: u16) -> Option<u16> {
        self.table(side).reached.get(&far).copied()
    }

    /// The own address of the last link that was called from this far one, and answered.
    pub(crate) fn answered(&self, side: Side, far: u16) -> Option<u16> {
        self.table(side).answered.get(&far).copied()
    }

    fn change(&mut self, side: Side, address: u16, value: Before) -> Result<(), AllocError> {
        let before = self.table_mut(side).set(address, value)?;
        self.changes.push(Change {
            side,
            address,
            before,
        })?;
        Ok(())
    }

    /// Another link, or none, has this own address. `AllocError` where there is no memory for it, as for all changes.
    pub(crate) fn put(
        &mut self,
        side: Side,
        own: u16,
        link: Option<Link>,
    ) -> Result<(), AllocError> {
        self.change(side, own, Before::Link(link))
    }

    /// Another link, or none, is called from this far address.
    pub(crate) fn call(
        &mut self,
        side: Side,
        far: u16,
        called: Option<Called>,
    ) -> Result<(), AllocError> {
        self.change(side, far, Before::Called(called))
    }

    /// Another link, or none, lives with this far address.
    pub(crate) fn reach(
        &mut self,
        side: Side,
        far: u16,
        own: Option<u16>,
    ) -> Result<(), AllocError> {
        self.change(side, far, Before::Reached(own))
    }

    /// This link answered a call from this far address.
    pub(crate) fn answer(&mut self, side: Side, far: u16, own: u16) -> Result<(), AllocError> {
        self.change(side, far, Before::Answered(Some(own)))
    }

    /// All links of this node are over.
    pub(crate) fn boot(&mut self, side: Side) -> Result<(), AllocError> {
        for _ in 0..65_536u32 {
            let Some(own) = first_key(&self.table(side).links) else {
                break;
            };
            self.change(side, own, Before::Link(None))?;
        }
        for _ in 0..65_536u32 {
            let Some(far) = first_key(&self.table(side).called) else {
                break;
            };
            self.change(side, far, Before::Called(None))?;
        }
        for _ in 0..65_536u32 {
            let Some(far) = first_key(&self.table(side).reached) else {
                break;
            };
            self.change(side, far, Before::Reached(None))?;
        }
        Ok(())
    }

    /// How much changed so far.
    pub(crate) fn changes(&self) -> usize {
        self.changes.len()
    }

    /// Takes back what changed since so much had changed.
    pub(crate) fn take_back(&mut self, changes: usize) -> Result<(), AllocError> {
        for _ in changes..self.changes.len() {
            if let Some(change) = self.changes.pop() {
                let _ = self
                    .table_mut(change.side)
                    .set(change.address, change.before)?;
            }
        }
        Ok(())
    }
}

fn first_key<T>(map: &BTreeMap<u16, T>) -> Option<u16> {
    match map.first_key_value() {
        Some((key, _)) => Some(*key),
        None => None,
    }
}
