//! Which link each packet was sent on.

use crate::link::{NO_LINK, Tag};
use crate::log::{Log, SideLog};
use std::alloc::{AllocError, Global};
use wire_base::Side;

/// For each event of both sides the tag that it was sent with.
#[derive(Drop)]
pub(crate) struct Tags {
    a: Vec<Tag>,
    b: Vec<Tag>,
}

impl Tags {
    /// None was sent on a link. `AllocError` where there is no memory for it.
    pub(crate) fn of(alloc: Global, log: &Log) -> Result<Tags, AllocError> {
        Ok(Tags {
            a: vec![in alloc; NO_LINK; log.a.events.len()]?,
            b: vec![in alloc; NO_LINK; log.b.events.len()]?,
        })
    }

    /// The tag of the packet in this unit, of which side that is the log.
    pub(crate) fn of_unit(&self, side: Side, log: &SideLog, unit: u64) -> Tag {
        let tags = match side {
            Side::A => &self.a,
            Side::B => &self.b,
        };
        match log.first_sending(unit) {
            Some(at) => match tags.get(at as usize) {
                Some(tag) => *tag,
                None => NO_LINK,
            },
            None => NO_LINK,
        }
    }

    /// This event was sent with this tag.
    pub(crate) fn tell(&mut self, side: Side, at: u64, tag: Tag) {
        if let Some(told) = self.of_side(side).get_mut(at as usize) {
            *told = tag;
        }
    }

    fn of_side(&mut self, side: Side) -> &mut Vec<Tag> {
        match side {
            Side::A => &mut self.a,
            Side::B => &mut self.b,
        }
    }
}
