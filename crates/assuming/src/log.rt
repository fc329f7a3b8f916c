//! What both sides did with links, in an order in which it can have been.

use crate::event::Event;
use std::alloc::{AllocError, Global};
use std::collections::BTreeSet;
use wire_base::Side;

/// What a side did.
#[derive(Drop)]
pub(crate) struct SideLog {
    pub(crate) events: Vec<Event>,
    // for each unit the place of the event in which its packet was first sent since the start, if it is one
    pub(crate) sendings: Vec<Option<u64>>,
    // for each event its place in the order of both sides
    pub(crate) numbers: Vec<u64>,
    // the own addresses in its messages
    pub(crate) used: BTreeSet<u16>,
}

/// A place in the order of both sides: an event of this side.
#[derive(Clone, Copy, PartialEq, Eq)]
pub(crate) struct Place {
    pub(crate) side: Side,
    pub(crate) at: u64,
}

/// What both sides did.
#[derive(Drop)]
pub(crate) struct Log {
    pub(crate) a: SideLog,
    pub(crate) b: SideLog,
    pub(crate) order: Vec<Place>,
}

impl SideLog {
    pub(crate) fn new(alloc: Global) -> SideLog {
        SideLog {
            events: Vec::new(alloc),
            sendings: Vec::new(alloc),
            numbers: Vec::new(alloc),
            used: BTreeSet::new(alloc),
        }
    }

    /// The event at this place.
    pub(crate) fn event(&self, at: u64) -> Option<Event> {
        self.events.get(at as usize).copied()
    }

    // How many units were sent before this event.
    fn units_before(&self, at: u64) -> u64 {
        match self.event(at) {
            Some(event) => event.before,
            None => self.sendings.len() as u64,
        }
    }

    // Whether this event can have been once the other side had sent so many units.
    fn may_be(&self, at: u64, units: u64) -> bool {
        match self.event(at) {
            Some(event) => event.needs <= units,
            None => false,
        }
    }

    /// The event in which the packet of this unit was first sent since the start, if it is one.
    pub(crate) fn first_sending(&self, unit: u64) -> Option<u64> {
        match self.sendings.get(unit as usize) {
            Some(first) => *first,
            None => None,
        }
    }

    /// The place of this event in the order of both sides.
    pub(crate) fn number(&self, at: u64) -> u64 {
        match self.numbers.get(at as usize) {
            Some(number) => *number,
            None => 0,
        }
    }

    /// An address from which no message of the side is.
    pub(crate) fn free_address(&self) -> u16 {
        for behind in 0..65_535u16 {
            let own = u16::MAX - behind;
            if self.used.get(&own).is_none() {
                return own;
            }
        }
        0
    }
}

impl Log {
    /// What both did, in order. `AllocError` where there is no memory for it.
    pub(crate) fn of(alloc: Global, mut a: SideLog, mut b: SideLog) -> Result<Log, AllocError> {
        let mut order = Vec::new(alloc);
        let mut at_a: u64 = 0;
        let mut at_b: u64 = 0;
        for _ in 0..a.events.len().saturating_add(b.events.len()) {
            if a.may_be(at_a, b.units_before(at_b)) {
                a.numbers.push(order.len() as u64)?;
                order.push(Place {
                    side: Side::A,
                    at: at_a,
                })?;
                at_a = at_a.saturating_add(1);
            } else if b.may_be(at_b, a.units_before(at_a)) {
                b.numbers.push(order.len() as u64)?;
                order.push(Place {
                    side: Side::B,
                    at: at_b,
                })?;
                at_b = at_b.saturating_add(1);
            } else {
                break;
            }
        }
        Ok(Log { a, b, order })
    }

    /// What a side did.
    pub(crate) fn side(&self, side: Side) -> &SideLog {
        match side {
            Side::A => &self.a,
            Side::B => &self.b,
        }
    }

    /// What comes at this place of the order.
    pub(crate) fn at(&self, number: usize) -> Option<(Side, u64, Event)> {
        let place = self.order.get(number).copied()?;
        let event = self.side(place.side).event(place.at)?;
        Some((place.side, place.at, event))
    }
}
