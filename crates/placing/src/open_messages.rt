//! The users' messages that are under way: which units of a side begin one whose last segment has not passed yet.

use crate::carried::{message_of, next_number};
use crate::numbering::Numbering;
use crate::said::Said;
use capture_record::MAX_MESSAGE;
use dna_packet::{Nsp, Segment};
use std::alloc::{AllocError, Global};
use std::collections::{BTreeMap, BTreeSet};

// The last segment that passed of the link which has an own address: its far address, its number, and the side's unit that began the message it is
// of with how many bytes of that passed, unless it ended one.
#[derive(Clone, Copy, PartialEq, Eq)]
struct Given {
    far: u16,
    number: u16,
    begun: Option<(u64, usize)>,
}

/// The messages of a side that are not whole, by the units that began them. What is said of a link ends where its own end is sent, since after what
/// came for that, its node may still send what waits in a queue; or where its address is given again.
#[derive(Drop)]
pub(crate) struct OpenMessages {
    given: BTreeMap<u16, Given>,
    begun: BTreeSet<u64>,
    units: u64,
    numbering: Numbering,
}

impl OpenMessages {
    /// None. Takes no memory.
    pub(crate) fn new(alloc: Global) -> OpenMessages {
        OpenMessages {
            given: BTreeMap::new(alloc),
            begun: BTreeSet::new(alloc),
            units: 0,
            numbering: Numbering::new(),
        }
    }

    /// The node boots before the side's next unit: none is whole any more.
    pub(crate) fn boot(&mut self) {
        self.given.clear();
        self.begun.clear();
    }

    /// Whether the side's unit that has so many after it begins a message whose last segment has not passed.
    pub(crate) fn begins_one(&self, behind: u64) -> bool {
        if behind >= self.units {
            return false;
        }
        self.begun.get(&(self.units - 1 - behind)).is_some()
    }

    /// The side sent this unit. `AllocError` where there is no memory for a link more.
    pub(crate) fn sent(&mut self, unit: &[u8]) -> Result<(), AllocError> {
        let place = self.units;
        self.units = place.saturating_add(1);
        if !self.numbering.is_new(Said::of(unit)) {
            return Ok(());
        }
        match message_of(unit) {
            Some(Nsp::DataSegment(segment)) => self.gives(&segment, place),
            Some(Nsp::ConnectInitiate(message)) => {
                self.forget(message.srcaddr);
                Ok(())
            }
            Some(Nsp::ConnectConfirm(message)) => {
                self.forget(message.srcaddr);
                Ok(())
            }
            Some(Nsp::DisconnectInitiate(message)) => {
                self.forget(message.srcaddr);
                Ok(())
            }
            Some(Nsp::DisconnectConfirm(message)) => {
                self.end(message.srcaddr, message.dstaddr);
                Ok(())
            }
            _ => Ok(()),
        }
    }

    // A segment passed in this unit; one that is not the next of its link goes again.
    fn gives(&mut self, segment: &Segment<'_>, place: u64) -> Result<(), AllocError> {
        let far = segment.dstaddr;
        let (before, begun) = match self.given.get(&segment.srcaddr).copied() {
            Some(given) if given.far == far => (given.number, given.begun),
            _ => (0, None),
        };
        let number = segment.number;
        if number != next_number(before) {
            return Ok(());
        }
        let begun = self.under_way(begun, segment, place)?;
        let given = Given { far, number, begun };
        match self.given.insert(segment.srcaddr, given) {
            Ok(_) => Ok(()),
            Err(_) => Err(AllocError),
        }
    }

    // The unit that began the message of this segment, if that is still under way after it. One that is too long is not waited for.
    fn under_way(
        &mut self,
        begun: Option<(u64, usize)>,
        segment: &Segment<'_>,
        place: u64,
    ) -> Result<Option<(u64, usize)>, AllocError> {
        let (unit, len) = match begun {
            Some(begun) => begun,
            None => (place, 0),
        };
        let len = len.saturating_add(segment.body.len());
        if segment.ends || len > MAX_MESSAGE {
            self.begun.remove(&unit);
        } else if begun.is_none() {
            let Ok(_) = self.begun.insert(unit) else {
                return Err(AllocError);
            };
        }
        if segment.ends {
            return Ok(None);
        }
        Ok(Some((unit, len)))
    }

    // A DC is sent from this address: its link is over, if the DC is to the far address of that, as no link that lives may be named.
    fn end(&mut self, own: u16, far: u16) {
        if let Some(given) = self.given.get(&own).copied() {
            if given.far == far {
                self.forget(own);
            }
        }
    }

    // Nothing is said any more of the link with this address.
    fn forget(&mut self, own: u16) {
        if let Some(given) = self.given.get(&own).copied() {
            if let Some((unit, _)) = given.begun {
                self.begun.remove(&unit);
            }
            self.given.remove(&own);
        }
    }
}
