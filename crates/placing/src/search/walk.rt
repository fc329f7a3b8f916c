//! The walk of a side over what passed of the other side, up to where it may send a unit.

use super::hypothesis::{Epoch, epoch_of};
use super::way::Way;
use crate::explained::Explained;
use crate::movement::{Made, Standing};
use crate::said::Said;
use crate::station::{But, Station};
use dna_station::{State, Tag};
use std::alloc::{AllocError, Global};
use std::collections::VecDeque;

/// The unit that is to be sent, and what is asked of it.
#[derive(Clone, Copy)]
pub(crate) struct Wanted {
    pub(crate) said: Said,
    // whether it may have the packet of the last data with its number
    pub(crate) is_again: bool,
    // what is not asked of it, where no way is found otherwise
    pub(crate) but: Option<But>,
    pub(crate) explained: Explained,
}

/// The same, and what passed of the other side.
#[derive(Clone, Copy)]
pub(crate) struct View<'a> {
    pub(crate) unit: Wanted,
    // its number among the side's units, and how many of the packets that are under way are kept at most, where its user starts the station before it
    pub(crate) own: u64,
    pub(crate) most_kept: u64,
    // the other side's units that may still come, how many there were before them, and before this unit in all
    pub(crate) units: &'a VecDeque<Said>,
    pub(crate) gone: u64,
    pub(crate) limit: u64,
    // how many of them had passed before the side's last unit
    pub(crate) seen: u64,
    pub(crate) epochs: &'a VecDeque<Epoch>,
    // by numbers: one more than the place of the last data with it
    pub(crate) last_data: &'a [u64],
}

/// Where the side is after the unit; and where it is in the midst of a walk, before and after one unit of the other side.
#[derive(Drop)]
pub(crate) struct Room {
    pub(crate) found: Vec<Standing>,
    pub(crate) begun: Vec<Standing>,
    front: Vec<Standing>,
    next: Vec<Standing>,
}

impl Room {
    /// No state. Takes no memory.
    pub(crate) fn new(alloc: Global) -> Room {
        Room {
            found: Vec::new(alloc),
            begun: Vec::new(alloc),
            front: Vec::new(alloc),
            next: Vec::new(alloc),
        }
    }
}

/// The tag of all units where the periods are not asked.
pub(super) const ANY: Tag = Tag {
    period: 0,
    partner: Some(0),
};

/// A unit of the other side.
#[derive(Clone, Copy)]
pub(crate) struct Passing {
    pub(crate) number: u64,
    pub(crate) said: Said,
    pub(crate) tag: Tag,
}

impl View<'_> {
    /// The side may send the unit where it is, or is past what is wanted for that.
    pub(crate) fn is_ready(&self, standing: &Standing) -> bool {
        match self.unit.but {
            Some(but) => standing.station.may_send_but(self.unit.said, but),
            None => standing
                .station
                .may_send(self.unit.said, self.unit.is_again),
        }
    }

    /// Adds where it is after the unit; or, where something is not asked, before it.
    pub(crate) fn reach(
        &self,
        way: &mut Way,
        room: &mut Room,
        standing: Standing,
    ) -> Result<(), AllocError> {
        if self.unit.but.is_some() {
            return add(&mut room.found, standing);
        }
        let is_new = standing.station.is_new(self.unit.said);
        let last = way.step(standing.last, Made::Send { is_new })?;
        let behind = Standing {
            station: standing.station.sent(self.unit.said),
            last,
            ..standing
        };
        add(&mut room.found, behind)
    }

    /// Goes from this state over what passed from this unit on, and adds what may be reached.
    pub(crate) fn walk(
        &self,
        way: &mut Way,
        room: &mut Room,
        standing: Standing,
        from: u64,
    ) -> Result<(), AllocError> {
        room.front.clear();
        room.front.push(standing)?;
        let mut epoch = epoch_of(self.epochs, from);
        for number in from..self.limit {
            let Some(passing) = self.passing(number, &mut epoch) else {
                return Ok(());
            };
            room.next.clear();
            for at in 0..room.front.len() {
                if let Some(state) = room.front.get(at).copied() {
                    self.pass(way, room, state, passing)?;
                }
            }
            std::mem::swap(&mut room.front, &mut room.next);
            if room.front.is_empty() {
                return Ok(());
            }
        }
        Ok(())
    }

    /// The other side's unit with this number, where the epoch is that of the one before.
    pub(super) fn passing(&self, number: u64, epoch: &mut usize) -> Option<Passing> {
        let said = *self.units.get(number.saturating_sub(self.gone) as usize)?;
        if let Some(next) = self.epochs.get(epoch.saturating_add(1)) {
            if next.from <= number {
                *epoch = epoch.saturating_add(1);
            }
        }
        let tag = match self.unit.explained {
            Explained::Together => self.epochs.get(*epoch)?.tag,
            Explained::Apart => ANY,
        };
        Some(Passing { number, said, tag })
    }

    /// Whether a side with this station acts on the unit. By itself it takes no response for one that acknowledges what it never sent: the other side
    /// is not to be accused either.
    pub(super) fn is_met(&self, station: Station, passing: Passing) -> bool {
        if self.unit.explained == Explained::Apart && !station.may_be_answered(passing.said) {
            return false;
        }
        station.meets(passing.said, passing.tag)
    }

    // What may become of this unit.
    fn pass(
        &self,
        way: &mut Way,
        room: &mut Room,
        state: Standing,
        passing: Passing,
    ) -> Result<(), AllocError> {
        let station = state.station;
        if !self.is_met(station, passing) {
            return add(&mut room.next, state);
        }
        if station.can_take(passing.said) {
            return self.pass_packet(way, room, state, passing);
        }
        if station.state == State::Running && passing.said.is_strt() {
            return add(&mut room.next, state);
        }
        self.take(way, room, state, passing, false)?;
        if station
            .arrived(passing.said, passing.tag, false)
            .covers(&station)
        {
            return Ok(());
        }
        add(&mut room.next, state)
    }

    // The same of data whose packet is the next one.
    fn pass_packet(
        &self,
        way: &mut Way,
        room: &mut Room,
        state: Standing,
        passing: Passing,
    ) -> Result<(), AllocError> {
        let station = state.station;
        let may_keep = self.may_keep(station.received());
        if may_keep {
            self.take(way, room, state, passing, true)?;
            if !self.unit.said.is_of_no_buffer() && !self.comes_again(passing) {
                if station.state == State::Running {
                    return Ok(());
                }
                return add(&mut room.next, state);
            }
        }
        self.take(way, room, state, passing, false)?;
        if station
            .arrived(passing.said, passing.tag, false)
            .covers(&station)
        {
            return Ok(());
        }
        add(&mut room.next, state)
    }

    // Whether a packet more may be kept, where this is the last that was received.
    fn may_keep(&self, received: u8) -> bool {
        if self.unit.but == Some(But::Response) || self.unit.but == Some(But::All) {
            return true;
        }
        self.unit.said.resp() != Some(received)
    }

    // Whether data with the number of these passed after them.
    fn comes_again(&self, passing: Passing) -> bool {
        let Said::Data { resp: _, num } = passing.said else {
            return false;
        };
        match self.last_data.get(usize::from(num)) {
            Some(last) => *last > passing.number.saturating_add(1),
            None => false,
        }
    }

    // The unit comes, and its packet is kept or not.
    fn take(
        &self,
        way: &mut Way,
        room: &mut Room,
        state: Standing,
        passing: Passing,
        kept: bool,
    ) -> Result<(), AllocError> {
        let taken = taken(way, state, passing, kept)?;
        // A state that was ready before goes on, for another STRT to answer.
        if taken.station != state.station && self.is_ready(&taken) {
            return self.reach(way, room, taken);
        }
        add(&mut room.next, taken)
    }
}

/// Where a side is once the unit has come, and its packet was kept or not.
pub(super) fn taken(
    way: &mut Way,
    state: Standing,
    passing: Passing,
    kept: bool,
) -> Result<Standing, AllocError> {
    let number = passing.number;
    let last = way.step(state.last, Made::Take { number, kept })?;
    Ok(Standing {
        station: state.station.arrived(passing.said, passing.tag, kept),
        come: number.saturating_add(1),
        kept: state.kept.saturating_add(u64::from(kept)),
        last,
    })
}

/// Adds a state, unless one of these covers it; those that it covers are dropped.
pub(super) fn add(states: &mut Vec<Standing>, state: Standing) -> Result<(), AllocError> {
    for other in states.iter() {
        if other.covers(&state) {
            return Ok(());
        }
    }
    let mut at: usize = 0;
    for _ in 0..states.len() {
        match states.get(at) {
            Some(other) if state.covers(other) => {
                let _ = states.swap_remove(at);
            }
            _ => at = at.saturating_add(1),
        }
    }
    states.push(state)?;
    Ok(())
}
