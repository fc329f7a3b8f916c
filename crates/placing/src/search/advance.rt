//! How the states of a side go on past a unit that it sent.

use super::Search;
use super::hypothesis::{Front, Hypothesis};
use super::sent::Sent;
use super::walk::{Room, View, Wanted};
use super::way::Way;
use crate::explained::Explained;
use crate::movement::Standing;
use crate::said::Said;
use crate::station::But;
use dna_station::{State, Tag};
use std::alloc::AllocError;
use wire_base::Side;

impl Search {
    /// Where the side may be after this unit, or, where something is not asked of it, before it: in the room.
    pub(super) fn find(
        &mut self,
        hypothesis: &Hypothesis,
        side: Side,
        unit: Wanted,
    ) -> Result<(), AllocError> {
        let Hypothesis { a, b } = hypothesis;
        self.room.found.clear();
        match side {
            Side::A => find_from(a, b, &mut self.a, &self.b, &mut self.room, unit),
            Side::B => find_from(b, a, &mut self.b, &self.a, &mut self.room, unit),
        }
    }

    /// The hypothesis goes on with the states in the room, one for each tag that the unit may have, if that matters; or ends, where
    /// there are none.
    pub(super) fn go_on(
        &mut self,
        hypothesis: Hypothesis,
        side: Side,
        number: u64,
    ) -> Result<(), AllocError> {
        let Some(first) = self.room.found.first() else {
            self.dead.reserve(1)?;
            self.dead.push_back_reserved(hypothesis);
            return Ok(());
        };
        let tag = first.station.tag();
        let is_one = self
            .room
            .found
            .iter()
            .all(|state| state.station.tag() == tag);
        if is_one || self.explained == Explained::Apart {
            return self.go_on_alone(hypothesis, side, number);
        }
        for at in 0..self.room.found.len() {
            if let Some(state) = self.room.found.get(at) {
                let tag = state.station.tag();
                if is_first_with(self.room.found.as_slice(), at, tag) {
                    self.bear(&hypothesis, side, number, tag)?;
                }
            }
        }
        Ok(())
    }

    // All states have one tag, or the tags are not asked.
    fn go_on_alone(
        &mut self,
        mut hypothesis: Hypothesis,
        side: Side,
        number: u64,
    ) -> Result<(), AllocError> {
        let front = hypothesis.front_mut(side);
        std::mem::swap(&mut front.states, &mut self.room.found);
        front.tell_epoch(number)?;
        self.born.reserve(1)?;
        self.born.push_back_reserved(hypothesis);
        Ok(())
    }

    // A hypothesis with those states in the room that have this tag.
    fn bear(
        &mut self,
        hypothesis: &Hypothesis,
        side: Side,
        number: u64,
        tag: Tag,
    ) -> Result<(), AllocError> {
        let alloc = self.alloc;
        let born = match side {
            Side::A => {
                let front = self.front_with(&hypothesis.a, number, tag)?;
                hypothesis.with_a(alloc, front)?
            }
            Side::B => {
                let front = self.front_with(&hypothesis.b, number, tag)?;
                hypothesis.with_b(alloc, front)?
            }
        };
        self.born.reserve(1)?;
        self.born.push_back_reserved(born);
        Ok(())
    }

    fn front_with(&self, front: &Front, number: u64, tag: Tag) -> Result<Front, AllocError> {
        let mut with = front.without_states(self.alloc)?;
        for state in &self.room.found {
            if state.station.tag() == tag {
                with.states.push(*state)?;
            }
        }
        with.tell_epoch(number)?;
        Ok(with)
    }

    /// No way was found for this unit: the side goes on as far as it can if something is not asked of the unit, so that the judge says what that is.
    pub(super) fn give_up(&mut self, side: Side, unit: Wanted) -> Result<(), AllocError> {
        for but in [But::Packet, But::Response, But::Number, But::All] {
            for _ in 0..self.dead.len() {
                let Some(mut hypothesis) = self.dead.pop_front() else {
                    break;
                };
                let asked = Wanted {
                    but: Some(but),
                    ..unit
                };
                self.find(&hypothesis, side, asked)?;
                if let Some(state) = self.room.found.first().copied() {
                    let front = hypothesis.front_mut(side);
                    front.states.clear();
                    front.states.push(state)?;
                    self.hypotheses.clear();
                    self.hypotheses.reserve(1)?;
                    self.hypotheses.push_back_reserved(hypothesis);
                    return Ok(());
                }
                self.dead.reserve(1)?;
                self.dead.push_back_reserved(hypothesis);
            }
        }
        std::mem::swap(&mut self.hypotheses, &mut self.dead);
        Ok(())
    }
}

// Whether no state before this one has the tag.
fn is_first_with(states: &[Standing], place: usize, tag: Tag) -> bool {
    for (at, state) in states.iter().enumerate() {
        if state.station.tag() == tag {
            return at == place;
        }
    }
    false
}

fn find_from(
    front: &Front,
    of_other: &Front,
    own: &mut Sent,
    other: &Sent,
    room: &mut Room,
    unit: Wanted,
) -> Result<(), AllocError> {
    let view = View {
        unit,
        own: own.count(),
        most_kept: own.most_kept(),
        units: &other.units,
        gone: other.gone,
        limit: other.count(),
        seen: own.seen,
        epochs: &of_other.epochs,
        last_data: other.last_data.as_slice(),
    };
    for state in &front.states {
        view.go(&mut own.way, room, *state)?;
    }
    if unit.explained == Explained::Together {
        return Ok(());
    }
    for state in &front.states {
        view.go_anew(&mut own.way, room, *state)?;
    }
    Ok(())
}

impl View<'_> {
    // Adds where the side may be after the unit, from this state on.
    fn go(&self, way: &mut Way, room: &mut Room, standing: Standing) -> Result<(), AllocError> {
        room.begun.clear();
        match standing.station.state {
            State::Halted => self.begin(way, room, standing)?,
            State::Istrt => return self.go_started(way, room, standing),
            State::Astrt => match self.unit.said {
                Said::Strt => self.restart(way, room, standing)?,
                Said::Stack => {
                    self.go_started(way, room, standing)?;
                    if !self.has_strt(self.seen, self.limit) {
                        return Ok(());
                    }
                    self.restart(way, room, standing)?;
                    self.drop_begun(room, standing.kept);
                }
                _ => return self.go_started(way, room, standing),
            },
            State::Running => match self.unit.said {
                Said::Strt | Said::Stack => self.restart(way, room, standing)?,
                _ => return self.go_running(way, room, standing),
            },
        }
        self.go_begun(way, room)
    }

    // The same after a start of which no unit tells: a STACK came that was meant for an earlier one.
    fn go_anew(
        &self,
        way: &mut Way,
        room: &mut Room,
        standing: Standing,
    ) -> Result<(), AllocError> {
        room.begun.clear();
        self.restart(way, room, standing)?;
        self.go_begun(way, room)
    }

    // The same from all states in which the station was started.
    fn go_begun(&self, way: &mut Way, room: &mut Room) -> Result<(), AllocError> {
        for at in 0..room.begun.len() {
            if let Some(begun) = room.begun.get(at).copied() {
                self.go_started(way, room, begun)?;
            }
        }
        Ok(())
    }

    // The same of a station that runs. Nothing that comes makes a REP right, nor what is no message.
    fn go_running(
        &self,
        way: &mut Way,
        room: &mut Room,
        standing: Standing,
    ) -> Result<(), AllocError> {
        if self.is_ready(&standing) {
            return self.reach(way, room, standing);
        }
        match self.unit.said {
            Said::Rep { num: _ } | Said::Nothing => Ok(()),
            _ => self.walk(way, room, standing, standing.come),
        }
    }

    // The same of a station that starts. A STACK answers the STRT that came last: one that passed since the unit before may have.
    fn go_started(
        &self,
        way: &mut Way,
        room: &mut Room,
        standing: Standing,
    ) -> Result<(), AllocError> {
        let is_ready = self.is_ready(&standing);
        let mut from = standing.come;
        if is_ready {
            self.reach(way, room, standing)?;
            from = from.max(self.seen);
        }
        match self.unit.said {
            Said::Strt | Said::Nothing => Ok(()),
            Said::Stack => self.walk(way, room, standing, from),
            _ if is_ready => Ok(()),
            _ => self.walk(way, room, standing, from),
        }
    }
}
