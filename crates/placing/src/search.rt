//! The search: what is put between the units of both sides.

mod advance;
mod alike;
mod hypothesis;
mod restarting;
mod sent;
mod walk;
mod way;

use crate::explained::Explained;
use crate::limit::{FEW_HYPOTHESES, MOST_STATES};
use crate::movement::Move;
use crate::said::Said;
use crate::turn::Turn;
use alike::are_alike;
use hypothesis::Hypothesis;
use sent::Sent;
use std::alloc::{AllocError, Global};
use std::collections::VecDeque;
use walk::{Room, Wanted};
use wire_base::Side;

/// What became of a unit.
#[derive(Clone, Copy, Debug, PartialEq, Eq)]
pub enum Reached {
    /// Its side may have sent it.
    Way,
    /// No way was found on which both sides may have sent all that passed; or, where each is explained by itself, this side.
    NoWay,
    /// There were more than 10,000 states.
    TooMany,
}

/// Where both sides of a line may be after the units that passed: all states that lead there, except those that others cover.
#[derive(Drop)]
pub struct Search {
    a: Sent,
    b: Sent,
    hypotheses: VecDeque<Hypothesis>,
    // those that go on after the unit at hand, and those that do not
    born: VecDeque<Hypothesis>,
    dead: VecDeque<Hypothesis>,
    room: Room,
    ends: Vec<u64>,
    explained: Explained,
    alloc: Global,
}

impl Search {
    /// Nothing passed yet. `AllocError` where there is no memory for it.
    pub fn new(alloc: Global, explained: Explained) -> Result<Search, AllocError> {
        let mut hypotheses = VecDeque::new(alloc);
        let first = Hypothesis::new(alloc)?;
        hypotheses.reserve(1)?;
        hypotheses.push_back_reserved(first);
        Ok(Search {
            a: Sent::new(alloc)?,
            b: Sent::new(alloc)?,
            hypotheses,
            born: VecDeque::new(alloc),
            dead: VecDeque::new(alloc),
            room: Room::new(alloc),
            ends: Vec::new(alloc),
            explained,
            alloc,
        })
    }

    /// This is assumed of a side. `AllocError` as there.
    pub fn turn(&mut self, turn: Turn) -> Result<(), AllocError> {
        match turn.side {
            Side::A => self.a.turn(turn),
            Side::B => self.b.turn(turn),
        }
    }

    /// A unit of this side passed. `NoWay` and `TooMany`: it is the last one. `AllocError` where there is no memory; then no other call is right.
    pub fn sent(&mut self, side: Side, unit: &[u8]) -> Result<Reached, AllocError> {
        let said = Said::of(unit);
        let (number, is_again) = match side {
            Side::A => (self.a.count(), self.a.has_again(said, unit)),
            Side::B => (self.b.count(), self.b.has_again(said, unit)),
        };
        let wanted = Wanted {
            said,
            is_again,
            but: None,
            explained: self.explained,
        };
        let mut states: usize = 0;
        for _ in 0..self.hypotheses.len() {
            if let Some(hypothesis) = self.hypotheses.pop_front() {
                self.find(&hypothesis, side, wanted)?;
                states = states.saturating_add(self.room.found.len());
                self.go_on(hypothesis, side, number)?;
            }
        }
        if states == 0 {
            self.give_up(side, wanted)?;
            return Ok(Reached::NoWay);
        }
        std::mem::swap(&mut self.hypotheses, &mut self.born);
        self.dead.clear();
        if self.hypotheses.len() > FEW_HYPOTHESES {
            self.drop_alike()?;
        }
        if self.states_of(side) > MOST_STATES {
            return Ok(Reached::TooMany);
        }
        self.pass(side, said, unit)?;
        Ok(Reached::Way)
    }

    // How many states of this side there are.
    fn states_of(&self, side: Side) -> usize {
        let mut states: usize = 0;
        for hypothesis in self.hypotheses.iter() {
            states = states.saturating_add(hypothesis.front(side).states.len());
        }
        states
    }

    // Of hypotheses that are alike one is kept, in which most packets were kept.
    fn drop_alike(&mut self) -> Result<(), AllocError> {
        for _ in 0..self.hypotheses.len() {
            let Some(mut hypothesis) = self.hypotheses.pop_front() else {
                break;
            };
            let Some(at) = self.alike_to(&hypothesis)? else {
                self.born.reserve(1)?;
                self.born.push_back_reserved(hypothesis);
                continue;
            };
            if let Some(other) = self.born.get_mut(at) {
                if hypothesis.most_kept() > other.most_kept() {
                    std::mem::swap(other, &mut hypothesis);
                }
            }
        }
        std::mem::swap(&mut self.hypotheses, &mut self.born);
        Ok(())
    }

    // The place of one that is alike.
    fn alike_to(&self, hypothesis: &Hypothesis) -> Result<Option<usize>, AllocError> {
        for at in 0..self.born.len() {
            if let Some(other) = self.born.get(at) {
                if are_alike(self.alloc, other, hypothesis)? {
                    return Ok(Some(at));
                }
            }
        }
        Ok(None)
    }

    // The unit comes after all others of its side.
    fn pass(&mut self, side: Side, said: Said, unit: &[u8]) -> Result<(), AllocError> {
        match side {
            Side::A => {
                let seen = self.b.count();
                self.a.pass(said, unit, seen)?;
            }
            Side::B => {
                let seen = self.a.count();
                self.b.pass(said, unit, seen)?;
            }
        }
        let is_due = match side {
            Side::A => self.a.way.is_due(),
            Side::B => self.b.way.is_due(),
        };
        if is_due {
            return self.settle(side);
        }
        Ok(())
    }

    // What all states of the side share is settled, and what they all use up is let go.
    fn settle(&mut self, side: Side) -> Result<(), AllocError> {
        let alloc = self.alloc;
        let mut least = u64::MAX;
        self.ends.clear();
        for at in 0..self.hypotheses.len() {
            if let Some(hypothesis) = self.hypotheses.get(at) {
                let front = hypothesis.front(side);
                least = least.min(front.least_come());
                for state in &front.states {
                    self.ends.push(state.last)?;
                }
            }
        }
        match side {
            Side::A => self.a.way.settle_shared(alloc, self.ends.as_slice())?,
            Side::B => self.b.way.settle_shared(alloc, self.ends.as_slice())?,
        }
        match side {
            Side::A => self.b.let_go(least),
            Side::B => self.a.let_go(least),
        }
        for at in 0..self.hypotheses.len() {
            if let Some(hypothesis) = self.hypotheses.get_mut(at) {
                hypothesis.front_mut(side.other()).forget_before(least);
            }
        }
        self.prune(side)
    }

    // Steps of the side that lead to none of its states are dropped.
    fn prune(&mut self, side: Side) -> Result<(), AllocError> {
        self.ends.clear();
        for hypothesis in self.hypotheses.iter() {
            for state in &hypothesis.front(side).states {
                self.ends.push(state.last)?;
            }
        }
        let alloc = self.alloc;
        match side {
            Side::A => self.a.way.drop_dead(alloc, &mut self.ends)?,
            Side::B => self.b.way.drop_dead(alloc, &mut self.ends)?,
        }
        let mut at: usize = 0;
        for hypothesis in self.hypotheses.iter_mut() {
            for state in hypothesis.front_mut(side).states.iter_mut() {
                if let Some(end) = self.ends.get(at) {
                    state.last = *end;
                }
                at = at.saturating_add(1);
            }
        }
        Ok(())
    }

    /// How many moves of this side are settled and wait.
    pub fn settled(&self, side: Side) -> usize {
        match side {
            Side::A => self.a.way.settled(),
            Side::B => self.b.way.settled(),
        }
    }

    /// The first of them, which waits no more.
    pub(crate) fn next(&mut self, side: Side) -> Option<Move> {
        match side {
            Side::A => self.a.way.next(),
            Side::B => self.b.way.next(),
        }
    }

    /// Nothing passes any more: one way of this side is settled, one of those on which both sides kept most packets. `AllocError` where there is no
    /// memory for its moves.
    pub(crate) fn end(&mut self, side: Side) -> Result<(), AllocError> {
        let Some(hypothesis) = self.best() else {
            return Ok(());
        };
        let Some(last) = hypothesis.front(side).last_of_best() else {
            return Ok(());
        };
        match side {
            Side::A => self.a.way.settle(last),
            Side::B => self.b.way.settle(last),
        }
    }

    // The first hypothesis in which both sides kept most packets.
    fn best(&self) -> Option<&Hypothesis> {
        let mut best: Option<&Hypothesis> = None;
        for hypothesis in self.hypotheses.iter() {
            match best {
                Some(other) if other.most_kept() >= hypothesis.most_kept() => {}
                _ => best = Some(hypothesis),
            }
        }
        best
    }
}
