//! The ways of a side: a tree of steps, each with the one before it.

use crate::limit::FEW_STEPS;
use crate::movement::{Made, Move};
use std::alloc::{AllocError, Global};
use std::collections::VecDeque;

// A step, and the number of the one before it.
#[derive(Clone, Copy, PartialEq, Eq)]
struct Step {
    before: u64,
    made: Made,
}

/// The steps of a side that are not settled, numbered from 1 on, and the moves of those that are.
#[derive(Drop)]
pub(crate) struct Way {
    steps: VecDeque<Step>,
    // how many steps are settled or dropped; the way to all others leads over the last of these
    gone: u64,
    // how many of the other side's units the settled steps use up
    come: u64,
    settled: VecDeque<Move>,
    // so many steps wait before the next settling
    due: usize,
    chain: Vec<Made>,
}

impl Way {
    /// No step. Takes no memory.
    pub(crate) fn new(alloc: Global) -> Way {
        Way {
            steps: VecDeque::new(alloc),
            gone: 0,
            come: 0,
            settled: VecDeque::new(alloc),
            due: FEW_STEPS,
            chain: Vec::new(alloc),
        }
    }

    /// One more step after this one, with its number. `AllocError` where there is no memory for it.
    pub(crate) fn step(&mut self, before: u64, made: Made) -> Result<u64, AllocError> {
        self.steps.reserve(1)?;
        self.steps.push_back_reserved(Step { before, made });
        Ok(self.gone.saturating_add(self.steps.len() as u64))
    }

    /// Whether so many steps wait that it is to be asked which are shared.
    pub(crate) fn is_due(&self) -> bool {
        self.steps.len() >= self.due
    }

    /// What is on the way to all of these is taken back no more. `AllocError` as for `settle`.
    pub(crate) fn settle_shared(&mut self, alloc: Global, ends: &[u64]) -> Result<(), AllocError> {
        let last = self.shared(alloc, ends)?;
        self.settle(last)
    }

    // The last step that is on the way to all of these: each step before another has a lower number.
    fn shared(&self, alloc: Global, ends: &[u64]) -> Result<u64, AllocError> {
        let all = ends.len() as u64;
        let count = self.steps.len();
        let mut on_way = vec![in alloc; 0u64; count]?;
        for end in ends {
            self.pass_way(&mut on_way, *end, 1);
        }
        for behind in 0..count {
            let place = count - behind - 1;
            let Some(ways) = on_way.get(place).copied() else {
                break;
            };
            if ways == all && all > 0 {
                return Ok(self.gone.saturating_add(place as u64).saturating_add(1));
            }
            if let Some(step) = self.steps.get(place).copied() {
                self.pass_way(&mut on_way, step.before, ways);
            }
        }
        Ok(self.gone)
    }

    // So many ways lead over this step.
    fn pass_way(&self, on_way: &mut Vec<u64>, number: u64, ways: u64) {
        if number > self.gone {
            if let Some(count) = on_way.get_mut((number - self.gone - 1) as usize) {
                *count = count.saturating_add(ways);
            }
        }
    }

    /// The way to this step is taken back no more. `AllocError` where there is no memory for its moves.
    pub(crate) fn settle(&mut self, last: u64) -> Result<(), AllocError> {
        self.chain.clear();
        let mut at = last;
        for _ in 0..self.steps.len() {
            let Some(step) = self.at(at) else {
                break;
            };
            self.chain.push(step.made)?;
            at = step.before;
        }
        for _ in 0..self.chain.len() {
            if let Some(made) = self.chain.pop() {
                self.put(made)?;
            }
        }
        self.drop_to(last);
        self.due = self.steps.len().saturating_mul(2).saturating_add(FEW_STEPS);
        Ok(())
    }

    /// Steps that are on no way to one of these are dropped, and the others numbered anew, in the same order. Each of these is then the new number of
    /// its step. `AllocError` where there is no memory for it; then nothing changed.
    pub(crate) fn drop_dead(&mut self, alloc: Global, ends: &mut [u64]) -> Result<(), AllocError> {
        let mut numbers = self.marked(alloc, ends)?;
        let mut live: usize = 0;
        for place in 0..numbers.len() {
            if !is_marked(numbers.as_slice(), place) {
                continue;
            }
            let Some(step) = self.steps.get(place).copied() else {
                break;
            };
            let before = self.numbered_anew(numbers.as_slice(), step.before);
            if let Some(kept) = self.steps.get_mut(live) {
                *kept = Step { before, ..step };
            }
            live = live.saturating_add(1);
            if let Some(number) = numbers.get_mut(place) {
                *number = self.gone.saturating_add(live as u64);
            }
        }
        for end in ends.iter_mut() {
            *end = self.numbered_anew(numbers.as_slice(), *end);
        }
        for _ in live..self.steps.len() {
            let _ = self.steps.pop_back();
        }
        self.due = self.steps.len().saturating_mul(2).saturating_add(FEW_STEPS);
        Ok(())
    }

    // For each step whether it is on a way to one of these: not 0 where it is.
    fn marked(&self, alloc: Global, ends: &[u64]) -> Result<Vec<u64>, AllocError> {
        let count = self.steps.len();
        let mut marks = vec![in alloc; 0u64; count]?;
        for end in ends {
            self.mark(&mut marks, *end);
        }
        for behind in 0..count {
            let place = count - behind - 1;
            if is_marked(marks.as_slice(), place) {
                if let Some(step) = self.steps.get(place).copied() {
                    self.mark(&mut marks, step.before);
                }
            }
        }
        Ok(marks)
    }

    fn mark(&self, marks: &mut Vec<u64>, number: u64) {
        if number > self.gone {
            if let Some(mark) = marks.get_mut((number - self.gone - 1) as usize) {
                *mark = 1;
            }
        }
    }

    // The new number of a step, where those of all before it are known.
    fn numbered_anew(&self, numbers: &[u64], number: u64) -> u64 {
        if number <= self.gone {
            return number;
        }
        match numbers.get((number - self.gone - 1) as usize) {
            Some(anew) => *anew,
            None => number,
        }
    }

    /// How many settled moves wait.
    pub(crate) fn settled(&self) -> usize {
        self.settled.len()
    }

    /// The first settled move, which waits no more.
    pub(crate) fn next(&mut self) -> Option<Move> {
        self.settled.pop_front()
    }

    fn at(&self, number: u64) -> Option<Step> {
        if number <= self.gone {
            return None;
        }
        let place = (number - self.gone - 1) as usize;
        self.steps.get(place).copied()
    }

    // The moves of a step: what was not taken before it was lost.
    fn put(&mut self, made: Made) -> Result<(), AllocError> {
        match made {
            Made::Send { is_new } => self.put_move(Move::Send { is_new }),
            Made::Take { number, kept } => {
                for _ in self.come..number {
                    self.put_move(Move::Lose)?;
                }
                self.come = number.saturating_add(1);
                if kept {
                    return self.put_move(Move::Keep);
                }
                self.put_move(Move::Receive)
            }
            Made::Start => self.put_move(Move::Start),
            Made::Halt => self.put_move(Move::Halt),
        }
    }

    fn put_move(&mut self, made: Move) -> Result<(), AllocError> {
        self.settled.reserve(1)?;
        self.settled.push_back_reserved(made);
        Ok(())
    }

    fn drop_to(&mut self, last: u64) {
        for _ in self.gone..last {
            if self.steps.pop_front().is_some() {
                self.gone = self.gone.saturating_add(1);
            }
        }
    }
}

fn is_marked(marks: &[u64], place: usize) -> bool {
    match marks.get(place) {
        Some(mark) => *mark != 0,
        None => false,
    }
}
