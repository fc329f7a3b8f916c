//! What a side sent.

use super::way::Way;
use crate::said::Said;
use crate::turn::{Assumed, Turn};
use std::alloc::{AllocError, Global};
use std::collections::{BTreeMap, VecDeque};

// How many numbers data may have.
const NUMBERS: usize = 256;

// How many bytes the check of a packet has, which comes last.
const CHECK_LEN: usize = 2;

/// What a side sent, as far as it may still come to the other one, and its ways.
#[derive(Drop)]
pub(crate) struct Sent {
    pub(crate) units: VecDeque<Said>,
    pub(crate) gone: u64,
    /// By numbers: one more than the place of the last data with it, and what marks the packet in that.
    pub(crate) last_data: Vec<u64>,
    marks: Vec<u64>,
    /// How many units of the other side had passed before the last of these.
    pub(crate) seen: u64,
    pub(crate) way: Way,
    // by units before which the station is started: how many packets that were under way are kept at most
    keeps: BTreeMap<u64, u64>,
}

impl Sent {
    /// Nothing. `AllocError` where there is no memory for it.
    pub(crate) fn new(alloc: Global) -> Result<Sent, AllocError> {
        Ok(Sent {
            units: VecDeque::new(alloc),
            gone: 0,
            last_data: vec![in alloc; 0u64; NUMBERS]?,
            marks: vec![in alloc; 0u64; NUMBERS]?,
            seen: 0,
            way: Way::new(alloc),
            keeps: BTreeMap::new(alloc),
        })
    }

    /// How many units there were.
    pub(crate) fn count(&self) -> u64 {
        self.gone.saturating_add(self.units.len() as u64)
    }

    /// Whether this unit may have the packet of the last data with its number.
    pub(crate) fn has_again(&self, said: Said, unit: &[u8]) -> bool {
        match said {
            Said::Data { resp: _, num } => {
                self.marks.get(usize::from(num)).copied() == Some(mark_of(unit))
            }
            _ => true,
        }
    }

    /// This is assumed. `AllocError` as there.
    pub(crate) fn turn(&mut self, turn: Turn) -> Result<(), AllocError> {
        let Assumed::Keeps { most } = turn.what else {
            return Ok(());
        };
        let least = match self.keeps.get(&turn.unit) {
            Some(kept) => most.min(*kept),
            None => most,
        };
        match self.keeps.insert(turn.unit, least) {
            Ok(_) => Ok(()),
            Err(_) => Err(AllocError),
        }
    }

    /// How many of the packets that are under way are kept at most, where the station is started before the next unit.
    pub(crate) fn most_kept(&self) -> u64 {
        match self.keeps.get(&self.count()) {
            Some(most) => *most,
            None => u64::MAX,
        }
    }

    /// One more passed. `AllocError` as there.
    pub(crate) fn pass(&mut self, said: Said, unit: &[u8], seen: u64) -> Result<(), AllocError> {
        self.units.reserve(1)?;
        self.units.push_back_reserved(said);
        self.seen = seen;
        let count = self.count();
        if let Said::Data { resp: _, num } = said {
            if let Some(last) = self.last_data.get_mut(usize::from(num)) {
                *last = count;
            }
            if let Some(mark) = self.marks.get_mut(usize::from(num)) {
                *mark = mark_of(unit);
            }
        }
        Ok(())
    }

    /// Those before this one can't come any more.
    pub(crate) fn let_go(&mut self, number: u64) {
        for _ in self.gone..number {
            if self.units.pop_front().is_some() {
                self.gone = self.gone.saturating_add(1);
            }
        }
    }
}

// What marks a packet: how long its unit is, and the check at its end. Others may have the same mark.
fn mark_of(unit: &[u8]) -> u64 {
    let mut mark = unit.len() as u64;
    for at in unit.len().saturating_sub(CHECK_LEN)..unit.len() {
        if let Some(byte) = unit.get(at) {
            mark = mark.saturating_mul(256).saturating_add(u64::from(*byte));
        }
    }
    mark
}
