//! What may have happened, as far as the periods of both sides tell it apart.

use crate::movement::Standing;
use dna_station::Tag;
use std::alloc::{AllocError, Global};
use std::collections::VecDeque;
use wire_base::Side;

/// From this unit of a side on, counted from 0, its units were sent with this tag.
#[derive(Clone, Copy, PartialEq, Eq)]
pub(crate) struct Epoch {
    pub(crate) from: u64,
    pub(crate) tag: Tag,
}

/// Where a side may be, and the tags of its units. All ways that lead there have these tags.
#[derive(Drop)]
pub(crate) struct Front {
    pub(crate) states: Vec<Standing>,
    pub(crate) epochs: VecDeque<Epoch>,
}

/// Where both sides may be: any of these states of one goes with any of the other.
#[derive(Drop)]
pub(crate) struct Hypothesis {
    pub(crate) a: Front,
    pub(crate) b: Front,
}

impl Hypothesis {
    /// Nothing passed yet. `AllocError` where there is no memory for it.
    pub(crate) fn new(alloc: Global) -> Result<Hypothesis, AllocError> {
        Ok(Hypothesis {
            a: Front::new(alloc)?,
            b: Front::new(alloc)?,
        })
    }

    /// What is told of this side.
    pub(crate) fn front(&self, side: Side) -> &Front {
        match side {
            Side::A => &self.a,
            Side::B => &self.b,
        }
    }

    /// The same, to be changed.
    pub(crate) fn front_mut(&mut self, side: Side) -> &mut Front {
        match side {
            Side::A => &mut self.a,
            Side::B => &mut self.b,
        }
    }

    /// The most packets that both sides may have kept.
    pub(crate) fn most_kept(&self) -> u64 {
        self.a.most_kept().saturating_add(self.b.most_kept())
    }

    /// The same with other states of side a, or of side b. `AllocError` as there.
    pub(crate) fn with_a(&self, alloc: Global, a: Front) -> Result<Hypothesis, AllocError> {
        Ok(Hypothesis {
            a,
            b: self.b.copy(alloc)?,
        })
    }

    pub(crate) fn with_b(&self, alloc: Global, b: Front) -> Result<Hypothesis, AllocError> {
        Ok(Hypothesis {
            a: self.a.copy(alloc)?,
            b,
        })
    }
}

impl Front {
    fn new(alloc: Global) -> Result<Front, AllocError> {
        let mut states = Vec::new(alloc);
        states.push(Standing::new())?;
        Ok(Front {
            states,
            epochs: VecDeque::new(alloc),
        })
    }

    fn copy(&self, alloc: Global) -> Result<Front, AllocError> {
        let mut states = Vec::new(alloc);
        for state in &self.states {
            states.push(*state)?;
        }
        let epochs = self.copied_epochs(alloc)?;
        Ok(Front { states, epochs })
    }

    /// The same epochs, and none of the states.
    pub(crate) fn without_states(&self, alloc: Global) -> Result<Front, AllocError> {
        let epochs = self.copied_epochs(alloc)?;
        Ok(Front {
            states: Vec::new(alloc),
            epochs,
        })
    }

    fn copied_epochs(&self, alloc: Global) -> Result<VecDeque<Epoch>, AllocError> {
        let mut epochs = VecDeque::new(alloc);
        for at in 0..self.epochs.len() {
            if let Some(epoch) = self.epochs.get(at) {
                epochs.reserve(1)?;
                epochs.push_back_reserved(*epoch);
            }
        }
        Ok(epochs)
    }

    /// From this unit on the side's units have the tag of its states. `AllocError` where there is no memory for it.
    pub(crate) fn tell_epoch(&mut self, from: u64) -> Result<(), AllocError> {
        let Some(state) = self.states.first() else {
            return Ok(());
        };
        let tag = state.station.tag();
        if let Some(last) = self.epochs.back() {
            if last.tag == tag {
                return Ok(());
            }
        }
        self.epochs.reserve(1)?;
        self.epochs.push_back_reserved(Epoch { from, tag });
        Ok(())
    }

    /// What was told of units before this one is not asked any more.
    pub(crate) fn forget_before(&mut self, number: u64) {
        for _ in 1..self.epochs.len() {
            match self.epochs.get(1) {
                Some(next) if next.from <= number => {
                    let _ = self.epochs.pop_front();
                }
                _ => return,
            }
        }
    }

    /// The last step of the way to the state that kept most packets, if there is a state.
    pub(crate) fn last_of_best(&self) -> Option<u64> {
        let mut best: Option<&Standing> = None;
        for state in &self.states {
            match best {
                Some(other) if other.kept >= state.kept => {}
                _ => best = Some(state),
            }
        }
        Some(best?.last)
    }

    // The most packets that a state kept.
    fn most_kept(&self) -> u64 {
        let mut most = 0;
        for state in &self.states {
            most = most.max(state.kept);
        }
        most
    }

    /// The fewest units of the other side that a state uses up.
    pub(crate) fn least_come(&self) -> u64 {
        let mut least = u64::MAX;
        for state in &self.states {
            least = least.min(state.come);
        }
        least
    }
}

/// The place of the epoch that this unit is in, or of the first one.
pub(crate) fn epoch_of(epochs: &VecDeque<Epoch>, number: u64) -> usize {
    let mut low: usize = 0;
    let mut high = epochs.len();
    for _ in 0..64 {
        if high <= low.saturating_add(1) {
            return low;
        }
        let middle = low.saturating_add(high.saturating_sub(low) / 2);
        match epochs.get(middle) {
            Some(epoch) if epoch.from <= number => low = middle,
            _ => high = middle,
        }
    }
    low
}
