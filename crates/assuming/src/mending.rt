//! What is assumed for a record that is refused.

use crate::candidates::Candidate;
use crate::point::{Choice, Kind};
use crate::seeker::Seeker;
use std::alloc::AllocError;
use wire_base::Side;

// So far past a refused record is looked, before something is assumed for it; if something mends so many records, none of a higher rank is tried.
const LOOK: usize = 64;

const FEW: usize = 4;

// So many points back the boot before another is sought.
const BACK: usize = 8_192;

// Two things are assumed at once only of so many that come first.
const PAIRED: usize = 24;

impl Seeker<'_> {
    /// Assumes something, or two things, by which the record at this place is right; whether there is such a thing.
    pub(crate) fn mend(&mut self, number: usize) -> Result<bool, AllocError> {
        let candidates = self.candidates(number)?;
        let enough = number.saturating_add(LOOK).min(self.log.order.len());
        let mut furthest = number;
        let mut best = None;
        let mut rank = u8::MAX;
        for candidate in &candidates {
            if candidate.rank > rank && furthest >= number.saturating_add(FEW) {
                break;
            }
            let reached = self.attempt(*candidate, enough)?;
            if reached > furthest {
                furthest = reached;
                best = Some(*candidate);
                rank = candidate.rank;
            }
            if furthest >= enough {
                break;
            }
        }
        let Some(best) = best else {
            return self.mend_by_two(number, candidates.as_slice());
        };
        self.assume(best)?;
        let _ = self.go(number.saturating_add(1))?;
        if best.choice == Some(Choice::Boots) {
            self.drop_earlier_boot(number, best)?;
        }
        Ok(true)
    }

    // How far it goes with this candidate, which is not kept.
    fn attempt(&mut self, candidate: Candidate, enough: usize) -> Result<usize, AllocError> {
        let before = self.choice(candidate.key);
        self.assume(candidate)?;
        let reached = self.go(enough)?;
        self.stand_at(candidate.number as usize)?;
        self.choose(candidate.key, before)?;
        Ok(reached)
    }

    fn assume(&mut self, candidate: Candidate) -> Result<(), AllocError> {
        self.stand_at(candidate.number as usize)?;
        self.choose(candidate.key, candidate.choice)
    }

    fn mend_by_two(&mut self, number: usize, firsts: &[Candidate]) -> Result<bool, AllocError> {
        let wanted = number.saturating_add(1);
        for at in 0..firsts.len().min(PAIRED) {
            let Some(first) = firsts.get(at).copied() else {
                break;
            };
            let before = self.choice(first.key);
            self.assume(first)?;
            let reached = self.go(wanted)?;
            let seconds = self.candidates(reached)?;
            for place in 0..seconds.len().min(PAIRED) {
                let Some(second) = seconds.get(place).copied() else {
                    break;
                };
                if second.key == first.key {
                    continue;
                }
                if self.attempt(second, wanted)? >= wanted {
                    self.assume(second)?;
                    let _ = self.go(wanted)?;
                    return Ok(true);
                }
            }
            self.stand_at(first.number as usize)?;
            self.choose(first.key, before)?;
        }
        self.stand_at(number)?;
        Ok(false)
    }

    // The boot of this node before the one that was just assumed is assumed no longer, if the record at this place is right without it.
    fn drop_earlier_boot(&mut self, number: usize, boot: Candidate) -> Result<(), AllocError> {
        let Some((side, _, _)) = self.log.at(boot.number as usize) else {
            return Ok(());
        };
        let Some(earlier) = self.boot_before(side, boot.number) else {
            return Ok(());
        };
        let wanted = number.saturating_add(1);
        if self.attempt(earlier, wanted)? >= wanted {
            self.assume(earlier)?;
        }
        let _ = self.go(wanted)?;
        Ok(())
    }

    // The last boot of this node that is assumed before this place, as it is assumed no longer.
    fn boot_before(&self, side: Side, number: u64) -> Option<Candidate> {
        for behind in 0..self.points.len().min(BACK) {
            let point = self.points.get(self.points.len() - behind - 1).copied()?;
            let is_boot = point.kind == Kind::Starts && point.side == side;
            if is_boot && point.number < number && self.choice(point.key) == Some(Choice::Boots) {
                return Some(Candidate {
                    number: point.number,
                    key: point.key,
                    choice: None,
                    rank: 3,
                });
            }
        }
        None
    }
}
