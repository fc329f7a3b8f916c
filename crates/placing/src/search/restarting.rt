//! Where a side may be when its user starts it anew.

use super::hypothesis::epoch_of;
use super::walk::{ANY, Room, View, add, taken};
use super::way::Way;
use crate::explained::Explained;
use crate::movement::{Made, Standing};
use dna_station::State;
use std::alloc::AllocError;

impl View<'_> {
    /// Adds to what is begun where the side may be when its user starts it anew before the unit: with all packets kept that may have come, and
    /// with those alone that came before a STRT of the other side, which may still come. By itself also with no more packets kept.
    /// Where the start is turned, with no more kept than that says.
    pub(crate) fn restart(
        &self,
        way: &mut Way,
        room: &mut Room,
        standing: Standing,
    ) -> Result<(), AllocError> {
        if self.unit.explained == Explained::Apart {
            self.begin(way, room, standing)?;
        }
        let period = standing.station.tag().period;
        let from = match self.unit.explained {
            Explained::Together => self.first_answering(standing.come, period),
            Explained::Apart => standing.come,
        };
        let mut stands = standing;
        let mut on = standing;
        let mut is_strt_past = from > standing.come;
        let mut epoch = epoch_of(self.epochs, from);
        for number in from..self.limit {
            let Some(passing) = self.passing(number, &mut epoch) else {
                break;
            };
            if passing.said.is_strt() {
                is_strt_past = true;
                continue;
            }
            if !self.is_met(on.station, passing) {
                continue;
            }
            let kept = on.station.can_take(passing.said);
            if kept && on.kept.saturating_sub(standing.kept) >= self.most_kept {
                break;
            }
            if kept && is_strt_past {
                self.begin(way, room, stands)?;
                is_strt_past = false;
            }
            on = taken(way, on, passing, kept)?;
            if kept {
                stands = on;
            }
        }
        self.begin(way, room, stands)
    }

    /// Drops where it may have begun anew with no more packets kept than so many, or where it may have done so before its last unit: a STRT that it
    /// may answer had passed by then.
    pub(super) fn drop_begun(&self, room: &mut Room, kept: u64) {
        let mut at: usize = 0;
        for _ in 0..room.begun.len() {
            match room.begun.get(at) {
                Some(begun) if begun.kept <= kept || self.has_strt(begun.come, self.seen) => {
                    let _ = room.begun.swap_remove(at);
                }
                _ => at = at.saturating_add(1),
            }
        }
    }

    /// Whether a STRT is among these units of the other side.
    pub(super) fn has_strt(&self, from: u64, to: u64) -> bool {
        for number in from..to {
            match self.units.get(number.saturating_sub(self.gone) as usize) {
                Some(said) if said.is_strt() => return true,
                _ => {}
            }
        }
        false
    }

    // The first unit from this one on that answers this period.
    fn first_answering(&self, from: u64, period: u64) -> u64 {
        for at in epoch_of(self.epochs, from)..self.epochs.len() {
            if let Some(epoch) = self.epochs.get(at) {
                if epoch.tag.partner == Some(period) {
                    return from.max(epoch.from);
                }
            }
        }
        self.limit
    }

    // The period that begins before the unit.
    fn next_period(&self) -> u64 {
        match self.unit.explained {
            Explained::Together => self.own.saturating_add(1),
            Explained::Apart => ANY.period,
        }
    }

    // The user starts the station anew.
    pub(super) fn begin(
        &self,
        way: &mut Way,
        room: &mut Room,
        standing: Standing,
    ) -> Result<(), AllocError> {
        let halted = if standing.station.state == State::Halted {
            standing.last
        } else {
            way.step(standing.last, Made::Halt)?
        };
        let last = way.step(halted, Made::Start)?;
        let begun = Standing {
            station: standing.station.started(self.next_period()),
            last,
            ..standing
        };
        add(&mut room.begun, begun)
    }
}
