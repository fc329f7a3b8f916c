//! The steps of the walk, made and taken back.

use crate::event::{Act, Gap, Said};
use crate::point::{Choice, Kind, Point, gap_key_of};
use crate::seeker::{Here, Mark, Seeker};
use std::alloc::AllocError;

impl Seeker<'_> {
    /// Goes on to this place, or to the record before it that is refused: where it is.
    pub(crate) fn go(&mut self, to: usize) -> Result<usize, AllocError> {
        for number in self.marks.len()..to.min(self.log.order.len()) {
            self.marks.push(Mark {
                changes: self.book.changes(),
                points: self.points.len(),
            })?;
            let points = self.points.len();
            if !self.step(number)? {
                self.keep_refused(points)?;
                self.back(number)?;
                return Ok(number);
            }
        }
        Ok(self.marks.len())
    }

    // The points from this one on are those of the step that is refused.
    fn keep_refused(&mut self, from: usize) -> Result<(), AllocError> {
        self.refused.clear();
        for at in from..self.points.len() {
            if let Some(point) = self.points.get(at) {
                self.refused.push(*point)?;
            }
        }
        Ok(())
    }

    /// Back to before this step, or, where it was not reached, on to it.
    pub(crate) fn stand_at(&mut self, number: usize) -> Result<(), AllocError> {
        if self.marks.len() > number {
            return self.back(number);
        }
        let _ = self.go(number)?;
        Ok(())
    }

    fn back(&mut self, number: usize) -> Result<(), AllocError> {
        if let Some(mark) = self.marks.get(number).copied() {
            self.book.take_back(mark.changes)?;
            self.tracks.truncate(self.points.as_slice(), mark.points);
            self.points.truncate(mark.points);
            self.marks.truncate(number);
        }
        Ok(())
    }

    // Makes the step at this place; whether it is right.
    fn step(&mut self, number: usize) -> Result<bool, AllocError> {
        let Some((side, at, event)) = self.log.at(number) else {
            return Ok(false);
        };
        let here = Here {
            number: number as u64,
            side,
            at,
            unit: event.before,
        };
        match event.act {
            Act::Sends(said) => self.sends(here, said),
            Act::Keeps { said, came, gap } => {
                if let Some(gap) = gap {
                    if !self.keeps(here, said, gap)? {
                        return Ok(true);
                    }
                }
                let other = side.other();
                let tag = self.tags.of_unit(other, self.log.side(other), came);
                self.receives(here, said, tag)
            }
            Act::Starts => {
                if self.pass_point(here, 0, 0, Kind::Starts)? == Some(Choice::Boots) {
                    self.book.boot(side)?;
                }
                Ok(true)
            }
        }
    }

    // Whether a packet that may not have been kept is.
    fn keeps(&mut self, here: Here, said: Said, gap: Gap) -> Result<bool, AllocError> {
        let number = self.log.side(here.side).number(gap.first);
        let key = gap_key_of(number);
        if said.turns_a_link() {
            self.points.push(Point {
                number,
                key,
                side: here.side,
                own: said.to,
                far: said.from,
                kind: Kind::Keeps { most: gap.place },
            })?;
        }
        match self.choice(key) {
            Some(Choice::Keeps { most }) => Ok(gap.place < most),
            _ => Ok(true),
        }
    }
}
