//! The walk over what both sides did, which goes on past what is mended by an assumption.

use crate::book::Book;
use crate::log::Log;
use crate::point::{Choice, Kind, Point, key_of};
use crate::tags::Tags;
use crate::tracks::Tracks;
use std::alloc::{AllocError, Global};
use std::collections::BTreeMap;
use wire_base::Side;

/// Where a step is made: its place in the order, the side, the event among those of the side, and how many units it had sent.
#[derive(Clone, Copy)]
pub(crate) struct Here {
    pub(crate) number: u64,
    pub(crate) side: Side,
    pub(crate) at: u64,
    pub(crate) unit: u64,
}

/// How much was kept before a step.
#[derive(Clone, Copy)]
pub(crate) struct Mark {
    pub(crate) changes: usize,
    pub(crate) points: usize,
}

/// What both sides did, the links after so much of it, what is assumed, and where more may be.
#[derive(Drop)]
pub(crate) struct Seeker<'l> {
    pub(crate) log: &'l Log,
    pub(crate) tags: Tags,
    pub(crate) book: Book,
    pub(crate) points: Vec<Point>,
    // those of the points that were looked at since they were passed
    pub(crate) tracks: Tracks,
    // the points of the step that was refused last
    pub(crate) refused: Vec<Point>,
    // the spot of the first unit at which a user's message is longer than a capture can tell
    pub(crate) too_long: Option<(Side, u64)>,
    chosen: BTreeMap<u64, Choice>,
    pub(crate) marks: Vec<Mark>,
    pub(crate) alloc: Global,
}

impl<'l> Seeker<'l> {
    /// Before any event. `AllocError` where there is no memory for it.
    pub(crate) fn new(alloc: Global, log: &'l Log) -> Result<Seeker<'l>, AllocError> {
        Ok(Seeker {
            log,
            tags: Tags::of(alloc, log)?,
            book: Book::new(alloc),
            points: Vec::new(alloc),
            tracks: Tracks::new(alloc),
            refused: Vec::new(alloc),
            too_long: None,
            chosen: BTreeMap::new(alloc),
            marks: Vec::new(alloc),
            alloc,
        })
    }

    /// Goes to the end, or to a record for which nothing mends.
    pub(crate) fn seek(&mut self) -> Result<(), AllocError> {
        let all = self.log.order.len();
        for _ in 0..all.saturating_add(1) {
            let reached = self.go(all)?;
            if reached >= all || !self.mend(reached)? {
                return Ok(());
            }
        }
        Ok(())
    }

    /// What is assumed at the point with this mark.
    pub(crate) fn choice(&self, key: u64) -> Option<Choice> {
        self.chosen.get(&key).copied()
    }

    /// This is assumed at the point with this mark. `AllocError` where there is no memory for it.
    pub(crate) fn choose(&mut self, key: u64, choice: Option<Choice>) -> Result<(), AllocError> {
        match choice {
            Some(choice) => match self.chosen.insert(key, choice) {
                Ok(_) => Ok(()),
                Err(_) => Err(AllocError),
            },
            None => {
                let _ = self.chosen.remove(&key);
                Ok(())
            }
        }
    }

    /// A point is passed: what is assumed there.
    pub(crate) fn pass_point(
        &mut self,
        here: Here,
        own: u16,
        far: u16,
        kind: Kind,
    ) -> Result<Option<Choice>, AllocError> {
        let key = key_of(here.number);
        self.points.push(Point {
            number: here.number,
            key,
            side: here.side,
            own,
            far,
            kind,
        })?;
        Ok(self.choice(key))
    }
}
