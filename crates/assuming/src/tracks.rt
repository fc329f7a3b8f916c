//! Where the points are that may matter to a record, so that they are found without a look at all that were passed.

use crate::point::{Kind, Point};
use std::alloc::{AllocError, Global};
use std::collections::BTreeSet;
use wire_base::Side;

/// Points at which the same may be assumed, of one side and one address.
#[derive(Clone, Copy, PartialEq, Eq)]
pub(crate) enum Track {
    /// Starts of this side.
    Starts(Side),
    /// Packets that may not have been kept.
    Keeps,
    /// Messages that may mean something else, of links with this address at this side.
    Meant(Side, u16),
    /// Calls that may be given up, likewise.
    GivenUp(Side, u16),
    /// Calls that began at this side, from this far address.
    Called(Side, u16),
    /// Those among them of which something is assumed.
    Answered(Side, u16),
}

/// Points that were passed, by their tracks.
#[derive(Drop)]
pub(crate) struct Tracks {
    // the kind of a track, its address, and how far the place of a point is below the highest number, so that the last point comes first
    places: BTreeSet<(u8, u16, u64)>,
    // of how many points from the first one on
    count: usize,
}

impl Tracks {
    /// Of no point.
    pub(crate) fn new(alloc: Global) -> Tracks {
        Tracks {
            places: BTreeSet::new(alloc),
            count: 0,
        }
    }

    /// Of how many points they are, from the first one on.
    pub(crate) fn count(&self) -> usize {
        self.count
    }

    /// The next point is on its tracks too. `AllocError` where there is no memory for it.
    pub(crate) fn add(&mut self, point: Point, is_chosen: bool) -> Result<(), AllocError> {
        let behind = behind(self.count);
        let (first, second) = tracks_of(point);
        self.put(first, behind)?;
        if let Some(second) = second {
            if is_chosen || point.kind != Kind::Called {
                self.put(second, behind)?;
            }
        }
        self.count = self.count.saturating_add(1);
        Ok(())
    }

    fn put(&mut self, track: Track, behind: u64) -> Result<(), AllocError> {
        let (kind, address) = track.key();
        self.places.insert((kind, address, behind))?;
        Ok(())
    }

    /// Of these points so many are left, and all others are on no track.
    pub(crate) fn truncate(&mut self, points: &[Point], left: usize) {
        for at in left..self.count {
            if let Some(point) = points.get(at) {
                let (first, second) = tracks_of(*point);
                self.remove(first, behind(at));
                if let Some(second) = second {
                    self.remove(second, behind(at));
                }
            }
        }
        self.count = self.count.min(left);
    }

    fn remove(&mut self, track: Track, behind: u64) {
        let (kind, address) = track.key();
        self.places.remove(&(kind, address, behind));
    }

    /// Notes the last points of this track, so many at most, none of them before this place: for each how far it is below the highest number.
    /// `AllocError` where there is no memory for them.
    pub(crate) fn note_last(
        &self,
        track: Track,
        most: usize,
        from: usize,
        noted: &mut BTreeSet<u64>,
    ) -> Result<(), AllocError> {
        let (kind, address) = track.key();
        for place in self.places.range((kind, address, 0)..).take(most) {
            let (of, at, below) = *place;
            if of != kind || at != address || place_of(below) < from {
                break;
            }
            noted.insert(below)?;
        }
        Ok(())
    }
}

impl Track {
    // What tells it from all others.
    fn key(self) -> (u8, u16) {
        match self {
            Track::Keeps => (0, 0),
            Track::Starts(side) => (of_side(side, 1, 2), 0),
            Track::Meant(side, address) => (of_side(side, 3, 4), address),
            Track::GivenUp(side, address) => (of_side(side, 5, 6), address),
            Track::Called(side, far) => (of_side(side, 7, 8), far),
            Track::Answered(side, far) => (of_side(side, 9, 10), far),
        }
    }
}

fn of_side(side: Side, a: u8, b: u8) -> u8 {
    match side {
        Side::A => a,
        Side::B => b,
    }
}

// The tracks that a point may be on: of a call the second one only where something is assumed of it.
fn tracks_of(point: Point) -> (Track, Option<Track>) {
    let (side, other) = (point.side, point.side.other());
    match point.kind {
        Kind::Starts => (Track::Starts(side), None),
        Kind::Keeps { most: _ } => (Track::Keeps, None),
        Kind::Either {
            is_anew: false,
            call: Some(_),
        }
        | Kind::GivesUp { call: _ } => (
            Track::GivenUp(side, point.own),
            Some(Track::GivenUp(other, point.far)),
        ),
        Kind::Either { .. } => (
            Track::Meant(side, point.own),
            Some(Track::Meant(other, point.far)),
        ),
        Kind::Called => (
            Track::Called(side, point.far),
            Some(Track::Answered(side, point.far)),
        ),
    }
}

// How far this place is below the highest number.
fn behind(place: usize) -> u64 {
    u64::MAX - place as u64
}

/// The place that is so far below the highest number.
pub(crate) fn place_of(behind: u64) -> usize {
    (u64::MAX - behind) as usize
}
