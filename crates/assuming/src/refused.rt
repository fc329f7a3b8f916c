//! A record that is refused, and the points that may matter to it.

use crate::event::{Act, What};
use crate::point::Point;
use crate::seeker::Seeker;
use crate::tracks::{Track, place_of};
use std::alloc::AllocError;
use std::collections::BTreeSet;
use wire_base::Side;

// So many points back from the record something is assumed at most.
const BACK: usize = 8_192;

/// Of each kind something is assumed at so many points that are nearest to the record.
pub(crate) const MOST: usize = 16;

/// The record that is refused: its side, which message it is, and the addresses as that side sees them.
#[derive(Clone, Copy)]
pub(crate) struct Refused {
    pub(crate) side: Side,
    pub(crate) is_sent: bool,
    pub(crate) what: What,
    pub(crate) own: u16,
    pub(crate) far: u16,
}

impl Seeker<'_> {
    /// The record at this place, as one that is refused.
    pub(crate) fn refused(&self, number: usize) -> Option<Refused> {
        let (side, _, event) = self.log.at(number)?;
        match event.act {
            Act::Sends(said) => Some(Refused {
                side,
                is_sent: true,
                what: said.what,
                own: said.from,
                far: said.to,
            }),
            Act::Keeps { said, .. } => Some(Refused {
                side,
                is_sent: false,
                what: said.what,
                own: said.to,
                far: said.from,
            }),
            Act::Starts => None,
        }
    }

    /// The points that were passed and are nearest to this record, `MOST` on each track that may matter to it; the last one first. `AllocError` where
    /// there is no memory for them.
    pub(crate) fn near(&mut self, refused: Refused) -> Result<Vec<Point>, AllocError> {
        self.track_points()?;
        let from = self.points.len().saturating_sub(BACK);
        let mut noted = BTreeSet::new(self.alloc);
        for track in refused.tracks() {
            self.tracks.note_last(track, MOST, from, &mut noted)?;
        }
        let mut near = Vec::new(self.alloc);
        for behind in &noted {
            if let Some(point) = self.points.get(place_of(*behind)) {
                near.push(*point)?;
            }
        }
        Ok(near)
    }

    // All points that were passed are on their tracks.
    fn track_points(&mut self) -> Result<(), AllocError> {
        for at in self.tracks.count()..self.points.len() {
            if let Some(point) = self.points.get(at).copied() {
                let is_chosen = self.choice(point.key).is_some();
                self.tracks.add(point, is_chosen)?;
            }
        }
        Ok(())
    }
}

impl Refused {
    // The tracks of what may be assumed for it.
    fn tracks(self) -> [Track; 9] {
        let (side, other) = (self.side, self.side.other());
        [
            Track::Starts(side),
            Track::Starts(other),
            Track::Keeps,
            Track::Meant(side, self.own),
            Track::Meant(other, self.far),
            Track::GivenUp(side, self.own),
            Track::GivenUp(other, self.far),
            Track::Called(side, self.far),
            Track::Answered(side, self.far),
        ]
    }

    /// Whether something that is assumed there may matter to it: one address of the link is the same.
    pub(crate) fn is_about(self, point: Point) -> bool {
        let (own, far) = match point.side == self.side {
            true => (point.own, point.far),
            false => (point.far, point.own),
        };
        is_same(own, self.own) || is_same(far, self.far)
    }
}

fn is_same(address: u16, other: u16) -> bool {
    address == other && address != 0
}
