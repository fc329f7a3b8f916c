//! What the search proposes: what is assumed at the points that were passed.

use crate::event::Act;
use crate::point::{Choice, Point};
use crate::seeker::Seeker;
use crate::sifted::Proposal;
use placing::Assumed;
use std::alloc::AllocError;
use std::collections::BTreeSet;

impl Seeker<'_> {
    /// What is assumed at the points that were passed. `AllocError` where there is no memory for it.
    pub(crate) fn proposals(&self) -> Result<Vec<Proposal>, AllocError> {
        let mut proposals = Vec::new(self.alloc);
        let mut told = BTreeSet::new(self.alloc);
        for at in 0..self.points.len() {
            let Some(point) = self.points.get(at).copied() else {
                break;
            };
            let Some(choice) = self.choice(point.key) else {
                continue;
            };
            match told.insert(point.key) {
                Ok(true) => self.put_proposal(&mut proposals, point, choice)?,
                Ok(false) => {}
                Err(_) => return Err(AllocError),
            }
        }
        Ok(proposals)
    }

    fn put_proposal(
        &self,
        proposals: &mut Vec<Proposal>,
        point: Point,
        choice: Choice,
    ) -> Result<(), AllocError> {
        let Some((_, _, event)) = self.log.at(point.number as usize) else {
            return Ok(());
        };
        match choice {
            Choice::Anew { is_anew, given_up } => {
                if let Some(call) = given_up {
                    self.put_given_up(proposals, point, call)?;
                }
                put(proposals, point, event.spot, Assumed::Anew { is_anew })
            }
            Choice::GivesUp { call } => self.put_given_up(proposals, point, call),
            Choice::Answers { link, accepts } => {
                let Act::Keeps { came, .. } = event.act else {
                    return Ok(());
                };
                let answers = Assumed::Answers {
                    came,
                    partner: point.far,
                    link,
                    accepts,
                };
                put(proposals, point, event.spot, answers)
            }
            Choice::Keeps { most } => {
                let Act::Keeps { gap: Some(gap), .. } = event.act else {
                    return Ok(());
                };
                put(proposals, point, gap.start, Assumed::Keeps { most })
            }
            Choice::Boots => put(proposals, point, event.spot, Assumed::Boots),
        }
    }

    // The call of this unit of the side is given up.
    fn put_given_up(
        &self,
        proposals: &mut Vec<Proposal>,
        point: Point,
        call: u64,
    ) -> Result<(), AllocError> {
        let log = self.log.side(point.side);
        let Some(at) = log.first_sending(call) else {
            return Ok(());
        };
        match log.event(at) {
            Some(event) => put(proposals, point, event.spot, Assumed::GivesUp),
            None => Ok(()),
        }
    }
}

fn put(
    proposals: &mut Vec<Proposal>,
    point: Point,
    place: u64,
    what: Assumed,
) -> Result<(), AllocError> {
    proposals.push(Proposal {
        side: point.side,
        place,
        what,
    })?;
    Ok(())
}
