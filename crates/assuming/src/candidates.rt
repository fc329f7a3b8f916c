//! What may be assumed for a record that is refused, in the order in which it is tried.

use crate::event::What;
use crate::point::{Choice, Kind, Point};
use crate::refused::{MOST, Refused};
use crate::seeker::Seeker;
use std::alloc::{AllocError, Global};
use wire_base::Side;

/// What is assumed at this place, which is not what is assumed there now. Of two that mend the one of the lower rank is taken.
#[derive(Clone, Copy)]
pub(crate) struct Candidate {
    pub(crate) number: u64,
    pub(crate) key: u64,
    pub(crate) choice: Option<Choice>,
    pub(crate) rank: u8,
}

// Candidates in the order in which they are tried: first that a message means something else, or that a call was answered earlier; then that fewer
// packets were kept, at the last starts before all others; that a call was given up; and that a node booted, at the first starts before all
// others, since that ends fewest links.
#[derive(Drop)]
struct Sorted {
    meant: Vec<Candidate>,
    kept: Vec<Candidate>,
    given_up: Vec<Candidate>,
    own_boots: Vec<Candidate>,
    other_boots: Vec<Candidate>,
}

impl Seeker<'_> {
    /// What may be assumed for the record at this place, in that order. `AllocError` where there is no memory for it.
    pub(crate) fn candidates(&mut self, number: usize) -> Result<Vec<Candidate>, AllocError> {
        let mut sorted = Sorted::new(self.alloc);
        let Some(refused) = self.refused(number) else {
            return Ok(sorted.meant);
        };
        for point in &self.refused {
            self.put_point(*point, refused, &mut sorted)?;
        }
        for point in &self.near(refused)? {
            self.put_point(*point, refused, &mut sorted)?;
        }
        sorted.all()
    }

    fn put_point(
        &self,
        point: Point,
        refused: Refused,
        sorted: &mut Sorted,
    ) -> Result<(), AllocError> {
        let now = self.choice(point.key);
        match point.kind {
            Kind::Starts => sorted.put_boot(point, now, refused.side),
            Kind::Keeps { most } => sorted.put_kept(point, now, most),
            _ if !refused.is_about(point) => Ok(()),
            Kind::Either { is_anew, call } => {
                let given_up = match is_anew {
                    true => None,
                    false => call,
                };
                let choice = Some(Choice::Anew {
                    is_anew: !is_anew,
                    given_up,
                });
                match given_up {
                    Some(_) => put(&mut sorted.given_up, point, choice),
                    None => put(&mut sorted.meant, point, choice),
                }
            }
            Kind::GivesUp { call } => {
                let choice = match now {
                    Some(_) => None,
                    None => Some(Choice::GivesUp { call }),
                };
                put(&mut sorted.given_up, point, choice)
            }
            Kind::Called => self.put_called(point, now, refused, sorted),
        }
    }

    // A call that began, which may have been answered at once.
    fn put_called(
        &self,
        point: Point,
        now: Option<Choice>,
        refused: Refused,
        sorted: &mut Sorted,
    ) -> Result<(), AllocError> {
        if !refused.is_sent || point.side != refused.side || point.far != refused.far {
            return Ok(());
        }
        let choice = self.answer_before(refused);
        if choice.is_some() && choice != now {
            put(&mut sorted.meant, point, choice)?;
        }
        if now.is_some() {
            return put(&mut sorted.meant, point, None);
        }
        Ok(())
    }

    // How the call was answered of which this is sent, if it was.
    fn answer_before(&self, refused: Refused) -> Option<Choice> {
        let link = refused.own;
        match refused.what {
            What::Confirm => Some(Choice::Answers {
                link,
                accepts: true,
            }),
            What::Disconnect => Some(Choice::Answers {
                link,
                accepts: false,
            }),
            What::Confirmed => {
                let answered = self.book.link(refused.side, link)?;
                Some(Choice::Answers {
                    link,
                    accepts: answered.is_accepted,
                })
            }
            What::ConnectAck => Some(Choice::Answers {
                link: self.log.side(refused.side).free_address(),
                accepts: false,
            }),
            _ => None,
        }
    }
}

fn put(
    candidates: &mut Vec<Candidate>,
    point: Point,
    choice: Option<Choice>,
) -> Result<(), AllocError> {
    if candidates.len() >= MOST {
        return Ok(());
    }
    candidates.push(Candidate {
        number: point.number,
        key: point.key,
        choice,
        rank: 0,
    })?;
    Ok(())
}

impl Sorted {
    fn new(alloc: Global) -> Sorted {
        Sorted {
            meant: Vec::new(alloc),
            kept: Vec::new(alloc),
            given_up: Vec::new(alloc),
            own_boots: Vec::new(alloc),
            other_boots: Vec::new(alloc),
        }
    }

    fn put_boot(
        &mut self,
        point: Point,
        now: Option<Choice>,
        side: Side,
    ) -> Result<(), AllocError> {
        let boots = match point.side == side {
            true => &mut self.own_boots,
            false => &mut self.other_boots,
        };
        match now {
            Some(_) => put(boots, point, None),
            None => put(boots, point, Some(Choice::Boots)),
        }
    }

    fn put_kept(&mut self, point: Point, now: Option<Choice>, most: u64) -> Result<(), AllocError> {
        let choice = Some(Choice::Keeps { most });
        match choice == now {
            true => put(&mut self.kept, point, None),
            false => put(&mut self.kept, point, choice),
        }
    }

    // All of them, in order.
    fn all(self) -> Result<Vec<Candidate>, AllocError> {
        let Sorted {
            meant,
            kept,
            given_up,
            own_boots,
            other_boots,
        } = self;
        let mut all = meant;
        put_ranked(&mut all, kept.as_slice(), 1)?;
        put_ranked(&mut all, given_up.as_slice(), 2)?;
        put_reversed(&mut all, own_boots, 3)?;
        put_reversed(&mut all, other_boots, 3)?;
        Ok(all)
    }
}

fn put_ranked(all: &mut Vec<Candidate>, of: &[Candidate], rank: u8) -> Result<(), AllocError> {
    for candidate in of {
        all.push(Candidate { rank, ..*candidate })?;
    }
    Ok(())
}

fn put_reversed(
    all: &mut Vec<Candidate>,
    mut of: Vec<Candidate>,
    rank: u8,
) -> Result<(), AllocError> {
    for _ in 0..of.len() {
        if let Some(candidate) = of.pop() {
            all.push(Candidate { rank, ..candidate })?;
        }
    }
    Ok(())
}
