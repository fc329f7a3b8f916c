//! What is assumed of a side at its units and at those of the other side.

use crate::turn::{Assumed, Turn};
use crate::user_link::Answer;
use std::alloc::{AllocError, Global};
use std::collections::{BTreeMap, BTreeSet};
use wire_base::Side;

/// The units of a side before whose start its node boots, those whose call is given up, those that begin something anew or go again, and the
/// units of the other side after which a call is answered.
#[derive(Drop)]
pub(crate) struct Turned {
    boots: BTreeSet<u64>,
    given_up: BTreeSet<u64>,
    anew: BTreeMap<u64, bool>,
    answers: BTreeMap<u64, Answer>,
}

impl Turned {
    /// What these turns say of a side. `AllocError` where there is no memory for it.
    pub(crate) fn of(alloc: Global, side: Side, turns: &[Turn]) -> Result<Turned, AllocError> {
        let mut turned = Turned {
            boots: BTreeSet::new(alloc),
            given_up: BTreeSet::new(alloc),
            anew: BTreeMap::new(alloc),
            answers: BTreeMap::new(alloc),
        };
        for turn in turns {
            if turn.side == side {
                turned.add(*turn)?;
            }
        }
        Ok(turned)
    }

    fn add(&mut self, turn: Turn) -> Result<(), AllocError> {
        match turn.what {
            Assumed::Keeps { most: _ } => Ok(()),
            Assumed::Boots => put(&mut self.boots, turn.unit),
            Assumed::GivesUp => put(&mut self.given_up, turn.unit),
            Assumed::Anew { is_anew } => match self.anew.insert(turn.unit, is_anew) {
                Ok(_) => Ok(()),
                Err(_) => Err(AllocError),
            },
            Assumed::Answers {
                came,
                partner,
                link,
                accepts,
            } => {
                let answer = Answer {
                    partner,
                    link,
                    accepts,
                };
                match self.answers.insert(came, answer) {
                    Ok(_) => Ok(()),
                    Err(_) => Err(AllocError),
                }
            }
        }
    }

    /// Whether the node boots before the start before this unit.
    pub(crate) fn boots_before(&self, unit: u64) -> bool {
        self.boots.get(&unit).is_some()
    }

    /// Whether the call of this unit is given up.
    pub(crate) fn gives_up(&self, unit: u64) -> bool {
        self.given_up.get(&unit).is_some()
    }

    /// Whether this unit begins something anew, where that is assumed of it.
    pub(crate) fn is_anew(&self, unit: u64) -> Option<bool> {
        self.anew.get(&unit).copied()
    }

    /// How the call is answered whose CI is in this unit of the other side, where that is assumed.
    pub(crate) fn answer_to(&self, unit: u64) -> Option<Answer> {
        self.answers.get(&unit).copied()
    }
}

fn put(units: &mut BTreeSet<u64>, unit: u64) -> Result<(), AllocError> {
    match units.insert(unit) {
        Ok(_) => Ok(()),
        Err(_) => Err(AllocError),
    }
}
