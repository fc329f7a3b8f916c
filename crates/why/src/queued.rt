//! What is answered of the same captures as those of nodes with queues.

use crate::accusation::Excuse;
use capture::Departure;
use pair_judge::Reason;
use record_words::words::words_if;
use std::fmt::{self, Formatter, Write};
use wire_base::Side;

/// What is answered of the same captures as those of nodes with a queue between NSP and DDCMP, where such a node may do what is refused: of a pair by
/// `check --queued`, of one end by `alone --queued`.
#[derive(Clone, Copy, PartialEq, Eq)]
pub enum QueuedAnswer {
    /// It was not asked, and nothing is excused: no queue explains such a reason, or such nodes were judged already.
    NotAsked,
    /// It could not be asked: a capture can't be read again.
    NotKnown,
    /// The pair is a run of such nodes, or the end passes.
    Accepted,
    /// It is none: this record is refused, counted from 0; of one end perhaps by the other one.
    Refused {
        side: Side,
        place: u64,
        reason: Reason,
        by_other_end: bool,
    },
    /// Up to this line, by which the text of this side departs from its format, it may be one.
    Departs {
        side: Side,
        kind: Departure,
        line: u64,
    },
}

impl QueuedAnswer {
    /// What this tells of the record of this side and number that is refused without queues. Where with them it is refused only since a unit that it
    /// names is not there (3, 4), it may be one of such nodes.
    pub fn excuse(self, side: Side, place: u64) -> Excuse {
        match self {
            QueuedAnswer::NotAsked => Excuse::Refused,
            QueuedAnswer::NotKnown | QueuedAnswer::Departs { .. } => Excuse::Perhaps,
            QueuedAnswer::Accepted => Excuse::Accepted,
            QueuedAnswer::Refused {
                side: other_side,
                place: other_place,
                reason,
                ..
            } => {
                if side == other_side && place == other_place && !is_of_what_lacks(reason) {
                    return Excuse::Refused;
                }
                Excuse::Perhaps
            }
        }
    }
}

// Whether this reason says only that a unit is not there.
fn is_of_what_lacks(reason: Reason) -> bool {
    match reason {
        Reason::NoSuchUnit | Reason::NoOrder => true,
        _ => false,
    }
}

/// Of what it is told.
#[derive(Clone, Copy, PartialEq, Eq)]
pub enum Whole {
    /// Of a pair.
    Pair,
    /// Of one end.
    End,
}

impl Whole {
    fn word(self) -> &'static str {
        match self {
            Whole::Pair => "check",
            Whole::End => "alone",
        }
    }
}

/// A row that tells it, with its LF; nothing where it was not asked.
#[derive(Clone, Copy)]
pub struct QueuedRow {
    pub whole: Whole,
    pub answer: QueuedAnswer,
}

impl fmt::Display for QueuedRow {
    fn fmt<W: Write>(&self, f: &mut Formatter<W>) -> fmt::Result {
        let word = self.whole.word();
        match self.answer {
            QueuedAnswer::NotAsked | QueuedAnswer::NotKnown => Ok(()),
            QueuedAnswer::Accepted => match self.whole {
                Whole::Pair => f.write_str("queued   ddcap check --queued accepts this pair\n"),
                Whole::End => f.write_str("queued   ddcap alone --queued passes this capture\n"),
            },
            QueuedAnswer::Refused {
                side,
                place,
                reason,
                by_other_end,
            } => {
                let line = u128::from(place) + 2;
                let number = reason.number();
                let by = words_if(by_other_end, "\n         by the other end");
                write!(
                    f,
                    "queued   ddcap {word} --queued refuses {side} {place} line {line}: {number} {reason}{by}\n"
                )
            }
            QueuedAnswer::Departs { side, kind, line } => {
                write!(
                    f,
                    "queued   ddcap {word} --queued answers {side}: line {line}: {kind}\n"
                )
            }
        }
    }
}

/// The same as a JSON object with its LF.
#[derive(Clone, Copy)]
pub struct QueuedObject {
    pub whole: Whole,
    pub answer: QueuedAnswer,
}

impl fmt::Display for QueuedObject {
    fn fmt<W: Write>(&self, f: &mut Formatter<W>) -> fmt::Result {
        match self.answer {
            QueuedAnswer::NotAsked | QueuedAnswer::NotKnown => Ok(()),
            QueuedAnswer::Accepted => {
                let passed = match self.whole {
                    Whole::Pair => "accepted",
                    Whole::End => "passed",
                };
                write!(f, "{{\"what\": \"queued\", \"answer\": \"{passed}\"}}\n")
            }
            QueuedAnswer::Refused {
                side,
                place,
                reason,
                by_other_end,
            } => {
                let line = u128::from(place) + 2;
                let number = reason.number();
                let by = words_if(by_other_end, ", \"accuses\": \"other end\"");
                write!(
                    f,
                    "{{\"what\": \"queued\", \"answer\": \"refused\", \"side\": \"{side}\", \"record\": {place}, \"line\": {line}, "
                )?;
                write!(f, "\"number\": {number}, \"name\": \"{reason}\"{by}}}\n")
            }
            QueuedAnswer::Departs { side, kind, line } => write!(
                f,
                "{{\"what\": \"queued\", \"answer\": \"fault\", \"side\": \"{side}\", \"line\": {line}, \"fault\": \"{kind}\"}}\n"
            ),
        }
    }
}
