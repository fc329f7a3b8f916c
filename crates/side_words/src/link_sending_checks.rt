//! The check of the links that a sent message does not pass, in words.

use crate::link_check_fields::{write_ack_range, write_missing, write_numbers, write_wanted};
use crate::link_line::phase_name;
use crate::nodes::nodes_words;
use crate::piece_fields::{ShapeWords, write_next};
use dna_links::{LinkQueue, Phase, Said};
use nsp_link::FailedLinkSending;
use record_words::lines::Lines;
use record_words::words::ByteCount;
use std::fmt::{self, Formatter, Write};

/// The name of the check.
pub fn link_sending_check(failed: FailedLinkSending) -> &'static str {
    match failed {
        FailedLinkSending::Nodes { .. } => "nodes",
        FailedLinkSending::NoLink(_) => "link",
        FailedLinkSending::Phase { .. } => "phase",
        FailedLinkSending::Turn { .. } => "phase",
        FailedLinkSending::Live { .. } => "phase",
        FailedLinkSending::Acknowledgement { .. } => "acknowledgement",
        FailedLinkSending::Room { .. } => "window",
        FailedLinkSending::Length { .. } => "segment length",
        FailedLinkSending::NextPiece { .. } => "next piece",
        FailedLinkSending::Number { .. } => "segment number",
        FailedLinkSending::AsFirstGiven { .. } => "as first given",
    }
}

/// Writes what there is where a message does not pass the check, with the digits of the first bytes that are compared.
pub fn write_link_sending_seen<W: Write>(
    f: &mut Formatter<W>,
    failed: FailedLinkSending,
    front: &str,
    lines: Lines,
) -> fmt::Result {
    match failed {
        FailedLinkSending::Nodes { seen, .. } => write!(f, "{}", nodes_words(seen)),
        FailedLinkSending::NoLink(missing) => write_missing(f, missing, lines),
        FailedLinkSending::Phase { seen, .. } => write!(f, "a link in {}", phase_name(seen)),
        FailedLinkSending::Turn {
            seen,
            queue,
            allowed,
            ..
        } => {
            write!(f, "a link in {}", phase_name(seen))?;
            f.write_str(turn_seen(queue, allowed))
        }
        FailedLinkSending::Live { .. } => f.write_str("a DC between the addresses of a live link"),
        FailedLinkSending::Acknowledgement { seen, .. } => write!(f, "ACK {seen}"),
        FailedLinkSending::Room { seen, .. } => {
            write!(f, "a new segment while {seen} are outstanding")
        }
        FailedLinkSending::Length { seen, .. } => write!(f, "{}", ByteCount { count: seen }),
        FailedLinkSending::NextPiece { seen, .. } => {
            write!(f, "{}", ShapeWords { shape: seen, front })
        }
        FailedLinkSending::Number { seen, .. } => write!(f, "segment {seen}"),
        FailedLinkSending::AsFirstGiven { number, seen, .. } => {
            let shape = ShapeWords { shape: seen, front };
            write!(f, "segment {number} again, but changed: {shape}")
        }
    }
}

/// Writes what would be right there, with the digits of the first bytes: with it the check is passed.
pub fn write_link_sending_allowed<W: Write>(
    f: &mut Formatter<W>,
    failed: FailedLinkSending,
    front: &str,
) -> fmt::Result {
    match failed {
        FailedLinkSending::Nodes { allowed, .. } => { write!(f, "{}", nodes_words(allowed)) }
        FailedLinkSending::NoLink(missing) => write_wanted(f, missing.wanted),
        FailedLinkSending::Phase { allowed, .. } => {
            write!(f, "a link in {}", phase_name(allowed))
        }
        FailedLinkSending::Turn { allowed, .. } => f.write_str(turn_allowed(allowed)),
        FailedLinkSending::Live { .. } => f.write_str("a DC between the addresses of none"),
        FailedLinkSending::Acknowledgement { allowed, .. } => write_ack_range(f, allowed),
        FailedLinkSending::Room { allowed, .. } => {
            write!(f, "a new segment while at most {allowed} are outstanding")
        }
        FailedLinkSending::Length { allowed, .. } => {
            let bytes = ByteCount {
                count: usize::from(allowed),
            };
            write!(f, "at most {bytes}, the SEGSIZE of the other end")
        }
        FailedLinkSending::NextPiece { seen, allowed } => {
            write_next(f, seen.length, allowed, front)
        }
        FailedLinkSending::Number { allowed, .. } => {
            f.write_str("segment ")?;
            write_numbers(f, allowed)
        }
        FailedLinkSending::AsFirstGiven {
            number,
            allowed,
            ..
        } => {
            let shape = ShapeWords {
                shape: allowed,
                front,
            };
            write!(f, "segment {number} again, as first sent: {shape}")
        }
    }
}

// With queues: what keeps a link from sending a message that asks for this phase.
fn turn_seen(queue: LinkQueue, wanted: Phase) -> &'static str {
    match wanted {
        Phase::Running => match queue.ran {
            true => " that has sent a DI",
            false => " that has not reached RUN",
        },
        Phase::Confirming if !queue.accepted => " that was not accepted",
        Phase::Calling | Phase::Confirming => match queue.said {
            Said::Nothing => "",
            Said::OfRun => " that has sent a message of RUN",
            Said::Disconnect => " that has sent a DI",
        },
        Phase::Called | Phase::Disconnecting | Phase::Ended => "",
    }
}

// The link that a message may be sent on which asks for this phase.
fn turn_allowed(wanted: Phase) -> &'static str {
    match wanted {
        Phase::Calling => "a link that has sent no message of RUN and no DI",
        Phase::Confirming => "a link that was accepted and has sent no message of RUN and no DI",
        Phase::Running => "a link that has reached RUN and sent no DI",
        Phase::Called | Phase::Disconnecting | Phase::Ended => "a link in DI",
    }
}
