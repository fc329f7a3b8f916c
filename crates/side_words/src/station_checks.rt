//! The check of the station that a sent message does not pass, in words.

use crate::causes::write_allowed_reasons;
use crate::data_bytes::{write_first_byte, write_seen_byte};
use crate::state_line::state_name;
use ddcmp_msg::Reading;
use ddcmp_station::{FailedSending, State};
use record_words::lines::Lines;
use record_words::unit_words::ReadingName;
use record_words::words::words_if;
use std::fmt::{self, Formatter, Write};

/// The name of the check in the tables of a station.
pub fn sending_check(failed: FailedSending) -> &'static str {
    match failed {
        FailedSending::State { .. } => "State",
        FailedSending::RespIsLast { .. } => "RespIsLast",
        FailedSending::NumIsNext { .. } => "NumIsNext",
        FailedSending::NumIsHighest { .. } => "NumIsHighest",
        FailedSending::SomeOutstanding => "SomeOutstanding",
        FailedSending::RoomIfNew { .. } => "RoomIfNew",
        FailedSending::AsFirstGiven { .. } => "AsFirstGiven",
        FailedSending::CauseIsOpen { .. } => "CauseIsOpen",
    }
}

/// Writes what there is where a message does not pass the check, and what halted the station, if that is why.
pub fn write_sending_seen<W: Write>(
    f: &mut Formatter<W>,
    failed: FailedSending,
    reading: Reading<'_>,
    lines: Lines,
) -> fmt::Result {
    match failed {
        FailedSending::State { seen } => {
            let name = ReadingName { reading };
            write!(f, "{name} in {}", state_name(seen))?;
            write_halted(f, seen, lines)
        }
        FailedSending::RespIsLast { seen, .. } => write!(f, "RESP {seen}"),
        FailedSending::NumIsNext { seen, .. } => write!(f, "NUM {seen}"),
        FailedSending::NumIsHighest { seen, .. } => write!(f, "NUM {seen}"),
        FailedSending::SomeOutstanding => f.write_str("a REP while no packet is outstanding"),
        FailedSending::RoomIfNew { seen, .. } => {
            write!(f, "a new packet while {seen} are outstanding")
        }
        FailedSending::AsFirstGiven { seen, .. } => write_seen_byte(f, seen),
        FailedSending::CauseIsOpen { seen, .. } => {
            let reason = seen.number();
            write!(f, "a NAK of reason {reason}, of which no cause is open")
        }
    }
}

// Writes by which line a station is halted, where that was a STRT.
fn write_halted<W: Write>(f: &mut Formatter<W>, state: State, lines: Lines) -> fmt::Result {
    match (state, lines.halted) {
        (State::Halted, Some(line)) => write!(f, ", halted by the STRT on line {line}"),
        _ => Ok(()),
    }
}

/// Writes what would be right there: with it the check is passed.
pub fn write_sending_allowed<W: Write>(f: &mut Formatter<W>, failed: FailedSending) -> fmt::Result {
    match failed {
        FailedSending::State { seen } => f.write_str(allowed_in(seen)),
        FailedSending::RespIsLast { allowed, .. } => write!(f, "RESP {allowed}"),
        FailedSending::NumIsNext { allowed, again, .. } => {
            write!(
                f,
                "NUM {allowed}{}",
                words_if(again, " (again, as first sent)")
            )
        }
        FailedSending::NumIsHighest { allowed, .. } => write!(f, "NUM {allowed}"),
        FailedSending::SomeOutstanding => f.write_str("a REP while a packet is outstanding"),
        FailedSending::RoomIfNew { allowed, .. } => {
            write!(f, "a new packet while at most {allowed} are outstanding")
        }
        FailedSending::AsFirstGiven {
            number,
            allowed,
            ..
        } => write_first_byte(f, number, allowed),
        FailedSending::CauseIsOpen { open_causes, .. } => write_allowed_reasons(f, open_causes),
    }
}

// What a state's row has.
fn allowed_in(state: State) -> &'static str {
    match state {
        State::Halted => "nothing in HALTED",
        State::Istrt => "STRT in ISTRT",
        State::Astrt => "STACK in ASTRT",
        State::Running => "ACK, NAK, REP or data in RUNNING",
    }
}
