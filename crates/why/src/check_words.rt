//! What is seen where a check is not passed, and what is allowed there.

use crate::checks::Check;
use crate::digits::Fronts;
use crate::unmarked_word::write_unmarked_word;
use pair_judge::{Awaited, FailedCheck};
use record_words::lines::Lines;
use record_words::nsp_words::nsp_fault_words;
use record_words::packet_words::packet_fault_words;
use record_words::unit_words::{ReadingName, ReadingWords};
use record_words::words::plural;
use side_words::arrival_checks::{write_arrival_allowed, write_arrival_seen};
use side_words::link_arrival_checks::{write_link_arrival_allowed, write_link_arrival_seen};
use side_words::link_event_checks::{write_link_event_allowed, write_link_event_seen};
use side_words::link_sending_checks::{write_link_sending_allowed, write_link_sending_seen};
use side_words::state_line::state_name;
use side_words::station_checks::{write_sending_allowed, write_sending_seen};
use side_words::undetected::{came_byte, sent_byte, write_byte};
use std::fmt::{self, Formatter, Write};
use wire_base::Side;

/// What there is in the record that does not pass the check, with the digits of its first bytes that are compared.
#[derive(Clone, Copy)]
pub struct Seen<'a, 't> {
    pub check: Check<'a, 't>,
}

impl fmt::Display for Seen<'_, '_> {
    fn fmt<W: Write>(&self, f: &mut Formatter<W>) -> fmt::Result {
        let side = self.check.side;
        let bytes = self.check.bytes;
        let reading = self.check.reading;
        let front = self.check.fronts.seen;
        match self.check.failed {
            FailedCheck::Message(_) => write!(f, "{}", ReadingWords { bytes, reading }),
            FailedCheck::HintOrder { seen, .. } => write!(f, "hint {seen}"),
            FailedCheck::NoSuchUnit(awaited) => write!(f, "hint {}", awaited.hint),
            FailedCheck::NoOrder { own, other } => {
                write_both_wait(f, side, own, other, self.check.lines)
            }
            FailedCheck::Undetected { .. } => {
                write!(f, "{}", ReadingName { reading })?;
                write_byte(f, came_byte(self.check.fronts.differs))
            }
            FailedCheck::StationSending(failed) => {
                write_sending_seen(f, failed, reading, self.check.lines)
            }
            FailedCheck::StationArrival(failed) => write_arrival_seen(f, side, failed, reading),
            FailedCheck::StationEvent { seen } => write!(f, "start in {}", state_name(seen)),
            FailedCheck::Packet(fault) => f.write_str(packet_fault_words(fault)),
            FailedCheck::Nsp(fault) => f.write_str(nsp_fault_words(fault)),
            FailedCheck::LinkSending(failed) => {
                write_link_sending_seen(f, failed, front, self.check.lines)?;
                write_unmarked_word(f, failed, bytes)
            }
            FailedCheck::LinkArrival(failed) => write_link_arrival_seen(f, side, failed),
            FailedCheck::LinkEvent(failed) => {
                write_link_event_seen(f, failed, front, self.check.lines)
            }
            FailedCheck::Noise => {
                let name = ReadingName { reading };
                write!(f, "{name}, and no block check shows damage")
            }
        }
    }
}

// Writes that both sides wait for a unit, and in which line the other one does.
fn write_both_wait<W: Write>(
    f: &mut Formatter<W>,
    side: Side,
    own: Awaited,
    other: Awaited,
    lines: Lines,
) -> fmt::Result {
    let sender = side.other();
    let Awaited { hint, sent } = own;
    let waits = other.hint;
    let s = plural(sent);
    write!(
        f,
        "hint {hint} while {sender} has sent {sent} unit{s} and waits"
    )?;
    if let Some(line) = lines.other_at {
        write!(f, " in its line {line}")?;
    }
    write!(f, " for hint {waits} of {side}")
}

/// What would be right there, with the digits of the first bytes: with it the check is passed.
#[derive(Clone, Copy)]
pub struct Allowed<'a, 't> {
    pub check: Check<'a, 't>,
}

impl fmt::Display for Allowed<'_, '_> {
    fn fmt<W: Write>(&self, f: &mut Formatter<W>) -> fmt::Result {
        let side = self.check.side;
        let other = side.other();
        let front = self.check.fronts.due;
        match self.check.failed {
            FailedCheck::Message(_) => f.write_str("a valid DDCMP message"),
            FailedCheck::HintOrder { lowest, .. } => write!(f, "hint {lowest} or a higher one"),
            FailedCheck::NoSuchUnit(own) => write_below(f, other, own.sent),
            FailedCheck::NoOrder { own, .. } => write_below(f, other, own.sent),
            FailedCheck::Undetected { unit } => {
                write_undetected_allowed(f, other, unit, self.check.fronts)
            }
            FailedCheck::StationSending(failed) => write_sending_allowed(f, failed),
            FailedCheck::StationArrival(failed) => {
                write_arrival_allowed(f, side, failed, self.check.reading)
            }
            FailedCheck::StationEvent { .. } => f.write_str("start in HALTED"),
            FailedCheck::Packet(_) => f.write_str(
                "a routing control packet, or a short data packet of at least six bytes",
            ),
            FailedCheck::Nsp(_) => {
                f.write_str("a message of NSP with all its fields, and nothing after its end")
            }
            FailedCheck::LinkSending(failed) => write_link_sending_allowed(f, failed, front),
            FailedCheck::LinkArrival(failed) => write_link_arrival_allowed(f, side, failed),
            FailedCheck::LinkEvent(failed) => write_link_event_allowed(f, failed, front),
            FailedCheck::Noise => f.write_str("bytes that read as header bad or data bad"),
        }
    }
}

fn write_undetected_allowed<W: Write>(
    f: &mut Formatter<W>,
    other: Side,
    unit: u64,
    fronts: Fronts<'_>,
) -> fmt::Result {
    write_unit_bytes(f, other, unit, fronts)?;
    f.write_str("; or damaged bytes")
}

// Writes the bytes of a unit of the other side by its name, where that is known, and where it has one by the byte that tells.
fn write_unit_bytes<W: Write>(
    f: &mut Formatter<W>,
    other: Side,
    unit: u64,
    fronts: Fronts<'_>,
) -> fmt::Result {
    write_unit_named(f, other, unit, fronts.unit_name)?;
    write_byte(f, sent_byte(fronts.differs))
}

fn write_unit_named<W: Write>(
    f: &mut Formatter<W>,
    other: Side,
    unit: u64,
    name: &str,
) -> fmt::Result {
    write!(f, "{name}the bytes of unit {unit} of {other}")
}

// Writes the hints of units that the other side sent: they are counted from 0. Where it sent none, no receipt is right.
fn write_below<W: Write>(f: &mut Formatter<W>, other: Side, sent: u64) -> fmt::Result {
    if sent == 0 {
        return write!(f, "no receipt: {other} sent no unit");
    }
    write!(
        f,
        "a hint below {sent}, the number of units that {other} sent"
    )
}
