//! The refusal, as a JSON object.

ghost use Rattle.std.specs.Fmt.{WritesOnOk};
ghost use Rattle.why.specs.Refused as spec;

use crate::accusation::Accusation;
use pair_judge::Reason;
use std::fmt::{self, Formatter, Write};
use wire_base::Side;

/// The record that is refused, with the reason and who is accused. Printed as one JSON object with its LF.
#[derive(Clone, Copy)]
pub struct RefusedLine {
    /// Its side.
    pub side: Side,
    /// Its number, from 0 on; it is on the line of this number plus 2.
    pub record_number: u64,
    /// Why it is refused.
    pub reason: Reason,
    /// Who is accused.
    pub accusation: Accusation,
}

impl fmt::Display for RefusedLine {
    ghost use Rattle.std.specs.Prelude.{Some};

    ghost output = { λ line. Some (spec.refused_line line) };

    fn fmt<W: Write>(&self, f: &mut Formatter<W>) -> fmt::Result {
        write_place(f, self.side, self.record_number)?;
        write_reason(f, self.reason, self.accusation)
    }
}

// Writes where the record is.
fn write_place<W: Write>(f: &mut Formatter<W>, side: Side, place: u64) -> fmt::Result
    ensures { WritesOnOk W.write_str_gives f.old result (spec.place_keys side place) f.new }
{
    // Wide, since a record's number may be any u64.
    let line = u128::from(place) + 2;
    write!(
        f,
        "{{\"what\": \"refused\", \"side\": \"{side}\", \"record\": {place}, \"line\": {line}"
    )
}

// Writes why it is refused, and who is accused.
fn write_reason<W: Write>(
    f: &mut Formatter<W>,
    reason: Reason,
    accusation: Accusation,
) -> fmt::Result
    ensures { WritesOnOk W.write_str_gives f.old result (spec.reason_keys reason accusation) f.new }
{
    let number = reason.number();
    write!(
        f,
        ", \"number\": {number}, \"name\": \"{reason}\", \"accuses\": \"{accusation}\"}}\n"
    )
}
