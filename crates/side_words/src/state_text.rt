//! A station's variables in words.

use crate::causes::CausesTold;
use crate::form::Form;
use crate::state_line::{NumbersTold, StateLine, state_name};
use ddcmp_station::StationView;
use record_words::words::{plural, write_known_start};
use record_words::wrapped::{INDENT, put_wrapped};
use std::alloc::{AllocError, Global};
use std::fmt::{self, Formatter, Write};
use wire_base::{Seq, Side};

/// Appends a side where a record is refused, as it was before it, in rows: how many of its records are made, and its station's variables.
pub fn put_side(alloc: Global, text: &mut String, state: StateLine) -> Result<(), AllocError> {
    // Wide, since the number of records may be any u64.
    let (side, records) = (state.side, state.records);
    let line = u128::from(records) + 1;
    let s = plural(records);
    write!(
        text,
        "{side} before it ({records} record{s}, to line {line})\n"
    )?;
    let station = state.station;
    if station.period == 0 {
        return text.push_str("  station  HALTED, never started\n");
    }
    write!(text, "  station  {}\n", StationRow { side, station })?;
    let numbers = NumbersTold {
        form: Form::Rows,
        station,
    };
    write!(text, "  numbers  {numbers}\n{}", OutstandingRow { station })?;
    let causes = CausesTold {
        form: Form::Rows,
        causes: station.open_causes,
    };
    let causes = format!(in alloc; "NAKs owed or open: {causes}")?;
    put_wrapped(text, INDENT, causes.as_str())
}

// The state of this side's station, its start, and the other side's start that it goes with, where that is known.
#[derive(Clone, Copy)]
struct StationRow {
    side: Side,
    station: StationView,
}

impl fmt::Display for StationRow {
    fn fmt<W: Write>(&self, f: &mut Formatter<W>) -> fmt::Result {
        let StationRow { side, station } = *self;
        write!(f, "{}, start {}", state_name(station.state), station.period)?;
        write_known_start(f, "goes with", side.other(), station.partner)
    }
}

// The outstanding numbers of a station in a row, where there are any: as a range, or as two where 0 follows 255.
#[derive(Clone, Copy)]
struct OutstandingRow {
    station: StationView,
}

impl fmt::Display for OutstandingRow {
    fn fmt<W: Write>(&self, f: &mut Formatter<W>) -> fmt::Result {
        let station = self.station;
        if station.outstanding == 0 {
            return Ok(());
        }
        let last = u16::from(station.given);
        let first = Seq::<256>::of(u64::from(station.acknowledged) + 1).value();
        if last < first {
            let (high, low) = (Span { first, last: 255 }, Span { first: 0, last });
            return write!(f, "           outstanding {high} and {low}\n");
        }
        let span = Span { first, last };
        write!(f, "           outstanding {span}\n")
    }
}

// Numbers from a first one through a last one. Printed as `1-2`, or as the one where both are the same.
#[derive(Clone, Copy)]
struct Span {
    first: u16,
    last: u16,
}

impl fmt::Display for Span {
    fn fmt<W: Write>(&self, f: &mut Formatter<W>) -> fmt::Result {
        let Span { first, last } = *self;
        if first == last {
            return write!(f, "{first}");
        }
        write!(f, "{first}-{last}")
    }
}
