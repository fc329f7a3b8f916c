//! The check of the station that an arrival does not pass, in words.

use ddcmp_msg::Reading;
use ddcmp_station::{FailedArrival, PeriodNeed, Tag};
use record_words::unit_words::ReadingName;
use record_words::words::write_known_start;
use std::fmt::{self, Formatter, Write};
use wire_base::Side;

/// The name of the check in the tables of a station.
pub fn arrival_check(failed: FailedArrival) -> &'static str {
    match failed {
        FailedArrival::Period { .. } => "Period",
        FailedArrival::Keep => "Keep",
    }
}

/// Writes what came to this side.
pub fn write_arrival_seen<W: Write>(
    f: &mut Formatter<W>,
    side: Side,
    failed: FailedArrival,
    reading: Reading<'_>,
) -> fmt::Result {
    let name = ReadingName { reading };
    match failed {
        FailedArrival::Period { seen, .. } => {
            let Tag { period, partner } = seen;
            write!(f, "{name} sent in start {period} of {}", side.other())?;
            write_then_with(f, side, partner)
        }
        FailedArrival::Keep => write!(f, "{name}, kept"),
    }
}

// Writes the start of this side that the other side's start went with.
fn write_then_with<W: Write>(f: &mut Formatter<W>, side: Side, period: Option<u64>) -> fmt::Result {
    match period {
        Some(period) => write!(f, ", which then went with start {period} of {side}"),
        None => write!(f, ", which then went with none of {side}"),
    }
}

/// Writes what would be right to come: with it the check is passed.
pub fn write_arrival_allowed<W: Write>(
    f: &mut Formatter<W>,
    side: Side,
    failed: FailedArrival,
    reading: Reading<'_>,
) -> fmt::Result {
    match failed {
        FailedArrival::Period { needs, own, .. } => write_needed(f, side, needs, own),
        FailedArrival::Keep => write!(f, "{}, not kept", ReadingName { reading }),
    }
}

// Writes what the row of a message needs of the starts.
fn write_needed<W: Write>(
    f: &mut Formatter<W>,
    side: Side,
    needs: PeriodNeed,
    own: Tag,
) -> fmt::Result {
    match needs {
        PeriodNeed::Anything => f.write_str("any start"),
        PeriodNeed::Fresh => write_fresh(f, side, own.period),
        PeriodNeed::OfPair => write_of_pair(f, side, own),
    }
}

fn write_fresh<W: Write>(f: &mut Formatter<W>, side: Side, period: u64) -> fmt::Result {
    write!(f, "what goes with start {period} of {side}")
}

fn write_of_pair<W: Write>(f: &mut Formatter<W>, side: Side, own: Tag) -> fmt::Result {
    write_fresh(f, side, own.period)?;
    write_known_start(f, "sent in", side.other(), own.partner)
}
