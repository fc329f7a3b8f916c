//! The answers of words that judge, as JSON objects, in the keys of `why --json`.

use crate::fault_told::{FaultKind, FaultTold};
use crate::files::Named;
use crate::layers::Layers;
use json_text::Members;
use pair_judge::{Accused, EndVerdict, Reason, SideSummary, Verdict};
use std::alloc::Global;
use std::fmt;
use wire_base::Side;

/// What is told where there is no memory for an object, with its LF.
pub const NO_MEMORY: &str =
    "{\"what\": \"fault\", \"file\": null, \"side\": null, \"line\": null, \"fault\": \"out of memory\"}\n";

/// The verdict on a pair, whose first file has this name.
pub fn verdict_object(alloc: Global, layers: Layers, name: &str, verdict: Verdict) -> Members {
    match verdict {
        Verdict::Accepted(summary) => {
            let mut object = begun(alloc, "accepted", name);
            put_counts(alloc, &mut object, layers, Side::A, summary.a);
            put_counts(alloc, &mut object, layers, Side::B, summary.b);
            object
        }
        Verdict::Refused {
            side,
            place,
            reason,
        } => refused_object(alloc, name, side, place, reason),
    }
}

/// The verdict on one end, whose file has this name.
pub fn end_object(alloc: Global, layers: Layers, name: &str, verdict: EndVerdict) -> Members {
    match verdict {
        EndVerdict::Passed(counts) => {
            let mut object = begun(alloc, "passed", name);
            put_counts(alloc, &mut object, layers, Side::A, counts);
            object
        }
        EndVerdict::Refused {
            place,
            accused,
            reason,
        } => {
            let mut object = refused_object(alloc, name, Side::A, place, reason);
            put_accused(&mut object, accused);
            object
        }
    }
}

fn refused_object(alloc: Global, name: &str, side: Side, place: u64, reason: Reason) -> Members {
    let mut object = begun(alloc, "refused", name);
    put_place(&mut object, side, place);
    put_reason(&mut object, reason);
    object
}

/// A fault, where the first file has this name.
pub fn fault_object(alloc: Global, name: &str, told: FaultTold) -> Members {
    let mut object = begun(alloc, "fault", name);
    match told.named {
        Some(named) => object.shown("side", &named),
        None => object.null("side"),
    }
    put_kind(&mut object, told.kind);
    object
}

/// The beginning of an object: what it is, and the name of the first file.
pub fn begun(alloc: Global, what: &str, name: &str) -> Members {
    let mut object = Members::new(alloc);
    object.text("what", what);
    object.text("file", name);
    object
}

/// The counts of a side. Those of a station alone end with its periods.
pub fn put_counts(
    alloc: Global,
    object: &mut Members,
    layers: Layers,
    side: Side,
    counts: SideSummary,
) {
    let mut of_side = Members::new(alloc);
    put_station_counts(&mut of_side, counts);
    match layers {
        Layers::Both | Layers::Queued => {
            of_side.number("links", counts.links);
            of_side.number("up", counts.up);
        }
        Layers::Station => {}
    }
    object.object(side_letter(side), &of_side);
}

fn put_station_counts(of_side: &mut Members, counts: SideSummary) {
    of_side.number("records", counts.records);
    of_side.number("sent", counts.sent);
    of_side.number("received", counts.received);
    of_side.number("damaged", counts.damaged);
    of_side.number("kept", counts.kept);
    of_side.number("periods", counts.periods);
}

/// How a side is told, as a key and as words.
pub fn side_letter(side: Side) -> &'static str {
    match side {
        Side::A => "a",
        Side::B => "b",
    }
}

/// Where the refused record is.
pub fn put_place(object: &mut Members, side: Side, place: u64) {
    object.text("side", side_letter(side));
    object.number("record", place);
    // Wide, since a record's number may be any u64.
    object.wide_number("line", u128::from(place) + 2);
}

/// Why it is refused.
pub fn put_reason(object: &mut Members, reason: Reason) {
    object.number("number", u64::from(reason.number()));
    object.shown("name", &reason);
}

// Who is accused, as far as one end tells.
fn put_accused(object: &mut Members, accused: Accused) {
    match accused {
        Accused::ThisEnd => object.null("accuses"),
        Accused::OtherEnd => object.text("accuses", "other end"),
    }
}

// In which line something is wrong, and what.
fn put_kind(object: &mut Members, kind: FaultKind) {
    match kind {
        FaultKind::Departs { kind, line } => {
            object.number("line", line);
            object.shown("fault", &kind);
        }
        FaultKind::SameFile(other) => put_no_line(object, &SameFileAs(other)),
        FaultKind::NotOpened => put_no_line(object, &"cannot open"),
        FaultKind::Read => put_no_line(object, &"read failed"),
        FaultKind::Write => put_no_line(object, &"write failed"),
        FaultKind::NoUnit => put_no_line(object, &"no unit"),
        FaultKind::ReadOnce => put_no_line(object, &"cannot be read twice"),
        FaultKind::OutOfMemory => put_no_line(object, &"out of memory"),
    }
}

fn put_no_line<T: fmt::Display>(object: &mut Members, fault: &T) {
    object.null("line");
    object.shown("fault", fault);
}

// A file that is to be written, and is this one too.
#[derive(Clone, Copy)]
struct SameFileAs(Named);

impl fmt::Display for SameFileAs {
    fn fmt<W: fmt::Write>(&self, f: &mut fmt::Formatter<W>) -> fmt::Result {
        let other = self.0;
        write!(f, "same file as {other}")
    }
}
