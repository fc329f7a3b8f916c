//! The text that `check` prints of an answer, and its status.

ghost use Rattle.std.specs.Prelude.{◌≡◌, IfOk, string_bytes};
ghost use Rattle.capture.specs.Faulty.{line_fault_words};
ghost use Rattle.pair_judge.specs.declared.fault.JudgeFault.TheVariants.{Capture};
ghost use Rattle.pair_judge.specs.declared.fault.TextFault.TheVariants.{Departs};
ghost use Rattle.printing.specs.Printed as printed;
ghost use Rattle.printing.specs.PrintedAlone.{counts_line};
ghost use Rattle.printing.specs.Layers.{verdict_text_over};

use crate::layers::Layers;
use capture::Departure;
use pair_judge::{Reason, SideSummary, Verdict};
use std::alloc::{AllocError, Global};
use std::fmt;
use wire_base::Side;

/// The status of a faulty text.
pub const FAULTY: u8 = 2;

/// The status where a device or the memory failed.
pub const FAILED: u8 = 3;

/// The line of one side of an accepted pair, or of an end that passed: of a station alone it ends with the periods.
#[derive(Clone, Copy)]
pub struct CountsLine {
    pub layers: Layers,
    pub side: Side,
    pub counts: SideSummary,
}

impl fmt::Display for CountsLine {
    ghost use Rattle.std.specs.Prelude.{Some};

    ghost output = { λ line. Some (counts_line line.layers line.side line.counts) };

    fn fmt<W: fmt::Write>(&self, f: &mut fmt::Formatter<W>) -> fmt::Result {
        let side = self.side;
        let SideSummary {
            records,
            sent,
            received,
            damaged,
            kept,
            periods,
            links,
            up,
        } = self.counts;
        match self.layers {
            Layers::Both | Layers::Queued => write!(
                f,
                "{side} records {records} sent {sent} received {received} damaged {damaged} kept {kept} periods {periods} links {links} up {up}"
            ),
            Layers::Station => write!(
                f,
                "{side} records {records} sent {sent} received {received} damaged {damaged} kept {kept} periods {periods}"
            ),
        }
    }
}

/// A line that departs, as it is told after its side.
#[derive(Clone, Copy)]
pub struct FaultyLine {
    pub kind: Departure,
    pub line: u64,
}

impl fmt::Display for FaultyLine {
    ghost use Rattle.std.specs.Prelude.{Some};

    ghost output = { λ faulty. Some (line_fault_words faulty.kind faulty.line) };

    fn fmt<W: fmt::Write>(&self, f: &mut fmt::Formatter<W>) -> fmt::Result {
        let FaultyLine { kind, line } = *self;
        write!(f, "line {line}: {kind}")
    }
}

/// The text of a verdict: `accepted` and a line a side, or `refused SIDE RECORD line LINE: NUMBER NAME`, each line with
/// its LF. Fails for want of memory alone.
pub fn verdict_text(alloc: Global, layers: Layers, verdict: Verdict) -> Result<String, AllocError>
    ensures { IfOk result (λ text. string_bytes text ≡ verdict_text_over layers verdict) }
{
    match verdict {
        Verdict::Accepted(summary) => {
            let line_a = CountsLine {
                layers,
                side: Side::A,
                counts: summary.a,
            };
            let line_b = CountsLine {
                layers,
                side: Side::B,
                counts: summary.b,
            };
            format!(in alloc; "accepted\n{line_a}\n{line_b}\n")
        }
        Verdict::Refused {
            side,
            place,
            reason,
        } => refused_text(alloc, side, place, reason),
    }
}

/// The first line of that text, with its LF. Fails for want of memory alone.
pub fn verdict_line(alloc: Global, verdict: Verdict) -> Result<String, AllocError>
    ensures { IfOk result (λ text. string_bytes text ≡ printed.verdict_line verdict) }
{
    match verdict {
        Verdict::Accepted(_) => String::from_str(alloc, "accepted\n"),
        Verdict::Refused {
            side,
            place,
            reason,
        } => refused_text(alloc, side, place, reason),
    }
}

// What is printed of a refusal.
fn refused_text(alloc: Global, side: Side, place: u64, reason: Reason) -> Result<String, AllocError>
    ensures { IfOk result (λ text. string_bytes text ≡ printed.refused_text side place reason) }
{
    // Wide, since a record's number may be any u64.
    let line = u128::from(place) + 2;
    let number = reason.number();
    format!(in alloc; "refused {side} {place} line {line}: {number} {reason}\n")
}

/// The text of a line of this side that departs, with its LF: `a: line 3: syntax` and its kin. Fails for want of memory alone.
pub fn line_fault_text(
    alloc: Global,
    side: Side,
    kind: Departure,
    line: u64,
) -> Result<String, AllocError>
    ensures { IfOk result (λ text. string_bytes text ≡ printed.fault_text (Capture side (Departs kind line))) }
{
    let faulty = FaultyLine { kind, line };
    format!(in alloc; "{side}: {faulty}\n")
}

/// The status of a verdict: 0 accepted, 1 refused.
pub fn verdict_status(verdict: Verdict) -> u8
    ensures { result ≡ printed.verdict_status verdict }
{
    match verdict {
        Verdict::Accepted(_) => 0,
        Verdict::Refused { .. } => 1,
    }
}
