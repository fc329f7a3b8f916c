//! The text that `alone` prints of a verdict, and its status.

ghost use Rattle.std.specs.Prelude.{◌≡◌, IfOk, string_bytes};
ghost use Rattle.printing.specs.PrintedAlone as printed;
ghost use Rattle.printing.specs.PrintedAlone.{end_text_over};

use crate::layers::Layers;
use crate::text::CountsLine;
use pair_judge::{Accused, EndVerdict, Reason};
use std::alloc::{AllocError, Global};
use wire_base::Side;

/// The text of a verdict on one end: `passed` and its line of counts, or `refused a RECORD line LINE: NUMBER NAME` and by whom, each line with its
/// LF. Fails for want of memory alone.
pub fn end_text(alloc: Global, layers: Layers, verdict: EndVerdict) -> Result<String, AllocError>
    ensures { IfOk result (λ text. string_bytes text ≡ end_text_over layers verdict) }
{
    match verdict {
        EndVerdict::Passed(counts) => {
            let line = CountsLine {
                layers,
                side: Side::A,
                counts,
            };
            format!(in alloc; "passed\n{line}\n")
        }
        EndVerdict::Refused {
            place,
            accused,
            reason,
        } => refused_alone_text(alloc, place, accused, reason),
    }
}

// What is printed of a refusal.
fn refused_alone_text(
    alloc: Global,
    place: u64,
    accused: Accused,
    reason: Reason,
) -> Result<String, AllocError>
    ensures { IfOk result (λ text. string_bytes text ≡ printed.refused_alone_text place accused reason) }
{
    // Wide, since a record's number may be any u64.
    let line = u128::from(place) + 2;
    let number = reason.number();
    match accused {
        Accused::ThisEnd => format!(in alloc; "refused a {place} line {line}: {number} {reason}\n"),
        Accused::OtherEnd => {
            format!(in alloc; "refused a {place} line {line}: {number} {reason} by the other end\n")
        }
    }
}

/// The status of a verdict on one end: 0 passed, 1 refused.
pub fn end_status(verdict: EndVerdict) -> u8
    ensures { result ≡ printed.end_status verdict }
{
    match verdict {
        EndVerdict::Passed(_) => 0,
        EndVerdict::Refused { .. } => 1,
    }
}
