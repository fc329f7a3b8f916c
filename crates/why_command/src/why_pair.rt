//! `why` of a pair: both captures are judged, and where they are refused, they are asked again.

ghost use Rattle.printing.specs.Printed.{moved};
ghost use Rattle.why_answer.specs.PrintedWhy.{Explains};

use crate::less_too::with_less_too;
use pair_judge::{JudgedEnds, Verdict, judge};
use printing::check::{print_fault, print_out_of_memory};
use std::alloc::{AllocError, Global};
use std::io::{Read, Seek, Write};
use why_answer::last_rows::LastRows;
use why_answer::queued_too::with_queues_too;
use why_answer::recorder::{Tried, try_edits};
use why_answer::telling::{Printout, Refused, print_accepted, print_refusal, refused_text};
use wire_base::Tally;

/// Judges the captures that two files give from where they are, over these layers, prints what is answered and why, and answers the status.
///
/// An accepted pair and a fault are printed as `check` does (of JSON objects `{"what": "accepted"}` alone). After a refusal comes what is said of
/// it; small edits of both captures are judged as far as the files can be read again from their beginning. Where a read fails meanwhile, that is told
/// last, with status 3. The whole text is put together before the first write; where there is no memory for it, the answer is `out of memory`.
pub fn why_to<A: Read + Seek, B: Read + Seek, O: Write, E: Write>(
    alloc: Global,
    printout: Printout<'_>,
    a: &mut A,
    b: &mut B,
    out: &mut Tally<O>,
    err: &mut Tally<E>,
) -> u8
    ensures { Explains (printout.entry.layers, printout.entry.form) (A.remaining a.old) (B.remaining b.old)
        (moved O.contents out.old out.new, moved E.contents err.old err.new) result }
{
    let Ok(rows) = LastRows::new(alloc) else {
        return print_out_of_memory(err);
    };
    let layers = printout.layers;
    let mut tally_a = Tally::new(&mut *a);
    let mut tally_b = Tally::new(&mut *b);
    let watched = match judge(alloc, layers.of_period(), &mut tally_a, &mut tally_b, rows) {
        Ok(watched) => watched,
        Err(fault) => return print_fault(alloc, fault, err),
    };
    match watched.ends.verdict() {
        Verdict::Accepted(summary) => {
            watched.let_go();
            print_accepted(alloc, printout, summary, out, err)
        }
        Verdict::Refused {
            side,
            place,
            reason,
        } => {
            let refused = Refused {
                side,
                place,
                reason,
            };
            let tried = match ask_again(alloc, printout, a, b, &watched.ends, refused) {
                Ok(tried) => tried,
                Err(_) => {
                    watched.let_go();
                    return print_out_of_memory(err);
                }
            };
            let failed = tried.failed;
            match refused_text(alloc, printout, refused, watched, tried) {
                Ok(text) => print_refusal(text.as_bytes(), failed, out, err),
                Err(_) => print_out_of_memory(err),
            }
        }
    }
}

// What small edits tell of this refusal, and what is answered of nodes with queues, and where less is judged.
fn ask_again<A: Read + Seek, B: Read + Seek>(
    alloc: Global,
    printout: Printout<'_>,
    a: &mut A,
    b: &mut B,
    ends: &JudgedEnds,
    refused: Refused,
) -> Result<Tried, AllocError> {
    let layers = printout.layers;
    let tried = try_edits(alloc, layers, a, b, ends, refused.side)?;
    let tried = with_queues_too(alloc, layers, a, b, refused.reason, tried)?;
    with_less_too(alloc, printout, a, b, refused, tried)
}
