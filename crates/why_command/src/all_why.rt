//! `why --all`: each refusal of a pair, or of one end, with what is said of it.

use all_answer::all_end::{EndCapture, end_answer_of};
use all_answer::all_judged::{Captures, print_all};
use all_answer::all_pair::{PairCaptures, Telling};
use all_answer::all_pair_told::answer_of;
use all_answer::all_stops::OfLine;
use all_answer::all_told::{AllTold, Answer};
use capture::CaptureFault;
use pair_judge::{EndVerdict, JudgedEnds, Verdict, judge, judge_end};
use printing::alone::print_end_fault;
use printing::check::{print_failed_read, print_fault, print_out_of_memory};
use printing::how::Form;
use std::alloc::{AllocError, Global};
use std::io::{Read, Seek, Write};
use why_answer::end_telling::{EndPrintout, end_refused_text, print_passed};
use why_answer::last_rows::LastRows;
use why_answer::queued_too::{end_with_queues, with_queues_too};
use why_answer::recorder::{Tried, try_edits};
use why_answer::telling::{Printout, Refused, print_accepted, print_refusal, refused_text};
use wire_base::{Side, Tally};

/// Judges the captures of both files as `why_to` does, and prints what that prints, but for the lines on what is answered where less is judged. Where
/// the refusal leads on, more follow as of `check --all`, each with what is said of it; small edits are judged for the first one alone.
pub fn why_all_to<A: Read + Seek, B: Read + Seek, O: Write, E: Write>(
    alloc: Global,
    printout: Printout<'_>,
    a: &mut A,
    b: &mut B,
    out: &mut Tally<O>,
    err: &mut Tally<E>,
) -> u8 {
    let Ok(rows) = LastRows::new(alloc) else {
        return print_out_of_memory(err);
    };
    let mut tally_a = Tally::new(&mut *a);
    let mut tally_b = Tally::new(&mut *b);
    let watched = match judge(
        alloc,
        printout.layers.of_period(),
        &mut tally_a,
        &mut tally_b,
        rows,
    ) {
        Ok(watched) => watched,
        Err(fault) => return print_fault(alloc, fault, err),
    };
    let verdict = watched.ends.verdict();
    let refused = match verdict {
        Verdict::Accepted(summary) => {
            watched.let_go();
            return print_accepted(alloc, printout, summary, out, err);
        }
        Verdict::Refused {
            side,
            place,
            reason,
        } => Refused {
            side,
            place,
            reason,
        },
    };
    let Ok(tried) = ask_again(alloc, printout, a, b, &watched.ends, refused) else {
        watched.let_go();
        return print_out_of_memory(err);
    };
    let failed = tried.failed;
    let Ok(text) = refused_text(alloc, printout, refused, watched, tried) else {
        return print_out_of_memory(err);
    };
    if failed.is_some() {
        return print_refusal(text.as_bytes(), failed, out, err);
    }
    let mut captures = PairCaptures {
        printout,
        telling: Telling::Explained,
        of_line: OfLine::NotAsked,
        a,
        b,
    };
    let first = answer_of(verdict, text.into_bytes());
    print_explained(alloc, printout.form, &mut captures, first, out, err)
}

// What small edits tell of this refusal, and what is answered of nodes with queues.
fn ask_again<A: Read + Seek, B: Read + Seek>(
    alloc: Global,
    printout: Printout<'_>,
    a: &mut A,
    b: &mut B,
    ends: &JudgedEnds,
    refused: Refused,
) -> Result<Tried, AllocError> {
    let layers = printout.layers;
    let tried = try_edits(alloc, layers, a, b, ends, refused.side)?;
    with_queues_too(alloc, layers, a, b, refused.reason, tried)
}

/// Judges the capture of one end as `why_end_to` does, and prints all refusals likewise.
pub fn why_all_end_to<A: Read + Seek, O: Write, E: Write>(
    alloc: Global,
    printout: EndPrintout<'_>,
    a: &mut A,
    out: &mut Tally<O>,
    err: &mut Tally<E>,
) -> u8 {
    let Ok(rows) = LastRows::new(alloc) else {
        return print_out_of_memory(err);
    };
    let mut tally = Tally::new(&mut *a);
    let watched = match judge_end(alloc, printout.layers, &mut tally, rows) {
        Ok(watched) => watched,
        Err(fault) => return print_end_fault(alloc, fault, err),
    };
    let verdict = watched.verdict;
    let reason = match verdict {
        EndVerdict::Passed(counts) => {
            watched.let_go();
            return print_passed(alloc, printout, counts, out, err);
        }
        EndVerdict::Refused { reason, .. } => reason,
    };
    let queued = match end_with_queues(alloc, printout.layers, a, reason) {
        Ok(queued) => queued,
        Err(fault) => {
            watched.let_go();
            return print_not_known(fault, err);
        }
    };
    let Ok(text) = end_refused_text(alloc, printout, watched, queued) else {
        return print_out_of_memory(err);
    };
    let mut captures = EndCapture {
        printout,
        telling: Telling::Explained,
        of_line: OfLine::NotAsked,
        a,
    };
    let first = end_answer_of(verdict, text.into_bytes());
    print_explained(alloc, printout.form, &mut captures, first, out, err)
}

// Prints why it is not known what is answered of a node with queues.
fn print_not_known<E: Write>(fault: CaptureFault, err: &mut Tally<E>) -> u8 {
    match fault {
        CaptureFault::Read => print_failed_read(err, Side::A),
        _ => print_out_of_memory(err),
    }
}

// Prints this refusal, and all behind it.
fn print_explained<C: Captures, O: Write, E: Write>(
    alloc: Global,
    form: Form,
    captures: &mut C,
    first: Answer,
    out: &mut Tally<O>,
    err: &mut Tally<E>,
) -> u8 {
    let told = AllTold::new(alloc, form, true);
    match print_all(alloc, captures, told, first, out, err) {
        Ok(status) => status,
        Err(fault) => print_fault(alloc, fault, err),
    }
}
