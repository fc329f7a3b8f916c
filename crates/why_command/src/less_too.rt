//! What is answered of refused captures where less is judged: without the links that the refused record is about, and of the line alone.

use all_answer::all_end::EndCapture;
use all_answer::all_judged::{AllFault, Captures, in_memory, judge_without, read_again};
use all_answer::all_pair::{PairCaptures, Telling};
use all_answer::all_stops::OfLine;
use all_answer::all_told::{Answer, Refusal};
use pair_judge::{JudgeFault, Reason, TextFault};
use printing::check::{print, print_fault};
use printing::how::Form;
use printing::text::FAULTY;
use std::alloc::{AllocError, Global};
use std::io::{Read, Seek, Write};
use why_answer::end_telling::EndPrintout;
use why_answer::recorder::{Tried, stopped};
use why_answer::telling::{Printout, REFUSED, Refused};
use wire_base::{Side, Tally};

// What is asked.
#[derive(Clone, Copy)]
enum Less {
    WithoutLink,
    LineAlone,
}

impl Less {
    fn words(self) -> &'static str {
        match self {
            Less::WithoutLink => "without this link",
            Less::LineAlone => "the line alone",
        }
    }

    fn key(self) -> &'static str {
        match self {
            Less::WithoutLink => "without_link",
            Less::LineAlone => "line_alone",
        }
    }
}

/// Asks a refused pair where less is judged, and keeps the answers beside what small edits told. It is not asked where a file can't be read again
/// from its beginning, or where a read of one failed before; and nothing is kept where a text departs from its format further on. `AllocError`: there
/// is no memory to judge it.
pub fn with_less_too<A: Read + Seek, B: Read + Seek>(
    alloc: Global,
    printout: Printout<'_>,
    a: &mut A,
    b: &mut B,
    refused: Refused,
    mut tried: Tried,
) -> Result<Tried, AllocError> {
    if tried.failed.is_some() {
        return Ok(tried);
    }
    let refusal = Refusal {
        side: refused.side,
        place: refused.place,
        reason: refused.reason,
        by_other_end: false,
    };
    let mut captures = PairCaptures {
        printout: Printout {
            form: Form::Rows,
            ..printout
        },
        telling: Telling::Answers,
        of_line: OfLine::NotAsked,
        a,
        b,
    };
    match less_text(alloc, printout.form, &mut captures, refusal) {
        Ok(text) => {
            tried.less = text;
            Ok(tried)
        }
        Err(AllFault::ReadOnce(_)) => Ok(tried),
        Err(AllFault::Judge(fault)) => stopped(tried, fault),
    }
}

/// Asks a refused end so, prints the answers below what was said of it, and answers the status: 1, or 3 where a read or a write failed or there is no
/// memory. A file that can't be read again is not asked.
pub fn end_with_less<A: Read + Seek, O: Write, E: Write>(
    alloc: Global,
    printout: EndPrintout<'_>,
    a: &mut A,
    out: &mut Tally<O>,
    err: &mut Tally<E>,
) -> u8 {
    match end_less_text(alloc, printout, a) {
        Ok(text) => print(out, text.as_bytes(), REFUSED),
        Err(AllFault::ReadOnce(_)) => REFUSED,
        Err(AllFault::Judge(fault)) => print_fault(alloc, fault, err),
    }
}

fn end_less_text<A: Read + Seek>(
    alloc: Global,
    printout: EndPrintout<'_>,
    a: &mut A,
) -> Result<String, AllFault> {
    read_again(Side::A, a)?;
    let mut captures = EndCapture {
        printout: EndPrintout {
            form: Form::Rows,
            ..printout
        },
        telling: Telling::Answers,
        of_line: OfLine::NotAsked,
        a,
    };
    let first = captures.first(alloc)?;
    match first.refusal {
        Some(refusal) => less_text(alloc, printout.form, &mut captures, refusal),
        None => Ok(String::new(alloc)),
    }
}

// The rows or objects of what is answered where less is judged.
fn less_text<C: Captures>(
    alloc: Global,
    form: Form,
    captures: &mut C,
    refusal: Refusal,
) -> Result<String, AllFault> {
    let mut text = String::new(alloc);
    if captures.is_of_line() || !is_above_line(refusal.reason) {
        return Ok(text);
    }
    let passed = captures.passed();
    let without = unless_departed(judge_without(alloc, captures, refusal))?;
    in_memory(put_less(alloc, &mut text, form, Less::WithoutLink, passed, without))?;
    let of_line = match captures.line(alloc, false) {
        Ok(answer) => Ok(Some(answer)),
        Err(fault) => Err(fault),
    };
    let of_line = unless_departed(of_line)?;
    in_memory(put_less(alloc, &mut text, form, Less::LineAlone, passed, of_line))?;
    Ok(text)
}

// Whether packets and links alone have rules of this reason.
fn is_above_line(reason: Reason) -> bool {
    let number = reason.number();
    15 <= number && number <= 26
}

// An answer, if there is one and no text departs.
fn unless_departed(answered: Result<Option<Answer>, AllFault>) -> Result<Option<Answer>, AllFault> {
    match answered {
        Ok(Some(answer)) if answer.status == FAULTY => Ok(None),
        Err(
            AllFault::Judge(
                JudgeFault::Capture {
                    fault: TextFault::Departs { .. },
                    ..
                },
            ),
        ) => Ok(None),
        answered => answered,
    }
}

// Appends a row or an object, with its LF; nothing where there is no answer.
fn put_less(
    alloc: Global,
    text: &mut String,
    form: Form,
    less: Less,
    passed: &str,
    answer: Option<Answer>,
) -> Result<(), AllocError> {
    let Some(answer) = answer else {
        return Ok(());
    };
    let line = match (form, answer.refusal) {
        (Form::Rows, None) => format!(in alloc; "{}: {passed}\n", less.words())?,
        (Form::Json, None) => format!(in alloc;
            "{{\"what\": \"{}\", \"answer\": \"{passed}\"}}\n",
            less.key()
        )?,
        (Form::Rows, Some(refusal)) => refused_row(alloc, less, refusal)?,
        (Form::Json, Some(refusal)) => refused_object(alloc, less, refusal)?,
    };
    text.push_str(line.as_str())
}

fn refused_row(alloc: Global, less: Less, refusal: Refusal) -> Result<String, AllocError> {
    let Refusal {
        side,
        place,
        reason,
        by_other_end,
    } = refusal;
    let line = u128::from(place) + 2;
    let number = reason.number();
    let by = match by_other_end {
        true => " by the other end",
        false => "",
    };
    format!(in alloc;
        "{}: refused {side} {place} line {line}: {number} {reason}{by}\n",
        less.words()
    )
}

fn refused_object(alloc: Global, less: Less, refusal: Refusal) -> Result<String, AllocError> {
    let Refusal {
        side,
        place,
        reason,
        by_other_end,
    } = refusal;
    let line = u128::from(place) + 2;
    let number = reason.number();
    let accuses = match by_other_end {
        true => ", \"accuses\": \"other end\"",
        false => "",
    };
    format!(in alloc;
        "{{\"what\": \"{}\", \"answer\": \"refused\", \"side\": \"{side}\", \"record\": {place}, \"line\": {line}, \"number\": {number}, \
         \"name\": \"{reason}\"{accuses}}}\n",
        less.key()
    )
}
