//! How an answer on one end, or on what is left of it, is told.

use crate::all_end::{EndCapture, end_answer_of, end_refusal_of};
use crate::all_judged::{AllFault, in_memory, of_text, read_again};
use crate::all_left::Beyond;
use crate::all_pair::Telling;
use crate::all_told::{Answer, Refusal, plain_object};
use crate::onlooker::Onlooker;
use capture::CaptureFault;
use pair_judge::{Accused, EndVerdict, SideEnd, WatchedEnd, judge_end};
use printing::end_text::end_text;
use printing::fault_told::FaultTold;
use printing::how::Form;
use printing::layers::Layers;
use printing::objects::{end_object, fault_object};
use printing::text::{FAULTY, line_fault_text};
use std::alloc::{AllocError, Global};
use std::io::{Read, Seek};
use why_answer::end_telling::{EndPrintout, text_of_refused_end};
use why_answer::last_rows::LastRows;
use why_answer::queued_too::unasked;
use wire_base::Side;

impl<A: Read + Seek> EndCapture<'_, '_, A> {
    /// This answer, in the words of `alone`.
    pub fn answer(&self, alloc: Global, verdict: EndVerdict) -> Result<Answer, AllFault> {
        in_memory(self.answer_told(alloc, verdict))
    }

    fn answer_told(&self, alloc: Global, verdict: EndVerdict) -> Result<Answer, AllocError> {
        let layers = self.printout.layers;
        let text = match self.printout.form {
            Form::Json if self.telling == Telling::Explained => {
                plain_object(alloc, "passed", end_refusal_of(verdict))?
            }
            Form::Json => { end_object(alloc, layers, self.printout.name, verdict).into_line()? }
            Form::Rows => end_text(alloc, layers, verdict)?.into_bytes(),
        };
        Ok(end_answer_of(verdict, text))
    }

    // The refusal of a record at which the judgement of what is left stops.
    fn answer_stopped(&mut self, alloc: Global, refusal: Refusal) -> Result<Answer, AllFault> {
        let verdict = EndVerdict::Refused {
            place: refusal.place,
            accused: match refusal.by_other_end {
                true => Accused::OtherEnd,
                false => Accused::ThisEnd,
            },
            reason: refusal.reason,
        };
        match Beyond::of(refusal.reason) {
            Beyond::Ends => self.answer_of_line(alloc, verdict),
            _ => self.answer(alloc, verdict),
        }
    }

    /// The answer on what is left, whose text stops there; explained where that is asked for.
    pub fn answer_watched(
        &mut self,
        alloc: Global,
        watched: &mut WatchedEnd<Onlooker<'_>>,
        stop: Option<Refusal>,
    ) -> Result<Answer, AllFault> {
        let verdict = watched.verdict;
        if let Some(refusal) = stopped_at(verdict, stop) {
            return self.answer_stopped(alloc, refusal);
        }
        if ends_it(verdict) {
            return self.answer_of_line(alloc, verdict);
        }
        if let Onlooker::Originals(originals) = &mut watched.observer
            && is_refused(verdict)
        {
            let rows = &mut originals.rows;
            return explained(alloc, self.printout, verdict, &watched.end, rows);
        }
        self.answer(alloc, verdict)
    }

    /// A verdict of the station, as of a pair.
    pub fn answer_of_line(
        &mut self,
        alloc: Global,
        verdict: EndVerdict,
    ) -> Result<Answer, AllFault> {
        if self.telling != Telling::Explained || !is_refused(verdict) {
            return self.answer(alloc, verdict);
        }
        let mut watched = self.watched_line(alloc)?;
        self.line_explained(alloc, &mut watched, verdict)
    }

    // The capture's own line, as it is judged with the last rows.
    fn watched_line(&mut self, alloc: Global) -> Result<WatchedEnd<LastRows>, AllFault> {
        let rows = in_memory(LastRows::new(alloc))?;
        let mut reader = read_again(Side::A, self.a)?;
        let watched = judge_end(alloc, Layers::Station, &mut reader, rows);
        of_text(Side::A, watched)
    }

    // What is told of this verdict, where the line was judged so.
    fn line_explained(
        &self,
        alloc: Global,
        watched: &mut WatchedEnd<LastRows>,
        verdict: EndVerdict,
    ) -> Result<Answer, AllFault> {
        if watched.verdict != verdict {
            return self.answer(alloc, verdict);
        }
        let printout = EndPrintout {
            layers: Layers::Station,
            ..self.printout
        };
        explained(
            alloc,
            printout,
            verdict,
            &watched.end,
            &mut watched.observer,
        )
    }

    /// The answer where the text departs.
    pub fn answer_departed(&self, alloc: Global, fault: CaptureFault) -> Result<Answer, AllFault> {
        let CaptureFault::Departs { kind, line } = fault else {
            return of_text(Side::A, Err(fault));
        };
        let text = match self.printout.form {
            Form::Rows => in_memory(line_fault_text(alloc, Side::A, kind, line))?.into_bytes(),
            Form::Json => {
                let told = FaultTold::of_capture(Side::A, fault, FAULTY);
                in_memory(fault_object(alloc, self.printout.name, told).into_line())?
            }
        };
        Ok(Answer {
            text,
            refusal: None,
            status: FAULTY,
        })
    }
}

// What is told of this refusal.
fn explained(
    alloc: Global,
    printout: EndPrintout<'_>,
    verdict: EndVerdict,
    end: &SideEnd,
    rows: &mut LastRows,
) -> Result<Answer, AllFault> {
    let queued = unasked(printout.layers);
    let text = in_memory(text_of_refused_end(alloc, printout, verdict, end, rows, queued))?;
    Ok(end_answer_of(verdict, text.into_bytes()))
}

// The refusal at which this text stops, where it is refused there.
fn stopped_at(verdict: EndVerdict, stop: Option<Refusal>) -> Option<Refusal> {
    match (verdict, stop) {
        (EndVerdict::Refused { place, .. }, Some(stop)) if stop.place == place => Some(stop),
        _ => None,
    }
}

fn is_refused(verdict: EndVerdict) -> bool {
    matches!(verdict, EndVerdict::Refused { .. })
}

// Whether it is a refusal behind which nothing is judged on.
fn ends_it(verdict: EndVerdict) -> bool {
    match verdict {
        EndVerdict::Passed(_) => false,
        EndVerdict::Refused { reason, .. } => Beyond::of(reason) == Beyond::Ends,
    }
}
