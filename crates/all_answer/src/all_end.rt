//! All that refuses the capture of one end: `alone --all`, `why --all`.

ghost use Rattle.std.specs.Prelude.{Some};
ghost use Rattle.pair_judge.specs.EndJudged.{IsJudgedAlone};
ghost use Rattle.pair_judge.specs.Watched.{only};
ghost use Rattle.pair_judge.specs.JudgedAs.{end_of};

use crate::all_judged::{AllFault, Captures, in_memory, of_text, read_again, read_on};
use crate::all_left::NotJudged;
use crate::all_pair::Telling;
use crate::all_read::{address_of, head_of, text_left, text_whole, wrong_node_of};
use crate::all_stops::{OfLine, put_stop, stop_of};
use crate::all_told::{Answer, Refusal};
use crate::onlooker::{Onlooker, Originals};
use capture::CaptureFault;
use leaving_out::{Head, bind_all};
use link_groups::{Groups, OwnAddress};
use pair_judge::{Accused, EndVerdict, WatchedEnd, judge_end};
use printing::end_text::end_status;
use printing::layers::{Layers, judge_end_over};
use std::alloc::Global;
use std::io::{Read, Seek};
use why_answer::end_telling::EndPrintout;
use wire_base::{Side, Tally};

/// The capture of one end, in a file that is read again and again.
#[derive(Drop)]
pub struct EndCapture<'n, 'a, A: Read + Seek> {
    pub printout: EndPrintout<'n>,
    pub telling: Telling,
    /// What its line is refused for, once that was asked.
    pub of_line: OfLine,
    pub a: &'a mut A,
}

impl<A: Read + Seek> Captures for EndCapture<'_, '_, A> {
    fn bound(&mut self, alloc: Global) -> Result<NotJudged, AllFault> {
        let mut groups = in_memory(Groups::new(alloc))?;
        self.bind(alloc, &mut groups)?;
        self.all_judged(alloc, groups)
    }

    fn address_of(
        &mut self,
        alloc: Global,
        refusal: Refusal,
    ) -> Result<Option<OwnAddress>, AllFault> {
        address_of(alloc, Side::A, refusal.place, self.a)
    }

    fn judged(&mut self, alloc: Global, not_judged: &NotJudged) -> Result<Answer, AllFault> {
        let stop = self.stop(alloc, not_judged)?;
        let mut text = text_left(alloc, Side::A, Side::A, not_judged, self.a)?;
        in_memory(put_stop(&mut text, stop))?;
        match self.telling {
            Telling::Explained => self.answer_explained(alloc, &text, stop),
            Telling::Answers | Telling::Nothing => {
                self.answer_left(alloc, Onlooker::Nobody, &text, stop)
            }
        }
    }

    fn passed(&self) -> &'static str {
        "passed"
    }

    fn is_of_line(&self) -> bool {
        self.printout.layers == Layers::Station
    }

    fn line(&mut self, alloc: Global, _any_period: bool) -> Result<Answer, AllFault> {
        let of_line = judge_end_over(alloc, Layers::Station, &mut read_again(Side::A, self.a)?);
        let verdict = of_text(Side::A, of_line)?;
        self.answer_of_line(alloc, verdict)
    }
}

impl<A: Read + Seek> EndCapture<'_, '_, A> {
    // Nothing is left out. These belong together.
    fn all_judged(&mut self, alloc: Global, groups: Groups) -> Result<NotJudged, AllFault> {
        let own = head_of(alloc, Side::A, self.a)?;
        let other = Head {
            own: own.peer,
            peer: own.own,
        };
        in_memory(NotJudged::nothing(alloc, groups, own, other))
    }

    /// The answer on the capture itself, from where the file is.
    pub fn first(&mut self, alloc: Global) -> Result<Answer, AllFault> {
        let mut tally = read_on(self.a);
        let judged = judge_end_over(alloc, self.printout.layers, &mut tally);
        let verdict = of_text(Side::A, judged)?;
        self.answer(alloc, verdict)
    }

    // The answer on this text of what is left, while this one looks on.
    fn answer_left(
        &mut self,
        alloc: Global,
        onlooker: Onlooker<'_>,
        text: &[u8],
        stop: Option<Refusal>,
    ) -> Result<Answer, AllFault> {
        match judge_text(alloc, self.printout.layers, onlooker, text) {
            Ok(mut watched) => self.answer_watched(alloc, &mut watched, stop),
            Err(fault) => self.answer_departed(alloc, fault),
        }
    }

    // The same, with the rows of the capture itself.
    fn answer_explained(
        &mut self,
        alloc: Global,
        text: &[u8],
        stop: Option<Refusal>,
    ) -> Result<Answer, AllFault> {
        let whole = self.whole(alloc)?;
        let originals = in_memory(Originals::begun(alloc, &whole, &[]))?;
        self.answer_left(alloc, Onlooker::Originals(originals), text, stop)
    }

    // The text of the capture, with nothing left out.
    fn whole(&mut self, alloc: Global) -> Result<Vec<u8>, AllFault> {
        let groups = in_memory(Groups::new(alloc))?;
        let judges_all = self.all_judged(alloc, groups)?;
        text_whole(alloc, Side::A, &judges_all, self.a)
    }

    // What belongs together by the capture.
    fn bind(&mut self, alloc: Global, groups: &mut Groups) -> Result<(), AllFault> {
        let mut reader = read_again(Side::A, self.a)?;
        of_text(Side::A, bind_all(alloc, Side::A, true, &mut reader, groups))
    }

    // At which record the judgement stops, if it comes to that.
    fn stop(&mut self, alloc: Global, not_judged: &NotJudged) -> Result<Option<Refusal>, AllFault> {
        if self.is_of_line() {
            return Ok(None);
        }
        let of_line = self.refusal_of_line(alloc)?;
        let wrong = wrong_node_of(alloc, Side::A, not_judged, true, self.a)?;
        Ok(stop_of(Side::A, of_line, wrong))
    }

    // What the capture's own line is refused for. A text that departs is no refusal.
    fn refusal_of_line(&mut self, alloc: Global) -> Result<Option<Refusal>, AllFault> {
        if let Some(known) = self.of_line.known(false) {
            return Ok(known);
        }
        let of_line = judge_end_over(alloc, Layers::Station, &mut read_again(Side::A, self.a)?);
        let refusal = match of_line {
            Err(CaptureFault::Departs { .. }) => None,
            judged => end_refusal_of(of_text(Side::A, judged)?),
        };
        self.of_line = OfLine::Asked {
            any_period: false,
            refusal,
        };
        Ok(refusal)
    }
}

/// The refused record, if one is.
pub fn end_refusal_of(verdict: EndVerdict) -> Option<Refusal> {
    match verdict {
        EndVerdict::Passed(_) => None,
        EndVerdict::Refused {
            place,
            accused,
            reason,
        } => Some(Refusal {
            side: Side::A,
            place,
            reason,
            by_other_end: accused == Accused::OtherEnd,
        }),
    }
}

/// An answer that is told so.
pub fn end_answer_of(verdict: EndVerdict, text: Vec<u8>) -> Answer {
    Answer {
        text,
        refusal: end_refusal_of(verdict),
        status: end_status(verdict),
    }
}

// The answer on the text that was made of the capture, while this one looks on.
fn judge_text<'t>(
    alloc: Global,
    layers: Layers,
    onlooker: Onlooker<'t>,
    text: &[u8],
) -> Result<WatchedEnd<Onlooker<'t>>, CaptureFault>
    ensures { IsJudgedAlone (end_of layers) (Some text.now) (only result (λ watched. watched.verdict)) }
{
    judge_end(alloc, layers, &mut Tally::new(text), onlooker)
}
