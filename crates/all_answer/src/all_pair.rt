//! All that refuses a pair of captures: `check --all`, `why --all`, `draw --all`.

ghost use Rattle.std.specs.Prelude.{IfOk, Some};
ghost use Rattle.wire_base.specs.Tally.{tally_lent};
ghost use Rattle.pair_judge.specs.Ends.{verdict_in};
ghost use Rattle.pair_judge.specs.Judged.{IsAnswer};
ghost use Rattle.pair_judge.specs.Watched.{only};
ghost use Rattle.pair_judge.specs.JudgedAs.{nodes_by};
ghost use Rattle.all_answer.specs.AllLeft.{AreBoundByBoth};

use crate::all_judged::{AllFault, Captures, in_memory, of_text, read_again, read_on};
use crate::all_left::NotJudged;
use crate::all_pair_told::refusal_of;
use crate::all_read::{address_of, head_of, text_left, text_whole, wrong_node_of};
use crate::all_stops::{OfLine, Stops, stop_of};
use crate::all_told::{Answer, Refusal};
use crate::onlooker::{Onlooker, Originals};
use leaving_out::{Head, bind_all};
use link_groups::{Groups, OwnAddress};
use pair_judge::{JudgeFault, JudgedAs, Nobody, TextFault, Verdict, Watched, judge};
use printing::layers::{Layers, judge_over};
use std::alloc::Global;
use std::io::{Read, Seek};
use why_answer::telling::Printout;
use wire_base::{Side, Tally};

/// What is told of each refusal.
#[derive(Clone, Copy, PartialEq, Eq)]
pub enum Telling {
    /// Nothing.
    Nothing,
    /// The answer of `check`, or of `alone`.
    Answers,
    /// That of `why`.
    Explained,
}

/// The captures of a pair, in files that are read again and again.
#[derive(Drop)]
pub struct PairCaptures<'n, 'a, 'b, A: Read + Seek, B: Read + Seek> {
    pub printout: Printout<'n>,
    pub telling: Telling,
    /// What their line is refused for, once that was asked.
    pub of_line: OfLine,
    pub a: &'a mut A,
    pub b: &'b mut B,
}

/// The texts that were made of both captures.
#[derive(Drop)]
pub struct LeftTexts {
    pub a: Vec<u8>,
    pub b: Vec<u8>,
}

/// What is left of both captures.
#[derive(Drop)]
pub struct Left {
    pub texts: LeftTexts,
    /// Where each text ends, if it does so before its capture.
    pub stops: Stops,
}

impl LeftTexts {
    /// That of this side.
    pub fn of_mut(&mut self, side: Side) -> &mut Vec<u8> {
        match side {
            Side::A => &mut self.a,
            Side::B => &mut self.b,
        }
    }
}

impl<A: Read + Seek, B: Read + Seek> Captures for PairCaptures<'_, '_, '_, A, B> {
    fn bound(&mut self, alloc: Global) -> Result<NotJudged, AllFault> {
        let again_a = read_again(Side::A, self.a);
        let again_b = read_again(Side::B, self.b);
        let groups = groups_of_both(alloc, again_a, again_b)?;
        self.all_judged(alloc, groups)
    }

    fn address_of(
        &mut self,
        alloc: Global,
        refusal: Refusal,
    ) -> Result<Option<OwnAddress>, AllFault> {
        let Refusal { side, place, .. } = refusal;
        match side {
            Side::A => address_of(alloc, side, place, self.a),
            Side::B => address_of(alloc, side, place, self.b),
        }
    }

    fn judged(&mut self, alloc: Global, not_judged: &NotJudged) -> Result<Answer, AllFault> {
        let any_period = not_judged.any_period();
        if self.telling != Telling::Explained {
            let left = self.left(alloc, Side::B, not_judged)?;
            return self.answer_left(alloc, any_period, Onlooker::Nobody, &left);
        }
        let kept = self.kept_side(alloc, not_judged)?;
        let left = self.left(alloc, kept, not_judged)?;
        self.answer_explained(alloc, any_period, &left)
    }

    fn passed(&self) -> &'static str {
        "accepted"
    }

    fn is_of_line(&self) -> bool {
        self.printout.layers == Layers::Station
    }

    fn line(&mut self, alloc: Global, any_period: bool) -> Result<Answer, AllFault> {
        match self.verdict_of_line(alloc, any_period)? {
            Ok(verdict) => self.answer_of_line(alloc, verdict),
            Err(fault) => Err(AllFault::Judge(fault)),
        }
    }
}

impl<A: Read + Seek, B: Read + Seek> PairCaptures<'_, '_, '_, A, B> {
    /// The answer on the captures themselves, from where the files are.
    pub fn first(&mut self, alloc: Global) -> Result<Answer, AllFault> {
        let mut tally_a = read_on(self.a);
        let mut tally_b = read_on(self.b);
        match judge_over(alloc, self.printout.layers, &mut tally_a, &mut tally_b) {
            Ok(verdict) => self.answer(alloc, verdict),
            Err(fault) => Err(AllFault::Judge(fault)),
        }
    }

    // Nothing is left out. These belong together.
    fn all_judged(&mut self, alloc: Global, groups: Groups) -> Result<NotJudged, AllFault> {
        let (head_of_a, head_of_b) = self.heads(alloc)?;
        in_memory(NotJudged::nothing(alloc, groups, head_of_a, head_of_b))
    }

    fn heads(&mut self, alloc: Global) -> Result<(Head, Head), AllFault> {
        let head_of_a = head_of(alloc, Side::A, self.a)?;
        let head_of_b = head_of(alloc, Side::B, self.b)?;
        Ok((head_of_a, head_of_b))
    }

    /// What is left of both captures, each to its stop. Where the heads do not fit, this side's is kept: what its own records have, they have there.
    pub fn left(
        &mut self,
        alloc: Global,
        kept: Side,
        not_judged: &NotJudged,
    ) -> Result<Left, AllFault> {
        let stops = self.stops(alloc, not_judged)?;
        let mut texts = self.texts_left(alloc, kept, not_judged)?;
        in_memory(stops.put(&mut texts.a, &mut texts.b))?;
        Ok(Left { texts, stops })
    }

    fn texts_left(
        &mut self,
        alloc: Global,
        kept: Side,
        not_judged: &NotJudged,
    ) -> Result<LeftTexts, AllFault> {
        let a = text_left(alloc, kept, Side::A, not_judged, self.a)?;
        let b = text_left(alloc, kept, Side::B, not_judged, self.b)?;
        Ok(LeftTexts { a, b })
    }

    // Which side's head is kept, where they do not fit: that of which a record of what is left is refused; b where none is.
    fn kept_side(&mut self, alloc: Global, not_judged: &NotJudged) -> Result<Side, AllFault> {
        if not_judged.heads_fit() {
            return Ok(Side::B);
        }
        let left = self.left(alloc, Side::B, not_judged)?;
        let layers = self.printout.layers;
        refused_side(verdict_on(alloc, layers, not_judged.any_period(), &left.texts))
    }

    // At which records the judgement stops. Of the line alone there are none: nothing is left out of that.
    fn stops(&mut self, alloc: Global, not_judged: &NotJudged) -> Result<Stops, AllFault> {
        if self.is_of_line() {
            return Ok(Stops { a: None, b: None });
        }
        let of_line = self.refusal_of_line(alloc, not_judged.any_period())?;
        let wrong_a = wrong_node_of(alloc, Side::A, not_judged, false, self.a)?;
        let wrong_b = wrong_node_of(alloc, Side::B, not_judged, false, self.b)?;
        Ok(Stops {
            a: stop_of(Side::A, of_line, wrong_a),
            b: stop_of(Side::B, of_line, wrong_b),
        })
    }

    // What the captures' own line is refused for. A text that departs is no refusal.
    fn refusal_of_line(
        &mut self,
        alloc: Global,
        any_period: bool,
    ) -> Result<Option<Refusal>, AllFault> {
        if let Some(known) = self.of_line.known(any_period) {
            return Ok(known);
        }
        let refusal = match self.verdict_of_line(alloc, any_period)? {
            Ok(verdict) => refusal_of(verdict),
            Err(
                JudgeFault::Capture {
                    fault: TextFault::Departs { .. },
                    ..
                },
            ) => None,
            Err(fault) => return Err(AllFault::Judge(fault)),
        };
        self.of_line = OfLine::Asked {
            any_period,
            refusal,
        };
        Ok(refusal)
    }

    fn verdict_of_line(
        &mut self,
        alloc: Global,
        any_period: bool,
    ) -> Result<Result<Verdict, JudgeFault>, AllFault> {
        let mut reader_a = read_again(Side::A, self.a)?;
        let mut reader_b = read_again(Side::B, self.b)?;
        let asked = JudgedAs {
            layers: Layers::Station,
            any_period,
        };
        Ok(
            match judge(alloc, asked, &mut reader_a, &mut reader_b, Nobody) {
                Ok(watched) => Ok(watched.ends.verdict()),
                Err(fault) => Err(fault),
            },
        )
    }

    // The answer on what is left, while this one looks on.
    fn answer_left(
        &mut self,
        alloc: Global,
        any_period: bool,
        onlooker: Onlooker<'_>,
        left: &Left,
    ) -> Result<Answer, AllFault> {
        let layers = self.printout.layers;
        match judge_texts(alloc, layers, any_period, onlooker, &left.texts) {
            Ok(mut watched) => self.answer_watched(alloc, &mut watched, left.stops),
            Err(fault) => self.answer_departed(alloc, fault),
        }
    }

    // The same, with the rows of the captures themselves.
    fn answer_explained(
        &mut self,
        alloc: Global,
        any_period: bool,
        left: &Left,
    ) -> Result<Answer, AllFault> {
        let whole = self.whole(alloc)?;
        let originals = in_memory(Originals::begun(alloc, &whole.a, &whole.b))?;
        self.answer_left(alloc, any_period, Onlooker::Originals(originals), left)
    }

    /// The texts of both captures, with nothing left out.
    pub fn whole(&mut self, alloc: Global) -> Result<LeftTexts, AllFault> {
        let groups = in_memory(Groups::new(alloc))?;
        let judges_all = self.all_judged(alloc, groups)?;
        self.texts_whole(alloc, &judges_all)
    }

    fn texts_whole(
        &mut self,
        alloc: Global,
        judges_all: &NotJudged,
    ) -> Result<LeftTexts, AllFault> {
        let a = text_whole(alloc, Side::A, judges_all, self.a)?;
        let b = text_whole(alloc, Side::B, judges_all, self.b)?;
        Ok(LeftTexts { a, b })
    }
}

/// The refusal at which these texts stop, where they are refused there.
pub fn stopped_at(verdict: Verdict, stops: Stops) -> Option<Refusal> {
    match verdict {
        Verdict::Accepted(_) => None,
        Verdict::Refused { side, place, .. } => stops.at(side, place),
    }
}

// The verdict on these texts alone.
fn verdict_on(
    alloc: Global,
    layers: Layers,
    any_period: bool,
    texts: &LeftTexts,
) -> Result<Verdict, JudgeFault> {
    match judge_texts(alloc, layers, any_period, Onlooker::Nobody, texts) {
        Ok(watched) => Ok(watched.ends.verdict()),
        Err(fault) => Err(fault),
    }
}

// Of which side a record is refused; b where none is.
fn refused_side(judged: Result<Verdict, JudgeFault>) -> Result<Side, AllFault> {
    match judged {
        Ok(Verdict::Refused { side, .. }) => Ok(side),
        Err(JudgeFault::OutOfMemory) => Err(AllFault::OUT_OF_MEMORY),
        _ => Ok(Side::B),
    }
}

// What belongs together by the texts of both captures. A fault of a's file is told before one of b's.
fn groups_of_both<A: Read + Drop, B: Read + Drop>(
    alloc: Global,
    again_a: Result<Tally<A>, AllFault>,
    again_b: Result<Tally<B>, AllFault>,
) -> Result<Groups, AllFault>
    ensures { IfOk again_a (λ a. IfOk again_b (λ b. IfOk result (λ groups.
        AreBoundByBoth (A.remaining (tally_lent a)) (B.remaining (tally_lent b)) groups))) }
{
    let mut groups = in_memory(Groups::new(alloc))?;
    let mut reader_a = again_a?;
    let of_a = bind_all(alloc, Side::A, false, &mut reader_a, &mut groups);
    of_text(Side::A, of_a)?;
    let mut reader_b = again_b?;
    let of_b = bind_all(alloc, Side::B, false, &mut reader_b, &mut groups);
    of_text(Side::B, of_b)?;
    Ok(groups)
}

/// The answer on the texts that were made of both captures, while this one looks on.
pub fn judge_texts<'t>(
    alloc: Global,
    layers: Layers,
    any_period: bool,
    onlooker: Onlooker<'t>,
    texts: &LeftTexts,
) -> Result<Watched<Onlooker<'t>>, JudgeFault>
    ensures { IsAnswer (nodes_by layers any_period) (Some texts.now.a.items) (Some texts.now.b.items)
        (verdict_in (only result (λ watched. watched.ends))) }
{
    let mut reader_a = Tally::new(texts.a.as_slice());
    let mut reader_b = Tally::new(texts.b.as_slice());
    let asked = JudgedAs { layers, any_period };
    judge(alloc, asked, &mut reader_a, &mut reader_b, onlooker)
}
