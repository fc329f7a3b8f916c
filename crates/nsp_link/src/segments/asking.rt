//! Whether a segment or acknowledgement words may be sent, and else which check they do not pass.

ghost use Rattle.std.specs.Prelude.{◌≡◌, ◌≤◌, ◌<◌};
ghost use Rattle.std.specs.List.{AllByRecursion};
ghost use Rattle.dna_packet.specs.AckWord.{IsAckWord};
ghost use Rattle.dna_packet.specs.Nsp.{segment_view};
ghost use Rattle.dna_links.specs.SegmentBook.{distance};
ghost use Rattle.dna_links.specs.Segmentation.{piece_of};
ghost use Rattle.dna_links.specs.WireSegments.{highest_given};
ghost use Rattle.dna_links.specs.WireSegments as steps;
ghost use Rattle.nsp_link.specs.FailedSending as spec;

use super::Segments;
use crate::failed::{FailedLinkSending, NextPiece, Numbers, PieceShape};
use crate::last_sent::allowed::from_below;
use crate::last_sent::late::LateSent;
use crate::permit::LinkSendPermit;
use dna_packet::{AckWord, Segment};
use link_segments::{Piece, REACH};
use wire_base::{Seq, Window};

impl<W: Window<Piece, 4096> + Drop> Segments<W> {
    /// Whether these acknowledgement words may be sent alone now on this link, which has this number.
    #[inline(always)]
    pub fn ask_acks(
        &self,
        link: usize,
        words: &[AckWord],
    ) -> Result<LinkSendPermit, FailedLinkSending>
        requires { AllByRecursion IsAckWord words.now }
        ensures { result ≡ spec.asked_acks link words.now self.now }
    {
        match self.last.ask_words(false, self.received, words) {
            Ok(sent) => Ok(LinkSendPermit::GoesOn { link, sent }),
            Err(failed) => Err(failed),
        }
    }

    /// Whether this segment may be sent now on this link, which has this number, where the partner takes so many data bytes.
    #[inline(always)]
    pub fn ask_segment(
        &self,
        link: usize,
        segsize: u16,
        segment: &Segment,
    ) -> Result<LinkSendPermit, FailedLinkSending>
        requires acks { AllByRecursion IsAckWord segment.now.acks.items }
        requires number { segment.now.number < 4096 }
        ensures { result ≡ spec.asked_segment link segsize (segment_view segment.now) self.now }
    {
        if !self.is_new(segment) {
            return self.ask_again(link, segment);
        }
        match self.last.ask_words(false, self.received, &segment.acks) {
            Ok(sent) => {
                let late = LateSent { sent, gap: 0 };
                self.ask_new(segsize, segment, LinkSendPermit::Gives { link, late })
            }
            Err(failed) => Err(failed),
        }
    }

    /// The same of a link of a node with queues, where a word of a new segment may lie so far below the last one sent.
    pub fn ask_late(
        &self,
        link: usize,
        gap: u16,
        segsize: u16,
        segment: &Segment,
    ) -> Result<LinkSendPermit, FailedLinkSending>
        requires acks { AllByRecursion IsAckWord segment.now.acks.items }
        requires number { segment.now.number < 4096 }
        ensures { result ≡ spec.asked_segment_late link gap segsize (segment_view segment.now) self.now }
    {
        if !self.is_new(segment) {
            return self.ask_again(link, segment);
        }
        match self.last.ask_late(gap, self.received, &segment.acks) {
            Ok(late) => self.ask_new(segsize, segment, LinkSendPermit::Gives { link, late }),
            Err(failed) => Err(failed),
        }
    }

    // Whether a segment has the number after the highest given.
    pub(super) fn is_new(&self, segment: &Segment) -> bool
        ensures { result ≡ steps.is_new (segment_view segment.now) self.now.variables }
    {
        segment.number == self.outstanding.highest().next().value()
    }

    // A segment with the next number, the words of which may be sent: this permit, if it may go.
    #[inline(always)]
    fn ask_new(
        &self,
        segsize: u16,
        segment: &Segment,
        permit: LinkSendPermit,
    ) -> Result<LinkSendPermit, FailedLinkSending>
        ensures { result ≡ spec.asked_new segsize (piece_of (segment_view segment.now)) self.now permit }
    {
        let outstanding = self.outstanding.len();
        if outstanding >= usize::from(REACH) {
            return Err(FailedLinkSending::Room {
                seen: outstanding,
                allowed: usize::from(REACH) - 1,
            });
        }
        let length = segment.body.len();
        if length > usize::from(segsize) {
            return Err(FailedLinkSending::Length {
                seen: length,
                allowed: segsize,
            });
        }
        if self.unsent.is_next(segment) {
            return Ok(permit);
        }
        Err(FailedLinkSending::NextPiece {
            seen: shape_of(segment),
            allowed: self.next_piece(),
        })
    }

    // What the next new segment has to carry.
    fn next_piece(&self) -> Option<NextPiece>
        ensures { result ≡ spec.next_in self.now.variables.unsent }
    {
        match self.unsent.rest() {
            Some(rest) => Some(NextPiece {
                begins: !self.unsent.is_begun(),
                left: rest.len(),
            }),
            None => None,
        }
    }

    // A segment that has another number than the next one.
    fn ask_again(&self, link: usize, segment: &Segment) -> Result<LinkSendPermit, FailedLinkSending>
        requires acks { AllByRecursion IsAckWord segment.now.acks.items }
        requires number { segment.now.number < 4096 }
        ensures { result ≡ spec.asked_again link (segment_view segment.now) self.now }
    {
        match self.last.ask_words(true, self.received, &segment.acks) {
            Ok(sent) => self.ask_below(segment, LinkSendPermit::GoesOn { link, sent }),
            Err(failed) => Err(failed),
        }
    }

    // The same, the words of which may be sent: this permit, if it may go.
    fn ask_below(
        &self,
        segment: &Segment,
        permit: LinkSendPermit,
    ) -> Result<LinkSendPermit, FailedLinkSending>
        requires { segment.now.number < 4096 }
        ensures { result ≡ spec.asked_below (distance segment.now.number (highest_given self.now.variables))
            (segment_view segment.now) self.now permit }
    {
        let highest = self.outstanding.highest();
        let below = Seq::distance(Seq::of(u64::from(segment.number)), highest);
        if !self.may_repeat(below) {
            return Err(FailedLinkSending::Number {
                seen: segment.number,
                allowed: self.segment_numbers(),
            });
        }
        self.ask_repeat(usize::from(below), segment, permit)
    }

    // Whether the segment so far below the highest given may be sent again.
    fn may_repeat(&self, below: u16) -> bool
        ensures { result ≡ spec.may_repeat below self.now }
    {
        if below >= REACH {
            return false;
        }
        self.gave_many || below < self.outstanding.highest().value()
    }

    // The numbers that a segment may have: the next one, or again one of the last.
    fn segment_numbers(&self) -> Numbers
        ensures { result ≡ spec.segment_numbers self.now }
    {
        let next = self.outstanding.highest().next();
        Numbers {
            lowest: next.value(),
            highest: next.value(),
            again: from_below(next, self.segments_back()),
        }
    }

    // How many of the last segments may be sent again.
    fn segments_back(&self) -> u16
        ensures back { result ≡ spec.segments_back self.now }
        ensures reach { result ≤ 2047 }
    {
        if self.gave_many {
            return REACH;
        }
        REACH.min(self.outstanding.highest().value())
    }

    // A segment that is sent again: while it is not acknowledged, it carries what it first did.
    fn ask_repeat(
        &self,
        below: usize,
        segment: &Segment,
        permit: LinkSendPermit,
    ) -> Result<LinkSendPermit, FailedLinkSending>
        ensures { result ≡ spec.asked_repeat below (segment_view segment.now) self.now.variables.outstanding permit }
    {
        let count = self.outstanding.len();
        if below >= count {
            return Ok(permit);
        }
        let Some(first) = self.outstanding.segment(count - 1 - below) else {
            return Ok(permit);
        };
        if first.is_carried_by(segment) {
            return Ok(permit);
        }
        Err(FailedLinkSending::AsFirstGiven {
            number: segment.number,
            seen: shape_of(segment),
            allowed: PieceShape {
                begins: first.begins(),
                ends: first.ends(),
                length: first.body().len(),
            },
        })
    }
}

// What a segment carries.
fn shape_of(segment: &Segment) -> PieceShape
    ensures { result ≡ spec.shape_of (piece_of (segment_view segment.now)) }
{
    PieceShape {
        begins: segment.begins,
        ends: segment.ends,
        length: segment.body.len(),
    }
}
