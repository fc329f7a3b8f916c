//! Whether a message of a link may be sent, and else which check it does not pass.

ghost use Rattle.std.specs.Prelude.{◌≡◌, ◌<◌, true};
ghost use Rattle.std.specs.List.{AllByRecursion};
ghost use Rattle.dna_packet.specs.AckWord.{IsAckWord};
ghost use Rattle.dna_packet.specs.Nsp.{segment_view};
ghost use Rattle.nsp_link.specs.FailedSending as spec;
ghost use Rattle.nsp_link.specs.Kinds.{queues_of};
ghost use Rattle.nsp_link.specs.inner.Queue.{keeps};

use super::Link;
use crate::Piece;
use crate::failed::FailedLinkSending;
use crate::kind::is_queued;
use crate::permit::LinkSendPermit;
use dna_links::Phase;
use dna_packet::{AckWord, Segment};
use wire_base::Window;

impl<W: Window<Piece, 4096> + Drop> Link<W> {
    /// The check that a message does not pass which asks for this phase, where this link, with this number, is not in its turn.
    pub fn out_of_turn<const QUEUES: u8>(&self, number: usize, allowed: Phase) -> FailedLinkSending
        ensures { result ≡ spec.out_of_turn (queues_of QUEUES) allowed number self.now }
    {
        if !is_queued::<QUEUES>() {
            return FailedLinkSending::Phase {
                link: number as u64,
                seen: self.port.phase,
                allowed,
            };
        }
        FailedLinkSending::Turn {
            link: number as u64,
            seen: self.waiting_port().phase,
            queue: self.queue,
            allowed,
        }
    }

    /// Whether this segment may be sent now on this link, which has this number. Takes no memory.
    #[inline(always)]
    pub fn ask_segment<const QUEUES: u8>(
        &self,
        number: usize,
        segment: &Segment,
    ) -> Result<LinkSendPermit, FailedLinkSending>
        requires kept { keeps self.now.port.phase self.now.queue ≡ true }
        requires acks { AllByRecursion IsAckWord segment.now.acks.items }
        requires number { segment.now.number < 4096 }
        ensures { result ≡ spec.asked_segment_of (queues_of QUEUES) (segment_view segment.now) number self.now }
    {
        match &self.segments {
            Some(segments) => {
                if is_queued::<QUEUES>() {
                    return segments.ask_late(number, self.queue.gap, self.segsize, segment);
                }
                segments.ask_segment(number, self.segsize, segment)
            }
            None => unreachable!(),
        }
    }

    /// Whether these acknowledgement words may be sent alone now on this link, which has this number. Takes no memory.
    #[inline(always)]
    pub fn ask_acks(
        &self,
        number: usize,
        words: &[AckWord],
    ) -> Result<LinkSendPermit, FailedLinkSending>
        requires kept { keeps self.now.port.phase self.now.queue ≡ true }
        requires acks { AllByRecursion IsAckWord words.now }
        ensures { result ≡ spec.asked_acks number words.now self.now.segments }
    {
        match &self.segments {
            Some(segments) => segments.ask_acks(number, words),
            None => unreachable!(),
        }
    }
}
