//! What a link sends that has numbers, once it was asked for.

ghost use Rattle.std.specs.Prelude.{◌≡◌, ◌<◌, true, length, OnOk, OnErr};
ghost use Rattle.dna_packet.specs.Nsp.{segment_view};
ghost use Rattle.dna_links.specs.Segmentation.{is_next_piece, piece_of};
ghost use Rattle.dna_links.specs.SegmentBook.{distance, wider};
ghost use Rattle.dna_links.specs.WireSegments.{with_last, with_new};
ghost use Rattle.dna_links.specs.declared.queue.Queues.TheVariants.{Without, With};
ghost use Rattle.nsp_link.specs.Kinds.{queues_of};
ghost use Rattle.nsp_link.specs.inner.Queue.{keeps};
ghost use Rattle.nsp_link.specs.inner.Index.{Stays};
ghost use Rattle.nsp_link.specs.inner.Permitted.{gave, numbers_of, went_on};

use super::Link;
use crate::Piece;
use crate::kind::is_queued;
use crate::last_sent::LastSent;
use crate::last_sent::late::{LateSent, wider};
use dna_links::Said;
use dna_packet::Segment;
use std::alloc::{AllocError, Global};
use wire_base::Window;

impl<W: Window<Piece, 4096> + Drop> Link<W> {
    /// A new segment is sent. Where memory for it is refused, nothing changes.
    pub fn give<const QUEUES: u8>(
        &mut self,
        alloc: Global,
        segment: &Segment,
        late: LateSent,
    ) -> Result<(), AllocError>
        requires kept { keeps self.old.port.phase self.old.queue ≡ true }
        requires room { length self.old.segments.variables.outstanding < 2047 }
        requires next { is_next_piece (piece_of (segment_view segment.now)) self.old.segments.variables.unsent ≡ true }
        ensures ok { OnOk result (self.new ≡ gave (queues_of QUEUES) (piece_of (segment_view segment.now)) late self.old) }
        ensures stays { Stays self.old self.new }
        ensures err { OnErr result (self.new ≡ self.old) }
    {
        if is_queued::<QUEUES>() {
            return self.give_late(alloc, segment, late);
        }
        self.give_at_once(alloc, segment, late)
    }

    // The same without queues.
    #[tactic(auto, using(crate::proofs::Requeued::stays_so))]
    fn give_at_once(
        &mut self,
        alloc: Global,
        segment: &Segment,
        late: LateSent,
    ) -> Result<(), AllocError>
        requires kept { keeps self.old.port.phase self.old.queue ≡ true }
        requires room { length self.old.segments.variables.outstanding < 2047 }
        requires next { is_next_piece (piece_of (segment_view segment.now)) self.old.segments.variables.unsent ≡ true }
        ensures ok { OnOk result (self.new ≡ gave Without (piece_of (segment_view segment.now)) late self.old) }
        ensures stays { Stays self.old self.new }
        ensures err { OnErr result (self.new ≡ self.old) }
    {
        match &mut self.segments {
            Some(segments) => segments.give(alloc, segment, late.sent),
            None => unreachable!(),
        }
    }

    // The same with queues: a message of RUN was sent.
    #[tactic(auto, using(crate::proofs::Requeued::stays_so))]
    fn give_late(
        &mut self,
        alloc: Global,
        segment: &Segment,
        late: LateSent,
    ) -> Result<(), AllocError>
        requires kept { keeps self.old.port.phase self.old.queue ≡ true }
        requires room { length self.old.segments.variables.outstanding < 2047 }
        requires next { is_next_piece (piece_of (segment_view segment.now)) self.old.segments.variables.unsent ≡ true }
        ensures ok { OnOk result (self.new ≡ gave With (piece_of (segment_view segment.now)) late self.old) }
        ensures stays { Stays self.old self.new }
        ensures err { OnErr result (self.new ≡ self.old) }
    {
        self.number(alloc, segment, late)?;
        self.say(alloc, Said::OfRun);
        Ok(())
    }

    // With queues: its numbers are those after this segment.
    fn number(&mut self, alloc: Global, segment: &Segment, late: LateSent) -> Result<(), AllocError>
        requires kept { keeps self.old.port.phase self.old.queue ≡ true }
        requires room { length self.old.segments.variables.outstanding < 2047 }
        requires next { is_next_piece (piece_of (segment_view segment.now)) self.old.segments.variables.unsent ≡ true }
        ensures ok { OnOk result (self.new ≡
            numbers_of (with_last late.sent (with_new (piece_of (segment_view segment.now)) self.old.segments)) late.gap self.old) }
        ensures err { OnErr result (self.new ≡ self.old) }
    {
        match &mut self.segments {
            Some(segments) => {
                segments.give(alloc, segment, late.sent)?;
                self.queue.gap = late.gap;
                Ok(())
            }
            None => unreachable!(),
        }
    }

    /// Words are sent that leave this as the last acknowledgement, alone or with a segment that goes again.
    pub fn go_on<const QUEUES: u8>(&mut self, alloc: Global, sent: LastSent)
        requires kept { keeps self.old.port.phase self.old.queue ≡ true }
        ensures goes { self.new ≡ went_on (queues_of QUEUES) sent self.old }
        ensures stays { Stays self.old self.new }
    {
        if is_queued::<QUEUES>() {
            self.go_on_late(alloc, sent);
            return;
        }
        self.go_on_at_once(sent);
    }

    // The same without queues.
    #[tactic(auto, using(crate::proofs::Requeued::stays_so))]
    fn go_on_at_once(&mut self, sent: LastSent)
        requires kept { keeps self.old.port.phase self.old.queue ≡ true }
        ensures goes { self.new ≡ went_on Without sent self.old }
        ensures stays { Stays self.old self.new }
    {
        match &mut self.segments {
            Some(segments) => {
                let _further = segments.go_on(sent);
            }
            None => unreachable!(),
        }
    }

    // The same with queues: a message of RUN was sent.
    #[tactic(auto, using(crate::proofs::Requeued::stays_so))]
    fn go_on_late(&mut self, alloc: Global, sent: LastSent)
        requires kept { keeps self.old.port.phase self.old.queue ≡ true }
        ensures goes { self.new ≡ went_on With sent self.old }
        ensures stays { Stays self.old self.new }
    {
        self.renumber(sent);
        self.say(alloc, Said::OfRun);
    }

    // With queues: its numbers are those after these words.
    fn renumber(&mut self, sent: LastSent)
        requires kept { keeps self.old.port.phase self.old.queue ≡ true }
        ensures { self.new ≡ numbers_of (with_last sent self.old.segments)
            (wider self.old.queue.gap (distance self.old.segments.last sent.last)) self.old }
    {
        let gap = self.queue.gap;
        match &mut self.segments {
            Some(segments) => {
                let further = segments.go_on(sent);
                self.queue.gap = wider(gap, further);
            }
            None => unreachable!(),
        }
    }
}
