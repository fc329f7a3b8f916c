//! What comes for a link.

ghost use Rattle.std.specs.Prelude.{◌≡◌, ◌<◌, Some, true, OnOk, OnErr, IfErr};
ghost use Rattle.std.specs.List.{AllByRecursion};
ghost use Rattle.dna_packet.specs.AckWord.{IsAckWord};
ghost use Rattle.dna_packet.specs.Nsp.{segment_view};
ghost use Rattle.dna_links.specs.LookUps.{is_live};
ghost use Rattle.dna_links.specs.Queues.{drops, ended, ends_by_message};
ghost use Rattle.dna_links.specs.WireSegments.{wire_segments, takes_segment, takes_acks};
ghost use Rattle.dna_links.specs.declared.queue.Queues.TheVariants.{With};
ghost use Rattle.nsp_link.specs.Kinds.{queues_of};
ghost use Rattle.nsp_link.specs.Segments.{is_held};
ghost use Rattle.nsp_link.specs.inner.Index.{Stays, begins_use};
ghost use Rattle.nsp_link.specs.inner.Queue.{keeps, moved};
ghost use Rattle.nsp_link.specs.inner.Rows.{connected, takes_in};

use super::Link;
use super::queue::reached;
use crate::kind::is_queued;
use crate::{LinkTag, Piece};
use dna_links::Phase;
use dna_packet::{AckWord, Segment};
use std::alloc::{AllocError, Global};
use wire_base::Window;

impl<W: Window<Piece, 4096> + Drop> Link<W> {
    /// What came ends it: it keeps what may still be delivered, and with queues what may still be sent. Where that is nothing, its memory is
    /// given back.
    pub fn end<const QUEUES: u8>(&mut self, alloc: Global)
        requires { is_live self.old.port.phase ≡ true }
        ensures ends { self.new ≡ ends_by_message wire_segments (queues_of QUEUES) self.old }
        ensures uses { queues_of QUEUES ≡ With → begins_use self.new ≡ begins_use self.old }
    {
        if is_queued::<QUEUES>() {
            self.end_late(alloc);
            return;
        }
        self.end_now(alloc);
    }

    // The same with queues.
    #[tactic(auto, using(crate::proofs::Requeued::requeueing))]
    fn end_late(&mut self, alloc: Global)
        requires live { is_live self.old.port.phase ≡ true }
        ensures ends { self.new ≡ ends_by_message wire_segments With self.old }
        ensures uses { begins_use self.new ≡ begins_use self.old }
    {
        self.queue.waits = Some(self.port.phase);
        self.port.phase = Phase::Ended;
        if self.keeps_numbers() {
            return;
        }
        self.let_go(alloc);
    }

    /// Its own node ends it. It keeps what may still be delivered, and nothing else; but with queues a call that was opened here keeps all, since
    /// its CI may still be sent.
    #[tactic(auto, using(crate::proofs::Dropped::dropping))]
    pub fn drop<const QUEUES: u8>(&mut self, alloc: Global)
        requires { is_live self.old.port.phase ≡ true }
        ensures drops { self.new ≡ drops wire_segments (queues_of QUEUES) self.old }
    {
        if !is_queued::<QUEUES>() {
            self.end_now(alloc);
            return;
        }
        if self.port.opened {
            self.give_up();
            return;
        }
        self.end_now(alloc);
    }

    /// With queues: the call, which was opened here, is given up. Its CI may still be sent, and its user has no part in it any more.
    #[tactic(auto, using(crate::proofs::Dropped::dropping))]
    pub fn give_up(&mut self)
        requires opened { self.old.port.opened ≡ true }
        requires kept { keeps self.old.port.phase self.old.queue ≡ true }
        ensures { self.new ≡ drops wire_segments With self.old }
    {
        self.port.phase = Phase::Ended;
        self.queue.waits = Some(Phase::Called);
    }

    // It is over: it keeps what may still be delivered, and nothing else. Where that is nothing, its memory is given back.
    #[tactic(auto, using(crate::proofs::Ended::left))]
    fn end_now(&mut self, alloc: Global)
        requires { is_live self.old.port.phase ≡ true }
        ensures { self.new ≡ ended wire_segments self.old }
    {
        self.port.phase = Phase::Ended;
        let Some(segments) = &mut self.segments else {
            unreachable!();
        };
        let empty = segments.end(alloc);
        if empty {
            self.segments = None;
        }
    }

    /// A CC confirms it: it runs, with this partner.
    pub fn confirm<const QUEUES: u8>(&mut self, far: u16, segsize: u16, tag: LinkTag)
        requires { is_live self.old.port.phase ≡ true }
        ensures { self.new ≡ moved (queues_of QUEUES) Phase.Running (connected far segsize tag self.old) }
    {
        self.port.phase = Phase::Running;
        self.port.far = Some(far);
        self.partner = tag.link;
        self.segsize = segsize;
        if is_queued::<QUEUES>() {
            self.queue = reached(Phase::Running, self.queue);
        }
    }

    /// It runs.
    #[tactic(auto, using(crate::proofs::Requeued::stays_so))]
    pub fn run<const QUEUES: u8>(&mut self)
        requires { is_live self.old.port.phase ≡ true }
        ensures runs { self.new ≡ moved (queues_of QUEUES) Phase.Running self.old }
        ensures stays { Stays self.old self.new }
    {
        self.port.phase = Phase::Running;
        if is_queued::<QUEUES>() {
            self.queue = reached(Phase::Running, self.queue);
        }
    }

    /// A segment comes, and it runs. Where memory is refused, nothing changes.
    #[tactic(auto, using(crate::proofs::Requeued::stays_so))]
    pub fn take_segment<const QUEUES: u8>(
        &mut self,
        alloc: Global,
        segment: &Segment,
    ) -> Result<(), AllocError>
        requires live { is_live self.old.port.phase ≡ true }
        requires acks { AllByRecursion IsAckWord segment.now.acks.items }
        requires number { segment.now.number < 4096 }
        ensures ok { OnOk result
            (self.new ≡ takes_in (takes_segment (segment_view segment.now) tt) (moved (queues_of QUEUES) Phase.Running self.old)) }
        ensures stays { Stays self.old self.new }
        ensures held { IfErr result (λ e. is_held (segment_view segment.now) self.old.segments.variables ≡ true) }
        ensures err { OnErr result (self.new ≡ self.old) }
    {
        match &mut self.segments {
            Some(segments) => segments.take_segment(alloc, segment)?,
            None => unreachable!(),
        }
        self.port.phase = Phase::Running;
        if is_queued::<QUEUES>() {
            self.queue = reached(Phase::Running, self.queue);
        }
        Ok(())
    }

    /// Acknowledgement words come, and it runs.
    #[tactic(auto, using(crate::proofs::Requeued::stays_so))]
    pub fn take_acks<const QUEUES: u8>(&mut self, words: &[AckWord])
        requires live { is_live self.old.port.phase ≡ true }
        requires acks { AllByRecursion IsAckWord words.now }
        ensures takes { self.new ≡ takes_in (takes_acks words.now tt) (moved (queues_of QUEUES) Phase.Running self.old) }
        ensures stays { Stays self.old self.new }
    {
        match &mut self.segments {
            Some(segments) => segments.take_acks(words),
            None => unreachable!(),
        }
        self.port.phase = Phase::Running;
        if is_queued::<QUEUES>() {
            self.queue = reached(Phase::Running, self.queue);
        }
    }
}
