//! What the user of a link does.

ghost use Rattle.std.specs.Prelude.{◌≡◌, None, true, false, OnOk, OnErr};
ghost use Rattle.dna_links.specs.LookUps.{is_live, is_called, is_calling};
ghost use Rattle.dna_links.specs.Links.{with_segments};
ghost use Rattle.dna_links.specs.Queues.{booted_link, goes_to, in_use};
ghost use Rattle.dna_links.specs.WireSegments.{wire_segments, hands_in};
ghost use Rattle.nsp_link.specs.Kinds.{queues_of};
ghost use Rattle.nsp_link.specs.inner.Index.{Stays, begins_use};
ghost use Rattle.nsp_link.specs.inner.Queue.{answered_link, forgotten_link, keeps};

use super::Link;
use super::queue::reached;
use crate::Piece;
use crate::kind::is_queued;
use dna_links::Phase;
use std::alloc::{AllocError, Global};
use wire_base::Window;

impl<W: Window<Piece, 4096> + Drop> Link<W> {
    /// A message is handed in. Where memory is refused, nothing changes.
    pub fn hand_in(&mut self, alloc: Global, message: &[u8]) -> Result<(), AllocError>
        requires { keeps self.old.port.phase self.old.queue ≡ true }
        ensures ok { OnOk result (self.new ≡ with_segments (hands_in message.now self.old.segments) self.old) }
        ensures rest { self.new ≡ with_segments self.new.segments self.old }
        ensures err { OnErr result (self.new ≡ self.old) }
    {
        match &mut self.segments {
            Some(segments) => segments.hand_in(alloc, message),
            None => unreachable!(),
        }
    }

    /// The user closes it. With queues it may have ended, and then it goes on in what waits.
    #[tactic(auto, using(crate::proofs::Requeued::requeueing))]
    pub fn close<const QUEUES: u8>(&mut self, alloc: Global)
        requires live { is_live (in_use (queues_of QUEUES) self.old).phase ≡ true }
        requires kept { keeps self.old.port.phase self.old.queue ≡ true }
        ensures goes { self.new ≡ goes_to wire_segments (queues_of QUEUES) Phase.Disconnecting self.old }
        ensures stays { Stays self.old self.new }
    {
        if !is_queued::<QUEUES>() {
            self.port.phase = Phase::Disconnecting;
            return;
        }
        if matches!(self.port.phase, Phase::Ended) {
            let said = self.queue.said;
            self.requeue(alloc, Some(Phase::Disconnecting), said);
            return;
        }
        self.port.phase = Phase::Disconnecting;
    }

    /// The user accepts or rejects the call: it gets this own address, and the phase that goes with the answer.
    pub fn answer<const QUEUES: u8>(&mut self, phase: Phase, own: u16)
        requires live { is_live self.old.port.phase ≡ true }
        requires lives { is_live phase ≡ true }
        requires phase { is_called phase ≡ false }
        requires known { is_calling phase ≡ false }
        ensures answers { self.new ≡ answered_link (queues_of QUEUES) phase own self.old }
        ensures uses { begins_use self.new ≡ begins_use self.old }
    {
        self.port.own = Some(own);
        self.port.phase = phase;
        if is_queued::<QUEUES>() {
            self.queue = reached(phase, self.queue);
        }
    }

    /// Its node starts anew: it is over, and its address is nobody's. The answer is whether nothing of it waits, as always with queues.
    #[tactic(auto, using(crate::proofs::Booted::booting))]
    pub fn boot<const QUEUES: u8>(&mut self, alloc: Global) -> bool
        ensures boots { self.new ≡ booted_link wire_segments (queues_of QUEUES) self.old }
        ensures settled { result ≡ true → self.new.queue.waits ≡ None }
    {
        self.port.phase = Phase::Ended;
        self.forget::<QUEUES>(alloc);
        self.queue.waits.is_none()
    }

    /// Its own address is given to another link.
    #[tactic(auto, using(crate::proofs::Requeued::requeueing))]
    pub fn forget<const QUEUES: u8>(&mut self, alloc: Global)
        requires { is_live self.old.port.phase ≡ false }
        ensures { self.new ≡ forgotten_link (queues_of QUEUES) self.old }
    {
        self.port.own = None;
        if is_queued::<QUEUES>() {
            self.queue.waits = None;
            self.segments = None;
            return;
        }
        if !self.keeps_numbers() {
            self.segments = None;
            return;
        }
        if let Some(segments) = &mut self.segments {
            segments.clear(alloc);
        }
    }
}
