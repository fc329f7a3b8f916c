//! What the queues of its node leave open of a link.

ghost use Rattle.std.specs.Prelude.{◌≡◌, None, true, false};
ghost use Rattle.dna_links.specs.LookUps.{is_live};
ghost use Rattle.dna_links.specs.Links.{with_segments};
ghost use Rattle.dna_links.specs.Queues as queues;
ghost use Rattle.dna_links.specs.Queues.{has_waiting, requeued, settled, shows};
ghost use Rattle.dna_links.specs.WireSegments.{wire_segments};
ghost use Rattle.dna_links.specs.WireSegments as spec;
ghost use Rattle.dna_links.specs.declared.queue.Queues.TheVariants.{With};
ghost use Rattle.nsp_link.specs.Kinds.{queues_of};
ghost use Rattle.nsp_link.specs.inner.Index.{IsFoundAs, Stays, begins_use, use_that_stays};
ghost use Rattle.nsp_link.specs.inner.Queue.{keeps};

use super::{Link, is_over};
use crate::Piece;
use dna_links::{LinkQueue, Phase, Said};
use std::alloc::Global;
use wire_base::Window;

impl<W: Window<Piece, 4096> + Drop> Link<W> {
    // It may yet send, or take, what has numbers.
    pub(super) fn keeps_numbers(&self) -> bool
        ensures { result ≡ keeps self.now.port.phase self.now.queue }
    {
        if !matches!(self.port.phase, Phase::Ended) {
            return true;
        }
        has_waiting(self.queue.waits, self.queue.said)
    }

    // With queues: this waits of it from now on, and it has come so far. What it kept of its segments, and keeps no longer, is given back.
    #[tactic(auto, using(crate::proofs::Requeued::requeueing))]
    pub(super) fn requeue(&mut self, alloc: Global, waits: Option<Phase>, said: Said)
        requires live { is_live self.old.port.phase ≡ true → waits ≡ None }
        requires kept { has_waiting waits said ≡ true → keeps self.old.port.phase self.old.queue ≡ true }
        ensures { self.new ≡ requeued wire_segments waits said self.old }
    {
        let before = self.keeps_numbers();
        self.queue.waits = waits;
        self.queue.said = said;
        if !before {
            return;
        }
        if self.keeps_numbers() {
            return;
        }
        self.let_go(alloc);
    }

    // Nothing that has numbers is sent or taken any more.
    #[tactic(auto, using(crate::proofs::Ended::left))]
    pub(super) fn let_go(&mut self, alloc: Global)
        requires { keeps self.old.port.phase self.old.queue ≡ false }
        ensures { self.new ≡ with_segments (spec.ends self.old.segments) self.old }
    {
        let Some(segments) = &mut self.segments else {
            return;
        };
        let empty = segments.end(alloc);
        if empty {
            self.segments = None;
        }
    }

    /// With queues: a message shows that it has come so far in what it sends.
    #[tactic(auto, using(crate::proofs::Requeued::requeueing))]
    pub fn say(&mut self, alloc: Global, said: Said)
        ensures shows { self.new ≡ shows wire_segments said self.old }
        ensures stays { Stays self.old self.new }
    {
        let waits = self.queue.waits;
        let further = further(said, self.queue.said);
        self.requeue(alloc, waits, further);
    }

    /// With queues: its node sent a DC with its address. What came for it was acted on: if it has ended nothing of it waits any more, else its
    /// phase has begun.
    #[tactic(auto, using(crate::proofs::Requeued::requeueing))]
    pub fn settle(&mut self, alloc: Global)
        ensures settles { self.new ≡ settled wire_segments self.old.queue.waits self.old }
        ensures found { IsFoundAs self.old self.new }
        ensures uses { begins_use self.new ≡ use_that_stays self.old.queue.waits self.old }
    {
        if self.queue.waits.is_some() {
            let said = self.queue.said;
            self.requeue(alloc, None, said);
            return;
        }
        match self.port.phase {
            Phase::Running => self.say(alloc, Said::OfRun),
            Phase::Disconnecting => self.say(alloc, Said::Disconnect),
            Phase::Calling | Phase::Called | Phase::Confirming | Phase::Ended => {}
        }
    }
}

// A link that ended in this phase may yet send what has numbers, until its DI was sent.
fn has_waiting(waits: Option<Phase>, said: Said) -> bool
    ensures { result ≡ queues.has_waiting waits said }
{
    let Some(phase) = waits else {
        return false;
    };
    if !is_over(said) {
        return true;
    }
    !matches!(phase, Phase::Disconnecting)
}

// The later of two.
fn further(said: Said, before: Said) -> Said
    ensures { result ≡ queues.further said before }
{
    match said {
        Said::Nothing => before,
        Said::OfRun => match before {
            Said::Disconnect => Said::Disconnect,
            Said::Nothing | Said::OfRun => Said::OfRun,
        },
        Said::Disconnect => Said::Disconnect,
    }
}

// What is remembered of a phase.
pub(super) fn reached(phase: Phase, queue: LinkQueue) -> LinkQueue
    ensures { result ≡ queues.reached phase queue }
{
    match phase {
        Phase::Running => LinkQueue { ran: true, ..queue },
        Phase::Confirming => LinkQueue {
            accepted: true,
            ..queue
        },
        Phase::Calling | Phase::Called | Phase::Disconnecting | Phase::Ended => queue,
    }
}
