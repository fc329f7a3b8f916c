//! One end of a logical link.

ghost use Rattle.std.specs.Prelude.{◌≡◌, ◌<◌, None, true, IfOk};
ghost use Rattle.dna_links.specs.LookUps.{is_called, is_calling};
ghost use Rattle.dna_links.specs.Queues.{fresh, in_use, is_in_turn};
ghost use Rattle.dna_links.specs.Queues as queues;
ghost use Rattle.dna_links.specs.inner.Forms as forms;
ghost use Rattle.dna_links.specs.Arriving.{of_partner};
ghost use Rattle.dna_links.specs.WireSegments.{wire_segments};
ghost use Rattle.dna_links.specs.WireSegments as spec;
ghost use Rattle.nsp_link.specs.Given.{given_of};
ghost use Rattle.nsp_link.specs.Kinds.{queues_of};
ghost use Rattle.nsp_link.specs.inner.Index.{begins_use, use_that_ends};

mod arriving;
mod asking;
mod delivering;
mod due;
mod queue;
mod sending;
mod shown;
mod user;

use crate::kind::is_queued;
use crate::phase::is_phase;
use crate::segments::Segments;
use crate::{Given, LinkTag, Piece};
use dna_links::{LinkQueue, Phase, Port, Said};
use std::alloc::{AllocError, Global};
use std::marker::Model;
use wire_base::Window;

/// One end of a logical link (NSP 4.0, ports). What is done with it is chosen by `QUEUES`: whether its node has queues between NSP and DDCMP
/// ([`crate::WITH_QUEUES`]) or has none. Its segments lie in memory of their own. That is given back when the link has nothing left to send and to
/// deliver, and else when its own address is given to another link, or its node boots.
#[derive(Drop)]
pub struct Link<W: Window<Piece, 4096> + Drop> {
    port: Port,
    // the other node's link that it goes with, once it is known
    partner: Option<u64>,
    // how many data bytes the partner takes in a segment
    segsize: u16,
    // what its node's queues leave open; without queues nobody reads it
    queue: LinkQueue,
    segments: Option<Box<Segments<W>>>,
}

impl<W: Window<Piece, 4096> + Drop> Model for Link<W> {
    ghost use Rattle.std.specs.Prelude.{◌≡◌, true, None, IsSome};
    ghost use Rattle.dna_links.specs.Links.{LinkOf};
    ghost use Rattle.dna_links.specs.LookUps.{is_live, is_called, is_calling};
    ghost use Rattle.dna_links.specs.WireSegments.{WireSegments};
    ghost use Rattle.nsp_link.specs.inner.Link.{segments_in};
    ghost use Rattle.nsp_link.specs.inner.Queue.{keeps};

    ghost Value = { LinkOf WireSegments };

    ghost view = { λ l. record {
      port = l.port;
      partner = l.partner;
      segsize = l.segsize;
      segments = segments_in (λ b. b.value) l.segments;
      queue = l.queue;
    } };

    ghost invariant = { λ l. (is_called l.port.phase ≡ true → l.port.own ≡ None) × (keeps l.port.phase l.queue ≡ true → IsSome l.segments)
        × (is_calling l.port.phase ≡ true → (l.port.opened ≡ true) × (l.port.far ≡ None))
        × (is_live l.port.phase ≡ true → l.queue.waits ≡ None) };
}

impl<W: Window<Piece, 4096> + Drop> Link<W> {
    /// A link that is opened here, with this own address.
    pub fn opened(alloc: Global, own: u16) -> Result<Self, AllocError>
        ensures { IfOk result (λ link. link ≡ forms.opened wire_segments own) }
    {
        let port = Port {
            phase: Phase::Calling,
            opened: true,
            own: Some(own),
            far: None,
        };
        Link::begun(alloc, port, None, 0)
    }

    /// A link that a CI begins, with this far address and the CI's SEGSIZE; its partner is the sender.
    pub fn called(alloc: Global, far: u16, segsize: u16, tag: LinkTag) -> Result<Self, AllocError>
        ensures { IfOk result (λ link. link ≡ forms.called wire_segments of_partner far segsize tag) }
    {
        let port = Port {
            phase: Phase::Called,
            opened: false,
            own: None,
            far: Some(far),
        };
        Link::begun(alloc, port, tag.link, segsize)
    }

    // A link with this port, partner and SEGSIZE, on which nothing was handed in, sent or received.
    fn begun(
        alloc: Global,
        port: Port,
        partner: Option<u64>,
        segsize: u16,
    ) -> Result<Self, AllocError>
        requires called { is_called port.phase ≡ true → port.own ≡ None }
        requires calling { is_calling port.phase ≡ true → (port.opened ≡ true) × (port.far ≡ None) }
        ensures { IfOk result (λ link. link ≡ record { port = port; partner = partner; segsize = segsize; segments = spec.empty; queue = fresh }) }
    {
        let Ok(segments) = Box::new(alloc, Segments::new(alloc)) else {
            return Err(AllocError);
        };
        Ok(Link {
            port,
            partner,
            segsize,
            queue: FRESH,
            segments: Some(segments),
        })
    }

    /// What look-ups know of it.
    pub fn port(&self) -> Port
        ensures port { result ≡ self.now.port }
        ensures called { is_called self.now.port.phase ≡ true → self.now.port.own ≡ None }
        ensures calling { is_calling self.now.port.phase ≡ true → (self.now.port.opened ≡ true) × (self.now.port.far ≡ None) }
    {
        self.port
    }

    /// The other node's link that it goes with, once it is known.
    pub fn partner(&self) -> Option<u64>
        ensures { result ≡ self.now.partner }
    {
        self.partner
    }

    /// What it has given.
    pub fn given(&self) -> Given
        ensures given { result ≡ given_of self.now.segments }
        ensures below { result.acknowledged < 4096 }
    {
        match &self.segments {
            Some(segments) => segments.given(),
            None => Given {
                acknowledged: 0,
                outstanding: 0,
                gave_many: false,
            },
        }
    }

    // ---- its node's queues

    /// What look-ups know of it for what is sent and for its user: with queues as it was before it ended, while something may wait.
    pub fn port_in_use<const QUEUES: u8>(&self) -> Port
        ensures { result ≡ in_use (queues_of QUEUES) self.now }
    {
        if !is_queued::<QUEUES>() {
            return self.port;
        }
        self.waiting_port()
    }

    /// As it was before it ended, while something may wait.
    pub fn waiting_port(&self) -> Port
        ensures { result ≡ queues.port_of_waiting self.now.queue.waits self.now.port }
    {
        let Some(phase) = self.queue.waits else {
            return self.port;
        };
        Port { phase, ..self.port }
    }

    /// The address of the other side that a connect acknowledgement may go to because of this link.
    #[inline(always)]
    pub fn begins_use(&self) -> Option<u16>
        ensures { result ≡ begins_use self.now }
    {
        let port = self.waiting_port();
        if matches!(port.phase, Phase::Ended) {
            return None;
        }
        if port.opened {
            return None;
        }
        port.far
    }

    /// The same address where it may go to only as long as no DC with this link's address is sent.
    pub fn use_that_ends(&self) -> Option<u16>
        ensures { result ≡ use_that_ends self.now.queue.waits self.now }
    {
        let Some(_phase) = self.queue.waits else {
            return None;
        };
        self.begins_use()
    }

    /// Whether a message that asks for this phase may be sent.
    #[inline(always)]
    pub fn may_send<const QUEUES: u8>(&self, phase: Phase) -> bool
        ensures { result ≡ queues.may_send (queues_of QUEUES) phase self.now }
    {
        if !is_queued::<QUEUES>() {
            return is_phase(phase, self.port.phase);
        }
        self.is_in_turn(phase)
    }

    // The same with queues: the phase may be past.
    fn is_in_turn(&self, phase: Phase) -> bool
        ensures { result ≡ is_in_turn phase self.now.queue self.now.port }
    {
        match phase {
            Phase::Calling => is_silent(self.queue.said),
            Phase::Confirming => self.queue.accepted && is_silent(self.queue.said),
            Phase::Running => self.queue.ran && !is_over(self.queue.said),
            Phase::Called | Phase::Disconnecting | Phase::Ended => {
                is_phase(phase, self.waiting_port().phase)
            }
        }
    }
}

// Of a link that begins.
const FRESH: LinkQueue = LinkQueue {
    waits: None,
    ran: false,
    accepted: false,
    said: Said::Nothing,
    gap: 0,
};

// Nothing of RUN and no DI was sent.
fn is_silent(said: Said) -> bool
    ensures { result ≡ queues.is_silent said }
{
    matches!(said, Said::Nothing)
}

// A DI was sent.
fn is_over(said: Said) -> bool
    ensures { result ≡ queues.is_over said }
{
    matches!(said, Said::Disconnect)
}
