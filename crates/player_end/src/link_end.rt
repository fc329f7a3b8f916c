//! One link of an end: its variables and what it owes.

ghost use Rattle.std.specs.Prelude.{◌≡◌, true, false, Some, None, OnOk, OnErr};
ghost use Rattle.dna_play.specs.LinkOwed as model;
ghost use Rattle.dna_play.specs.StoredLinks.{no_segments};
ghost use Rattle.dna_play.specs.StoredLinks as stored;
ghost use Rattle.player_end.specs.inner.Links.{gone, retried_end};
ghost use Rattle.player_end.specs.inner.Owing.{duty_view};

mod acting;
mod composing;
mod delivering;

use crate::duty::Duty;
use crate::given_piece::GivenPiece;
use crate::link_owed::LinkOwed;
use dna_links::{Phase, Port};
use link_segments::{Outstanding, Received, Unsent};
use std::alloc::{AllocError, Global};
use std::marker::Model;
use wire_base::{Seq, Window};

/// One link of an end (NSP 4.0, ports): its phase and addresses, its segments both ways modulo 4,096, and what it owes. No call judges
/// anything.
#[derive(Drop)]
pub struct LinkEnd<V: Window<GivenPiece, 4096> + Drop> {
    port: Port,
    unsent: Unsent,
    outstanding: Outstanding<GivenPiece, V>,
    // the highest number received without a gap
    received: Seq<4096>,
    pieces: Received,
    owed: LinkOwed,
}

impl<V: Window<GivenPiece, 4096> + Drop> Model for LinkEnd<V> {
    ghost use Rattle.std.specs.Prelude.{◌≤◌, length};
    ghost use Rattle.dna_play.specs.NextSent.{LinkEnd};

    ghost Value = { LinkEnd };

    ghost view = { λ l. record {
      port = l.port;
      variables = record {
        unsent = l.unsent;
        acknowledged = l.outstanding.first;
        outstanding = l.outstanding.items;
        received = l.received;
        pieces = l.pieces;
      };
      owed = l.owed;
    } };

    ghost invariant = { λ l. (l.owed.ahead ≤ length l.outstanding.items) × (length l.outstanding.items ≤ 2047) };
}

impl<V: Window<GivenPiece, 4096> + Drop> LinkEnd<V> {
    /// A link that is opened here, with this own address: it owes CI. Takes no memory.
    pub fn opened(alloc: Global, own: u16) -> Self
        ensures { result ≡ stored.opened own }
    {
        let port = Port {
            phase: Phase::Calling,
            opened: true,
            own: Some(own),
            far: None,
        };
        let mut link = LinkEnd::empty(alloc, port);
        link.owe(Duty::Initiate);
        link
    }

    /// A link that a CI begins, with this far address: it owes a connect acknowledgement. Takes no memory.
    pub fn called(alloc: Global, far: u16) -> Self
        ensures { result ≡ stored.called far }
    {
        let port = Port {
            phase: Phase::Called,
            opened: false,
            own: None,
            far: Some(far),
        };
        let mut link = LinkEnd::empty(alloc, port);
        link.owe(Duty::ConnectAck);
        link
    }

    /// One that has ended: no look-up finds it, and it has nothing to send. Takes no memory.
    pub fn gone(alloc: Global) -> Self
        ensures { result ≡ gone }
    {
        let port = Port {
            phase: Phase::Ended,
            opened: false,
            own: None,
            far: None,
        };
        LinkEnd::empty(alloc, port)
    }

    // One with this port, that has no segment and owes nothing.
    fn empty(alloc: Global, port: Port) -> Self
        ensures { result ≡ record { port = port; variables = no_segments; owed = model.nothing } }
    {
        LinkEnd {
            port,
            unsent: Unsent::new(alloc),
            outstanding: Outstanding::new(),
            received: Seq::of(0),
            pieces: Received::new(alloc),
            owed: LinkOwed::nothing(),
        }
    }

    /// What look-ups know of it.
    pub fn port(&self) -> Port
        ensures { result ≡ self.now.port }
    {
        self.port
    }

    // ---- its user and its timer

    /// This is owed.
    pub fn owe(&mut self, duty: Duty)
        ensures { self.new ≡ stored.owes (duty_view duty) self.old }
    {
        self.owed.owe(duty);
    }

    /// It goes to this phase, and if that is another one it owes nothing.
    pub fn go_to(&mut self, phase: Phase)
        ensures { self.new ≡ stored.in_phase phase self.old }
    {
        let stays = is_same(self.port.phase, phase);
        self.port.phase = phase;
        self.owed.settle(stays);
    }

    /// The user answers its call, by which it goes to this phase: it gets this own address, and owes this.
    pub fn answer(&mut self, phase: Phase, duty: Duty, own: u16)
        ensures { self.new ≡ stored.answered phase (duty_view duty) own self.old }
    {
        self.go_to(phase);
        self.port.own = Some(own);
        self.owed.owe(duty);
    }

    /// The user closes it: it owes DI.
    pub fn close(&mut self)
        ensures { self.new ≡ stored.closed self.old }
    {
        self.go_to(Phase::Disconnecting);
        self.owed.owe(Duty::Disconnect);
    }

    /// A message is handed in. Where memory for it is refused, nothing changes.
    pub fn hand_in(&mut self, alloc: Global, message: &[u8]) -> Result<(), AllocError>
        ensures ok { OnOk result (self.new ≡ stored.handed message.now self.old) }
        ensures err { OnErr result (self.new ≡ self.old) }
    {
        self.unsent.hand_in(alloc, message)
    }

    /// Its timer runs out: in Calling it owes CI, in Confirming CC, in DI DI; in RUN all outstanding segments go again. The answer is
    /// whether it can; where it can't, nothing changes.
    pub fn retry(&mut self) -> bool
        ensures yes { result ≡ true → retried_end self.old ≡ Some self.new }
        ensures no { result ≡ false → model.retried self.old.port.phase ≡ None }
        ensures same { result ≡ false → self.new ≡ self.old }
    {
        match self.port.phase {
            Phase::Calling => self.owed.owe(Duty::Initiate),
            Phase::Confirming => self.owed.owe(Duty::Confirm),
            Phase::Disconnecting => self.owed.owe(Duty::Disconnect),
            Phase::Running => self.owed.send_again(),
            Phase::Called | Phase::Ended => return false,
        }
        true
    }
}

fn is_same(one: Phase, other: Phase) -> bool
    ensures { result ≡ model.same_phase one other }
{
    match one {
        Phase::Calling => matches!(other, Phase::Calling),
        Phase::Called => matches!(other, Phase::Called),
        Phase::Confirming => matches!(other, Phase::Confirming),
        Phase::Running => matches!(other, Phase::Running),
        Phase::Disconnecting => matches!(other, Phase::Disconnecting),
        Phase::Ended => matches!(other, Phase::Ended),
    }
}
