//! The numbers of a station, without its packets, so that a state is small and copied freely.

mod arriving;
mod sending;

ghost use Rattle.std.specs.Prelude.{◌≡◌, ◌+◌, ◌==◌, not};
ghost use Rattle.dna_station.specs.Station.{wire};
ghost use Rattle.dna_station.specs.declared.state.State.TheVariants.{Halted};
ghost use Rattle.dna_station.specs.declared.state.StationEvent.TheVariants as user;
ghost use Rattle.placing.specs.Counted.{after_event, fresh, own_tag};

use dna_station::{State, Tag};
pub(crate) use sending::But;

/// What a station keeps except its packets (DDCMP 4.1, station variables). All numbers of messages are those of the line, modulo 256.
#[derive(Clone, Copy, PartialEq, Eq)]
pub(crate) struct Station {
    pub(crate) state: State,
    // its period: how many units it had sent when it began, and one more
    period: u64,
    // the other side's period that this one goes with
    partner: Option<u64>,
    // the last number received in order
    received: u8,
    // the highest number acknowledged
    acknowledged: u8,
    // how many packets are not acknowledged, and how many of them come before the next to send
    outstanding: u8,
    ahead: u8,
    // how many NAKs of an answer to REP, and of no buffer, may be sent. Those for damage need none: noise may come at any time.
    answers: u32,
    refused: u32,
}

impl Station {
    /// One that nobody has started.
    pub(crate) fn new() -> Station
        ensures { result ≡ fresh Halted 0 }
    {
        Station {
            state: State::Halted,
            period: 0,
            partner: None,
            received: 0,
            acknowledged: 0,
            outstanding: 0,
            ahead: 0,
            answers: 0,
            refused: 0,
        }
    }

    /// The tag that it sends with.
    pub(crate) fn tag(self) -> Tag
        ensures { result ≡ own_tag self }
    {
        Tag {
            period: self.period,
            partner: self.partner,
        }
    }

    /// The last number that it received in order.
    pub(crate) fn received(self) -> u8 {
        self.received
    }

    /// Whether a packet is not acknowledged.
    pub(crate) fn is_waiting(self) -> bool
        ensures { result ≡ not (self.outstanding == 0) }
    {
        self.outstanding > 0
    }

    /// The user starts it, and so this period begins.
    pub(crate) fn started(self, period: u64) -> Station
        ensures { result ≡ record (after_event self user.Start) { period = period } }
    {
        let new = Station::new();
        Station {
            state: State::Istrt,
            period,
            ..new
        }
    }

    /// The user halts it.
    pub(crate) fn halted(self) -> Station
        ensures { result ≡ after_event self user.Halt }
    {
        Station {
            state: State::Halted,
            ..self
        }
    }

    /// Whether it differs from the other in nothing but the periods.
    pub(crate) fn is_like(&self, other: &Station) -> bool {
        if self.state != other.state || self.received != other.received {
            return false;
        }
        if self.acknowledged != other.acknowledged || self.outstanding != other.outstanding {
            return false;
        }
        self.ahead == other.ahead && self.answers == other.answers && self.refused == other.refused
    }

    /// Whether it can do all that the other can, apart from the other side's units that may still come. A higher number acknowledged covers a lower
    /// one, except where none is left to ask for.
    pub(crate) fn covers(&self, other: &Station) -> bool {
        if self.state != other.state || self.tag() != other.tag() {
            return false;
        }
        if self.received != other.received || self.next_to_send() != other.next_to_send() {
            return false;
        }
        if self.answers < other.answers || self.refused < other.refused {
            return false;
        }
        if self.acknowledged == other.acknowledged {
            return self.outstanding == other.outstanding;
        }
        self.last_given() == other.last_given()
            && self.outstanding > 0
            && self.outstanding < other.outstanding
    }

    // The last number that it gave a packet.
    fn last_given(&self) -> u8
        ensures { result ≡ wire (self.now.acknowledged + self.now.outstanding) }
    {
        self.acknowledged.wrapping_add(self.outstanding)
    }
}
