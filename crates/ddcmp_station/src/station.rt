//! The station, and what its user does.

ghost use Rattle.std.specs.Prelude.{◌≡◌, ◌+◌, ◌^◌, ◌<◌, ◌≤◌, Some, length, nat_le, IfOk, OnOk, OnErr, IfErr};
ghost use Rattle.dna_station.specs.Table.{user_refusal};
ghost use Rattle.dna_station.specs.WireBook.{acknowledges};
ghost use Rattle.dna_station.specs.WireStation.{new_wire_station, wire_after_event, wire_after_label, load};

mod arriving;
mod failing;
mod sending;
mod telling;
mod viewing;

use crate::causes::Causes;
use dna_station::{State, StationEvent, StationRefusal};
use station_variables::StationVariables;
use std::alloc::{AllocError, Global};
use std::marker::Model;
use wire_base::{Copied, Window};

/// A packet that has a number and is not acknowledged: a copy of its bytes, and the label of type `T` that the node put beside it, if it did.
pub type HeldPacket<T> = station_variables::HeldPacket<T, Copied>;

/// One station, with three verbs: [`Station::user`], what its user does; [`Station::send`], its node sent this; [`Station::arrive`], this
/// came. What is sent and what comes is asked first ([`Station::ask_to_send`], [`Station::ask_arrival`]), which changes nothing.
///
/// ```text
///            start            STRT comes      ACK or data with RESP 0, or STACK, comes
///  HALTED ----------> ISTRT -------------> ASTRT ----------------------------------> RUNNING
///    ^                  |                                                            ^  |
///    |                  +------------------ STACK comes -----------------------------+  |
///    +------------------------- halt from every state; STRT comes in RUNNING -----------+
/// ```
///
/// It keeps the packets that are not acknowledged in a window, each with the label of type `T` that its node put beside it, and
/// of its numbers their values modulo 256. A contract sees it as the record of what it keeps, its period, its partner period and
/// the open causes of a NAK. A refused call changes nothing.
#[derive(Drop)]
pub struct Station<T: Copy, W: Window<HeldPacket<T>, 256>> {
    variables: StationVariables<T, Copied, W>,
    // how many starts there were: the number of the present period
    period: u64,
    // the other side's period that the present one goes with, once it is known
    partner: Option<u64>,
    // what a NAK may still answer
    causes: Causes,
    // where the packets lie
    alloc: Global,
}

impl<T: Copy, W: Window<HeldPacket<T>, 256>> Model for Station<T, W> {
    ghost use Rattle.dna_station.specs.WireStation.{WireStation};

    ghost Value = { WireStation T };

    ghost view = { λ s. record { variables = s.variables; period = s.period; partner = s.partner; causes = s.causes } };
}

impl<T: Copy, W: Window<HeldPacket<T>, 256>> Station<T, W> {
    /// A station that nobody has started: in HALTED, in period 0, with no partner (DDCMP 4.1, startup state table). It takes
    /// the memory that its window takes when it is made.
    pub fn new(alloc: Global) -> Result<Self, AllocError>
        ensures { IfOk result (λ station. station ≡ new_wire_station) }
    {
        Ok(Station {
            variables: StationVariables::new(alloc, State::Halted)?,
            period: 0,
            partner: None,
            causes: Causes::new(),
            alloc,
        })
    }

    /// Its state: HALTED, ISTRT, ASTRT or RUNNING.
    pub fn state(&self) -> State
        ensures { result ≡ self.now.variables.state }
    {
        self.variables.state()
    }

    /// How many starts there were so far, which is the number of the present period: 0 before the first.
    pub fn period(&self) -> u64
        ensures { result ≡ self.now.period }
    {
        self.period
    }

    /// Whether a RESP that comes is among the highest number acknowledged to the highest given. In RUNNING no other is right. Takes no memory.
    #[inline(always)]
    pub fn may_answer(&self, resp: u8) -> bool
        ensures { result ≡ nat_le (acknowledges self.now.variables resp) (length self.now.variables.held) }
    {
        self.variables.may_answer(resp)
    }

    /// Its user starts or halts it (DDCMP 4.1, startup state table). A start leads to ISTRT and begins the next period,
    /// which has no partner yet: all packets and causes are dropped, and the next packet will have number 1. A halt leads to
    /// HALTED from every state. The counts that the station keeps are together below 2^63. Takes no memory.
    ///
    /// `WrongUserEvent`, and nothing else: a start in a state other than HALTED. The station stays as it
    /// was.
    pub fn user(&mut self, event: StationEvent) -> Result<(), StationRefusal>
        requires { load self.old < 2 ^ 63 }
        ensures allowed { OnOk result (user_refusal self.old.variables.state event ≡ None) }
        ensures ok { OnOk result (self.new ≡ wire_after_event self.old event) }
        ensures refused { IfErr result (λ refusal. user_refusal self.old.variables.state event ≡ Some refusal) }
        ensures err { OnErr result (self.new ≡ self.old) }
        ensures load { load self.new ≤ load self.old + 1 }
    {
        match event {
            StationEvent::Start => self.start(),
            StationEvent::Halt => {
                self.variables.go_to(State::Halted);
                Ok(())
            }
        }
    }

    // Its user starts it.
    fn start(&mut self) -> Result<(), StationRefusal>
        requires { load self.old < 2 ^ 63 }
        ensures allowed { OnOk result (user_refusal self.old.variables.state StationEvent.Start ≡ None) }
        ensures ok { OnOk result (self.new ≡ wire_after_event self.old StationEvent.Start) }
        ensures refused { IfErr result (λ refusal. user_refusal self.old.variables.state StationEvent.Start ≡ Some refusal) }
        ensures err { OnErr result (self.new ≡ self.old) }
        ensures load { load self.new ≤ load self.old + 1 }
    {
        let State::Halted = self.variables.state() else {
            return Err(StationRefusal::WrongUserEvent);
        };
        self.variables.start();
        self.period += 1;
        self.partner = None;
        self.causes = Causes::new();
        Ok(())
    }

    /// Puts a label beside the packet with the newest number, in the place of one that it had. A number is outstanding. Takes
    /// no memory.
    pub fn label(&mut self, label: T)
        requires { 0 < length self.old.variables.held }
        ensures { self.new ≡ wire_after_label self.old label }
    {
        self.variables.label(label);
    }
}
