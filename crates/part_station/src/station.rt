//! What a station may be whose capture begins in its midst.

ghost use Rattle.std.specs.Prelude.{◌≡◌, ◌^◌, None, Ok, IfOk, IfErr, OnOk};
ghost use Rattle.ddcmp_msg.specs.Message.{view};
ghost use Rattle.part_station.specs.Cases.{after_sending, cases_send, cases_user, first_cases, is_any, sending_reason};
ghost use Rattle.part_station.specs.Cases as specs;
ghost use Rattle.part_station.specs.Fault.{Says};
ghost use Rattle.part_station.specs.Low.{AreAllLow};

mod arriving;
mod opens;

use crate::fault::PartFault;
use crate::known::{self, Known};
use crate::open_case::Open;
use ddcmp_msg::{Flags, Message};
use ddcmp_station::Arrival;
use dna_station::{ArrivalRow, StationEvent, StationRefusal, Tag};
use std::alloc::{AllocError, Global};
use std::marker::Model;

/// One station whose capture begins in its midst, with three verbs as a [`ddcmp_station::Station`] has them: what its user does; its node sent this;
/// this came. Nothing is known of it at first but that it is a station: it may be in any state, with any numbers and packets. Each verb goes
/// through all that it may be, at most five cases, and leaves out what can't do it. Once its user started it all is known.
///
/// For example data with any NUM may be sent at first. After NUM 9 the next data have NUM 10 and a REP has any NUM but 8; after a RESP of 9, which
/// sets A, a RESP of 8 is wrong.
#[derive(Drop)]
pub struct PartStation {
    halted: bool,
    istrt: Option<Known>,
    astrt: Option<Known>,
    running: Option<Open>,
    ahead: Option<Open>,
    alloc: Global,
}

impl Model for PartStation {
    ghost use Rattle.part_station.specs.Cases.{Cases};

    ghost Value = { Cases };

    ghost view = { λ s. record { halted = s.halted; istrt = s.istrt; astrt = s.astrt; running = s.running; ahead = s.ahead } };
}

impl PartStation {
    /// Before any record. `AllocError`: there is no memory for what it keeps.
    pub fn new(alloc: Global) -> Result<PartStation, AllocError>
        ensures { IfOk result (λ station. station ≡ first_cases) }
    {
        let istrt = in_istrt(alloc)?;
        let astrt = in_astrt(alloc)?;
        Ok(PartStation {
            halted: true,
            istrt: Some(istrt),
            astrt: Some(astrt),
            running: Some(Open::new(alloc)?),
            ahead: None,
            alloc,
        })
    }

    /// Its user starts or halts it; a boot halts it. After a start all is known: for example after `Halt`, which may always be, and `Start` the first
    /// data have NUM 1.
    ///
    /// `WrongUserEvent`, and nothing changes: a start where it can't be in HALTED. `OutOfMemory`: memory for the window of the started station was
    /// refused, and nothing changes.
    pub fn user(&mut self, event: StationEvent) -> Result<(), PartFault>
        ensures made { OnOk result (cases_user self.old event ≡ Ok self.new) }
        ensures fault { IfErr result (λ fault. Says fault (cases_user self.old event) self.old self.new) }
    {
        match event {
            StationEvent::Start => self.start(),
            StationEvent::Halt => {
                self.halted = true;
                self.istrt = None;
                self.leave_others();
                Ok(())
            }
        }
    }

    // It is one that was in ISTRT, or none but that is left.
    fn leave_others(&mut self)
        ensures { self.new ≡ record self.old { astrt = None; running = None; ahead = None } }
    {
        self.astrt = None;
        self.running = None;
        self.ahead = None;
    }

    fn start(&mut self) -> Result<(), PartFault>
        ensures made { OnOk result (cases_user self.old StationEvent.Start ≡ Ok self.new) }
        ensures fault { IfErr result (λ fault. Says fault (cases_user self.old StationEvent.Start) self.old self.new) }
    {
        if !self.may_start() {
            return Err(PartFault::Refused(StationRefusal::WrongUserEvent));
        }
        match in_istrt(self.alloc) {
            Ok(started) => {
                self.halted = false;
                self.istrt = Some(started);
                self.leave_others();
                Ok(())
            }
            Err(AllocError) => Err(PartFault::OutOfMemory),
        }
    }

    // It may be in HALTED.
    fn may_start(&self) -> bool
        ensures { result ≡ specs.may_start self.now }
    {
        self.halted || known::is_halted(&self.istrt) || known::is_halted(&self.astrt)
    }

    // Something is left where this message is sent.
    fn may_send(&self, message: &Message) -> bool
        requires { AreAllLow (2 ^ 63) self.now }
        ensures { result ≡ is_any (after_sending self.now (view message.now)) }
    {
        if known::may_send(&self.istrt, message) {
            return true;
        }
        if known::may_send(&self.astrt, message) {
            return true;
        }
        if opens::may_send(&self.running, message) {
            return true;
        }
        opens::may_send(&self.ahead, message)
    }

    // Why nothing is left, where nothing is.
    fn sending_reason(&self, message: &Message) -> StationRefusal
        requires { AreAllLow (2 ^ 63) self.now }
        ensures { result ≡ sending_reason self.now (view message.now) }
    {
        if let Some(refusal) = opens::sending_refusal(&self.ahead, message) {
            return refusal;
        }
        if let Some(refusal) = opens::sending_refusal(&self.running, message) {
            return refusal;
        }
        if let Some(refusal) = known::sending_refusal(&self.astrt, message) {
            return refusal;
        }
        if let Some(refusal) = known::sending_refusal(&self.istrt, message) {
            return refusal;
        }
        StationRefusal::WrongState
    }

    /// Its node sent this message: for example at first an ACK of any RESP, and from then on one of the same, until a packet is kept.
    ///
    /// `Refused`, and nothing changes: nothing that the station may be sends it; the reason is that of one which was in RUNNING, if there is one.
    /// `OutOfMemory`: memory for a copy of the data was refused; then the station is of no use.
    pub fn send(&mut self, message: &Message) -> Result<(), PartFault>
        requires { AreAllLow (2 ^ 63) self.old }
        ensures made { OnOk result (cases_send self.old (view message.now) ≡ Ok self.new) }
        ensures fault { IfErr result (λ fault. Says fault (cases_send self.old (view message.now)) self.old self.new) }
    {
        if !self.may_send(message) {
            return Err(PartFault::Refused(self.sending_reason(message)));
        }
        match self.send_all(message) {
            Ok(()) => Ok(()),
            Err(AllocError) => Err(PartFault::OutOfMemory),
        }
    }

    // What can send it did, and the rest is left out.
    fn send_all(&mut self, message: &Message) -> Result<(), AllocError>
        requires { AreAllLow (2 ^ 63) self.old }
        ensures { OnOk result (self.new ≡ after_sending self.old (view message.now)) }
    {
        self.halted = false;
        known::send(&mut self.istrt, message)?;
        known::send(&mut self.astrt, message)?;
        opens::send(&mut self.running, message)?;
        opens::send(&mut self.ahead, message)
    }
}

// A station that was started.
fn in_istrt(alloc: Global) -> Result<Known, AllocError>
    ensures { IfOk result (λ station. station ≡ specs.in_istrt) }
{
    let mut station = Known::new(alloc)?;
    match station.user(StationEvent::Start) {
        Ok(()) => Ok(station),
        Err(_) => unreachable!(),
    }
}

// And met a STRT.
fn in_astrt(alloc: Global) -> Result<Known, AllocError>
    ensures { IfOk result (λ station. station ≡ specs.in_astrt) }
{
    let mut station = in_istrt(alloc)?;
    let tag = Tag {
        period: 0,
        partner: None,
    };
    let start = Message::Strt {
        flags: Flags {
            quick_sync: false,
            select: false,
        },
    };
    station.arrive(Arrival::Sound(start, tag), ArrivalRow::StartMet, false);
    Ok(station)
}
