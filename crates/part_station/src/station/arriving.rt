//! What comes to it.

ghost use Rattle.std.specs.Prelude.{◌≡◌, ◌^◌, Ok, IfErr, OnOk};
ghost use Rattle.ddcmp_station.specs.Arrival.{arrival_view};
ghost use Rattle.part_station.specs.Cases.{after_arrival, arrival_reason, cases_meet, is_any};
ghost use Rattle.part_station.specs.Cases as specs;
ghost use Rattle.part_station.specs.Fault.{Says};
ghost use Rattle.part_station.specs.Low.{AreAllLow};

use super::{PartStation, opens};
use crate::fault::PartFault;
use crate::known;
use crate::open_case::is_restart;
use ddcmp_station::Arrival;
use dna_station::StationRefusal;
use std::alloc::AllocError;

impl PartStation {
    // Whether it may be in HALTED after this came.
    fn may_halt(&self, arrival: Arrival, kept: bool) -> bool
        ensures { result ≡ specs.halts self.now (arrival_view arrival.entry) kept }
    {
        if kept {
            return false;
        }
        if self.halted {
            return true;
        }
        if is_restart(arrival) {
            return self.running.is_some() || self.ahead.is_some();
        }
        false
    }

    // Whether something is left where this comes, apart from what may lie ahead from now on: that is where another is.
    fn may_meet(&self, arrival: Arrival, kept: bool) -> bool
        requires { AreAllLow (2 ^ 63) self.now }
        ensures { result ≡ specs.may_meet self.now (arrival_view arrival.entry) kept }
    {
        if self.may_halt(arrival, kept) {
            return true;
        }
        if known::may_meet(&self.istrt, arrival, kept) {
            return true;
        }
        if known::may_meet(&self.astrt, arrival, kept) {
            return true;
        }
        if opens::may_meet(&self.running, arrival, kept) {
            return true;
        }
        opens::may_meet(&self.ahead, arrival, kept)
    }

    // Why nothing is left, where nothing is.
    fn arrival_reason(&self, arrival: Arrival, kept: bool) -> StationRefusal
        requires { AreAllLow (2 ^ 63) self.now }
        ensures { result ≡ arrival_reason self.now (arrival_view arrival.entry) kept }
    {
        if let Some(refusal) = opens::arrival_refusal(&self.ahead, arrival, kept) {
            return refusal;
        }
        if let Some(refusal) = opens::arrival_refusal(&self.running, arrival, kept) {
            return refusal;
        }
        if let Some(refusal) = known::arrival_refusal(&self.astrt, arrival, kept) {
            return refusal;
        }
        if let Some(refusal) = known::arrival_refusal(&self.istrt, arrival, kept) {
            return refusal;
        }
        StationRefusal::WrongKeep
    }

    /// This came, and its packet was kept or not: a sound message, or what shows damage. The tag of a message is not asked. For example data with
    /// NUM 7 are kept at first, as may be any, and those that are kept next have NUM 8.
    ///
    /// `Refused`, and nothing changes: nothing that the station may be meets it. `WrongResponse`: the other side sent this RESP wrongly. `WrongKeep`:
    /// nothing is taken. `OutOfMemory`: two cases come of one, and memory for that was refused; then the station is of no use.
    pub fn arrive(&mut self, arrival: Arrival, kept: bool) -> Result<(), PartFault>
        requires { AreAllLow (2 ^ 63) self.old }
        ensures made { OnOk result (cases_meet self.old (arrival_view arrival.entry) kept ≡ Ok self.new) }
        ensures fault { IfErr result (λ fault. Says fault (cases_meet self.old (arrival_view arrival.entry) kept) self.old self.new) }
    {
        if !self.may_meet(arrival, kept) {
            return Err(PartFault::Refused(self.arrival_reason(arrival, kept)));
        }
        self.halted = self.may_halt(arrival, kept);
        known::meet(&mut self.istrt, arrival, kept);
        known::meet(&mut self.astrt, arrival, kept);
        if let Err(AllocError) = opens::meet_ahead(&self.running, &mut self.ahead, arrival, kept) {
            return Err(PartFault::OutOfMemory);
        }
        opens::meet(&mut self.running, arrival, kept);
        Ok(())
    }
}
