//! A station in RUNNING of which not all is known, if it may be one.

ghost use Rattle.std.specs.Prelude.{◌≡◌, ◌^◌, OnOk, IfOk};
ghost use Rattle.ddcmp_msg.specs.Message.{view};
ghost use Rattle.ddcmp_station.specs.Arrival.{arrival_view};
ghost use Rattle.part_station.specs.Cases.{ahead_meets, goes_ahead, is_left, open_meets, open_sends, refusal_in};
ghost use Rattle.part_station.specs.Open.{open_arrival_refusal, open_sending_refusal};
ghost use Rattle.part_station.specs.Low.{OpenIsLow};

use crate::open_case::{Open, is_restart};
use ddcmp_msg::Message;
use ddcmp_station::Arrival;
use dna_station::StationRefusal;
use std::alloc::AllocError;

/// Why it can't send this message, if there is one and it can't.
pub fn sending_refusal(slot: &Option<Open>, message: &Message) -> Option<StationRefusal>
    requires { OpenIsLow (2 ^ 63) slot.now }
    ensures { result ≡ refusal_in (λ o. open_sending_refusal o (view message.now)) slot.now }
{
    match slot {
        Some(station) => station.sending_refusal(message),
        None => None,
    }
}

/// Whether there is one that can send this message.
pub fn may_send(slot: &Option<Open>, message: &Message) -> bool
    requires { OpenIsLow (2 ^ 63) slot.now }
    ensures { result ≡ is_left (open_sends (view message.now) slot.now) }
{
    match slot {
        Some(station) => match station.sending_refusal(message) {
            Some(_) => false,
            None => true,
        },
        None => false,
    }
}

/// It sent this message, or is left out. `AllocError`: there is no memory for a copy of the data.
pub fn send(slot: &mut Option<Open>, message: &Message) -> Result<(), AllocError>
    requires { OpenIsLow (2 ^ 63) slot.old }
    ensures { OnOk result (slot.new ≡ open_sends (view message.now) slot.old) }
{
    let Some(station) = slot else {
        return Ok(());
    };
    match station.sending_refusal(message) {
        Some(_) => {
            *slot = None;
            Ok(())
        }
        None => station.send(message),
    }
}

/// Why this can't come, if there is one and it can't come to that.
pub fn arrival_refusal(slot: &Option<Open>, arrival: Arrival, kept: bool) -> Option<StationRefusal>
    requires { OpenIsLow (2 ^ 63) slot.now }
    ensures { result ≡ refusal_in (λ o. open_arrival_refusal o (arrival_view arrival.entry) kept) slot.now }
{
    match slot {
        Some(station) => station.arrival_refusal(arrival, kept),
        None => None,
    }
}

/// Whether one is left in RUNNING after this came.
pub fn may_meet(slot: &Option<Open>, arrival: Arrival, kept: bool) -> bool
    requires { OpenIsLow (2 ^ 63) slot.now }
    ensures { result ≡ is_left (open_meets (arrival_view arrival.entry) kept slot.now) }
{
    match slot {
        Some(station) => match station.arrival_refusal(arrival, kept) {
            Some(_) => false,
            None => !is_restart(arrival),
        },
        None => false,
    }
}

/// This came to it, or it is left out.
pub fn meet(slot: &mut Option<Open>, arrival: Arrival, kept: bool)
    requires { OpenIsLow (2 ^ 63) slot.old }
    ensures { slot.new ≡ open_meets (arrival_view arrival.entry) kept slot.old }
{
    let Some(station) = slot else {
        return;
    };
    if let Some(_) = station.arrival_refusal(arrival, kept) {
        *slot = None;
        return;
    }
    if is_restart(arrival) {
        *slot = None;
        return;
    }
    station.arrive(arrival, kept);
}

// What it is after this came where its RESP acknowledges the higher of two numbers, if it may.
fn goes_ahead_of(
    slot: &Option<Open>,
    arrival: Arrival,
    kept: bool,
) -> Result<Option<Open>, AllocError>
    requires { OpenIsLow (2 ^ 63) slot.now }
    ensures { IfOk result (λ ahead. ahead ≡ goes_ahead (arrival_view arrival.entry) kept slot.now) }
{
    match slot {
        Some(station) => match station.arrival_refusal(arrival, kept) {
            Some(_) => Ok(None),
            None => station.ahead(arrival, kept),
        },
        None => Ok(None),
    }
}

/// This came, before it came to `running`: to the one that lies ahead, if there is one; else one may be ahead of that from now on. `AllocError`:
/// there is no memory for that.
pub fn meet_ahead(
    running: &Option<Open>,
    ahead: &mut Option<Open>,
    arrival: Arrival,
    kept: bool,
) -> Result<(), AllocError>
    requires running { OpenIsLow (2 ^ 63) running.now }
    requires ahead { OpenIsLow (2 ^ 63) ahead.old }
    ensures { OnOk result (ahead.new ≡ ahead_meets (arrival_view arrival.entry) kept running.now ahead.old) }
{
    if let Some(_) = ahead {
        meet(ahead, arrival, kept);
        return Ok(());
    }
    *ahead = goes_ahead_of(running, arrival, kept)?;
    Ok(())
}
