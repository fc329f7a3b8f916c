//! A station of which all is known.

ghost use Rattle.std.specs.Prelude.{◌≡◌, ◌^◌, ◌<◌, OnOk, IfOk};
ghost use Rattle.ddcmp_msg.specs.Message.{view};
ghost use Rattle.dna_station.specs.WireStation.{load, wire_after_event, new_wire_station};
ghost use Rattle.dna_station.specs.WireBook.{wire_sending_refusal, wire_after_sending, wire_arrival_refusal, wire_after_arrival};
ghost use Rattle.ddcmp_station.specs.Arrival.{arrival_view};
ghost use Rattle.part_station.specs.Cases as specs;
ghost use Rattle.part_station.specs.Cases.{is_left, known_arrival_refusal, known_meets, known_sends, refusal_in};
ghost use Rattle.part_station.specs.Low.{KnownIsLow};

use ddcmp_msg::Message;
use ddcmp_station::{Arrival, HeldPacket, Station};
use dna_links::LinkTag;
use dna_station::{State, StationRefusal};
use std::alloc::AllocError;
use wire_base::RingWindow;

/// The station as it is judged whose capture begins before its first start.
pub type Known = Station<LinkTag, RingWindow<HeldPacket<LinkTag>, 256>>;

/// Why it can't send this message, if there is one and it can't.
pub fn sending_refusal(slot: &Option<Known>, message: &Message) -> Option<StationRefusal>
    ensures { result ≡ refusal_in (λ w. wire_sending_refusal w (view message.now)) slot.now }
{
    match slot {
        Some(station) => match station.ask_to_send(message) {
            Ok(_) => None,
            Err(check) => Some(check.refusal()),
        },
        None => None,
    }
}

/// Whether there is one that can send this message.
pub fn may_send(slot: &Option<Known>, message: &Message) -> bool
    ensures { result ≡ is_left (known_sends (view message.now) slot.now) }
{
    match slot {
        Some(station) => match station.ask_to_send(message) {
            Ok(_) => true,
            Err(_) => false,
        },
        None => false,
    }
}

/// It sent this message, or is left out. `AllocError`: there is no memory for a copy of the data.
pub fn send(slot: &mut Option<Known>, message: &Message) -> Result<(), AllocError>
    ensures { OnOk result (slot.new ≡ known_sends (view message.now) slot.old) }
{
    let Some(station) = slot else {
        return Ok(());
    };
    match station.ask_to_send(message) {
        Ok(permit) => match station.send(message, permit) {
            Ok(_) => Ok(()),
            Err(AllocError) => Err(AllocError),
        },
        Err(_) => {
            *slot = None;
            Ok(())
        }
    }
}

// Whether the RESP of a message is wrong for the station.
fn answers_wrongly(station: &Known, message: &Message) -> bool
    ensures { result ≡ specs.is_wrong station.now (view message.now) }
{
    let State::Running = station.state() else {
        return false;
    };
    match message {
        Message::Data { resp, .. } => !station.may_answer(*resp),
        Message::Ack { resp, .. } => !station.may_answer(*resp),
        Message::Nak { resp, .. } => !station.may_answer(*resp),
        Message::Rep { .. } => false,
        Message::Strt { .. } => false,
        Message::Stack { .. } => false,
    }
}

// Why this can't come to it, if it can't.
fn refusal_of(station: &Known, arrival: Arrival, kept: bool) -> Option<StationRefusal>
    ensures { result ≡ known_arrival_refusal station.now (arrival_view arrival.entry) kept }
{
    if let Arrival::Sound(message, _) = arrival {
        if answers_wrongly(station, &message) {
            return Some(StationRefusal::WrongResponse);
        }
    }
    match station.ask_arrival::<false>(arrival, kept) {
        Ok(_) => None,
        Err(check) => Some(check.refusal()),
    }
}

/// Why this can't come, if there is one and it can't come to that.
pub fn arrival_refusal(slot: &Option<Known>, arrival: Arrival, kept: bool) -> Option<StationRefusal>
    ensures { result ≡ refusal_in (λ w. known_arrival_refusal w (arrival_view arrival.entry) kept) slot.now }
{
    match slot {
        Some(station) => refusal_of(station, arrival, kept),
        None => None,
    }
}

/// Whether there is one to which this can come.
pub fn may_meet(slot: &Option<Known>, arrival: Arrival, kept: bool) -> bool
    ensures { result ≡ is_left (known_meets (arrival_view arrival.entry) kept slot.now) }
{
    match slot {
        Some(station) => match refusal_of(station, arrival, kept) {
            Some(_) => false,
            None => true,
        },
        None => false,
    }
}

/// This came to it, or it is left out.
pub fn meet(slot: &mut Option<Known>, arrival: Arrival, kept: bool)
    requires { KnownIsLow (2 ^ 63) slot.old }
    ensures { slot.new ≡ known_meets (arrival_view arrival.entry) kept slot.old }
{
    let Some(station) = slot else {
        return;
    };
    if let Some(_) = refusal_of(station, arrival, kept) {
        *slot = None;
        return;
    }
    match station.ask_arrival::<false>(arrival, kept) {
        Ok(permit) => station.arrive(arrival, permit.row, kept),
        Err(_) => *slot = None,
    }
}

/// Whether there is one in HALTED.
pub fn is_halted(slot: &Option<Known>) -> bool
    ensures { result ≡ specs.is_halted slot.now }
{
    match slot {
        Some(station) => matches!(station.state(), State::Halted),
        None => false,
    }
}
