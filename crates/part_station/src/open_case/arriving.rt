//! What comes to it.

ghost use Rattle.std.specs.Prelude.{◌≡◌, ◌^◌, None, Some, IfOk, OnOk, option_map};
ghost use Rattle.dna_station.specs.Book as book;
ghost use Rattle.ddcmp_station.specs.Arrival.{arrival_view};
ghost use Rattle.part_station.specs.Open as specs;
ghost use Rattle.part_station.specs.Open.{open_after_arrival, open_ahead, open_arrival_refusal};
ghost use Rattle.part_station.specs.Low.{AreLow};

use super::Open;
use crate::numbers::{after_response, after_response_ahead, may_answer, may_lie_ahead};
use crate::seen::Seen;
use ddcmp_msg::Message;
use ddcmp_station::Arrival;
use dna_station::StationRefusal;
use std::alloc::AllocError;

// What is kept was taken.
fn keep_refusal(takes: bool, kept: bool) -> Option<StationRefusal>
    ensures { result ≡ book.keep_refusal takes kept }
{
    if !kept {
        return None;
    }
    if takes {
        return None;
    }
    Some(StationRefusal::WrongKeep)
}

// R after a packet with this NUM came.
fn received_after(received: Option<u8>, num: u8, kept: bool) -> Option<u8>
    ensures { result ≡ specs.received_after received num kept }
{
    if kept {
        return Some(num);
    }
    received
}

/// Whether it is a STRT, which halts a station in RUNNING.
pub fn is_restart(arrival: Arrival) -> bool
    ensures { result ≡ specs.is_restart (arrival_view arrival.entry) }
{
    match arrival {
        Arrival::Sound(message, _) => match message {
            Message::Strt { .. } => true,
            Message::Stack { .. } => false,
            Message::Rep { .. } => false,
            Message::Ack { .. } => false,
            Message::Nak { .. } => false,
            Message::Data { .. } => false,
        },
        Arrival::HeaderBad => false,
        Arrival::DataBad => false,
    }
}

impl Open {
    // The packet may be the one after the last received.
    fn may_take(&self, num: u8) -> bool
        ensures { result ≡ specs.may_take self.now.received num }
    {
        match self.received {
            Some(received) => u16::from(num) == (u16::from(received) + 1) % 256,
            None => true,
        }
    }

    fn answer_refusal(&self, resp: u8, takes: bool, kept: bool) -> Option<StationRefusal>
        requires { AreLow (2 ^ 63) self.now.numbers }
        ensures { result ≡ specs.unless_wrong self.now resp (book.keep_refusal takes kept) }
    {
        if may_answer(self.numbers, resp) {
            return keep_refusal(takes, kept);
        }
        Some(StationRefusal::WrongResponse)
    }

    /// Why this can't come, if it can't: its RESP was wrong, or nothing is taken that was kept.
    pub fn arrival_refusal(&self, arrival: Arrival, kept: bool) -> Option<StationRefusal>
        requires { AreLow (2 ^ 63) self.now.numbers }
        ensures { result ≡ open_arrival_refusal self.now (arrival_view arrival.entry) kept }
    {
        match arrival {
            Arrival::Sound(message, _) => match message {
                Message::Data { resp, num, .. } => {
                    self.answer_refusal(resp, self.may_take(num), kept)
                }
                Message::Ack { resp, .. } => self.answer_refusal(resp, false, kept),
                Message::Nak { resp, .. } => self.answer_refusal(resp, false, kept),
                Message::Rep { .. } => keep_refusal(false, kept),
                Message::Strt { .. } => keep_refusal(false, kept),
                Message::Stack { .. } => keep_refusal(false, kept),
            },
            Arrival::HeaderBad => keep_refusal(false, kept),
            Arrival::DataBad => keep_refusal(false, kept),
        }
    }

    /// This came, which can come. Its RESP acknowledges the least number that it may.
    pub fn arrive(&mut self, arrival: Arrival, kept: bool)
        requires low { AreLow (2 ^ 63) self.old.numbers }
        requires allowed { open_arrival_refusal self.old (arrival_view arrival) kept ≡ None }
        ensures { self.new ≡ open_after_arrival self.old (arrival_view arrival.entry) kept }
    {
        match arrival {
            Arrival::Sound(message, _) => match message {
                Message::Data { resp, num, .. } => {
                    self.received = received_after(self.received, num, kept);
                    self.numbers = Some(after_response(false, self.numbers, resp));
                }
                Message::Ack { resp, .. } => {
                    self.numbers = Some(after_response(false, self.numbers, resp));
                }
                Message::Nak { resp, .. } => {
                    self.numbers = Some(after_response(true, self.numbers, resp));
                }
                Message::Rep { .. } => {}
                Message::Strt { .. } => {}
                Message::Stack { .. } => {}
            },
            Arrival::HeaderBad => {}
            Arrival::DataBad => {}
        }
    }

    // The station where RESP acknowledges the number 256 above.
    fn ahead_with(
        &self,
        back: bool,
        received: Option<u8>,
        resp: u8,
    ) -> Result<Option<Open>, AllocError>
        requires { AreLow (2 ^ 63) self.now.numbers }
        ensures { IfOk result (λ ahead. ahead ≡ specs.ahead_with back self.now received resp) }
    {
        if !may_lie_ahead(self.numbers, resp) {
            return Ok(None);
        }
        Ok(Some(Open {
            received,
            numbers: Some(after_response_ahead(back, self.numbers, resp)),
            seen: Seen::nothing(self.alloc)?,
            alloc: self.alloc,
        }))
    }

    /// What it is after that where its RESP acknowledges the number 256 above, if it may. `AllocError`: memory was refused.
    pub fn ahead(&self, arrival: Arrival, kept: bool) -> Result<Option<Open>, AllocError>
        requires { AreLow (2 ^ 63) self.now.numbers }
        ensures { IfOk result (λ ahead. ahead ≡ open_ahead self.now (arrival_view arrival.entry) kept) }
    {
        match arrival {
            Arrival::Sound(message, _) => match message {
                Message::Data { resp, num, .. } => {
                    self.ahead_with(false, received_after(self.received, num, kept), resp)
                }
                Message::Ack { resp, .. } => self.ahead_with(false, self.received, resp),
                Message::Nak { resp, .. } => self.ahead_with(true, self.received, resp),
                Message::Rep { .. } => Ok(None),
                Message::Strt { .. } => Ok(None),
                Message::Stack { .. } => Ok(None),
            },
            Arrival::HeaderBad => Ok(None),
            Arrival::DataBad => Ok(None),
        }
    }
}
