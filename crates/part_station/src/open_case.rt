//! A station in RUNNING whose capture begins in its midst.

ghost use Rattle.std.specs.Prelude.{◌≡◌, ◌^◌, None, Some, IfOk, OnOk};
ghost use Rattle.std.specs.Option.{option_copied};
ghost use Rattle.ddcmp_msg.specs.Message.{view};
ghost use Rattle.dna_station.specs.Book.{keep_refusal};
ghost use Rattle.ddcmp_station.specs.Arrival.{arrival_view};
ghost use Rattle.part_station.specs.Open as specs;
ghost use Rattle.part_station.specs.Open.{first_open, open_after_arrival, open_after_sending, open_ahead, open_arrival_refusal};
ghost use Rattle.part_station.specs.Open.{open_sending_refusal};
ghost use Rattle.part_station.specs.Low.{AreLow};

mod arriving;

use crate::numbers::{Numbers, after_data, after_rep, data_number, has_room, rep_refusal};
use crate::seen::Seen;
pub use arriving::is_restart;
use ddcmp_msg::Message;
use dna_station::StationRefusal;
use std::alloc::{AllocError, Global};
use std::marker::Model;

/// What is known of it: of R nothing until a RESP is sent or a packet is kept; of A, N and T nothing until one of them is told; and of the data those
/// that were sent in the capture. Any NAK may have a cause.
#[derive(Drop)]
pub struct Open {
    received: Option<u8>,
    numbers: Option<Numbers>,
    seen: Seen,
    alloc: Global,
}

impl Model for Open {
    ghost use Rattle.part_station.specs.Open.{Open};

    ghost Value = { Open };

    ghost view = { λ o. record { received = o.received; numbers = o.numbers; seen = o.seen } };
}

impl Open {
    /// Nothing is known. `AllocError`: memory was refused.
    pub fn new(alloc: Global) -> Result<Open, AllocError>
        ensures { IfOk result (λ station. station ≡ first_open) }
    {
        Ok(Open {
            received: None,
            numbers: None,
            seen: Seen::nothing(alloc)?,
            alloc,
        })
    }

    // RESP that is sent may be R.
    fn response_refusal(&self, resp: u8) -> Option<StationRefusal>
        ensures { result ≡ specs.response_refusal self.now resp }
    {
        match self.received {
            Some(received) => {
                if resp == received {
                    return None;
                }
                Some(StationRefusal::WrongResponse)
            }
            None => None,
        }
    }

    // Why data with this number, if they can have one, can't be sent.
    fn data_refusal(&self, resp: u8, body: &[u8], next: Option<u64>) -> Option<StationRefusal>
        requires { AreLow (2 ^ 63) self.now.numbers }
        ensures { result ≡ specs.data_refusal self.now resp body.now next }
    {
        let Some(next) = next else {
            return Some(StationRefusal::WrongNumber);
        };
        if let Some(refusal) = self.response_refusal(resp) {
            return Some(refusal);
        }
        if !has_room(self.numbers, next) {
            return Some(StationRefusal::WindowFull);
        }
        if self.seen.may_be(next, body) {
            return None;
        }
        Some(StationRefusal::Changed)
    }

    /// Why it can't send this message, if it can't.
    pub fn sending_refusal(&self, message: &Message) -> Option<StationRefusal>
        requires { AreLow (2 ^ 63) self.now.numbers }
        ensures { result ≡ open_sending_refusal self.now (view message.now) }
    {
        match message {
            Message::Data {
                resp,
                num,
                body,
                ..
            } => self.data_refusal(*resp, body, data_number(self.numbers, *num)),
            Message::Ack { resp, .. } => self.response_refusal(*resp),
            Message::Nak { resp, .. } => self.response_refusal(*resp),
            Message::Rep { num, .. } => rep_refusal(self.numbers, *num),
            Message::Strt { .. } | Message::Stack { .. } => Some(StationRefusal::WrongState),
        }
    }

    /// It sent this message, which it can send. `AllocError`: there is no memory for a copy of the data, and nothing changes.
    pub fn send(&mut self, message: &Message) -> Result<(), AllocError>
        requires low { AreLow (2 ^ 63) self.old.numbers }
        requires allowed { open_sending_refusal self.old (view message.now) ≡ None }
        ensures { OnOk result (self.new ≡ open_after_sending self.old (view message.now)) }
    {
        match message {
            Message::Data {
                resp,
                num,
                body,
                ..
            } => {
                if let Some(next) = data_number(self.numbers, *num) {
                    self.seen.put(self.alloc, next, body)?;
                    self.received = Some(*resp);
                    self.numbers = Some(after_data(self.numbers, next));
                }
            }
            Message::Ack { resp, .. } => self.received = Some(*resp),
            Message::Nak { resp, .. } => self.received = Some(*resp),
            Message::Rep { num, .. } => self.numbers = Some(after_rep(self.numbers, *num)),
            Message::Strt { .. } | Message::Stack { .. } => {}
        }
        Ok(())
    }
}
