//! Which check a message does not pass.

ghost use Rattle.std.specs.Prelude.{◌≡◌, ◌+◌, ◌==◌, None, Some, true, not, nat_lt, if◌then◌else◌, length, option_map, slice_get};
ghost use Rattle.ddcmp_msg.specs.Message.{view};
ghost use Rattle.dna_station.specs.NakCauses.{has_cause};
ghost use Rattle.dna_station.specs.Station.{wire};
ghost use Rattle.dna_station.specs.Table.{WINDOW, checks};
ghost use Rattle.dna_station.specs.WireBook.{is_held_packet, wire_is_new, wire_sending_refusal};
ghost use Rattle.ddcmp_station.specs.Failed.{failed_of, failed_sending, first_data, not_as_first, refusal_of_failed};
ghost use Rattle.ddcmp_station.specs.Told.{told};

use super::{HeldPacket, Station};
use crate::check::SendingCheck;
use ddcmp_msg::{Message, NakReason};
use dna_station::State;
use wire_base::Window;

impl<T: Copy, W: Window<HeldPacket<T>, 256>> Station<T, W> {
    // The first check that this message does not pass.
    #[inline(always)]
    pub(super) fn failing(&self, message: &Message) -> Option<SendingCheck>
        ensures named { option_map (told self.now (view message.now)) result ≡ failed_sending self.now (view message.now) }
        ensures refuses { option_map refusal_of_failed (option_map (told self.now (view message.now)) result)
            ≡ wire_sending_refusal self.now (view message.now) }
    {
        match self.variables.state() {
            State::Halted => Some(SendingCheck::State),
            State::Istrt => match message {
                Message::Strt { .. } => None,
                _ => Some(SendingCheck::State),
            },
            State::Astrt => match message {
                Message::Stack { .. } => None,
                _ => Some(SendingCheck::State),
            },
            State::Running => self.failing_in_running(message),
        }
    }

    #[inline(always)]
    fn failing_in_running(&self, message: &Message) -> Option<SendingCheck>
        requires { self.now.variables.state ≡ State.Running }
        ensures { option_map (told self.now (view message.now)) result
            ≡ failed_of self.now (view message.now) (checks State.Running (view message.now)) }
    {
        match message {
            Message::Ack { resp, .. } => self.failing_response(*resp),
            Message::Nak { reason, resp, .. } => match self.failing_response(*resp) {
                Some(check) => Some(check),
                None => self.failing_cause(*reason),
            },
            Message::Rep { num, .. } => self.failing_rep(*num),
            Message::Data {
                resp,
                num,
                body,
                ..
            } => match self.failing_number(*num) {
                Some(check) => Some(check),
                None => match self.failing_response(*resp) {
                    Some(check) => Some(check),
                    None => self.failing_packet(body),
                },
            },
            Message::Strt { .. } | Message::Stack { .. } => Some(SendingCheck::State),
        }
    }

    // RESP is the last number received.
    #[inline(always)]
    fn failing_response(&self, resp: u8) -> Option<SendingCheck>
        ensures { result ≡ if resp == self.now.variables.received then None else Some SendingCheck.RespIsLast }
    {
        if resp == self.variables.received() {
            return None;
        }
        Some(SendingCheck::RespIsLast)
    }

    // A NAK of a reason that needs a cause has an open one.
    fn failing_cause(&self, reason: NakReason) -> Option<SendingCheck>
        ensures { result ≡ if has_cause reason self.now.causes then None else Some SendingCheck.CauseIsOpen }
    {
        if self.causes.has(reason) {
            return None;
        }
        Some(SendingCheck::CauseIsOpen)
    }

    // A REP asks for the answer to the highest number given, while one is outstanding.
    fn failing_rep(&self, num: u8) -> Option<SendingCheck>
        ensures { result ≡ if not (length self.now.variables.held == 0)
            then (if num == wire (self.now.variables.acknowledged + length self.now.variables.held) then None
            else Some SendingCheck.NumIsHighest)
            else Some SendingCheck.SomeOutstanding }
    {
        if !self.variables.is_outstanding() {
            return Some(SendingCheck::SomeOutstanding);
        }
        if num == self.variables.highest() {
            return None;
        }
        Some(SendingCheck::NumIsHighest)
    }

    // Data have the next number to send.
    #[inline(always)]
    fn failing_number(&self, num: u8) -> Option<SendingCheck>
        ensures { result ≡ if num == wire (self.now.variables.acknowledged + 1 + self.now.variables.ahead) then None
            else Some SendingCheck.NumIsNext }
    {
        if num == self.variables.to_send() {
            return None;
        }
        Some(SendingCheck::NumIsNext)
    }

    // A new packet has room in the window; one that is sent again is as first given.
    fn failing_packet(&self, body: &[u8]) -> Option<SendingCheck>
        ensures { result ≡ if (if wire_is_new self.now.variables then nat_lt (length self.now.variables.held) WINDOW else true)
            then (if (if wire_is_new self.now.variables then true
            else is_held_packet (slice_get self.now.variables.held self.now.variables.ahead) body.now)
            then None
            else Some SendingCheck.AsFirstGiven)
            else Some SendingCheck.RoomIfNew }
    {
        if self.variables.is_new() {
            if self.variables.has_room() {
                return None;
            }
            return Some(SendingCheck::RoomIfNew);
        }
        if self.variables.is_first_given(body) {
            return None;
        }
        Some(SendingCheck::AsFirstGiven)
    }
}
