//! What is told of a check that fails: what is seen there, and what is allowed.

ghost use Rattle.std.specs.Prelude.{◌≡◌, slice_get};
ghost use Rattle.ddcmp_msg.specs.Message.{view};
ghost use Rattle.ddcmp_station.specs.Arrival.{arrival_view};
ghost use Rattle.ddcmp_station.specs.Failed.{first_data, not_as_first, reason_in};
ghost use Rattle.ddcmp_station.specs.Failed as spec;
ghost use Rattle.ddcmp_station.specs.Told as told;

use super::{HeldPacket, Station};
use crate::arrival::Arrival;
use crate::check::{ArrivalCheck, SendingCheck};
use crate::failed::{DataByte, FailedArrival, FailedSending};
use ddcmp_msg::{Message, NakReason};
use dna_station::{ArrivalRow, Tag, body_of, num_of, resp_of};
use wire_base::Window;

impl<T: Copy, W: Window<HeldPacket<T>, 256>> Station<T, W> {
    /// What is told of a check that this message does not pass, as [`Station::ask_to_send`] found it: what is seen there, and what is allowed.
    /// With that in the place of what is seen the check is passed (`allowed_passes`).
    pub fn tell_sending(&self, message: &Message, check: SendingCheck) -> FailedSending
        ensures { result ≡ told.told self.now (view message.now) check }
    {
        match check {
            SendingCheck::State => FailedSending::State {
                seen: self.variables.state(),
            },
            SendingCheck::RespIsLast => FailedSending::RespIsLast {
                seen: resp_of(message),
                allowed: self.variables.received(),
            },
            SendingCheck::NumIsNext => FailedSending::NumIsNext {
                seen: num_of(message),
                allowed: self.variables.to_send(),
                again: !self.variables.is_new(),
            },
            SendingCheck::NumIsHighest => FailedSending::NumIsHighest {
                seen: num_of(message),
                allowed: self.variables.highest(),
            },
            SendingCheck::SomeOutstanding => FailedSending::SomeOutstanding,
            SendingCheck::RoomIfNew => FailedSending::RoomIfNew {
                seen: self.variables.outstanding(),
                allowed: 254,
            },
            SendingCheck::AsFirstGiven => self.not_as_first(num_of(message), body_of(message)),
            SendingCheck::CauseIsOpen => FailedSending::CauseIsOpen {
                seen: reason_of(message),
                open_causes: self.causes.open(),
            },
        }
    }

    /// What is told of a check that this arrival does not pass, as [`Station::ask_arrival`] found it: what is seen there, and what is allowed.
    /// With that it is passed (`allowed_arrives`). Damage has no periods: of it nothing but `Keep` is found.
    pub fn tell_arrival(&self, arrival: &Arrival, check: ArrivalCheck) -> FailedArrival
        ensures { result ≡ told.told_arrival self.now (arrival_view arrival.now) check }
    {
        match check {
            ArrivalCheck::Keep => FailedArrival::Keep,
            ArrivalCheck::Period => match arrival {
                Arrival::Sound(message, tag) => FailedArrival::Period {
                    needs: ArrivalRow::of(self.variables.state(), message).needs(),
                    seen: *tag,
                    own: Tag {
                        period: self.period,
                        partner: self.partner,
                    },
                },
                Arrival::HeaderBad | Arrival::DataBad => FailedArrival::Keep,
            },
        }
    }

    // Data that are not as first given: the first place that differs.
    fn not_as_first(&self, number: u8, body: &[u8]) -> FailedSending
        ensures { result ≡ not_as_first number body.now (first_data (slice_get self.now.variables.held self.now.variables.ahead)) }
    {
        let first = self.first_data();
        let place = first_difference(body, first);
        FailedSending::AsFirstGiven {
            number,
            seen: byte_at(body, place),
            allowed: byte_at(first, place),
        }
    }

    // The data with which the next packet to send was first sent; none of a new one.
    fn first_data(&self) -> &[u8]
        ensures { result.now ≡ first_data (slice_get self.now.variables.held self.now.variables.ahead) }
    {
        match self.variables.packet_to_send() {
            Some(packet) => packet.body().as_slice(),
            None => &[],
        }
    }
}

// The reason of a NAK; a message that is none has none that needs a cause.
fn reason_of(message: &Message) -> NakReason
    ensures { result ≡ reason_in (view message.now) }
{
    match message {
        Message::Nak { reason, .. } => *reason,
        _ => NakReason::HeaderFormat,
    }
}

// A place in data.
fn byte_at(bytes: &[u8], place: usize) -> DataByte
    ensures { result ≡ spec.byte_at place bytes.now }
{
    DataByte {
        place,
        byte: bytes.get(place).copied(),
        length: bytes.len(),
    }
}

// The first place where two differ, or the end of the shorter.
fn first_difference(bytes: &[u8], first: &[u8]) -> usize
    ensures { result ≡ spec.first_difference bytes.now first.now }
{
    let shorter = bytes.len().min(first.len());
    for place in 0..shorter {
        if bytes[place] != first[place] {
            return place;
        }
    }
    shorter
}
