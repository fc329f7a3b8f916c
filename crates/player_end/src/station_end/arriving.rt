//! What comes to a station: whether it is taken, what it makes the station owe, and what its row does.

ghost use Rattle.std.specs.Prelude.{◌≡◌, ◌&&◌, fold};
ghost use Rattle.std.specs.Option.{option_map};
ghost use Rattle.ddcmp_msg.specs.Message.{view};
ghost use Rattle.ddcmp_msg.specs.Reading.{reading_view};
ghost use Rattle.dna_station.specs.ArrivalRows.{row_view};
ghost use Rattle.dna_station.specs.WireBook.{variables_after, with_next, wire_is_next, wire_responded};
ghost use Rattle.dna_play.specs.Owed as owing;
ghost use Rattle.dna_play.specs.StoredStation.{after_arrival};
ghost use Rattle.dna_play.specs.StoredStation as stored_station;
ghost use Rattle.player_end.specs.inner.Owing.{debt_view};

use super::{StationEnd, settle};
use crate::debt::Debt;
use crate::held_packet::HeldPacket;
use ddcmp_msg::{Message, NakReason, Reading};
use dna_station::{ArrivalRow, State, num_of, resp_of};
use wire_base::Window;

impl<W: Window<HeldPacket, 256> + Drop> StationEnd<W> {
    /// Whether bytes that are read so are kept: there is a buffer, and their packet can be taken.
    pub fn keeps(&self, buffer: bool, reading: &Reading<'_>) -> bool
        ensures { result ≡ stored_station.keeps buffer (reading_view reading.now) self.now }
    {
        if !buffer {
            return false;
        }
        match reading {
            Reading::Sound(message) => self.variables.can_take(message),
            Reading::HeaderBad | Reading::DataBad | Reading::Malformed(_) => false,
        }
    }

    /// Bytes that are read so came, and were kept or not: what its row does, and what it owes then (DDCMP 4.1, startup state table, data
    /// transfer). Takes no memory.
    pub fn arrive(&mut self, reading: &Reading<'_>, kept: bool)
        ensures { self.new ≡ after_arrival (reading_view reading.now) kept self.old }
    {
        let debt = self.arrival_debt(reading, kept);
        let before = self.variables.state();
        self.come(reading, kept);
        settle(&mut self.owed, before, &self.variables);
        match debt {
            Some(debt) => self.owed.owe(debt),
            None => {}
        }
    }

    // ---- what it owes then

    // What bytes that are read so make it owe, where they were kept or not.
    fn arrival_debt(&self, reading: &Reading<'_>, kept: bool) -> Option<Debt>
        ensures { option_map debt_view result ≡ owing.arrival_debt self.now.variables (reading_view reading.now) kept }
    {
        match reading {
            Reading::Sound(message) => self.message_debt(message, kept),
            Reading::HeaderBad => self.damage_debt(NakReason::HeaderCheck),
            Reading::DataBad => self.damage_debt(NakReason::DataCheck),
            Reading::Malformed(_) => None,
        }
    }

    fn message_debt(&self, message: &Message<'_>, kept: bool) -> Option<Debt>
        ensures { option_map debt_view result ≡ owing.message_debt self.now.variables.state self.now.variables (view message.now) kept }
    {
        match self.variables.state() {
            State::Halted => None,
            State::Istrt => match message {
                Message::Strt { .. } => Some(Debt::Stack),
                Message::Stack { .. } => Some(Debt::Ack),
                _ => None,
            },
            State::Astrt => match message {
                Message::Strt { .. } => Some(Debt::Stack),
                Message::Stack { .. } => Some(Debt::Ack),
                Message::Data { .. } => data_debt(self.variables.can_take(message), kept),
                _ => None,
            },
            State::Running => match message {
                Message::Stack { .. } => Some(Debt::Ack),
                Message::Rep { num, .. } => Some(rep_debt(*num == self.variables.received())),
                Message::Data { .. } => data_debt(self.variables.can_take(message), kept),
                _ => None,
            },
        }
    }

    // Damage is answered in RUNNING alone.
    fn damage_debt(&self, reason: NakReason) -> Option<Debt>
        ensures { option_map debt_view result ≡ owing.damage_debt self.now.variables.state reason }
    {
        match self.variables.state() {
            State::Running => Some(Debt::Nak(reason)),
            State::Halted | State::Istrt | State::Astrt => None,
        }
    }

    // ---- what its row does

    // Bytes that are read so came, and were kept or not: what their row does to the variables.
    fn come(&mut self, reading: &Reading<'_>, kept: bool)
        ensures { self.new ≡ record self.old { variables = stored_station.came (reading_view reading.now) kept self.old.variables } }
    {
        match reading {
            Reading::Sound(message) => self.take(message, kept),
            Reading::HeaderBad | Reading::DataBad | Reading::Malformed(_) => {}
        }
    }

    fn take(&mut self, message: &Message<'_>, kept: bool)
        ensures { self.new ≡ record self.old { variables = stored_station.message_came (view message.now) kept self.old.variables } }
    {
        let row = ArrivalRow::of(self.variables.state(), message);
        self.take_step(row, message, kept);
    }

    // The effects of a sound message, by its row.
    fn take_step(&mut self, row: ArrivalRow, message: &Message<'_>, kept: bool)
        ensures { self.new ≡ record self.old {
          variables = fold (variables_after (view message.now) kept) self.old.variables (row_view row).effects;
        } }
    {
        match row {
            ArrivalRow::Ignored | ArrivalRow::StartAgain => {}
            ArrivalRow::Noted | ArrivalRow::Asked => {}
            ArrivalRow::StartMet => self.variables.go_to(State::Astrt),
            ArrivalRow::StartAnswered => self.variables.go_to(State::Running),
            ArrivalRow::StartConfirmed => self.variables.go_to(State::Running),
            ArrivalRow::FirstData => {
                self.variables.go_to(State::Running);
                self.receive_data(resp_of(message), num_of(message), kept);
            }
            ArrivalRow::Restarted => self.variables.go_to(State::Halted),
            ArrivalRow::Acknowledged => self.variables.respond(resp_of(message)),
            ArrivalRow::SetBack => {
                self.variables.respond(resp_of(message));
                self.variables.set_back();
            }
            ArrivalRow::Delivered => { self.receive_data(resp_of(message), num_of(message), kept) }
        }
    }

    // Data in RUNNING: its RESP, and then its packet.
    fn receive_data(&mut self, resp: u8, num: u8, kept: bool)
        ensures { self.new ≡ record self.old {
          variables = with_next (wire_is_next (wire_responded self.old.variables resp) num && kept) (wire_responded self.old.variables resp);
        } }
    {
        self.variables.respond(resp);
        if !self.variables.is_next(num) {
            return;
        }
        if kept {
            self.variables.receive();
        }
    }
}

// What data make a station owe: with the next number, ACK where they are kept, else NAK 8.
fn data_debt(next: bool, kept: bool) -> Option<Debt>
    ensures { option_map debt_view result ≡ owing.data_debt next kept }
{
    if !next {
        return None;
    }
    if kept {
        return Some(Debt::Ack);
    }
    Some(Debt::Nak(NakReason::NoBuffer))
}

// What a REP makes a station owe: with the last number received, ACK, else NAK 3.
fn rep_debt(last: bool) -> Debt
    ensures { debt_view result ≡ owing.rep_debt last }
{
    if last {
        return Debt::Ack;
    }
    Debt::Nak(NakReason::RepResponse)
}
