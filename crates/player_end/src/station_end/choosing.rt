//! What a station sends next.

ghost use Rattle.std.specs.Prelude.{◌≡◌};
ghost use Rattle.std.specs.Option.{option_map};
ghost use Rattle.dna_play.specs.NextSent as next;
ghost use Rattle.player_end.specs.inner.Owing.{choice_view, link_choice_view};

use super::StationEnd;
use crate::choice::{Choice, LinkChoice};
use crate::held_packet::HeldPacket;
use dna_station::State;
use wire_base::Window;

impl<W: Window<HeldPacket, 256> + Drop> StationEnd<W> {
    /// What is sent next, by what the station keeps and owes and by the next message of the links: in ISTRT STRT, in ASTRT STACK, if that
    /// is owed; in RUNNING the lowest NAK, else REP, else data, else ACK.
    pub fn choice(&self, message: Option<LinkChoice>) -> Option<Choice>
        ensures { option_map choice_view result ≡ next.choice self.now.variables self.now.owed (option_map link_choice_view message) }
    {
        match self.variables.state() {
            State::Halted => None,
            State::Istrt => {
                if self.owed.strt() {
                    return Some(Choice::Strt);
                }
                None
            }
            State::Astrt => {
                if self.owed.stack() {
                    return Some(Choice::Stack);
                }
                None
            }
            State::Running => self.choice_in_running(message),
        }
    }

    fn choice_in_running(&self, message: Option<LinkChoice>) -> Option<Choice>
        ensures { option_map choice_view result
            ≡ next.choice_in State.Running self.now.variables self.now.owed (option_map link_choice_view message) }
    {
        if let Some(nak) = self.owed.lowest_nak() {
            return Some(nak);
        }
        if self.owed.rep() {
            return Some(Choice::Rep);
        }
        if let Some(data) = self.data_choice(message) {
            return Some(data);
        }
        if self.owed.ack() {
            return Some(Choice::Ack);
        }
        None
    }

    // Data: number T again if it was given; else a new packet if fewer than 255 are outstanding and the links have a message.
    fn data_choice(&self, message: Option<LinkChoice>) -> Option<Choice>
        ensures { option_map choice_view result ≡ next.data_choice self.now.variables (option_map link_choice_view message) }
    {
        if !self.variables.is_new() {
            return Some(Choice::Again);
        }
        if !self.variables.has_room() {
            return None;
        }
        match message {
            Some(message) => Some(Choice::New(message)),
            None => None,
        }
    }
}
