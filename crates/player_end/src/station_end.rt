//! The station of an end: its variables and what it owes.

ghost use Rattle.std.specs.Prelude.{◌≡◌, Some, IfOk};
ghost use Rattle.std.specs.Option.{option_map};
ghost use Rattle.dna_station.specs.declared.state.StationEvent.TheVariants as events;
ghost use Rattle.dna_play.specs.Owed.{OwesStrt, same_state, still_owed, timer_debt};
ghost use Rattle.dna_play.specs.StoredEnd.{new_stored_station};
ghost use Rattle.dna_play.specs.StoredStation.{after_event, owing};
ghost use Rattle.player_end.specs.inner.Owing.{debt_view};

mod arriving;
mod choosing;
mod composing;

use crate::debt::Debt;
use crate::held_packet::{ComposedPacket, HeldPacket};
use crate::owed::Owed;
use dna_station::State;
use station_variables::StationVariables;
use std::alloc::{AllocError, Global};
use std::marker::Model;
use wire_base::Window;

/// The variables of an end's station, and what it owes (DDCMP 4.1, startup and data transfer). It makes what its user, its timer and the
/// line bring; no call judges anything.
#[derive(Drop)]
pub struct StationEnd<W: Window<HeldPacket, 256> + Drop> {
    variables: StationVariables<(), ComposedPacket, W>,
    owed: Owed,
}

impl<W: Window<HeldPacket, 256> + Drop> Model for StationEnd<W> {
    ghost use Rattle.dna_play.specs.StoredEnd.{StoredStation};

    ghost Value = { StoredStation };

    ghost view = { λ s. record { variables = s.variables; owed = s.owed } };
}

impl<W: Window<HeldPacket, 256> + Drop> StationEnd<W> {
    /// Before any step: in HALTED, owing nothing. It takes the memory that its window takes when it is made.
    pub fn new(alloc: Global) -> Result<Self, AllocError>
        ensures { IfOk result (λ station. station ≡ new_stored_station) }
    {
        Ok(StationEnd {
            variables: StationVariables::new(alloc, State::Halted)?,
            owed: Owed::nothing(),
        })
    }

    /// The state.
    pub fn state(&self) -> State
        ensures { result ≡ self.now.variables.state }
    {
        self.variables.state()
    }

    // ---- its user and its timer

    /// The user starts it: no number is received, given or acknowledged, all packets are dropped, and it owes STRT. Takes no memory.
    pub fn start(&mut self)
        ensures { self.new ≡ owing (Some OwesStrt) (after_event events.Start self.old) }
    {
        let before = self.variables.state();
        self.variables.start();
        settle(&mut self.owed, before, &self.variables);
        self.owed.owe(Debt::Strt);
    }

    /// The user halts it. Takes no memory.
    pub fn halt(&mut self)
        ensures { self.new ≡ after_event events.Halt self.old }
    {
        let before = self.variables.state();
        self.variables.go_to(State::Halted);
        settle(&mut self.owed, before, &self.variables);
    }

    /// What it owes once its timer runs out: in ISTRT STRT, in ASTRT STACK; in RUNNING REP where a packet is outstanding, else ACK; in
    /// HALTED the timer can't run out.
    pub fn timer_debt(&self) -> Option<Debt>
        ensures { option_map debt_view result ≡ timer_debt self.now.variables.state self.now.variables }
    {
        match self.variables.state() {
            State::Halted => None,
            State::Istrt => Some(Debt::Strt),
            State::Astrt => Some(Debt::Stack),
            State::Running => {
                if self.variables.is_outstanding() {
                    return Some(Debt::Rep);
                }
                Some(Debt::Ack)
            }
        }
    }

    /// One more thing is owed.
    pub fn owe(&mut self, debt: Debt)
        ensures { self.new ≡ owing (Some (debt_view debt)) self.old }
    {
        self.owed.owe(debt);
    }
}

// After a record, where the station was in this state before it: a state that was left drops what was owed, and no REP is owed once all is
// acknowledged.
fn settle<W: Window<HeldPacket, 256> + Drop>(
    owed: &mut Owed,
    before: State,
    variables: &StationVariables<(), ComposedPacket, W>,
)
    ensures { owed.new ≡ still_owed (record variables.now { state = before }) variables.now owed.old }
{
    let stays = is_same(before, variables.state());
    let outstanding = variables.is_outstanding();
    owed.settle(stays, outstanding);
}

fn is_same(one: State, other: State) -> bool
    ensures { result ≡ same_state one other }
{
    match one {
        State::Halted => matches!(other, State::Halted),
        State::Istrt => matches!(other, State::Istrt),
        State::Astrt => matches!(other, State::Astrt),
        State::Running => matches!(other, State::Running),
    }
}
