//! The JSON line of a side.

use crate::causes::CausesTold;
use crate::form::Form;
use ddcmp_station::{State, StationView};
use record_words::words::NumberOr;
use std::fmt;
use wire_base::Side;

/// A side where a record is refused, as it was before it. Printed as one JSON object with its LF.
#[derive(Clone, Copy, PartialEq, Eq)]
pub struct StateLine {
    /// Which side.
    pub side: Side,
    /// How many of its records are made.
    pub records: u64,
    /// The variables of its station (DDCMP 4.1, station variables).
    pub station: StationView,
    /// How many units it has sent.
    pub sent: u64,
    /// The lowest hint that its next receipt may have.
    pub front: u64,
}

impl fmt::Display for StateLine {
    fn fmt<W: fmt::Write>(&self, f: &mut fmt::Formatter<W>) -> fmt::Result {
        let StateLine {
            side,
            records,
            station,
            sent,
            front,
        } = *self;
        let station = StationKeys { station };
        write!(
            f,
            "{{\"what\": \"state\", \"side\": \"{side}\", \"records\": {records}, {station}, \"sent\": {sent}, \"front\": {front}}}\n"
        )
    }
}

// The keys of a station's variables.
#[derive(Clone, Copy)]
struct StationKeys {
    station: StationView,
}

impl fmt::Display for StationKeys {
    fn fmt<W: fmt::Write>(&self, f: &mut fmt::Formatter<W>) -> fmt::Result {
        let station = self.station;
        let state = state_name(station.state);
        let period = station.period;
        let partner = NumberOr {
            word: "null",
            number: station.partner,
        };
        let numbers = NumbersTold {
            form: Form::Object,
            station,
        };
        let causes = CausesTold {
            form: Form::Object,
            causes: station.open_causes,
        };
        write!(
            f,
            "\"station\": \"{state}\", \"start\": {period}, \"goes_with\": {partner}, {numbers}, \"open_causes\": {causes}"
        )
    }
}

/// The numbers of a station.
#[derive(Clone, Copy)]
pub struct NumbersTold {
    pub form: Form,
    pub station: StationView,
}

impl fmt::Display for NumbersTold {
    fn fmt<W: fmt::Write>(&self, f: &mut fmt::Formatter<W>) -> fmt::Result {
        let received = self.station.received;
        let acknowledged = self.station.acknowledged;
        let given = self.station.given;
        let to_send = self.station.to_send;
        match self.form {
            Form::Object => write!(
                f,
                "\"r\": {received}, \"a\": {acknowledged}, \"n\": {given}, \"t\": {to_send}"
            ),
            Form::Rows => write!(
                f,
                "R {received} received  A {acknowledged} acknowledged  N {given} given  T {to_send} next to send"
            ),
        }
    }
}

/// The name of a station's state.
pub fn state_name(state: State) -> &'static str {
    match state {
        State::Halted => "HALTED",
        State::Istrt => "ISTRT",
        State::Astrt => "ASTRT",
        State::Running => "RUNNING",
    }
}
