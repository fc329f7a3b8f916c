//! What is kept of a station to tell the rows of its records.

ghost use Rattle.std.specs.Prelude.{◌≡◌, fold};
ghost use Rattle.ddcmp_msg.specs.Message.{view};
ghost use Rattle.dna_station.specs.ArrivalRows.{row_view};
ghost use Rattle.dna_station.specs.Station.{wire};
ghost use Rattle.dna_station.specs.declared.state.State.TheVariants.{Halted};
ghost use Rattle.coverage.specs.inner.Tracked as spec;

use ddcmp_msg::Message;
use dna_station::{ArrivalRow, State, StationEvent, num_of, resp_of};

/// A station's state and numbers, as they are in a run: R, the last number received in order; A, the highest acknowledged; of the packets
/// that are not acknowledged, 255 at most, how many there are, and how many of them come before the next to send. So N is A and as many as are
/// outstanding, and T is A + 1 and as many as are ahead.
#[derive(Clone, Copy, PartialEq, Eq)]
pub struct Tracker {
    pub state: State,
    pub received: u8,
    pub acknowledged: u8,
    pub ahead: u8,
    pub outstanding: u8,
}

impl Tracker {
    /// Of a station before any record.
    pub(crate) fn new() -> Tracker
        ensures { result ≡ spec.fresh Halted }
    {
        Tracker::fresh(State::Halted)
    }

    fn fresh(state: State) -> Tracker
        ensures { result ≡ spec.fresh state }
    {
        Tracker {
            state,
            received: 0,
            acknowledged: 0,
            ahead: 0,
            outstanding: 0,
        }
    }

    /// Whether the next data to send are new.
    pub(crate) fn is_new(&self) -> bool
        ensures { result ≡ spec.is_new self.now }
    {
        self.ahead == self.outstanding
    }

    /// Whether this is the number after the last received.
    pub(crate) fn is_next(&self, num: u8) -> bool
        ensures { result ≡ spec.is_next self.now num }
    {
        num == self.received.wrapping_add(1)
    }

    /// The user starts or halts the station.
    pub(crate) fn user(&mut self, event: StationEvent)
        ensures { self.new ≡ spec.after_event self.old event }
    {
        match event {
            StationEvent::Start => *self = Tracker::fresh(State::Istrt),
            StationEvent::Halt => self.state = State::Halted,
        }
    }

    /// The station sends this.
    pub(crate) fn sent(&mut self, message: &Message)
        ensures { self.new ≡ spec.after_sending self.old (view message.now) }
    {
        if let Message::Data { .. } = message {
            if self.is_new() {
                self.outstanding = self.outstanding.saturating_add(1);
            }
            self.ahead = self.ahead.saturating_add(1);
        }
    }

    /// This sound unit comes, and its packet is kept or not.
    #[inline(always)]
    pub(crate) fn arrived(&mut self, message: &Message, kept: bool)
        ensures { self.new ≡ spec.after_arrival self.old (view message.now) kept }
    {
        self.take_step(ArrivalRow::of(self.state, message), message, kept);
    }

    // The effects of a sound unit, by its row.
    #[inline(always)]
    fn take_step(&mut self, row: ArrivalRow, message: &Message, kept: bool)
        ensures { self.new ≡ fold (spec.does (view message.now) kept) self.old (row_view row).effects }
    {
        match row {
            ArrivalRow::Ignored | ArrivalRow::StartAgain => {}
            ArrivalRow::Noted | ArrivalRow::Asked => {}
            ArrivalRow::StartMet => self.state = State::Astrt,
            ArrivalRow::StartAnswered | ArrivalRow::StartConfirmed => self.state = State::Running,
            ArrivalRow::FirstData => {
                self.state = State::Running;
                self.receive_data(resp_of(message), num_of(message), kept);
            }
            ArrivalRow::Restarted => self.state = State::Halted,
            ArrivalRow::Acknowledged => self.respond(resp_of(message)),
            ArrivalRow::SetBack => {
                self.respond(resp_of(message));
                self.ahead = 0;
            }
            ArrivalRow::Delivered => self.receive_data(resp_of(message), num_of(message), kept),
        }
    }

    // Data: its RESP, and then its packet.
    #[inline(always)]
    fn receive_data(&mut self, resp: u8, num: u8, kept: bool)
        ensures { self.new ≡ spec.received_data self.old resp num kept }
    {
        self.respond(resp);
        if self.is_next(num) && kept {
            self.received = num;
        }
    }

    // All packets through this number are acknowledged, where it lies above A and at most at N.
    #[inline(always)]
    fn respond(&mut self, resp: u8)
        ensures { self.new ≡ spec.responded self.old resp }
    {
        let acknowledges = resp.wrapping_sub(self.acknowledged);
        if acknowledges > 0 && acknowledges <= self.outstanding {
            self.acknowledged = resp;
            self.ahead = self.ahead.saturating_sub(acknowledges);
            self.outstanding -= acknowledges;
        }
    }
}
