//! What a station may send, and what that changes.

ghost use Rattle.std.specs.Prelude.{◌≡◌, ◌+◌};
ghost use Rattle.dna_station.specs.Station.{wire};
ghost use Rattle.placing.specs.Counted.{is_new, with_packet};
ghost use Rattle.placing.specs.Counted as book;
ghost use Rattle.placing.specs.inner.BySaid as by_said;

use super::Station;
use crate::said::Said;
use ddcmp_msg::NakReason;
use dna_station::State;

/// What is not asked of a unit that can't be sent.
#[derive(Clone, Copy, PartialEq, Eq)]
pub(crate) enum But {
    /// Whether data that are sent again have the same packet.
    Packet,
    /// Its response.
    Response,
    /// Its number, or a cause.
    Number,
    /// All but that the station runs.
    All,
}

impl Station {
    /// Whether it may send this. Of data that are sent again it is told whether they have the packet of the first sending.
    pub(crate) fn may_send(self, said: Said, is_again: bool) -> bool
        ensures { result ≡ by_said.may_send is_again self said }
    {
        match self.state {
            State::Halted => false,
            State::Istrt => match said {
                Said::Strt => true,
                _ => false,
            },
            State::Astrt => match said {
                Said::Stack => true,
                _ => false,
            },
            State::Running => self.may_send_running(said, is_again),
        }
    }

    // The same in RUNNING.
    fn may_send_running(self, said: Said, is_again: bool) -> bool
        requires { self.state ≡ State.Running }
        ensures { result ≡ by_said.may_send is_again self said }
    {
        match said {
            Said::Ack { resp } => resp == self.received,
            Said::Nak { reason, resp } => {
                if resp == self.received {
                    return self.has_cause(reason);
                }
                false
            }
            Said::Rep { num } => {
                if self.is_waiting() {
                    return num == self.last_given();
                }
                false
            }
            Said::Data { resp, num } => self.may_send_data(resp, num, is_again),
            Said::Strt | Said::Stack | Said::Nothing => false,
        }
    }

    // Whether a NAK of this reason needs no cause, or has one.
    fn has_cause(self, reason: NakReason) -> bool
        ensures { result ≡ book.has_cause reason self }
    {
        match reason {
            NakReason::RepResponse => self.answers > 0,
            NakReason::NoBuffer => self.refused > 0,
            _ => true,
        }
    }

    // The same of data.
    fn may_send_data(self, resp: u8, num: u8, is_again: bool) -> bool
        requires { self.state ≡ State.Running }
        ensures { result ≡ by_said.may_send is_again self (Said.Data resp num) }
    {
        if num != self.next_to_send() {
            return false;
        }
        if resp != self.received {
            return false;
        }
        if self.next_is_new() {
            return self.outstanding < 255;
        }
        is_again
    }

    // Whether the next data to send are new.
    fn next_is_new(self) -> bool
        ensures { result ≡ is_new self }
    {
        self.ahead == self.outstanding
    }

    // The number of the next data to send.
    pub(super) fn next_to_send(self) -> u8
        ensures { result ≡ wire (self.acknowledged + 1 + self.ahead) }
    {
        self.acknowledged.wrapping_add(self.ahead).wrapping_add(1)
    }

    /// Whether it may send this, one thing aside.
    pub(crate) fn may_send_but(self, said: Said, but: But) -> bool
        ensures { result ≡ by_said.may_send_but but self said }
    {
        if self.state != State::Running {
            return false;
        }
        match but {
            But::Packet => self.may_send_running(said, true),
            But::Response => self.may_send_running(said.with_resp(self.received), true),
            But::Number => match said.resp() {
                Some(resp) => resp == self.received,
                None => true,
            },
            But::All => true,
        }
    }

    /// Whether the data that it sends next are of a new packet.
    pub(crate) fn is_new(self, said: Said) -> bool
        ensures { result ≡ by_said.gives_new self said }
    {
        match said {
            Said::Data { resp: _, num: _ } => self.next_is_new(),
            _ => false,
        }
    }

    /// It sent this, which it might send.
    pub(crate) fn sent(self, said: Said) -> Station
        ensures { result ≡ by_said.after_sending self said }
    {
        match said {
            Said::Nak { reason, resp: _ } => self.without_cause(reason),
            Said::Data { resp: _, num: _ } => self.sent_data(),
            _ => self,
        }
    }

    // A NAK uses up a cause of its reason.
    fn without_cause(self, reason: NakReason) -> Station
        ensures { result ≡ book.without_cause reason self }
    {
        match reason {
            NakReason::RepResponse => Station {
                answers: self.answers.saturating_sub(1),
                ..self
            },
            NakReason::NoBuffer => Station {
                refused: self.refused.saturating_sub(1),
                ..self
            },
            _ => self,
        }
    }

    fn sent_data(self) -> Station
        ensures { result ≡ with_packet (is_new self) self }
    {
        let ahead = self.ahead.saturating_add(1);
        if self.next_is_new() {
            return Station {
                ahead,
                outstanding: ahead,
                ..self
            };
        }
        Station { ahead, ..self }
    }
}
