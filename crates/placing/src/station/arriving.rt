//! What arrives at a station.

ghost use Rattle.std.specs.Prelude.{◌≡◌, ◌&&◌, ◌==◌, fold, Some};
ghost use Rattle.ddcmp_msg.specs.Message.{view};
ghost use Rattle.dna_station.specs.ArrivalRows.{need_view, row_view};
ghost use Rattle.dna_station.specs.Book.{has_packet};
ghost use Rattle.dna_station.specs.PeriodRule.{meets};
ghost use Rattle.dna_station.specs.PeriodRule as rules;
ghost use Rattle.placing.specs.Counted.{asked, does, own_tag, responded};
ghost use Rattle.placing.specs.Counted as book;
ghost use Rattle.placing.specs.inner.BySaid.{received_data};
ghost use Rattle.placing.specs.inner.BySaid as by_said;

use super::Station;
use crate::said::Said;
use ddcmp_msg::Message;
use dna_station::{ArrivalRow, PeriodNeed, State, Tag, num_of, resp_of};

impl Station {
    /// Whether the periods of what came are those that it acts on (the rule on periods).
    pub(crate) fn meets(self, said: Said, tag: Tag) -> bool
        ensures { result ≡ by_said.meets_said self said tag }
    {
        match said.message() {
            Some(message) => self.meets_need(ArrivalRow::of(self.state, &message).needs(), tag),
            None => true,
        }
    }

    // Whether the periods of a message with this tag are what is needed.
    fn meets_need(self, needs: PeriodNeed, tag: Tag) -> bool
        ensures { result ≡ meets (need_view needs) (own_tag self) tag }
    {
        match needs {
            PeriodNeed::Anything => true,
            PeriodNeed::Fresh => is_period(tag.partner, self.period),
            PeriodNeed::OfPair => {
                let fresh = is_period(tag.partner, self.period);
                is_period(self.partner, tag.period) && fresh
            }
        }
    }

    /// Whether the response in this is one that a right node may have sent to it: it acknowledges none but packets that were sent.
    pub(crate) fn may_be_answered(self, said: Said) -> bool {
        match (self.state, said.resp()) {
            (State::Running, Some(resp)) => {
                resp.wrapping_sub(self.acknowledged) <= self.outstanding
            }
            _ => true,
        }
    }

    /// Whether it can take the packet in this.
    pub(crate) fn can_take(self, said: Said) -> bool
        ensures { (tag : _) → result ≡ by_said.takes_said self said tag }
    {
        match said.message() {
            Some(message) => self.can_take_packet(
                ArrivalRow::of(self.state, &message),
                num_of(&message),
            ),
            None => false,
        }
    }

    // Whether it can take the packet of a message with this row.
    fn can_take_packet(self, row: ArrivalRow, num: u8) -> bool
        ensures { result ≡ (has_packet (row_view row).effects && book.is_next self num) }
    {
        if row.takes_packet() {
            return self.is_next(num);
        }
        false
    }

    // Whether this is the number after the last received.
    fn is_next(self, num: u8) -> bool
        ensures { result ≡ book.is_next self num }
    {
        num == self.received.wrapping_add(1)
    }

    /// This came, and its packet was kept or not.
    pub(crate) fn arrived(self, said: Said, tag: Tag, kept: bool) -> Station
        ensures { result ≡ by_said.after_arrival self said tag kept }
    {
        match said.message() {
            Some(message) => self.stepped(
                ArrivalRow::of(self.state, &message),
                &message,
                tag,
                kept,
            ),
            None => self,
        }
    }

    // The effects of a sound unit, by its row.
    fn stepped(self, row: ArrivalRow, message: &Message, tag: Tag, kept: bool) -> Station
        ensures { result ≡ fold (does (view message.now) tag kept) self (row_view row).effects }
    {
        let resp = resp_of(message);
        let num = num_of(message);
        match row {
            ArrivalRow::Ignored | ArrivalRow::Noted => self,
            ArrivalRow::StartMet | ArrivalRow::StartAnswered | ArrivalRow::StartAgain => {
                self.joined(tag, row.leads_to(self.state))
            }
            ArrivalRow::StartConfirmed => self.running(),
            ArrivalRow::FirstData => self.running().got_data(resp, num, kept),
            ArrivalRow::Restarted => self.halted(),
            ArrivalRow::Acknowledged => self.responded(resp),
            ArrivalRow::SetBack => self.set_back(resp),
            ArrivalRow::Asked => self.asked(num),
            ArrivalRow::Delivered => self.got_data(resp, num, kept),
        }
    }

    fn joined(self, tag: Tag, state: State) -> Station
        ensures { result ≡ record self { state = state; partner = Some tag.period } }
    {
        Station {
            state,
            partner: Some(tag.period),
            ..self
        }
    }

    fn running(self) -> Station
        ensures { result ≡ record self { state = State.Running } }
    {
        Station {
            state: State::Running,
            ..self
        }
    }

    // A REP of another number than the last received is answered with a NAK.
    fn asked(self, num: u8) -> Station
        ensures { result ≡ asked (num == self.received) self }
    {
        if num == self.received {
            return self;
        }
        Station {
            answers: self.answers.saturating_add(1),
            ..self
        }
    }

    fn responded(self, resp: u8) -> Station
        ensures { result ≡ responded self resp }
    {
        let acknowledges = resp.wrapping_sub(self.acknowledged);
        if acknowledges > 0 && acknowledges <= self.outstanding {
            return Station {
                acknowledged: resp,
                outstanding: self.outstanding - acknowledges,
                ahead: self.ahead.saturating_sub(acknowledges),
                ..self
            };
        }
        self
    }

    // A NAK with this response came.
    fn set_back(self, resp: u8) -> Station
        ensures { result ≡ record (responded self resp) { ahead = 0 } }
    {
        let responded = self.responded(resp);
        Station {
            ahead: 0,
            ..responded
        }
    }

    // Data: its response, and then its packet.
    fn got_data(self, resp: u8, num: u8, kept: bool) -> Station
        ensures { result ≡ received_data self resp num kept }
    {
        let responded = self.responded(resp);
        if !responded.is_next(num) {
            return responded;
        }
        if kept {
            return Station {
                received: num,
                ..responded
            };
        }
        Station {
            refused: responded.refused.saturating_add(1),
            ..responded
        }
    }
}

// The period is known, and it is this one.
fn is_period(known: Option<u64>, period: u64) -> bool
    ensures { result ≡ rules.is_period known period }
{
    match known {
        Some(known) => known == period,
        None => false,
    }
}
