//! The rows of the station that a record goes through, by what is kept of it.

ghost use Rattle.std.specs.Prelude.{◌≡◌};
ghost use Rattle.ddcmp_msg.specs.Message.{view};
ghost use Rattle.ddcmp_msg.specs.Reading.{reading_view};
ghost use Rattle.coverage.specs.Rows as spec;
ghost use Rattle.coverage.specs.inner.Tracked.{is_new};

use crate::row::{AstrtArrival, Damage, Row, RunningArrival, Sending, UnitKind};
use crate::tracker::Tracker;
use ddcmp_msg::{Message, NakReason, Reading};
use dna_station::State;

impl Tracker {
    /// That of a message that is sent; `None` where it may not be sent in this state.
    #[inline(always)]
    pub(crate) fn sent_row(&self, message: &Message) -> Option<Row>
        ensures { result ≡ spec.sent_row self.now.state (is_new self.now) (view message.now) }
    {
        match self.state {
            State::Halted => None,
            State::Istrt => match message {
                Message::Strt { .. } => Some(Row::Sends(Sending::Strt)),
                _ => None,
            },
            State::Astrt => match message {
                Message::Stack { .. } => Some(Row::Sends(Sending::Stack)),
                _ => None,
            },
            State::Running => match message {
                Message::Data { .. } => Some(data_row(self.is_new())),
                Message::Ack { .. } => Some(Row::Sends(Sending::Ack)),
                Message::Nak { reason, .. } => Some(nak_row(*reason)),
                Message::Rep { .. } => Some(Row::Sends(Sending::Rep)),
                Message::Strt { .. } | Message::Stack { .. } => None,
            },
        }
    }

    /// That of a sound unit that comes, whose packet is kept or not.
    #[inline(always)]
    pub(crate) fn arrival_row(&self, message: &Message, kept: bool) -> Row
        ensures { result ≡ spec.arrival_row self.now.state self.now.received kept (view message.now) }
    {
        match self.state {
            State::Halted => Row::ToHalted(kind_of(message)),
            State::Istrt => Row::ToIstrt(kind_of(message)),
            State::Astrt => Row::ToAstrt(self.astrt_row(message, kept)),
            State::Running => Row::ToRunning(self.running_row(message, kept)),
        }
    }

    fn astrt_row(&self, message: &Message, kept: bool) -> AstrtArrival
        ensures { result ≡ spec.astrt_row self.now.received kept (view message.now) }
    {
        match message {
            Message::Strt { .. } => AstrtArrival::Strt,
            Message::Stack { .. } => AstrtArrival::Stack,
            Message::Ack { resp: 0, .. } => AstrtArrival::AckOfNone,
            Message::Ack { .. } => AstrtArrival::AckOfSome,
            Message::Nak { .. } => AstrtArrival::Nak,
            Message::Rep { .. } => AstrtArrival::Rep,
            Message::Data { resp: 0, num, .. } => astrt_data(self.is_next(*num), kept),
            Message::Data { .. } => AstrtArrival::DataOfSome,
        }
    }

    #[inline(always)]
    fn running_row(&self, message: &Message, kept: bool) -> RunningArrival
        ensures { result ≡ spec.running_row self.now.received kept (view message.now) }
    {
        match message {
            Message::Data { num, .. } => running_data(self.is_next(*num), kept),
            Message::Ack { .. } => RunningArrival::Ack,
            Message::Nak { .. } => RunningArrival::Nak,
            Message::Rep { num, .. } => rep_row(*num == self.received),
            Message::Strt { .. } => RunningArrival::Strt,
            Message::Stack { .. } => RunningArrival::Stack,
        }
    }

    /// That of what shows damage; `None` of what shows none.
    pub(crate) fn damage_row(&self, read: &Reading) -> Option<Row>
        ensures { result ≡ spec.damage_row self.now.state (reading_view read.now) }
    {
        match read {
            Reading::HeaderBad => Some(Row::Damaged(self.state, Damage::Header)),
            Reading::DataBad => Some(Row::Damaged(self.state, Damage::Data)),
            Reading::Sound(_) | Reading::Malformed(_) => None,
        }
    }
}

// NAKs by their reason.
fn nak_row(reason: NakReason) -> Row
    ensures { result ≡ spec.nak_row reason }
{
    match reason {
        NakReason::HeaderCheck
        | NakReason::DataCheck
        | NakReason::RepResponse
        | NakReason::NoBuffer => Row::Sends(Sending::NakOfCause),
        _ => Row::Sends(Sending::OtherNak),
    }
}

// Data, new or sent again.
fn data_row(is_new: bool) -> Row
    ensures { result ≡ spec.data_row is_new }
{
    match is_new {
        true => Row::Sends(Sending::NewData),
        false => Row::Sends(Sending::DataAgain),
    }
}

// A unit by its message alone.
fn kind_of(message: &Message) -> UnitKind
    ensures { result ≡ spec.kind_of (view message.now) }
{
    match message {
        Message::Strt { .. } => UnitKind::Strt,
        Message::Stack { .. } => UnitKind::Stack,
        Message::Ack { .. } => UnitKind::Ack,
        Message::Nak { .. } => UnitKind::Nak,
        Message::Rep { .. } => UnitKind::Rep,
        Message::Data { .. } => UnitKind::Data,
    }
}

fn astrt_data(is_next: bool, kept: bool) -> AstrtArrival
    ensures { result ≡ spec.astrt_data is_next kept }
{
    match (is_next, kept) {
        (true, true) => AstrtArrival::Kept,
        (true, false) => AstrtArrival::NoBuffer,
        (false, _) => AstrtArrival::RepeatOrGap,
    }
}

fn running_data(is_next: bool, kept: bool) -> RunningArrival
    ensures { result ≡ spec.running_data is_next kept }
{
    match (is_next, kept) {
        (true, true) => RunningArrival::Kept,
        (true, false) => RunningArrival::NoBuffer,
        (false, _) => RunningArrival::RepeatOrGap,
    }
}

fn rep_row(is_last: bool) -> RunningArrival
    ensures { result ≡ spec.rep_row is_last }
{
    match is_last {
        true => RunningArrival::RepOfLast,
        false => RunningArrival::RepOfOther,
    }
}
