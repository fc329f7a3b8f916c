//! The rows of the table of arrivals, as code goes by them.

ghost use Rattle.std.specs.Prelude.{◌≡◌};
ghost use Rattle.ddcmp_msg.specs.Message.{view};
ghost use Rattle.dna_station.specs.Book.{has_packet};
ghost use Rattle.dna_station.specs.Table.{row};
ghost use Rattle.dna_station.specs.ArrivalRows.{leads_to, need_of, need_view, row_view};

use crate::state::State;
use ddcmp_msg::Message;

/// What the row of a message needs of the periods.
#[derive(Clone, Copy, Debug, PartialEq, Eq)]
pub enum PeriodNeed {
    /// Nothing.
    Anything,
    /// The message answers the receiver's present period: that is the partner in its tag.
    Fresh,
    /// Besides, it comes from the receiver's partner: that is the period in its tag.
    OfPair,
}

/// A row of the table of arrivals: what a sound message does in a state (DDCMP 4.1, startup state table, data transfer).
///
/// ```text
///          ISTRT          ASTRT                        RUNNING
///  STRT    StartMet       StartAgain                   Restarted
///  STACK   StartAnswered  StartAnswered                Noted
///  ACK                    with RESP 0: StartConfirmed  Acknowledged
///  NAK                                                 SetBack
///  REP                                                 Asked
///  data                   with RESP 0: FirstData       Delivered
/// ```
#[derive(Clone, Copy, PartialEq, Eq)]
pub enum ArrivalRow {
    /// Nothing is done: in HALTED, and wherever the table has nothing.
    Ignored,
    /// Its sender is the partner, and the start goes on to ASTRT.
    StartMet,
    /// Its sender is the partner, and the start is over.
    StartAnswered,
    /// Its sender is the partner, another one than before.
    StartAgain,
    /// The start is over.
    StartConfirmed,
    /// The start is over; then as `Delivered`.
    FirstData,
    /// The other station started anew: to HALTED.
    Restarted,
    /// Of the pair, and nothing is done.
    Noted,
    /// RESP acknowledges.
    Acknowledged,
    /// RESP acknowledges; the oldest packet that is left is next to send.
    SetBack,
    /// NUM is not the last received: a cause.
    Asked,
    /// RESP acknowledges; the next packet is taken, or gives a cause where no buffer is left.
    Delivered,
}

impl ArrivalRow {
    /// The row of this message in this state.
    ///
    /// ```text
    /// of(ASTRT, ACK with RESP 0) = StartConfirmed    of(ASTRT, ACK with RESP 1) = Ignored    of(RUNNING, NAK) = SetBack
    /// ```
    #[inline(always)]
    pub fn of(state: State, message: &Message) -> ArrivalRow
        ensures { row_view result ≡ row state (view message.now) }
    {
        match state {
            State::Halted => ArrivalRow::Ignored,
            State::Istrt => match message {
                Message::Strt { .. } => ArrivalRow::StartMet,
                Message::Stack { .. } => ArrivalRow::StartAnswered,
                _ => ArrivalRow::Ignored,
            },
            State::Astrt => match message {
                Message::Strt { .. } => ArrivalRow::StartAgain,
                Message::Stack { .. } => ArrivalRow::StartAnswered,
                Message::Ack { resp: 0, .. } => ArrivalRow::StartConfirmed,
                Message::Data { resp: 0, .. } => ArrivalRow::FirstData,
                _ => ArrivalRow::Ignored,
            },
            State::Running => match message {
                Message::Strt { .. } => ArrivalRow::Restarted,
                Message::Stack { .. } => ArrivalRow::Noted,
                Message::Ack { .. } => ArrivalRow::Acknowledged,
                Message::Nak { .. } => ArrivalRow::SetBack,
                Message::Rep { .. } => ArrivalRow::Asked,
                Message::Data { .. } => ArrivalRow::Delivered,
            },
        }
    }

    /// What it needs of the periods of the message and of the receiver.
    #[inline(always)]
    pub fn needs(self) -> PeriodNeed
        ensures code { result ≡ need_of (row_view self).needs }
        ensures table { need_view result ≡ (row_view self).needs }
    {
        match self {
            ArrivalRow::Ignored => PeriodNeed::Anything,
            ArrivalRow::StartMet => PeriodNeed::Anything,
            ArrivalRow::StartAnswered => PeriodNeed::Fresh,
            ArrivalRow::StartAgain => PeriodNeed::Anything,
            ArrivalRow::StartConfirmed => PeriodNeed::OfPair,
            ArrivalRow::FirstData => PeriodNeed::OfPair,
            ArrivalRow::Restarted => PeriodNeed::Anything,
            ArrivalRow::Noted => PeriodNeed::OfPair,
            ArrivalRow::Acknowledged => PeriodNeed::OfPair,
            ArrivalRow::SetBack => PeriodNeed::OfPair,
            ArrivalRow::Asked => PeriodNeed::OfPair,
            ArrivalRow::Delivered => PeriodNeed::OfPair,
        }
    }

    /// Whether it takes a packet, if that is the next one.
    #[inline(always)]
    pub fn takes_packet(self) -> bool
        ensures { result ≡ has_packet (row_view self).effects }
    {
        match self {
            ArrivalRow::FirstData => true,
            ArrivalRow::Delivered => true,
            _ => false,
        }
    }

    /// The state of a station after it, which was in this state before.
    ///
    /// ```text
    /// StartAnswered.leads_to(ISTRT) = RUNNING    Delivered.leads_to(RUNNING) = RUNNING    Restarted.leads_to(RUNNING) = HALTED
    /// ```
    #[inline(always)]
    pub fn leads_to(self, state: State) -> State
        ensures { result ≡ leads_to state (row_view self).effects }
    {
        match self {
            ArrivalRow::StartMet => State::Astrt,
            ArrivalRow::StartAnswered => State::Running,
            ArrivalRow::StartConfirmed => State::Running,
            ArrivalRow::FirstData => State::Running,
            ArrivalRow::Restarted => State::Halted,
            ArrivalRow::Ignored | ArrivalRow::StartAgain | ArrivalRow::Noted => state,
            ArrivalRow::Acknowledged
            | ArrivalRow::SetBack
            | ArrivalRow::Asked
            | ArrivalRow::Delivered => state,
        }
    }
}
