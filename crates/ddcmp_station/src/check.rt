//! The checks of a station by name alone. What is seen where one fails, and what is allowed, the station tells when it is asked
//! ([`Station::tell_sending`], [`Station::tell_arrival`]): most who are refused need the name alone, and a name goes in a register.

ghost use Rattle.std.specs.Prelude.{◌≡◌};
ghost use Rattle.ddcmp_station.specs.Told.{refusal_of_arrival, refusal_of_sending};

use dna_station::StationRefusal;

/// A check that a message passes which is to be sent (DDCMP 4.1, startup state table, data transfer).
#[derive(Clone, Copy, PartialEq, Eq)]
pub enum SendingCheck {
    /// In this state such a message may be sent.
    State,
    /// RESP is R.
    RespIsLast,
    /// NUM of data is T.
    NumIsNext,
    /// NUM of a REP is N.
    NumIsHighest,
    /// A packet is outstanding, where a REP is sent.
    SomeOutstanding,
    /// A new packet has room in the window.
    RoomIfNew,
    /// A packet that goes again is as first given.
    AsFirstGiven,
    /// A NAK has an open cause.
    CauseIsOpen,
}

/// A check that an arrival passes.
#[derive(Clone, Copy, PartialEq, Eq)]
pub enum ArrivalCheck {
    /// The periods are as the row of the message needs them.
    Period,
    /// What is kept was taken.
    Keep,
}

impl SendingCheck {
    /// What refuses a message that does not pass it.
    pub fn refusal(self) -> StationRefusal
        ensures { result ≡ refusal_of_sending self }
    {
        match self {
            SendingCheck::State => StationRefusal::WrongState,
            SendingCheck::RespIsLast => StationRefusal::WrongResponse,
            SendingCheck::NumIsNext => StationRefusal::WrongNumber,
            SendingCheck::NumIsHighest => StationRefusal::WrongNumber,
            SendingCheck::SomeOutstanding => StationRefusal::WrongState,
            SendingCheck::RoomIfNew => StationRefusal::WindowFull,
            SendingCheck::AsFirstGiven => StationRefusal::Changed,
            SendingCheck::CauseIsOpen => StationRefusal::NoCause,
        }
    }
}

impl ArrivalCheck {
    /// What refuses an arrival that does not pass it.
    pub fn refusal(self) -> StationRefusal
        ensures { result ≡ refusal_of_arrival self }
    {
        match self {
            ArrivalCheck::Period => StationRefusal::CrossedPeriod,
            ArrivalCheck::Keep => StationRefusal::WrongKeep,
        }
    }
}
