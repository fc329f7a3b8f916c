//! Why a side can't have sent a unit.

use std::fmt;

/// Why a side can't have sent a unit, in the order in which it is asked.
#[derive(Clone, Copy, Debug, PartialEq, Eq)]
pub enum Wrong {
    /// It is no sound message.
    NotAMessage,
    /// A STACK, and no STRT passed that it could answer.
    NoStart,
    /// A message of RUNNING, and nothing passed that leads there.
    NotRunning,
    /// Its RESP is not the number of a data message that can have come in order.
    WrongResponse,
    /// A REP, and it gave no number in its period.
    NothingOutstanding,
    /// Its NUM is not one that can be next; of a REP, not the highest.
    WrongNumber,
    /// 255 data messages are outstanding, and nothing passed that acknowledges one.
    WindowFull,
    /// A data message goes again with other data.
    Changed,
}

impl fmt::Display for Wrong {
    ghost use Rattle.std.specs.Prelude.{Some};
    ghost use Rattle.accusing.specs.inner.Words.{wrong_words};

    ghost output = { λ wrong. Some (wrong_words wrong) };

    fn fmt<W: fmt::Write>(&self, f: &mut fmt::Formatter<W>) -> fmt::Result {
        match self {
            Wrong::NotAMessage => f.write_str("it is no sound message"),
            Wrong::NoStart => f.write_str("no STRT passed that it could answer"),
            Wrong::NotRunning => f.write_str("nothing passed that leads to RUNNING"),
            Wrong::WrongResponse => f.write_str(
                "RESP is no data message that can have come in order",
            ),
            Wrong::NothingOutstanding => f.write_str("no data message is outstanding"),
            Wrong::WrongNumber => f.write_str("NUM can't be next"),
            Wrong::WindowFull => f.write_str(
                "255 data messages are outstanding and none was acknowledged",
            ),
            Wrong::Changed => f.write_str("it was first sent with other data"),
        }
    }
}
