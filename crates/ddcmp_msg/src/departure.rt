//! Where a unit departs from the formats.

/// The first departure of a unit from the message formats, where its block checks are good.
#[derive(Clone, Copy, Debug, PartialEq, Eq)]
pub enum Departure {
    /// 1: the first byte starts no message.
    UnknownStart,
    /// 2: the first byte starts a maintenance message, which this crate does not read.
    Maintenance,
    /// 3: a COUNT of 0, or bytes after the end.
    WrongLength,
    /// 4: no control message has this TYPE and SUBTYPE.
    UnknownType,
    /// 5: a byte that has to be 0 is not 0, or the address is not 1.
    WrongField,
}

impl Departure {
    ghost use Rattle.std.specs.Prelude.{◌≡◌};
    ghost use Rattle.ddcmp_msg.specs.Reading.{departure_number};

    /// The number of the departure, 1 to 5, in the order in which a reader tests for them within one message.
    pub fn number(self) -> u8
        ensures { result ≡ departure_number self }
    {
        match self {
            Departure::UnknownStart => 1,
            Departure::Maintenance => 2,
            Departure::WrongLength => 3,
            Departure::UnknownType => 4,
            Departure::WrongField => 5,
        }
    }
}
