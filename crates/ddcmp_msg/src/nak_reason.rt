//! Why a station answers NAK.

/// The reason of a NAK: the subtype of its header (DDCMP 4.1, NAK message).
#[derive(Clone, Copy, Debug, PartialEq, Eq)]
pub enum NakReason {
    /// 1: a header failed its block check.
    HeaderCheck,
    /// 2: the data of a message failed their block check.
    DataCheck,
    /// 3: a REP asked for a number that was not received.
    RepResponse,
    /// 8: no buffer was there for the data.
    NoBuffer,
    /// 9: the receiver was overrun.
    Overrun,
    /// 16: a message was too long.
    MessageTooLong,
    /// 17: a header was not in the format.
    HeaderFormat,
}

impl NakReason {
    ghost use Rattle.std.specs.Prelude.{◌≡◌};
    ghost use Rattle.ddcmp_msg.specs.Message.{reason_number, reason_of};

    /// The number of the reason on the line: 1, 2, 3, 8, 9, 16 or 17.
    pub fn number(self) -> u8
        ensures { result ≡ reason_number self }
    {
        match self {
            NakReason::HeaderCheck => 1,
            NakReason::DataCheck => 2,
            NakReason::RepResponse => 3,
            NakReason::NoBuffer => 8,
            NakReason::Overrun => 9,
            NakReason::MessageTooLong => 16,
            NakReason::HeaderFormat => 17,
        }
    }

    /// The reason with this number, or `None` where no reason has it.
    pub fn from_number(number: u8) -> Option<NakReason>
        ensures { result ≡ reason_of number }
    {
        match number {
            1 => Some(NakReason::HeaderCheck),
            2 => Some(NakReason::DataCheck),
            3 => Some(NakReason::RepResponse),
            8 => Some(NakReason::NoBuffer),
            9 => Some(NakReason::Overrun),
            16 => Some(NakReason::MessageTooLong),
            17 => Some(NakReason::HeaderFormat),
            _ => None,
        }
    }
}
