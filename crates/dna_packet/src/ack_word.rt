//! The acknowledgement word of NSP messages.

ghost use Rattle.std.specs.Prelude.{◌≡◌, ◌<◌, ◌↔◌, IsTrue};
ghost use Rattle.dna_packet.specs.AckWord.{IsAckWord, ack_of, ack_word, qualifier_number};

/// What an acknowledgement word says of the segments through its number (NSP 4.0, data segment format).
#[derive(Clone, Copy, Debug, PartialEq, Eq, Default)]
pub enum AckQualifier {
    /// They were received.
    #[default]
    Ack,
    /// They were received, and the next one is asked for again.
    Nak,
    /// As `Ack`, for the other subchannel of the link.
    OtherAck,
    /// As `Nak`, for the other subchannel.
    OtherNak,
}

impl AckQualifier {
    /// The qualifier's number, 0 to 3, as it appears in bits 12 to 14.
    pub fn number(self) -> u8
        ensures { result ≡ qualifier_number self }
    {
        match self {
            AckQualifier::Ack => 0,
            AckQualifier::Nak => 1,
            AckQualifier::OtherAck => 2,
            AckQualifier::OtherNak => 3,
        }
    }
}

/// An acknowledgement word: bit 15 is set, the qualifier is in bits 12 to 14, the number in bits 0 to 11.
#[derive(Clone, Copy, Debug, PartialEq, Eq, Default)]
pub struct AckWord {
    /// What the word says.
    pub qualifier: AckQualifier,
    /// The number of the segment that it speaks of, 0 to 4,095.
    pub number: u16,
}

impl AckWord {
    /// The acknowledgement word that `word` is; `None` where bit 15 is clear or the qualifier is above 3.
    pub fn from_word(word: u16) -> Option<AckWord>
        ensures { result ≡ ack_of word }
    {
        let qualifier = match word >> 12 {
            8 => AckQualifier::Ack,
            9 => AckQualifier::Nak,
            10 => AckQualifier::OtherAck,
            11 => AckQualifier::OtherNak,
            _ => return None,
        };
        Some(AckWord {
            qualifier,
            number: word & 0x0fff,
        })
    }

    /// The word as it appears in a message. The number must be in range.
    pub fn to_word(self) -> u16
        requires { IsAckWord self }
        ensures { result ≡ ack_word self }
    {
        0x8000 + 0x1000 * u16::from(self.qualifier.number()) + self.number
    }

    /// Whether the number is at most 4,095.
    pub fn in_range(self) -> bool
        ensures { IsTrue result ↔ IsAckWord self }
    {
        self.number < 0x1000
    }
}
