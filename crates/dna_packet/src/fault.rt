//! Why bytes are no packet, or no NSP message.

ghost use Rattle.std.specs.Prelude.{◌≡◌};
ghost use Rattle.dna_packet.specs.Fault.{packet_fault_number, nsp_fault_number};

use thiserror::Error;

/// Where bytes first depart from the packets of a DDCMP circuit (Routing Layer 2.0, packet formats).
#[derive(Clone, Copy, Debug, PartialEq, Eq, Error)]
pub enum PacketFault {
    /// Bit 7 of the first byte is set: padding comes before the packet.
    #[error("padded packet")]
    Padded,
    /// The low three bits of the first byte are 110: a long format data packet.
    #[error("long format packet")]
    LongFormat,
    /// The packet is empty, or a field of its header is missing or cut.
    #[error("short packet")]
    Short,
    /// The low three bits of the first byte are none of 010, 110 and those of a control packet.
    #[error("unknown routing flags")]
    UnknownFlags,
}

impl PacketFault {
    /// The fault's number, 1 to 4, in the order of the variants.
    pub fn number(self) -> u8
        ensures { result ≡ packet_fault_number self }
    {
        match self {
            PacketFault::Padded => 1,
            PacketFault::LongFormat => 2,
            PacketFault::Short => 3,
            PacketFault::UnknownFlags => 4,
        }
    }
}

/// Where bytes first depart from the NSP messages (NSP 4.0, message formats). Fields are read from left to
/// right, and the first that is missing or wrong decides.
#[derive(Clone, Copy, Debug, PartialEq, Eq, Error)]
pub enum NspFault {
    /// The flag byte is that of no message.
    #[error("unknown flag byte")]
    UnknownFlag,
    /// A field is missing or cut; so is the flag byte of an empty message.
    #[error("missing field")]
    MissingField,
    /// An acknowledgement word has a qualifier above 3, or, in a data acknowledgement, bit 15 clear.
    #[error("bad acknowledgement word")]
    BadAckWord,
    /// SEGNUM has bit 13, 14 or 15 set; a third acknowledgement word is read as SEGNUM.
    #[error("bad segment number")]
    BadSegnum,
    /// Bytes follow the end of a data acknowledgement, a connect acknowledgement or a DC.
    #[error("bytes after the end")]
    TrailingBytes,
    /// DSTADDR of a CI is not 0.
    #[error("nonzero DSTADDR")]
    NonzeroDstaddr,
}

impl NspFault {
    /// The fault's number, 1 to 6, in the order of the variants.
    pub fn number(self) -> u8
        ensures { result ≡ nsp_fault_number self }
    {
        match self {
            NspFault::UnknownFlag => 1,
            NspFault::MissingField => 2,
            NspFault::BadAckWord => 3,
            NspFault::BadSegnum => 4,
            NspFault::TrailingBytes => 5,
            NspFault::NonzeroDstaddr => 6,
        }
    }
}
