//! The two flag bits of a header.

/// The flags of a message: bits 6 and 7 of the header's third byte (DDCMP 4.1, message formats). STRT and STACK
/// normally carry both. No station of a full-duplex point-to-point line is judged by them.
#[derive(Clone, Copy, Debug, PartialEq, Eq)]
pub struct Flags {
    /// QSYNC, bit 6: the next message does not abut this one, and SYN bytes come before it.
    pub quick_sync: bool,
    /// SELECT, bit 7: the sender hands the line over, where stations take turns.
    pub select: bool,
}

impl Flags {
    ghost use Rattle.std.specs.Prelude.{◌≡◌};
    ghost use Rattle.ddcmp_msg.specs.Message.{flags_byte, flags_of};

    /// The flags at their places in a byte whose bits 0 to 5 are clear.
    pub fn byte(self) -> u8
        ensures { result ≡ flags_byte self }
    {
        match (self.quick_sync, self.select) {
            (false, false) => 0x00,
            (true, false) => 0x40,
            (false, true) => 0x80,
            (true, true) => 0xc0,
        }
    }

    /// The flags in a byte. Bits 0 to 5 are not looked at.
    pub fn from_byte(byte: u8) -> Flags
        ensures { result ≡ flags_of byte }
    {
        Flags {
            quick_sync: byte & 0x40 != 0,
            select: byte & 0x80 != 0,
        }
    }
}
