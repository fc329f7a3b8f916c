//! The kinds of units.

ghost use Rattle.std.specs.Prelude.{◌≡◌, ◌≤◌, ◌+◌, length};
ghost use Rattle.ddcmp_msg.specs.Reading.{count_of};
ghost use Rattle.framer.specs.Framing.{kind_of, unit_len};
ghost use Rattle.framer.specs.declared.limit.TheConstants.{HEADER_LEN, MAX_FRAME};

use crate::limit::HEADER_LEN;
use byteorder::{ByteOrder, LittleEndian};

const SOH: u8 = 0x81;

const ENQ: u8 = 0x05;

const DLE: u8 = 0x90;

const CHECK_LEN: usize = 2;

/// The kinds of units, by the byte that each starts with (DDCMP 4.1, message formats).
#[derive(Clone, Copy, PartialEq, Eq)]
pub enum Kind {
    /// ENQ: a control message.
    Control,
    /// SOH: a data message.
    Data,
    /// DLE: a maintenance message.
    Maintenance,
}

impl Kind {
    /// The kind of a unit that starts with this byte, if one does. Takes no memory.
    ///
    /// ```text
    /// Kind::of(0x81)   Some(Kind::Data)
    /// Kind::of(0x96)   None
    /// ```
    #[inline(always)]
    pub fn of(start: u8) -> Option<Kind>
        ensures { result ≡ kind_of start }
    {
        match start {
            ENQ => Some(Kind::Control),
            SOH => Some(Kind::Data),
            DLE => Some(Kind::Maintenance),
            _ => None,
        }
    }

    /// How many bytes a unit of this kind has that begins with this header.
    #[inline(always)]
    pub(crate) fn unit_len(self, header: &[u8]) -> usize
        requires { HEADER_LEN ≤ length header.now }
        ensures value { result ≡ unit_len self header.now }
        ensures least { HEADER_LEN ≤ result }
        ensures most { result ≤ MAX_FRAME }
    {
        match self {
            Kind::Control => HEADER_LEN,
            Kind::Data => with_data(header),
            Kind::Maintenance => with_data(header),
        }
    }
}

// The header, as many bytes of data as COUNT says, and their check.
#[inline(always)]
fn with_data(header: &[u8]) -> usize
    requires { HEADER_LEN ≤ length header.now }
    ensures value { result ≡ count_of header.now + 10 }
    ensures most { result ≤ MAX_FRAME }
{
    HEADER_LEN + usize::from(LittleEndian::read_u16(&header[1..3]) & 0x3fff) + CHECK_LEN
}
