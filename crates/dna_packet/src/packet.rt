//! A packet of a DDCMP circuit.

ghost use Rattle.std.specs.Prelude.{◌≡◌, ◌<◌, ◌%◌, IsTrue, ◌↔◌};

/// A packet as a DDCMP circuit carries it (Routing Layer 2.0). Its part is a slice of the bytes that it was
/// read from.
#[derive(Clone, Copy, Debug, PartialEq, Eq)]
pub enum Packet<'a> {
    /// A short format data packet.
    Data {
        /// RTFLG: the low three bits are 010 and bit 7 is clear. Bit 4 is set where the packet is returned to
        /// its source, and bit 3 asks for that; bits 5 and 6 are carried and mean nothing here.
        rtflg: u8,
        /// DSTNODE, the address of the destination node: its area times 1,024 plus its number there.
        dst: u16,
        /// SRCNODE, the address of the source node.
        src: u16,
        /// FORWARD, the count of nodes passed, which is carried and not judged.
        forward: u8,
        /// The NSP message, all bytes to the end of the packet.
        nsp: &'a [u8],
    },
    /// A routing control packet, whole: bit 0 of its first byte is set and bit 7 is clear. No more of it is read.
    Control(&'a [u8]),
}

impl Packet<'_> {
    ghost use Rattle.dna_packet.specs.Packet.{view, IsInRange, IsReturned};

    /// Whether the packet is a data packet on its way back to its source (bit 4 of RTFLG).
    pub fn returned(&self) -> bool
        ensures { IsTrue result ↔ IsReturned (view self.now) }
    {
        match self {
            Packet::Data { rtflg, .. } => *rtflg & RETURNED != 0,
            Packet::Control(_) => false,
        }
    }

    /// Whether the fields are those of a packet: bits 0 to 2 and bit 7 of RTFLG of a data packet, bits 0 and 7
    /// of the first byte of a control packet, which is not empty. Every node address and FORWARD is in range.
    pub fn in_range(&self) -> bool
        ensures { IsTrue result ↔ IsInRange (view self.now) }
    {
        match self {
            Packet::Data { rtflg, .. } => is_short_format(*rtflg),
            Packet::Control(bytes) => match bytes {
                [first, ..] => is_control(*first),
                [] => false,
            },
        }
    }
}

/// Whether a first byte begins a short format data packet.
fn is_short_format(rtflg: u8) -> bool
    ensures { IsTrue result ↔ ((rtflg < 128) × (rtflg % 8 ≡ 2)) }
{
    rtflg & PADDED == 0 && rtflg & FORMAT == SHORT_FORMAT
}

/// Whether a first byte begins a control packet.
fn is_control(first: u8) -> bool
    ensures { IsTrue result ↔ ((first < 128) × (first % 2 ≡ 1)) }
{
    first & PADDED == 0 && first & CONTROL != 0
}

/// Bit 0 of the first byte: a control packet.
pub(crate) const CONTROL: u8 = 0x01;
/// The low three bits of RTFLG, which tell the format.
pub(crate) const FORMAT: u8 = 0x07;
/// The low three bits of a short format data packet.
pub(crate) const SHORT_FORMAT: u8 = 0x02;
/// The low three bits of a long format data packet.
pub(crate) const LONG_FORMAT: u8 = 0x06;
/// Bit 4 of RTFLG.
const RETURNED: u8 = 0x10;
/// Bit 7 of the first byte: padding.
pub(crate) const PADDED: u8 = 0x80;
