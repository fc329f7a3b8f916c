//! What the packet of a data message is, in words (Routing Layer 2.0, packet formats).

ghost use Rattle.std.specs.Prelude.{◌≡◌};
ghost use Rattle.record_words.specs.Layers as spec;

use crate::words::{ByteCount, words_if};
use dna_packet::{Packet, PacketFault, read_packet};
use std::fmt::{self, Formatter, Write};

/// What these bytes are as a packet, or why they are none.
#[derive(Clone, Copy)]
pub struct RoutingWords<'a> {
    pub bytes: &'a [u8],
}

impl fmt::Display for RoutingWords<'_> {
    fn fmt<W: Write>(&self, f: &mut Formatter<W>) -> fmt::Result {
        match read_packet(self.bytes) {
            Ok(packet) => write_packet(f, packet),
            Err(fault) => f.write_str(packet_fault_words(fault)),
        }
    }
}

// Writes a packet, as `1.1 to 1.2, short data packet, flags 02, 0 nodes passed`, or as a control packet, of which no more is read.
fn write_packet<W: Write>(f: &mut Formatter<W>, packet: Packet<'_>) -> fmt::Result {
    match packet {
        Packet::Data {
            rtflg,
            dst,
            src,
            forward,
            ..
        } => {
            let nodes = NodesWords {
                source: src,
                destination: dst,
            };
            let header = HeaderWords { rtflg, forward };
            write!(f, "{nodes}, short data packet, {header}")
        }
        Packet::Control(bytes) => {
            let bytes = ByteCount { count: bytes.len() };
            write!(f, "control packet, {bytes}, not read further")
        }
    }
}

// RTFLG and FORWARD of a data packet.
#[derive(Clone, Copy)]
struct HeaderWords {
    rtflg: u8,
    forward: u8,
}

impl fmt::Display for HeaderWords {
    fn fmt<W: Write>(&self, f: &mut Formatter<W>) -> fmt::Result {
        let HeaderWords { rtflg, forward } = *self;
        let digits = ByteDigits { byte: rtflg };
        let way_back = words_if(is_on_its_way_back(rtflg), ", on its way back");
        write!(f, "flags {digits}{way_back}, {forward} nodes passed")
    }
}

/// Between which nodes a packet goes. Printed as `1.1 to 1.2`: of each its area and its number there.
#[derive(Clone, Copy)]
pub struct NodesWords {
    /// The address of the node that it is from.
    pub source: u16,
    /// The address of the node that it is for.
    pub destination: u16,
}

impl fmt::Display for NodesWords {
    fn fmt<W: Write>(&self, f: &mut Formatter<W>) -> fmt::Result {
        write_address(f, self.source)?;
        f.write_str(" to ")?;
        write_address(f, self.destination)
    }
}

fn write_address<W: Write>(f: &mut Formatter<W>, address: u16) -> fmt::Result {
    let area = address / 1024;
    let node = address % 1024;
    write!(f, "{area}.{node}")
}

/// A byte as two hexadecimal digits.
#[derive(Clone, Copy)]
pub struct ByteDigits {
    pub byte: u8,
}

impl fmt::Display for ByteDigits {
    fn fmt<W: Write>(&self, f: &mut Formatter<W>) -> fmt::Result {
        let high = self.byte / 16;
        let low = self.byte % 16;
        write!(f, "{high:x}{low:x}")
    }
}

/// Whether a data packet with this RTFLG is on its way back to its source (bit 4).
pub fn is_on_its_way_back(rtflg: u8) -> bool
    ensures { result ≡ spec.is_on_its_way_back rtflg }
{
    rtflg & 0x10 != 0
}

/// Why bytes are no packet of a DDCMP circuit.
pub fn packet_fault_words(fault: PacketFault) -> &'static str {
    match fault {
        PacketFault::Padded => "no packet of this circuit: padding comes before it",
        PacketFault::LongFormat => "no packet of this circuit: a long format data packet",
        PacketFault::Short => {
            "no packet of this circuit: a field of its header is missing or cut"
        }
        PacketFault::UnknownFlags => "no packet of this circuit: unknown routing flags",
    }
}
