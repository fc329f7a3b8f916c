//! What a data message carries, as far as the links go by it.

use dna_packet::{Nsp, Packet, read_nsp, read_packet};

// The first byte of a data message; and how many bytes its header has, with the check, and the check after its body (DDCMP 4.1, message formats).
const DATA: u8 = 0x81;

const HEADER_LEN: usize = 8;

const CHECK_LEN: usize = 2;

/// The number of the segment after the one with this number.
pub(crate) fn next_number(number: u16) -> u16 {
    number.wrapping_add(1) % 4096
}

/// The message of the links in a unit, if it has one. Its checks are not asked: what has no message that says so is no packet.
///
/// ```text
/// a data message with a CI      Some(Nsp::ConnectInitiate(..))
/// a STRT                        None
/// ```
pub fn message_of(unit: &[u8]) -> Option<Nsp<'_>> {
    if *unit.first()? != DATA {
        return None;
    }
    let end = unit.len().checked_sub(CHECK_LEN)?;
    let body = unit.get(HEADER_LEN..end)?;
    let Ok(packet) = read_packet(body) else {
        return None;
    };
    if packet.returned() {
        return None;
    }
    match packet {
        Packet::Data { nsp, .. } => match read_nsp(nsp) {
            Ok(message) => Some(message),
            Err(_) => None,
        },
        Packet::Control(_) => None,
    }
}
