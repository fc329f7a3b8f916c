//! The message of the links in a unit, and which one it is.

ghost use Rattle.std.specs.Prelude.{◌≡◌, option_map};
ghost use Rattle.dna_packet.specs.Nsp.{view};
ghost use Rattle.dna_packet.specs.ReadingPacket.{packet_at};
ghost use Rattle.assuming.specs.Assuming.{begins_or_answers, caller_of, kind_of};
ghost use Rattle.assuming.specs.Messages.{message_in_unit, message_of};

use ddcmp_msg::{Message, Reading, read_unit};
use dna_packet::{Nsp, Packet, read_nsp, read_packet};

/// Which message it is.
#[derive(Clone, Copy, PartialEq, Eq)]
pub enum Kind {
    /// A CI.
    Call,
    /// A CC.
    Confirm,
    /// A DI.
    Disconnect,
    /// A data segment.
    Segment,
    /// Any other.
    Other,
}

/// The message of the links in a unit: none where the unit is no sound data message, where its packet or the message can't be read, nor in a routing
/// control packet and in one on its way back to its source. Takes no memory.
pub(crate) fn message_in_unit(unit: &[u8]) -> Option<Nsp<'_>>
    ensures { option_map view result ≡ message_in_unit unit.now }
{
    match read_unit(unit) {
        Reading::Sound(Message::Data { body, .. }) => message_in_packet(body),
        _ => None,
    }
}

fn message_in_packet(packet: &[u8]) -> Option<Nsp<'_>>
    ensures { option_map view result ≡ message_of (packet_at packet.now) }
{
    let Ok(read) = read_packet(packet) else {
        return None;
    };
    if read.returned() {
        return None;
    }
    match read {
        Packet::Data { nsp, .. } => match read_nsp(nsp) {
            Ok(message) => Some(message),
            Err(_) => None,
        },
        Packet::Control(_) => None,
    }
}

/// Which message it is.
pub(crate) fn kind_of(message: &Nsp<'_>) -> Kind
    ensures { result ≡ kind_of (view message.now) }
{
    match message {
        Nsp::ConnectInitiate(_) => Kind::Call,
        Nsp::ConnectConfirm(_) => Kind::Confirm,
        Nsp::DisconnectInitiate(_) => Kind::Disconnect,
        Nsp::DataSegment(_) => Kind::Segment,
        _ => Kind::Other,
    }
}

/// The link that a CI is from; 0 of any other message.
pub(crate) fn caller_of(message: &Nsp<'_>) -> u16
    ensures { result ≡ caller_of (view message.now) }
{
    match message {
        Nsp::ConnectInitiate(call) => call.srcaddr,
        _ => 0,
    }
}

/// Whether it is a CI, CC or DI.
pub(crate) fn begins_or_answers(kind: Kind) -> bool
    ensures { result ≡ begins_or_answers kind }
{
    match kind {
        Kind::Call | Kind::Confirm | Kind::Disconnect => true,
        Kind::Segment | Kind::Other => false,
    }
}
