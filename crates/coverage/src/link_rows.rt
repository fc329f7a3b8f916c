//! The rows of the links that a packet goes through, by the message in it.

ghost use Rattle.std.specs.Prelude.{◌≡◌, ℕ};
ghost use Rattle.ddcmp_msg.specs.Message.{view};
ghost use Rattle.dna_node.specs.Content.{content, message_in};
ghost use Rattle.dna_packet.specs.ReadingNsp.{nsp_at};
ghost use Rattle.dna_packet.specs.Nsp as nsp;
ghost use Rattle.coverage.specs.Rows as spec;

use crate::row::{Loss, MessageKind, Row};
use capture_record::Fate;
use ddcmp_msg::Message;
use dna_packet::{LinkService, Nsp, Packet, read_nsp, read_packet};

/// That of a message that is sent: `None` where its packet is not new, or has no message of the links.
#[inline(always)]
pub fn link_sends(is_new: bool, message: &Message) -> Option<Row>
    ensures { result ≡ spec.link_sends is_new (view message.now) }
{
    match (is_new, message) {
        (true, Message::Data { body, .. }) => match kind_in(body) {
            Some(kind) => Some(Row::LinkSends(kind)),
            None => None,
        },
        _ => None,
    }
}

/// That of a message that comes: `None` where its packet is not kept, or the links meet it and it has no message of theirs.
#[inline(always)]
pub fn link_gets(fate: Fate, message: &Message) -> Option<Row>
    ensures { result ≡ spec.link_gets fate (view message.now) }
{
    match (fate, message) {
        (Fate::Kept, Message::Data { body, .. }) => match kind_in(body) {
            Some(kind) => Some(Row::LinkGets(kind)),
            None => None,
        },
        (Fate::Dropped, _) => Some(Row::Lost(Loss::Above)),
        _ => None,
    }
}

// The kind of the message of the links in a packet, if there is one.
fn kind_in(packet: &[u8]) -> Option<MessageKind>
    ensures { result ≡ spec.carried_kind (content packet.now) }
{
    let Ok(read) = read_packet(packet) else {
        return None;
    };
    if read.returned() {
        return None;
    }
    match read {
        Packet::Data { nsp, .. } => message_kind(nsp),
        Packet::Control(_) => None,
    }
}

// The kind of the message of these bytes, if they are one.
fn message_kind(nsp: &[u8]) -> Option<MessageKind>
    ensures { (dst src : ℕ) → spec.carried_kind (message_in dst src (nsp_at nsp.now)) ≡ result }
{
    match read_nsp(nsp) {
        Ok(message) => Some(kind_of(&message)),
        Err(_) => None,
    }
}

// The kind of a message.
fn kind_of(message: &Nsp) -> MessageKind
    ensures { result ≡ spec.message_kind (nsp.view message.now) }
{
    match message {
        Nsp::DataSegment(_) => MessageKind::Segment,
        Nsp::LinkService(LinkService { interrupt, .. }) => service_kind(*interrupt),
        Nsp::DataAck(_) => MessageKind::DataAck,
        Nsp::OtherDataAck(_) => MessageKind::OtherDataAck,
        Nsp::ConnectAck(_) => MessageKind::ConnectAck,
        Nsp::NoOperation(_) => MessageKind::NoOperation,
        Nsp::ConnectInitiate(_) => MessageKind::ConnectInitiate,
        Nsp::ConnectConfirm(_) => MessageKind::ConnectConfirm,
        Nsp::DisconnectInitiate(_) => MessageKind::DisconnectInitiate,
        Nsp::DisconnectConfirm(_) => MessageKind::DisconnectConfirm,
    }
}

// Link service and interrupt have one layout.
fn service_kind(interrupt: bool) -> MessageKind
    ensures { result ≡ spec.service_kind interrupt }
{
    match interrupt {
        true => MessageKind::Interrupt,
        false => MessageKind::LinkService,
    }
}
