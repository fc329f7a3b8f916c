//! What the bytes of a unit say.

ghost use Rattle.std.specs.Prelude.{◌≡◌, true, ◌/◌, ◌%◌, ◌==◌, if◌then◌else◌};
ghost use Rattle.ddcmp_msg.specs.Message as unit;
ghost use Rattle.ddcmp_msg.specs.Reading.{IsSound, reading};
ghost use Rattle.dna_packet.specs.Nsp as nsp;
ghost use Rattle.dna_packet.specs.ReadingNsp.{nsp_at};
ghost use Rattle.dna_packet.specs.ReadingPacket.{packet_at};
ghost use Rattle.ladder.specs.Reading as spec;
ghost use Rattle.ladder.specs.Said.{brief};

use crate::said::{Content, Link, Said};
use ddcmp_msg::{Message, Reading, read_sound, read_unit};
use dna_packet::{AckWord, Nsp, Packet, read_nsp, read_packet};

/// What a unit with these bytes says: its message, and of a data message what is in its packet; or how the bytes read as damaged.
/// Takes no memory.
pub fn said_by(bytes: &[u8]) -> Said
    ensures { result ≡ spec.said_of (reading bytes.now) }
{
    match read_unit(bytes) {
        Reading::Sound(message) => said_message(message),
        Reading::HeaderBad => Said::HeaderBad,
        Reading::DataBad => Said::DataBad,
        Reading::Malformed(_) => Said::NoMessage,
    }
}

/// The same with nothing of the packet in a data message. What is said to be sound is read without its checks. Takes no memory.
#[inline(always)]
pub fn said_briefly(bytes: &[u8], sound: bool) -> Said
    requires { sound ≡ true → IsSound (reading bytes.now) }
    ensures { result ≡ brief (spec.said_of (reading bytes.now)) }
{
    if sound {
        return brief_message(read_sound(bytes));
    }
    said_unread(bytes)
}

// What a unit says briefly that nobody read yet.
#[inline(never)]
fn said_unread(bytes: &[u8]) -> Said
    ensures { result ≡ brief (spec.said_of (reading bytes.now)) }
{
    match read_unit(bytes) {
        Reading::Sound(message) => brief_message(message),
        Reading::HeaderBad => Said::HeaderBad,
        Reading::DataBad => Said::DataBad,
        Reading::Malformed(_) => Said::NoMessage,
    }
}

// A message, with nothing of its packet.
#[inline(always)]
fn brief_message(message: Message<'_>) -> Said
    ensures { result ≡ brief (spec.said_message (unit.view message.entry)) }
{
    match message {
        Message::Data { num, resp, .. } => Said::Data {
            num,
            resp,
            content: Content::Untold,
        },
        Message::Ack { resp, .. } => Said::Ack { resp },
        Message::Nak { reason, resp, .. } => Said::Nak { reason, resp },
        Message::Rep { num, .. } => Said::Rep { num },
        Message::Strt { .. } => Said::Strt,
        Message::Stack { .. } => Said::Stack,
    }
}

// A message, as a row tells it.
fn said_message(message: Message<'_>) -> Said
    ensures { result ≡ spec.said_message (unit.view message.entry) }
{
    match message {
        Message::Data {
            num,
            resp,
            body,
            flags: _,
        } => Said::Data {
            num,
            resp,
            content: packet_content(body),
        },
        Message::Ack { resp, .. } => Said::Ack { resp },
        Message::Nak { reason, resp, .. } => Said::Nak { reason, resp },
        Message::Rep { num, .. } => Said::Rep { num },
        Message::Strt { .. } => Said::Strt,
        Message::Stack { .. } => Said::Stack,
    }
}

/// What is in the packet of these bytes. Takes no memory.
pub fn packet_content(body: &[u8]) -> Content
    ensures { result ≡ spec.packet_content (packet_at body.now) }
{
    match read_packet(body) {
        Ok(Packet::Data { rtflg, nsp, .. }) => data_content(rtflg, nsp),
        Ok(Packet::Control(_)) => Content::Untold,
        Err(_) => Content::Untold,
    }
}

// What is in a data packet.
fn data_content(rtflg: u8, bytes: &[u8]) -> Content
    ensures { result ≡ (if (rtflg / 16 % 2) == 1 then Content.Untold else spec.nsp_content (nsp_at bytes.now)) }
{
    if rtflg / 16 % 2 == 1 {
        return Content::Untold;
    }
    nsp_content(bytes)
}

// Which message of NSP it is.
fn nsp_content(bytes: &[u8]) -> Content
    ensures { result ≡ spec.nsp_content (nsp_at bytes.now) }
{
    match read_nsp(bytes) {
        Ok(message) => message_content(&message),
        Err(_) => Content::Untold,
    }
}

fn message_content(message: &Nsp<'_>) -> Content
    ensures { result ≡ spec.message_content (nsp.view message.now) }
{
    match message {
        Nsp::DataSegment(m) => Content::Segment {
            number: m.number,
            link: link(m.srcaddr, m.dstaddr),
        },
        Nsp::LinkService(m) => Content::LinkService(link(m.srcaddr, m.dstaddr)),
        Nsp::DataAck(m) => ack_content(m.acks.as_slice(), link(m.srcaddr, m.dstaddr)),
        Nsp::OtherDataAck(m) => Content::OtherDataAck(link(m.srcaddr, m.dstaddr)),
        Nsp::ConnectAck(m) => Content::ConnectAck {
            destination: m.dstaddr,
        },
        Nsp::NoOperation(_) => Content::NoOperation,
        Nsp::ConnectInitiate(m) => Content::ConnectInitiate { source: m.srcaddr },
        Nsp::ConnectConfirm(m) => Content::ConnectConfirm(link(m.srcaddr, m.dstaddr)),
        Nsp::DisconnectInitiate(m) => Content::DisconnectInitiate(link(m.srcaddr, m.dstaddr)),
        Nsp::DisconnectConfirm(m) => Content::DisconnectConfirm(link(m.srcaddr, m.dstaddr)),
    }
}

fn link(source: u16, destination: u16) -> Link
    ensures { result ≡ spec.link source destination }
{
    Link {
        source,
        destination,
    }
}

// A data acknowledgement, by its first word.
fn ack_content(acks: &[AckWord], link: Link) -> Content
    ensures { result ≡ spec.ack_content acks.now link }
{
    match acks {
        [] => Content::Untold,
        [ack, ..] => Content::DataAck {
            number: ack.number,
            link,
        },
    }
}
