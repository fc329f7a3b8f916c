//! What a message of NSP says, in words (NSP 4.0, message formats).

use crate::ack_words::write_acks;
use crate::words::{ByteCount, words_if};
use dna_packet::{
    ConnectConfirm, ConnectInitiate, DataAck, DisconnectConfirm, DisconnectInitiate, LinkService,
    Nsp, NspFault, OtherDataAck, Segment, read_nsp,
};
use std::fmt::{self, Formatter, Write};

/// What these bytes are as a message of NSP, or why they are none.
#[derive(Clone, Copy)]
pub struct MessageWords<'a> {
    pub bytes: &'a [u8],
}

impl fmt::Display for MessageWords<'_> {
    fn fmt<W: Write>(&self, f: &mut Formatter<W>) -> fmt::Result {
        match &read_nsp(self.bytes) {
            Ok(message) => write_nsp(f, message),
            Err(fault) => f.write_str(nsp_fault_words(*fault)),
        }
    }
}

// Writes a message of NSP with its fields, as `segment 1 of link 1 -> 2, a whole message, 1 byte`: SRCADDR comes first. Of what it carries
// unread, the number of bytes alone is told.
fn write_nsp<W: Write>(f: &mut Formatter<W>, message: &Nsp<'_>) -> fmt::Result {
    match message {
        Nsp::DataSegment(segment) => write_segment(f, segment),
        Nsp::LinkService(message) => write_link_service(f, message),
        Nsp::DataAck(message) => write_data_ack(f, message),
        Nsp::OtherDataAck(message) => write_other_data_ack(f, message),
        Nsp::ConnectAck(message) => write!(f, "connect ack to link {}", message.dstaddr),
        Nsp::NoOperation(message) => write_no_operation(f, message.rest),
        Nsp::ConnectInitiate(message) => write_connect_initiate(f, message),
        Nsp::ConnectConfirm(message) => write_connect_confirm(f, message),
        Nsp::DisconnectInitiate(message) => write_disconnect_initiate(f, message),
        Nsp::DisconnectConfirm(message) => write_disconnect_confirm(f, message),
    }
}

// Writes a segment with its acknowledgements and its part of a user's message.
fn write_segment<W: Write>(f: &mut Formatter<W>, segment: &Segment<'_>) -> fmt::Result {
    let number = segment.number;
    write!(f, "segment {number}")?;
    write_of_link(f, "", segment.srcaddr, segment.dstaddr)?;
    write_acks(f, &segment.acks)?;
    let piece = piece_words(segment.begins, segment.ends);
    let bytes = ByteCount {
        count: segment.body.len(),
    };
    write!(f, ", {piece}, {bytes}")
}

fn write_link_service<W: Write>(f: &mut Formatter<W>, message: &LinkService<'_>) -> fmt::Result {
    let name = service_name(message.interrupt);
    write_of_link(f, name, message.srcaddr, message.dstaddr)?;
    write_unread(f, message.rest)
}

fn service_name(interrupt: bool) -> &'static str {
    if interrupt {
        return "interrupt";
    }
    "link service"
}

fn write_data_ack<W: Write>(f: &mut Formatter<W>, message: &DataAck) -> fmt::Result {
    write_of_link(f, "data ack", message.srcaddr, message.dstaddr)?;
    write_acks(f, &message.acks)
}

fn write_other_data_ack<W: Write>(f: &mut Formatter<W>, message: &OtherDataAck<'_>) -> fmt::Result {
    write_of_link(f, "other-data ack", message.srcaddr, message.dstaddr)?;
    write_unread(f, message.rest)
}

fn write_connect_initiate<W: Write>(
    f: &mut Formatter<W>,
    message: &ConnectInitiate<'_>,
) -> fmt::Result {
    write_call_of(f, message.srcaddr, message.retransmitted)?;
    write_connect_rest(f, message)
}

fn write_call_of<W: Write>(f: &mut Formatter<W>, link: u16, is_again: bool) -> fmt::Result {
    let again = words_if(is_again, ", sent again");
    write!(f, "CI of link {link}{again}")
}

// What follows the addresses of a CI.
fn write_connect_rest<W: Write>(
    f: &mut Formatter<W>,
    message: &ConnectInitiate<'_>,
) -> fmt::Result {
    write_connect_fields(f, message.services, message.info, message.segsize)?;
    write_user_data(f, message.user_data)
}

fn write_connect_confirm<W: Write>(
    f: &mut Formatter<W>,
    message: &ConnectConfirm<'_>,
) -> fmt::Result {
    write_of_link(f, "CC", message.srcaddr, message.dstaddr)?;
    write_connect_fields(f, message.services, message.info, message.segsize)?;
    write_user_data(f, message.user_data)
}

// Writes SEGSIZE, SERVICES and INFO of a CI or a CC.
fn write_connect_fields<W: Write>(
    f: &mut Formatter<W>,
    services: u8,
    info: u8,
    segsize: u16,
) -> fmt::Result {
    write!(f, ", SEGSIZE {segsize}, services {services}, info {info}")
}

fn write_disconnect_initiate<W: Write>(
    f: &mut Formatter<W>,
    message: &DisconnectInitiate<'_>,
) -> fmt::Result {
    write_of_link(f, "DI", message.srcaddr, message.dstaddr)?;
    write!(f, ", reason {}", message.reason)?;
    write_user_data(f, message.user_data)
}

fn write_disconnect_confirm<W: Write>(
    f: &mut Formatter<W>,
    message: &DisconnectConfirm,
) -> fmt::Result {
    write_of_link(f, "DC", message.srcaddr, message.dstaddr)?;
    write!(f, ", reason {}", message.reason)
}

fn write_no_operation<W: Write>(f: &mut Formatter<W>, rest: &[u8]) -> fmt::Result {
    f.write_str("no operation")?;
    write_unread(f, rest)
}

// Writes the link of a message after its name, as `CC of link 1 -> 2`.
fn write_of_link<W: Write>(
    f: &mut Formatter<W>,
    name: &str,
    srcaddr: u16,
    dstaddr: u16,
) -> fmt::Result {
    write!(f, "{name} of link {srcaddr} -> {dstaddr}")
}

// Writes how many bytes follow the fields that are read.
fn write_unread<W: Write>(f: &mut Formatter<W>, rest: &[u8]) -> fmt::Result {
    let bytes = ByteCount { count: rest.len() };
    write!(f, ", {bytes}, not read further")
}

// Writes how many bytes of user data a message of connecting or disconnecting carries.
fn write_user_data<W: Write>(f: &mut Formatter<W>, bytes: &[u8]) -> fmt::Result {
    let count = ByteCount { count: bytes.len() };
    write!(f, ", {count} of user data")
}

// Which part of a user's message a segment is.
fn piece_words(begins: bool, ends: bool) -> &'static str {
    match (begins, ends) {
        (true, true) => "a whole message",
        (true, false) => "begins a message",
        (false, true) => "ends a message",
        (false, false) => "inside a message",
    }
}

/// Why bytes are no message of NSP.
pub fn nsp_fault_words(fault: NspFault) -> &'static str {
    match fault {
        NspFault::UnknownFlag => "no message of NSP: the flag byte of none",
        NspFault::MissingField => "no message of NSP: a field is missing or cut",
        NspFault::BadAckWord => "no message of NSP: a wrong acknowledgement word",
        NspFault::BadSegnum => "no message of NSP: a wrong segment number",
        NspFault::TrailingBytes => "no message of NSP: bytes after its end",
        NspFault::NonzeroDstaddr => "no message of NSP: DSTADDR of a CI is not 0",
    }
}
