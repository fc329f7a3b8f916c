//! Writing an NSP message.

ghost use Rattle.std.specs.Prelude.{◌≡◌, ◌<◌, IfOk, Ok};
ghost use Rattle.dna_packet.specs.Nsp.{view, nsp_bytes, segment_flag, segnum, IsInRange, Spells};
ghost use Rattle.dna_packet.specs.ReadingNsp.{nsp_at};
ghost use Rattle.dna_packet.specs.declared.nsp.Nsp.TheVariants as rust;

use crate::header::{addressed, flagged, joined, put_acks, put_connect_fields, put_word};
use crate::nsp::{
    ConnectAck, ConnectConfirm, ConnectInitiate, DataAck, DisconnectConfirm, DisconnectInitiate,
    LinkService, NoOperation, Nsp, OtherDataAck, Segment,
};
use std::alloc::{AllocError, Global};

/// The flag byte of a segment: bit 5 where it begins a message, bit 6 where it ends one.
fn flag_of(begins: bool, ends: bool) -> u8
    ensures { result ≡ segment_flag begins ends }
{
    match (begins, ends) {
        (false, false) => 0x00,
        (true, false) => 0x20,
        (false, true) => 0x40,
        (true, true) => 0x60,
    }
}

/// SEGNUM: the number in bits 0 to 11, and bit 12.
fn segnum_of(number: u16, bit_12: bool) -> u16
    requires { number < 0x1000 }
    ensures { result ≡ segnum number bit_12 }
{
    if bit_12 { 0x1000 + number } else { number }
}

fn segment(alloc: Global, message: &Segment<'_>) -> Result<Vec<u8>, AllocError>
    requires { IsInRange (view (rust.DataSegment message.now)) }
    ensures { IfOk result (Spells (view (rust.DataSegment message.now))) }
{
    let mut header = addressed(
        flag_of(message.begins, message.ends),
        message.dstaddr,
        message.srcaddr,
    );
    put_acks(&mut header, &message.acks);
    put_word(&mut header, segnum_of(message.number, message.bit_12));
    joined(alloc, &header, message.body)
}

fn link_service(alloc: Global, message: &LinkService<'_>) -> Result<Vec<u8>, AllocError>
    ensures { IfOk result (Spells (view (rust.LinkService message.now))) }
{
    let flag = if message.interrupt { 0x30 } else { 0x10 };
    let header = addressed(flag, message.dstaddr, message.srcaddr);
    joined(alloc, &header, message.rest)
}

fn data_ack(alloc: Global, message: &DataAck) -> Result<Vec<u8>, AllocError>
    requires { IsInRange (view (rust.DataAck message.now)) }
    ensures { IfOk result (Spells (view (rust.DataAck message.now))) }
{
    let mut header = addressed(0x04, message.dstaddr, message.srcaddr);
    put_acks(&mut header, &message.acks);
    Vec::from_slice(alloc, &header)
}

fn other_data_ack(alloc: Global, message: &OtherDataAck<'_>) -> Result<Vec<u8>, AllocError>
    ensures { IfOk result (Spells (view (rust.OtherDataAck message.now))) }
{
    let header = addressed(0x14, message.dstaddr, message.srcaddr);
    joined(alloc, &header, message.rest)
}

fn connect_ack(alloc: Global, message: &ConnectAck) -> Result<Vec<u8>, AllocError>
    ensures { IfOk result (Spells (view (rust.ConnectAck message.now))) }
{
    let mut header = flagged(0x24);
    put_word(&mut header, message.dstaddr);
    Vec::from_slice(alloc, &header)
}

fn no_operation(alloc: Global, message: &NoOperation<'_>) -> Result<Vec<u8>, AllocError>
    ensures { IfOk result (Spells (view (rust.NoOperation message.now))) }
{
    joined(alloc, &flagged(0x08), message.rest)
}

fn connect_initiate(alloc: Global, message: &ConnectInitiate<'_>) -> Result<Vec<u8>, AllocError>
    ensures { IfOk result (Spells (view (rust.ConnectInitiate message.now))) }
{
    let flag = if message.retransmitted { 0x68 } else { 0x18 };
    let mut header = addressed(flag, 0, message.srcaddr);
    put_connect_fields(&mut header, message.services, message.info, message.segsize);
    joined(alloc, &header, message.user_data)
}

fn connect_confirm(alloc: Global, message: &ConnectConfirm<'_>) -> Result<Vec<u8>, AllocError>
    ensures { IfOk result (Spells (view (rust.ConnectConfirm message.now))) }
{
    let mut header = addressed(0x28, message.dstaddr, message.srcaddr);
    put_connect_fields(&mut header, message.services, message.info, message.segsize);
    joined(alloc, &header, message.user_data)
}

fn disconnect_initiate(
    alloc: Global,
    message: &DisconnectInitiate<'_>,
) -> Result<Vec<u8>, AllocError>
    ensures { IfOk result (Spells (view (rust.DisconnectInitiate message.now))) }
{
    let mut header = addressed(0x38, message.dstaddr, message.srcaddr);
    put_word(&mut header, message.reason);
    joined(alloc, &header, message.user_data)
}

fn disconnect_confirm(alloc: Global, message: &DisconnectConfirm) -> Result<Vec<u8>, AllocError>
    ensures { IfOk result (Spells (view (rust.DisconnectConfirm message.now))) }
{
    let mut header = addressed(0x48, message.dstaddr, message.srcaddr);
    put_word(&mut header, message.reason);
    Vec::from_slice(alloc, &header)
}

/// The bytes of a message, which must be in range ([`Nsp::in_range`]); an error where memory is refused.
pub fn write_nsp(alloc: Global, message: &Nsp<'_>) -> Result<Vec<u8>, AllocError>
    requires { IsInRange (view message.now) }
    ensures spelled { IfOk result (λ v. v.items ≡ nsp_bytes (view message.now)) }
    // What is written is read back as the same message.
    ensures read { IfOk result (λ v. nsp_at v.items ≡ Ok (view message.now)) }
{
    match message {
        Nsp::DataSegment(message) => segment(alloc, message),
        Nsp::LinkService(message) => link_service(alloc, message),
        Nsp::DataAck(message) => data_ack(alloc, message),
        Nsp::OtherDataAck(message) => other_data_ack(alloc, message),
        Nsp::ConnectAck(message) => connect_ack(alloc, message),
        Nsp::NoOperation(message) => no_operation(alloc, message),
        Nsp::ConnectInitiate(message) => connect_initiate(alloc, message),
        Nsp::ConnectConfirm(message) => connect_confirm(alloc, message),
        Nsp::DisconnectInitiate(message) => disconnect_initiate(alloc, message),
        Nsp::DisconnectConfirm(message) => disconnect_confirm(alloc, message),
    }
}
