//! Reading an NSP message.

ghost use Rattle.std.specs.Prelude.{◌≡◌, IfOk, Ok};
ghost use Rattle.dna_packet.specs.Fields.{Gives, IsEndOf};
ghost use Rattle.dna_packet.specs.Nsp.{NspValue, view, nsp_bytes, IsNsp, PartsLieIn};
ghost use Rattle.dna_packet.specs.ReadingNsp.{addresses_at, no_more_at, zero_address_at, segnum_at, segment_at, link_service_at};
ghost use Rattle.dna_packet.specs.ReadingNsp.{other_data_ack_at, data_ack_at, connect_ack_at, connect_fields_at};
ghost use Rattle.dna_packet.specs.ReadingNsp.{connect_initiate_at, connect_confirm_at, disconnect_initiate_at};
ghost use Rattle.dna_packet.specs.ReadingNsp.{disconnect_confirm_at, message_at, nsp_at};

use crate::fault::NspFault;
use crate::fields;
use crate::nsp::{
    ConnectAck, ConnectConfirm, ConnectInitiate, DataAck, DisconnectConfirm, DisconnectInitiate,
    LinkService, NoOperation, Nsp, OtherDataAck, Segment,
};
use crate::reading_acks::{acks, data_acks};

/// DSTADDR and SRCADDR, and the bytes after them.
#[inline(always)]
fn addresses(bytes: &[u8]) -> Result<(u16, u16, &[u8]), NspFault>
    ensures read { Gives (λ x. (x.0, x.1, x.2.now)) result (addresses_at bytes.now) }
    ensures lies { IfOk result (λ x. IsEndOf bytes.entry x.2) }
{
    let (dstaddr, rest) = fields::word(bytes, NspFault::MissingField)?;
    let (srcaddr, rest) = fields::word(rest, NspFault::MissingField)?;
    Ok((dstaddr, srcaddr, rest))
}

/// SEGNUM: its number, and whether bit 12 is set.
#[inline(always)]
fn segnum(bytes: &[u8]) -> Result<(u16, bool, &[u8]), NspFault>
    ensures read { Gives (λ x. (x.0, x.1, x.2.now)) result (segnum_at bytes.now) }
    ensures lies { IfOk result (λ x. IsEndOf bytes.entry x.2) }
{
    let (word, rest) = fields::word(bytes, NspFault::MissingField)?;
    if word >= 0x2000 {
        return Err(NspFault::BadSegnum);
    }
    Ok((word & 0x0fff, word >= 0x1000, rest))
}

#[inline(always)]
fn segment(begins: bool, ends: bool, bytes: &[u8]) -> Result<Nsp<'_>, NspFault>
    ensures read { Gives view result (segment_at begins ends bytes.now) }
    ensures lies { IfOk result (PartsLieIn bytes.entry) }
{
    let (dstaddr, srcaddr, rest) = addresses(bytes)?;
    let (acks, rest) = acks(rest)?;
    let (number, bit_12, body) = segnum(rest)?;
    Ok(Nsp::DataSegment(Segment {
        begins,
        ends,
        dstaddr,
        srcaddr,
        acks,
        number,
        bit_12,
        body,
    }))
}

#[inline(always)]
fn link_service(interrupt: bool, bytes: &[u8]) -> Result<Nsp<'_>, NspFault>
    ensures read { Gives view result (link_service_at interrupt bytes.now) }
    ensures lies { IfOk result (PartsLieIn bytes.entry) }
{
    let (dstaddr, srcaddr, rest) = addresses(bytes)?;
    Ok(Nsp::LinkService(LinkService {
        interrupt,
        dstaddr,
        srcaddr,
        rest,
    }))
}

/// Whether no byte follows the end.
#[inline(always)]
fn ends(rest: &[u8]) -> Result<(), NspFault>
    ensures { Gives (λ _. tt) result (no_more_at rest.now) }
{
    match rest {
        [] => Ok(()),
        [_, ..] => Err(NspFault::TrailingBytes),
    }
}

#[inline(always)]
fn data_ack(bytes: &[u8]) -> Result<Nsp<'_>, NspFault>
    ensures read { Gives view result (data_ack_at bytes.now) }
    ensures lies { IfOk result (PartsLieIn bytes.entry) }
{
    let (dstaddr, srcaddr, rest) = addresses(bytes)?;
    let (acks, rest) = data_acks(rest)?;
    ends(rest)?;
    Ok(Nsp::DataAck(DataAck {
        dstaddr,
        srcaddr,
        acks,
    }))
}

#[inline(always)]
fn other_data_ack(bytes: &[u8]) -> Result<Nsp<'_>, NspFault>
    ensures read { Gives view result (other_data_ack_at bytes.now) }
    ensures lies { IfOk result (PartsLieIn bytes.entry) }
{
    let (dstaddr, srcaddr, rest) = addresses(bytes)?;
    Ok(Nsp::OtherDataAck(OtherDataAck {
        dstaddr,
        srcaddr,
        rest,
    }))
}

#[inline(always)]
fn connect_ack(bytes: &[u8]) -> Result<Nsp<'_>, NspFault>
    ensures read { Gives view result (connect_ack_at bytes.now) }
    ensures lies { IfOk result (PartsLieIn bytes.entry) }
{
    let (dstaddr, rest) = fields::word(bytes, NspFault::MissingField)?;
    ends(rest)?;
    Ok(Nsp::ConnectAck(ConnectAck { dstaddr }))
}

/// SERVICES, INFO and SEGSIZE, and the bytes after them.
#[inline(always)]
fn connect_fields(bytes: &[u8]) -> Result<(u8, u8, u16, &[u8]), NspFault>
    ensures read { Gives (λ x. (x.0, x.1, x.2, x.3.now)) result (connect_fields_at bytes.now) }
    ensures lies { IfOk result (λ x. IsEndOf bytes.entry x.3) }
{
    let (services, rest) = fields::byte(bytes, NspFault::MissingField)?;
    let (info, rest) = fields::byte(rest, NspFault::MissingField)?;
    let (segsize, rest) = fields::word(rest, NspFault::MissingField)?;
    Ok((services, info, segsize, rest))
}

/// The bytes after DSTADDR of a CI, which is 0.
#[inline(always)]
fn zero_address(bytes: &[u8]) -> Result<&[u8], NspFault>
    ensures read { Gives (λ x. x.now) result (zero_address_at bytes.now) }
    ensures lies { IfOk result (IsEndOf bytes.entry) }
{
    let (dstaddr, rest) = fields::word(bytes, NspFault::MissingField)?;
    if dstaddr != 0 {
        return Err(NspFault::NonzeroDstaddr);
    }
    Ok(rest)
}

#[inline(always)]
fn connect_initiate(retransmitted: bool, bytes: &[u8]) -> Result<Nsp<'_>, NspFault>
    ensures read { Gives view result (connect_initiate_at retransmitted bytes.now) }
    ensures lies { IfOk result (PartsLieIn bytes.entry) }
{
    let rest = zero_address(bytes)?;
    let (srcaddr, rest) = fields::word(rest, NspFault::MissingField)?;
    let (services, info, segsize, user_data) = connect_fields(rest)?;
    Ok(Nsp::ConnectInitiate(ConnectInitiate {
        retransmitted,
        srcaddr,
        services,
        info,
        segsize,
        user_data,
    }))
}

#[inline(always)]
fn connect_confirm(bytes: &[u8]) -> Result<Nsp<'_>, NspFault>
    ensures read { Gives view result (connect_confirm_at bytes.now) }
    ensures lies { IfOk result (PartsLieIn bytes.entry) }
{
    let (dstaddr, srcaddr, rest) = addresses(bytes)?;
    let (services, info, segsize, user_data) = connect_fields(rest)?;
    Ok(Nsp::ConnectConfirm(ConnectConfirm {
        dstaddr,
        srcaddr,
        services,
        info,
        segsize,
        user_data,
    }))
}

#[inline(always)]
fn disconnect_initiate(bytes: &[u8]) -> Result<Nsp<'_>, NspFault>
    ensures read { Gives view result (disconnect_initiate_at bytes.now) }
    ensures lies { IfOk result (PartsLieIn bytes.entry) }
{
    let (dstaddr, srcaddr, rest) = addresses(bytes)?;
    let (reason, user_data) = fields::word(rest, NspFault::MissingField)?;
    Ok(Nsp::DisconnectInitiate(DisconnectInitiate {
        dstaddr,
        srcaddr,
        reason,
        user_data,
    }))
}

#[inline(always)]
fn disconnect_confirm(bytes: &[u8]) -> Result<Nsp<'_>, NspFault>
    ensures read { Gives view result (disconnect_confirm_at bytes.now) }
    ensures lies { IfOk result (PartsLieIn bytes.entry) }
{
    let (dstaddr, srcaddr, rest) = addresses(bytes)?;
    let (reason, rest) = fields::word(rest, NspFault::MissingField)?;
    ends(rest)?;
    Ok(Nsp::DisconnectConfirm(DisconnectConfirm {
        dstaddr,
        srcaddr,
        reason,
    }))
}

/// The message after a flag byte.
#[inline(always)]
fn message(flag: u8, rest: &[u8]) -> Result<Nsp<'_>, NspFault>
    ensures read { Gives view result (message_at flag rest.now) }
    ensures lies { IfOk result (PartsLieIn rest.entry) }
{
    match flag {
        0x00 => segment(false, false, rest),
        0x20 => segment(true, false, rest),
        0x40 => segment(false, true, rest),
        0x60 => segment(true, true, rest),
        0x10 => link_service(false, rest),
        0x30 => link_service(true, rest),
        0x04 => data_ack(rest),
        0x14 => other_data_ack(rest),
        0x24 => connect_ack(rest),
        0x08 => Ok(Nsp::NoOperation(NoOperation { rest })),
        0x18 => connect_initiate(false, rest),
        0x68 => connect_initiate(true, rest),
        0x28 => connect_confirm(rest),
        0x38 => disconnect_initiate(rest),
        0x48 => disconnect_confirm(rest),
        _ => Err(NspFault::UnknownFlag),
    }
}

/// Reads an NSP message, all of the bytes, and takes no memory (NSP 4.0, message formats). The part of what it
/// answers is a slice of `bytes`.
///
/// Fields are read from left to right, and the first that is missing or wrong decides:
/// [`NspFault::UnknownFlag`] at the flag byte; [`NspFault::MissingField`] where a field is missing or cut;
/// [`NspFault::BadAckWord`], [`NspFault::BadSegnum`] and [`NspFault::NonzeroDstaddr`] at their fields;
/// [`NspFault::TrailingBytes`] after the last field of a message without a rest. In a data acknowledgement any
/// byte after the first word begins a second; in a segment a word with bit 15 set is an acknowledgement word,
/// at most twice.
///
/// `24 0200` acknowledges a CI to link 2; `24 0200 00` has a byte after its end; no bytes miss the flag byte.
pub fn read_nsp(bytes: &[u8]) -> Result<Nsp<'_>, NspFault>
    // What is read is a message, and these are its bytes.
    ensures found { IfOk result (λ m. IsNsp (view m) × (bytes.now ≡ nsp_bytes (view m))) }
    // What has these bytes is read.
    ensures only { (m : NspValue) → IsNsp m → bytes.now ≡ nsp_bytes m → Gives view result (Ok m) }
    // Which fault it is: the first departure from the left.
    ensures exact { Gives view result (nsp_at bytes.now) }
    // The part is a slice of the bytes.
    ensures lies { IfOk result (PartsLieIn bytes.entry) }
{
    match bytes {
        [flag, rest @ ..] => message(*flag, rest),
        [] => Err(NspFault::MissingField),
    }
}
