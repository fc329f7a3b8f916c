//! A message, from what it says to the bytes of its unit.

ghost use Rattle.std.specs.Prelude.{◌≡◌, ◌+◌, ◌/◌, ◌%◌, ◌<◌, ◌≤◌, [], ◌∷◌, ◌++◌, length, IfOk, vec_capacity, vec_len};
ghost use Rattle.wire_base.specs.BlockCheck.{check_bytes};
ghost use Rattle.ddcmp_msg.specs.Message.{view, IsInRange};
ghost use Rattle.ddcmp_msg.specs.Spelling.{spelling, header, control, numbered, with_check};

use crate::layout::{ACK, ADDRESS, CHECK_LEN, ENQ, HEADER_LEN, NAK, REP, SOH, STACK, STRT};
use crate::{Flags, Message};
use arrayvec::ArrayVec;
use byteorder::{ByteOrder, LittleEndian};
use std::alloc::{AllocError, Global};
use wire_base::block_check;

// Six bytes of a header, and after them room for their check.
type Header = ArrayVec<u8, 8>;

/// The one unit of the message (DDCMP 4.1, message formats): its header and check, and of a data message the body and
/// its check. `in_range` tells whether the message has one. Takes the memory of the whole unit at once; `AllocError` is
/// answered where that was refused.
#[tactic(auto, unfolding(crate::specs::Spelling::spelling))]
pub fn write_unit(alloc: Global, message: &Message<'_>) -> Result<Vec<u8>, AllocError>
    requires { IsInRange (view message.now) }
    ensures { IfOk result (λ v. v.items ≡ spelling (view message.now)) }
{
    let header = checked_header(message);
    match message {
        Message::Data { body, .. } => {
            let mut unit = Vec::with_capacity(alloc, HEADER_LEN + body.len() + CHECK_LEN)?;
            append(&mut unit, header.as_slice());
            append(&mut unit, body);
            append(&mut unit, &check_of(body));
            Ok(unit)
        }
        _ => Vec::from_slice(alloc, header.as_slice()),
    }
}

// Appends bytes for which there is room, and so takes no memory.
fn append(unit: &mut Vec<u8>, bytes: &[u8])
    requires { vec_len unit.old + length bytes.now ≤ vec_capacity unit.old }
    ensures items { unit.new.items ≡ unit.old.items ++ bytes.now }
    ensures len { vec_len unit.new ≡ vec_len unit.old + length bytes.now }
    ensures room { vec_capacity unit.old ≤ vec_capacity unit.new }
{
    let Ok(()) = unit.extend_from_slice(bytes) else {
        unreachable!()
    };
}

// The header of a message and its check.
fn checked_header(message: &Message<'_>) -> Header
    requires { IsInRange (view message.now) }
    ensures { result.items ≡ with_check (header (view message.now)) }
{
    let mut header = header_of(message);
    let [low, high] = check_of(header.as_slice());
    header.push(low);
    header.push(high);
    header
}

// The first six bytes of a message.
fn header_of(message: &Message<'_>) -> Header
    requires { IsInRange (view message.now) }
    ensures bytes { result.items ≡ header (view message.now) }
    ensures six { length result.items ≡ 6 }
{
    match *message {
        Message::Data {
            flags,
            resp,
            num,
            body,
        } => numbered(body.len(), flags, resp, num),
        Message::Ack { flags, resp } => control(ACK, 0, flags, resp, 0),
        Message::Nak {
            flags,
            reason,
            resp,
        } => control(NAK, reason.number(), flags, resp, 0),
        Message::Rep { flags, num } => control(REP, 0, flags, 0, num),
        Message::Strt { flags } => control(STRT, 0, flags, 0, 0),
        Message::Stack { flags } => control(STACK, 0, flags, 0, 0),
    }
}

// The first six bytes of a control message.
fn control(kind: u8, subtype: u8, flags: Flags, receiver: u8, sender: u8) -> Header
    requires { subtype < 64 }
    ensures { result.items ≡ control kind subtype flags receiver sender }
{
    let mut header = Header::new();
    header.push(ENQ);
    header.push(kind);
    header.push(subtype + flags.byte());
    header.push(receiver);
    header.push(sender);
    header.push(ADDRESS);
    header
}

// The first six bytes of a data message.
fn numbered(count: usize, flags: Flags, resp: u8, num: u8) -> Header
    requires { count < 16384 }
    ensures { result.items ≡ numbered count flags resp num }
{
    let [low, high] = bytes_of(count as u16);
    let mut header = Header::new();
    header.push(SOH);
    header.push(low);
    header.push(high + flags.byte());
    header.push(resp);
    header.push(num);
    header.push(ADDRESS);
    header
}

// The two bytes of a field's check, as they are sent.
fn check_of(field: &[u8]) -> [u8; 2]
    ensures { result ≡ check_bytes field.now }
{
    bytes_of(block_check(field))
}

// A word, low byte first.
fn bytes_of(word: u16) -> [u8; 2]
    ensures { result ≡ (word % 256) ∷ (word / 256) ∷ [] }
{
    let mut bytes = [0; 2];
    LittleEndian::write_u16(&mut bytes, word);
    bytes
}
