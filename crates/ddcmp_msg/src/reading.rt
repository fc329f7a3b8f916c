//! A unit, from its bytes to what they say.

ghost use Rattle.std.specs.Prelude.{◌≡◌, ◌≢◌, ◌↔◌, ◌<◌, ◌≤◌, ℕ, List, length, slice_index};
ghost use Rattle.std.specs.Borrow.{Bor};
ghost use Rattle.ddcmp_msg.specs.Message.{MessageValue, view, reason_of};
ghost use Rattle.ddcmp_msg.specs.Spelling.{SOH, IsUnit};
ghost use Rattle.ddcmp_msg.specs.ReadingRule.{IsReading};
ghost use Rattle.ddcmp_msg.specs.Reading.{Sound, IsSound, reading_view, BodyLiesIn, LiesIn, count_of, data_reading, control_reading, nak_reading};
ghost use Rattle.ddcmp_msg.specs.Reading.{plain_reading, if_zero, if_address, reading};

use crate::layout::{ACK, ADDRESS, CHECK_LEN, DLE, ENQ, HEADER_LEN, NAK, REP, SOH, STACK, STRT};
use crate::{Departure, Flags, Message, NakReason};
use byteorder::{ByteOrder, LittleEndian};
use wire_base::checks;

/// What the bytes of a unit say.
#[derive(Clone, Copy, Debug, PartialEq, Eq)]
pub enum Reading<'a> {
    /// The unit is the message's.
    Sound(Message<'a>),
    /// There are fewer than eight bytes, or the header's block check is wrong.
    HeaderBad,
    /// The header of a data message is good, and its data and their block check are cut or wrong.
    DataBad,
    /// All block checks are good that are there to be tested, and the unit departs from the formats.
    Malformed(Departure),
}

/// What one unit says, as the framer gave it (DDCMP 4.1, message formats), by the first of these that holds:
///
/// 1. `HeaderBad`: it has fewer than eight bytes, or the block check of its first eight is wrong.
/// 2. `Malformed`: the first byte is DLE (a maintenance message), or none of SOH, ENQ and DLE.
/// 3. After SOH: COUNT is 0 (`Malformed`); the data and their check are cut, or the check is wrong (`DataBad`); bytes
///    follow, or the address is not 1 (`Malformed`).
/// 4. After ENQ, all `Malformed`: bytes follow; no message has the TYPE and SUBTYPE; a byte that has to be 0 is not, or
///    the address is not 1.
/// 5. `Sound`: the bytes are the one unit of the message.
///
/// The body of a data message is the slice of `bytes` between the header and the second check. Takes no memory.
///
/// So `05 06 c0 00 00 01 75 95` is a sound STRT; with one more byte it is malformed by its length; no bytes at all are
/// `HeaderBad`.
pub fn read_unit(bytes: &[u8]) -> Reading<'_>
    ensures value { reading_view result ≡ reading bytes.now }
    ensures rule { IsReading (reading_view result) bytes.now }
    ensures sound { (message : MessageValue)
        → (reading_view result ≡ Sound message) ↔ IsUnit message bytes.now }
    ensures body { LiesIn result bytes.entry }
{
    reading_of(bytes)
}

/// The message of a unit that is known to be sound, as a unit is whose bytes are those of one that was read. No check is
/// computed again. Takes no memory.
#[inline(always)]
pub fn read_sound(bytes: &[u8]) -> Message<'_>
    requires { IsSound (reading bytes.now) }
    ensures value { reading bytes.now ≡ Sound (view result) }
    ensures body { BodyLiesIn result bytes.entry }
{
    if bytes[0] == SOH {
        return Message::Data {
            flags: Flags::from_byte(bytes[2]),
            resp: bytes[3],
            num: bytes[4],
            body: &bytes[HEADER_LEN..bytes.len() - CHECK_LEN],
        };
    }
    if bytes[1] == ACK {
        return Message::Ack {
            flags: Flags::from_byte(bytes[2]),
            resp: bytes[3],
        };
    }
    read_sound_control(bytes)
}

// The same of a control message. Most of them are ACKs, and are read without it.
#[inline(never)]
fn read_sound_control(bytes: &[u8]) -> Message<'_>
    requires sound { IsSound (reading bytes.now) }
    requires control { slice_index bytes.now 0 ≢ SOH }
    ensures value { reading bytes.now ≡ Sound (view result) }
    ensures body { BodyLiesIn result bytes.entry }
{
    match read_control(bytes) {
        Reading::Sound(message) => message,
        _ => unreachable!(),
    }
}

// The reading, test by test. That it follows the rule is shown once, for the whole of it, in `read_unit`.
#[tactic(auto, unfolding(crate::specs::Reading::reading))]
fn reading_of(bytes: &[u8]) -> Reading<'_>
    ensures value { reading_view result ≡ reading bytes.now }
    ensures body { LiesIn result bytes.entry }
{
    if bytes.len() < HEADER_LEN {
        return Reading::HeaderBad;
    }
    if !checks(&bytes[..HEADER_LEN]) {
        return Reading::HeaderBad;
    }
    match bytes[0] {
        SOH => read_data(bytes),
        ENQ => read_control(bytes),
        DLE => Reading::Malformed(Departure::Maintenance),
        _ => Reading::Malformed(Departure::UnknownStart),
    }
}

// A data message whose header is good.
fn read_data(bytes: &[u8]) -> Reading<'_>
    requires { 8 ≤ length bytes.now }
    ensures value { reading_view result ≡ data_reading bytes.now }
    ensures body { LiesIn result bytes.entry }
{
    let count = count(bytes);
    if count == 0 {
        return Reading::Malformed(Departure::WrongLength);
    }
    let end = HEADER_LEN + count + CHECK_LEN;
    if bytes.len() < end {
        return Reading::DataBad;
    }
    if !checks(&bytes[HEADER_LEN..end]) {
        return Reading::DataBad;
    }
    if bytes.len() > end {
        return Reading::Malformed(Departure::WrongLength);
    }
    let message = Message::Data {
        flags: Flags::from_byte(bytes[2]),
        resp: bytes[3],
        num: bytes[4],
        body: &bytes[HEADER_LEN..HEADER_LEN + count],
    };
    if_address(bytes[5], message)
}

// COUNT: bytes 1 and 2 of a header without the flags.
fn count(bytes: &[u8]) -> usize
    requires { 8 ≤ length bytes.now }
    ensures value { result ≡ count_of bytes.now }
    ensures small { result < 16384 }
{
    usize::from(LittleEndian::read_u16(&bytes[1..3]) & 0x3fff)
}

// A control message whose header is good.
#[inline(always)]
fn read_control(bytes: &[u8]) -> Reading<'_>
    requires { 8 ≤ length bytes.now }
    ensures value { reading_view result ≡ control_reading bytes.now }
    ensures body { LiesIn result bytes.entry }
{
    if bytes.len() > HEADER_LEN {
        return Reading::Malformed(Departure::WrongLength);
    }
    match (bytes[1], bytes[2] & 0x3f) {
        (NAK, subtype) => read_nak(subtype, bytes),
        (kind, 0) => read_plain(kind, bytes),
        _ => Reading::Malformed(Departure::UnknownType),
    }
}

// A NAK, whose SUBTYPE is its reason.
#[inline(always)]
fn read_nak(subtype: u8, bytes: &[u8]) -> Reading<'_>
    requires { 8 ≤ length bytes.now }
    ensures value { reading_view result ≡ nak_reading (reason_of subtype) bytes.now }
    ensures body { LiesIn result bytes.entry }
{
    let Some(reason) = NakReason::from_number(subtype) else {
        return Reading::Malformed(Departure::UnknownType);
    };
    let nak = Message::Nak {
        flags: Flags::from_byte(bytes[2]),
        reason,
        resp: bytes[3],
    };
    if_zero(bytes[4], if_address(bytes[5], nak))
}

// A control message of SUBTYPE 0, by its TYPE.
#[inline(always)]
fn read_plain(kind: u8, bytes: &[u8]) -> Reading<'_>
    requires { 8 ≤ length bytes.now }
    ensures value { reading_view result ≡ plain_reading kind bytes.now }
    ensures body { LiesIn result bytes.entry }
{
    let flags = Flags::from_byte(bytes[2]);
    let (resp, num, address) = (bytes[3], bytes[4], bytes[5]);
    match kind {
        ACK => if_zero(num, if_address(address, Message::Ack { flags, resp })),
        REP => if_zero(resp, if_address(address, Message::Rep { flags, num })),
        STRT => {
            let strt = if_address(address, Message::Strt { flags });
            if_zero(resp, if_zero(num, strt))
        }
        STACK => {
            let stack = if_address(address, Message::Stack { flags });
            if_zero(resp, if_zero(num, stack))
        }
        _ => Reading::Malformed(Departure::UnknownType),
    }
}

// A byte that the format gives as 0.
#[inline(always)]
fn if_zero(byte: u8, reading: Reading<'_>) -> Reading<'_>
    ensures value { reading_view result ≡ if_zero byte (reading_view reading.entry) }
    ensures body { (unit : Bor (List ℕ)) → LiesIn reading.entry unit → LiesIn result unit }
{
    if byte == 0 {
        return reading;
    }
    Reading::Malformed(Departure::WrongField)
}

// The address, of which one value alone is right.
#[inline(always)]
fn if_address(address: u8, message: Message<'_>) -> Reading<'_>
    ensures value { reading_view result ≡ if_address address (view message.entry) }
    ensures body { (unit : Bor (List ℕ)) → LiesIn (Reading.Sound message.entry) unit → LiesIn result unit }
{
    if address == ADDRESS {
        return Reading::Sound(message);
    }
    Reading::Malformed(Departure::WrongField)
}
