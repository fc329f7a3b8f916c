//! The first bytes of a record that are compared with those of its node, and the node's, as hexadecimal digits.

ghost use Rattle.std.specs.Prelude.{◌≡◌, IfOk, option_map, string_bytes};
ghost use Rattle.dna_packet.specs.Nsp as nsp;
ghost use Rattle.dna_packet.specs.ReadingNsp.{nsp_at};
ghost use Rattle.why.specs.Digits as spec;

use capture_record::Entry;
use dna_packet::{Nsp, read_nsp};
use pair_judge::SideEnd;
use record_words::layers::{message_in, message_in_unit};
use side_words::undetected::Differing;
use std::alloc::{AllocError, Global};

/// The digits of both, at most sixteen bytes of each; the short name of the unit that the record names, with a comma and a blank after it, or
/// nothing; and where the record's bytes have that name too, the first byte in which they differ.
#[derive(Clone, Copy)]
pub struct Fronts<'t> {
    pub seen: &'t str,
    pub due: &'t str,
    pub unit_name: &'t str,
    pub differs: Option<Differing>,
}

/// The digits of at most the first sixteen of these bytes. Fails for want of memory alone.
pub fn front_digits(alloc: Global, bytes: &[u8]) -> Result<String, AllocError>
    ensures { IfOk result (λ text. string_bytes text ≡ spec.front_digits bytes.now) }
{
    if bytes.len() <= FRONT {
        return hex::encode(alloc, bytes);
    }
    hex::encode(alloc, &bytes[..FRONT])
}

// How many bytes are told.
const FRONT: usize = 16;

/// The bytes of this record that are compared: what is said to be delivered, or what a segment carries; none of other records.
pub fn seen_bytes(entry: Entry, bytes: &[u8]) -> &[u8]
    ensures { result.now ≡ spec.seen_bytes entry bytes.now }
{
    match entry {
        Entry::Up { .. } => bytes,
        _ => match message_of(entry, bytes) {
            Some(message) => carried_in(message),
            None => &[],
        },
    }
}

// The message in a record of this entry and these bytes: they are a unit's, or those of a packet that is never sent.
fn message_of(entry: Entry, bytes: &[u8]) -> Option<&[u8]>
    ensures { option_map (λ message. message.now) result ≡ spec.message_by entry bytes.now }
{
    match entry {
        Entry::Composed => message_in(bytes),
        _ => message_in_unit(bytes),
    }
}

/// The bytes of this end with which they are compared; none where there are none.
pub fn due_bytes<'e>(end: &'e SideEnd, entry: Entry, bytes: &[u8]) -> &'e [u8]
    ensures { result.now ≡ spec.due_bytes end.now.links entry bytes.now }
{
    match entry {
        Entry::Up { link } => match end.delivery_due(link) {
            Some(due) => due,
            None => &[],
        },
        _ => match message_of(entry, bytes) {
            Some(message) => due_for(end, message),
            None => &[],
        },
    }
}

// What a message carries as a segment.
fn carried_in(message: &[u8]) -> &[u8]
    ensures { result.now ≡ spec.carried_in (nsp_at message.now) }
{
    match &read_nsp(message) {
        Ok(message) => carried_by(message),
        Err(_) => &[],
    }
}

fn carried_by<'a>(message: &Nsp<'a>) -> &'a [u8]
    ensures { result.now ≡ spec.carried_by (nsp.view message.now) }
{
    match message {
        Nsp::DataSegment(segment) => segment.body,
        _ => &[],
    }
}

// With what that is compared.
fn due_for<'e>(end: &'e SideEnd, message: &[u8]) -> &'e [u8]
    ensures { result.now ≡ spec.due_for end.now.links (nsp_at message.now) }
{
    match &read_nsp(message) {
        Ok(message) => due_by(end, message),
        Err(_) => &[],
    }
}

fn due_by<'e>(end: &'e SideEnd, message: &Nsp) -> &'e [u8]
    requires { nsp.IsInRange (nsp.view message.now) }
    ensures { result.now ≡ spec.due_by end.now.links (nsp.view message.now) }
{
    match message {
        Nsp::DataSegment(segment) => match end.segment_due(segment) {
            Some(due) => due,
            None => &[],
        },
        _ => &[],
    }
}
