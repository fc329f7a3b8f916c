//! Which own addresses a text binds to each other.

ghost use Rattle.std.specs.Prelude.{◌≡◌, List};
ghost use Rattle.link_groups.specs.Groups.{AreGroupsOf, Binding as Bound};
ghost use Rattle.capture_record.specs.Entries.{record_with};
ghost use Rattle.wire_base.specs.Tally.{tally_faults, tally_lent};
ghost use Rattle.capture.specs.Faulty.{CountsReads, is_failed_read};
ghost use Rattle.leaving_out.specs.About as spec;
ghost use Rattle.leaving_out.specs.Messages.{message_in_unit};
ghost use Rattle.leaving_out.specs.Texts.{BindsAll};

use crate::message::message_in_unit;
use capture::{CaptureFault, CaptureReader, MAX_RECORDS};
use capture_record::Entry;
use dna_packet::Nsp;
use link_groups::{Groups, OwnAddress};
use std::alloc::Global;
use std::io::Read;
use wire_base::{Side, Tally};

// Two own addresses that belong together: those of one link's ends.
type Binding = (OwnAddress, OwnAddress);

/// The binding that this side's record of an entry and these bytes makes, if it makes one: accept and reject bind the link to the partner, and a CC
/// that was sent binds SRCADDR, which is of its sender, to DSTADDR, of the other side, where neither is 0. A connect ack to address 0 binds address 0
/// of both ends, and nothing else does in a text of a pair. One that came binds only where the text is the one of an end alone; there a CI or CC from
/// address 0 binds address 0 of both ends too. Takes no memory.
pub fn binding_of(side: Side, alone: bool, entry: Entry, bytes: &[u8]) -> Option<Binding>
    ensures { result ≡ spec.binding_of side alone (record_with entry bytes.now) }
{
    match entry {
        Entry::Accept { partner, link } | Entry::Reject { partner, link } => {
            Some(bound(side, link, partner))
        }
        Entry::Sent => answered_by(side, bytes),
        Entry::Received { .. } => {
            if alone {
                confirmed_by(side.other(), bytes)
            } else {
                None
            }
        }
        _ => None,
    }
}

// The own address of this side, and that of the other.
fn bound(side: Side, own: u16, far: u16) -> Binding
    ensures { result ≡ spec.bound side own far }
{
    let one = OwnAddress { side, address: own };
    let other = OwnAddress {
        side: side.other(),
        address: far,
    };
    (one, other)
}

// What the CC or the connect ack in a unit that this side sent binds, if there is one.
fn answered_by(sender: Side, unit: &[u8]) -> Option<Binding>
    ensures { result ≡ spec.answered sender (message_in_unit unit.now) }
{
    match message_in_unit(unit) {
        Some(Nsp::ConnectAck(m)) => {
            if m.dstaddr == 0 {
                Some(bound(sender, 0, 0))
            } else {
                None
            }
        }
        Some(Nsp::ConnectConfirm(m)) => {
            if m.srcaddr == 0 {
                return None;
            }
            if m.dstaddr == 0 {
                None
            } else {
                Some(bound(sender, m.srcaddr, m.dstaddr))
            }
        }
        _ => None,
    }
}

// What the CC or CI in a unit that came from this side binds, if there is one.
fn confirmed_by(sender: Side, unit: &[u8]) -> Option<Binding>
    ensures { result ≡ spec.confirmed sender (message_in_unit unit.now) }
{
    match message_in_unit(unit) {
        Some(Nsp::ConnectInitiate(m)) => {
            if m.srcaddr == 0 {
                Some(bound(sender, 0, 0))
            } else {
                None
            }
        }
        Some(Nsp::ConnectConfirm(m)) => {
            if m.srcaddr == 0 {
                return Some(bound(sender, 0, 0));
            }
            if m.dstaddr == 0 {
                None
            } else {
                Some(bound(sender, m.srcaddr, m.dstaddr))
            }
        }
        _ => None,
    }
}

/// Binds what a side's text binds, in the order of its records, as far as the text can be read; where it is `alone`, what came binds too. A text that
/// departs from its format is no fault. `Read` and `OutOfMemory` are those of the reader, and a part of it may be bound then.
pub fn bind_all<R: Read>(
    alloc: Global,
    side: Side,
    alone: bool,
    reader: &mut Tally<R>,
    groups: &mut Groups,
) -> Result<(), CaptureFault>
    ensures bindings { (bindings : List Bound) → AreGroupsOf bindings groups.old →
        BindsAll side alone (R.remaining (tally_lent reader.old)) bindings groups.new result }
    ensures reads { CountsReads (is_failed_read result) (tally_faults reader.old) (tally_faults reader.new) }
{
    let mut capture = match CaptureReader::open(alloc, reader) {
        Ok(capture) => capture,
        Err(CaptureFault::Departs { .. }) => return Ok(()),
        Err(fault) => return Err(fault),
    };
    for _ in 0..MAX_RECORDS + 1 {
        match capture.advance(reader) {
            Ok(Some(entry)) => {
                if let Some((one, other)) = binding_of(side, alone, entry, capture.bytes()) {
                    groups.bind(one, other);
                }
            }
            Ok(None) => return Ok(()),
            Err(CaptureFault::Departs { .. }) => return Ok(()),
            Err(fault) => return Err(fault),
        }
    }
    unreachable!()
}
