//! Messages that come between wrong nodes to links that are judged. Those would refuse them (16), but in the texts that are made no link meets those
//! of links that are left out, and where the heads do not fit all go between the same nodes.

ghost use Rattle.std.specs.Prelude.{◌≡◌};
ghost use Rattle.ddcmp_msg.specs.Reading.{reading};
ghost use Rattle.dna_packet.specs.ReadingPacket.{packet_at};
ghost use Rattle.capture_record.specs.Entries.{record_with};
ghost use Rattle.capture.specs.Faulty.{CountsReads, is_failed_read};
ghost use Rattle.wire_base.specs.Tally.{tally_faults, tally_lent};
ghost use Rattle.leaving_out.specs.Messages.{message_in_unit, packet_of};
ghost use Rattle.leaving_out.specs.Texts.{FindsWrongNode};
ghost use Rattle.leaving_out.specs.WrongNodes as spec;

use crate::leaving::{Head, Leaving};
use crate::message::{ends_of, message_in_unit};
use crate::naming::at_receiver;
use capture::{CaptureFault, CaptureReader};
use capture_record::{Entry, Fate};
use ddcmp_msg::{Message, Reading, read_unit};
use dna_packet::{Packet, read_packet};
use std::alloc::Global;
use std::io::Read;
use wire_base::{Side, Tally};

/// The place of the first record of this side's text, among the first `made`, that keeps a message for a link that is judged, between other nodes
/// than those of the head; the first record is at place 0. None where no such record keeps one, as far as the text can
/// be read.
///
/// `Departs` names no line but the head's; `Read` and `OutOfMemory` are those of the reader.
pub fn wrong_node_at<R: Read>(
    alloc: Global,
    side: Side,
    leaving: &Leaving<'_>,
    made: u64,
    reader: &mut Tally<R>,
) -> Result<Option<u64>, CaptureFault>
    ensures place { FindsWrongNode leaving.now side made (R.remaining (tally_lent reader.old)) result }
    ensures reads { CountsReads (is_failed_read result) (tally_faults reader.old) (tally_faults reader.new) }
{
    let mut capture = CaptureReader::open(alloc, reader)?;
    for place in 0..made {
        match capture.advance(reader) {
            Ok(Some(entry)) => {
                if is_wrong_node(leaving, side, entry, capture.bytes()) {
                    return Ok(Some(place));
                }
            }
            Ok(None) => return Ok(None),
            Err(CaptureFault::Departs { .. }) => return Ok(None),
            Err(fault) => return Err(fault),
        }
    }
    Ok(None)
}

// Whether this side's record of an entry and these bytes keeps such a message.
fn is_wrong_node(leaving: &Leaving<'_>, side: Side, entry: Entry, bytes: &[u8]) -> bool
    ensures { result ≡ spec.is_wrong_node leaving.now side (record_with entry bytes.now) }
{
    match entry {
        Entry::Received {
            fate: Fate::Kept,
            ..
        } => {
            if is_for_judged(leaving, side.other(), bytes) {
                return !comes_to(leaving.head(side), bytes);
            }
            false
        }
        _ => false,
    }
}

// Whether the message in a unit that this side sent is for a link that is judged.
fn is_for_judged(leaving: &Leaving<'_>, sender: Side, unit: &[u8]) -> bool
    ensures { result ≡ spec.is_for_judged leaving.now sender (message_in_unit unit.now) }
{
    let Some(message) = message_in_unit(unit) else {
        return false;
    };
    !leaving.has(at_receiver(sender, ends_of(&message)))
}

// Whether the packet in a unit goes from the peer of this head to its own node.
fn comes_to(head: Head, unit: &[u8]) -> bool
    ensures { result ≡ spec.comes_to head (packet_of (reading unit.now)) }
{
    match read_unit(unit) {
        Reading::Sound(Message::Data { body, .. }) => goes_to(head, body),
        _ => false,
    }
}

fn goes_to(head: Head, packet: &[u8]) -> bool
    ensures { result ≡ spec.goes_to head (packet_at packet.now) }
{
    match read_packet(packet) {
        Ok(Packet::Data { dst, src, .. }) => {
            if src != head.peer {
                return false;
            }
            dst == head.own
        }
        Ok(Packet::Control(_)) => false,
        Err(_) => false,
    }
}
