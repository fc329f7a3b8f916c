//! Captures whose heads do not fit each other, as ones whose heads do: so that what one end sends of a link that is left out still acts at the other.

ghost use Rattle.std.specs.Prelude.{◌≡◌, ◌++◌, if◌then◌else◌, IfOk, OnOk};
ghost use Rattle.capture_record.specs.Entries.{record_with};
ghost use Rattle.capture.specs.Faulty.{CountsReads, is_failed_read};
ghost use Rattle.capture_record.specs.Range.{IsRecord};
ghost use Rattle.capture.specs.Text.{record_line};
ghost use Rattle.capture.specs.declared.hint.HintForm.TheVariants.{Wide};
ghost use Rattle.dna_packet.specs.ReadingNsp.{nsp_at};
ghost use Rattle.leaving_out.specs.Fitted as spec;
ghost use Rattle.leaving_out.specs.Packets.{IsShortFormat, or_same};
ghost use Rattle.wire_base.specs.Tally.{tally_faults, tally_lent};

use crate::leaving::{Head, Leaving};
use crate::message::ends_of;
use crate::naming::at_sender;
use crate::packet_left::Route;
use crate::record_left::put_changed;
use crate::text_left::put_departure;
use capture::{CaptureFault, CaptureReader, Format, MAX_RECORDS, put_head_line, put_line};
use capture_record::Entry;
use ddcmp_msg::{Message, Reading, read_unit, write_unit};
use dna_packet::{Packet, read_nsp, read_packet, write_packet};
use std::alloc::{AllocError, Global};
use std::io::Read;
use wire_base::{Side, Tally};

/// Whether both heads fit each other, as those of a pair do. Takes no memory.
pub fn heads_fit(leaving: &Leaving<'_>) -> bool
    ensures { result ≡ spec.heads_fit leaving.now }
{
    if leaving.head_of_b.peer != leaving.head_of_a.own {
        return false;
    }
    leaving.head_of_b.own == leaving.head_of_a.peer
}

/// The head of this side's capture in the texts that [`fitted`] makes: that of the `kept` side stays. Takes no memory.
pub fn head_fitted(leaving: &Leaving<'_>, kept: Side, side: Side) -> Head
    ensures { result ≡ spec.head_fitted leaving.now kept side }
{
    match (kept, side) {
        (Side::A, Side::A) => leaving.head_of_a,
        (Side::A, Side::B) => reversed(leaving.head_of_a),
        (Side::B, Side::A) => reversed(leaving.head_of_b),
        (Side::B, Side::B) => leaving.head_of_b,
    }
}

// A head, seen from the other end.
fn reversed(head: Head) -> Head
    ensures { result ≡ spec.reversed head }
{
    Head {
        own: head.peer,
        peer: head.own,
    }
}

/// The text of format 3, in memory, in which both heads are that of the `kept` side, and all that is right goes between its nodes: a packet of a
/// message that is judged at its sender, where it goes from the node of the sender's head to its peer; and one of any other message, where it goes so
/// by the receiver's head. No other packet becomes one that does. That the receiver of a judged message refuses its nodes is not seen any more: such
/// a record is found in the captures themselves ([`wrong_node_at`](crate::wrong_node_at)).
///
/// All else stays as it is, and what departs from the format and each fault are as for [`left_out`](crate::left_out).
pub fn fitted<R: Read>(
    alloc: Global,
    kept: Side,
    side: Side,
    leaving: &Leaving<'_>,
    reader: &mut Tally<R>,
) -> Result<Vec<u8>, CaptureFault>
    ensures text { spec.Fits leaving.now kept side (R.remaining (tally_lent reader.old)) result }
    ensures reads { CountsReads (is_failed_read result) (tally_faults reader.old) (tally_faults reader.new) }
{
    let mut capture = CaptureReader::open(alloc, reader)?;
    let mut text = Vec::new(alloc);
    let head = head_fitted(leaving, kept, side);
    let Ok(()) = put_head_line(&mut text, Format::Three, head.own, head.peer) else {
        return Err(CaptureFault::OutOfMemory);
    };
    for _ in 0..MAX_RECORDS + 1 {
        match capture.advance(reader) {
            Ok(Some(entry)) => {
                let put = put_fitted(
                    alloc,
                    &mut text,
                    leaving,
                    kept,
                    side,
                    entry,
                    capture.bytes(),
                );
                let Ok(()) = put else {
                    return Err(CaptureFault::OutOfMemory);
                };
            }
            Ok(None) => return Ok(text),
            Err(CaptureFault::Departs { kind, line: _ }) => {
                let Ok(()) = put_departure(alloc, &mut text, kind) else {
                    return Err(CaptureFault::OutOfMemory);
                };
                return Ok(text);
            }
            Err(fault) => return Err(fault),
        }
    }
    unreachable!()
}

// Puts the line of what becomes of a record at the end of a text.
fn put_fitted(
    alloc: Global,
    text: &mut Vec<u8>,
    leaving: &Leaving<'_>,
    kept: Side,
    side: Side,
    entry: Entry,
    bytes: &[u8],
) -> Result<(), AllocError>
    requires { IsRecord (record_with entry bytes.now) }
    ensures { OnOk result (
        text.new.items ≡ text.old.items ++ record_line Wide (spec.record_fitted leaving.now kept side (record_with entry bytes.now))) }
{
    match entry {
        Entry::Sent => {
            let made = unit_fitted(alloc, leaving, kept, side, bytes)?;
            put_changed(text, entry, made, bytes)
        }
        Entry::Received { .. } => {
            let made = unit_fitted(alloc, leaving, kept, side.other(), bytes)?;
            put_changed(text, entry, made, bytes)
        }
        Entry::Composed => {
            let made = packet_fitted(alloc, leaving, kept, side, bytes)?;
            put_changed(text, entry, made, bytes)
        }
        Entry::Noise => put_line(text, entry, bytes),
        Entry::In { .. } | Entry::Up { .. } => put_line(text, entry, bytes),
        Entry::Interrupt { .. } | Entry::Interrupted { .. } => put_line(text, entry, bytes),
        Entry::Start | Entry::Halt | Entry::Boot => put_line(text, entry, &[]),
        Entry::Open { .. } | Entry::Close { .. } | Entry::Abort { .. } => {
            put_line(text, entry, &[])
        }
        Entry::Accept { .. } | Entry::Reject { .. } => put_line(text, entry, &[]),
    }
}

// What becomes of a unit that this side sent, where it becomes another.
fn unit_fitted(
    alloc: Global,
    leaving: &Leaving<'_>,
    kept: Side,
    sender: Side,
    unit: &[u8],
) -> Result<Option<Vec<u8>>, AllocError>
    ensures { IfOk result (λ made. or_same unit.now made ≡ spec.unit_fitted leaving.now kept sender unit.now) }
{
    match read_unit(unit) {
        Reading::Sound(
            Message::Data {
                flags,
                resp,
                num,
                body,
            },
        ) => {
            let Some(made) = packet_fitted(alloc, leaving, kept, sender, body)? else {
                return Ok(None);
            };
            let message = Message::Data {
                flags,
                resp,
                num,
                body: &made,
            };
            Ok(Some(write_unit(alloc, &message)?))
        }
        _ => Ok(None),
    }
}

// What becomes of a packet that this side sent, where it becomes another.
fn packet_fitted(
    alloc: Global,
    leaving: &Leaving<'_>,
    kept: Side,
    sender: Side,
    packet: &[u8],
) -> Result<Option<Vec<u8>>, AllocError>
    ensures { IfOk result (λ made. or_same packet.now made ≡ spec.packet_fitted leaving.now kept sender packet.now) }
{
    let Ok(read) = read_packet(packet) else {
        return Ok(None);
    };
    if read.returned() {
        return Ok(None);
    }
    match read {
        Packet::Control(_) => Ok(None),
        Packet::Data {
            rtflg,
            dst,
            src,
            forward,
            nsp,
        } => {
            let route = Route {
                rtflg,
                dst,
                src,
                forward,
            };
            message_fitted(alloc, leaving, kept, sender, route, packet, nsp)
        }
    }
}

// What becomes of the packet with this header and message.
fn message_fitted(
    alloc: Global,
    leaving: &Leaving<'_>,
    kept: Side,
    sender: Side,
    route: Route,
    packet: &[u8],
    nsp: &[u8],
) -> Result<Option<Vec<u8>>, AllocError>
    requires { IsShortFormat route.rtflg }
    ensures { IfOk result (λ made. or_same packet.now made ≡ (if spec.is_moved leaving.now kept sender (nsp_at nsp.now)
        then spec.packet_on route (spec.route_fitted leaving.now sender route) nsp.now else packet.now)) }
{
    if !is_moved(leaving, kept, sender, nsp) {
        return Ok(None);
    }
    let made = route_fitted(leaving, sender, route);
    let moved = Packet::Data {
        rtflg: route.rtflg,
        dst: made.dst,
        src: made.src,
        forward: route.forward,
        nsp,
    };
    Ok(Some(write_packet(alloc, &moved)?))
}

// Whether the packet of this message goes between other nodes from now on.
fn is_moved(leaving: &Leaving<'_>, kept: Side, sender: Side, nsp: &[u8]) -> bool
    ensures { result ≡ spec.is_moved leaving.now kept sender (nsp_at nsp.now) }
{
    let Ok(message) = read_nsp(nsp) else {
        return false;
    };
    let is_left = leaving.has(at_sender(sender, ends_of(&message)));
    match (kept, sender) {
        (Side::A, Side::A) => is_left,
        (Side::A, Side::B) => !is_left,
        (Side::B, Side::A) => !is_left,
        (Side::B, Side::B) => is_left,
    }
}

// The routing header then.
fn route_fitted(leaving: &Leaving<'_>, sender: Side, route: Route) -> Route
    ensures { result ≡ spec.route_fitted leaving.now sender route }
{
    let own = leaving.head(sender);
    let seen = reversed(leaving.head(sender.other()));
    if goes_from(own, route) {
        return between(seen, route);
    }
    if goes_from(seen, route) {
        return between(own, route);
    }
    route
}

// Whether it goes from the node of this head to its peer.
fn goes_from(head: Head, route: Route) -> bool
    ensures { result ≡ spec.goes_from head route }
{
    if route.src != head.own {
        return false;
    }
    route.dst == head.peer
}

fn between(head: Head, route: Route) -> Route
    ensures { result ≡ spec.between head route }
{
    Route {
        rtflg: route.rtflg,
        dst: head.peer,
        src: head.own,
        forward: route.forward,
    }
}
