//! What becomes of a packet.

ghost use Rattle.std.specs.Prelude.{◌≡◌, IfOk};
ghost use Rattle.dna_packet.specs.Nsp.{view};
ghost use Rattle.dna_packet.specs.ReadingNsp.{nsp_at};
ghost use Rattle.dna_packet.specs.declared.nsp.Nsp.TheVariants as messages;
ghost use Rattle.leaving_out.specs.Packets as spec;
ghost use Rattle.leaving_out.specs.Packets.{IsShortFormat, or_same};

use crate::carried::{carried, unmet};
use crate::leaving::{Head, Leaving};
use crate::message::ends_of;
use crate::naming::{at_receiver, at_sender};
use dna_packet::{DisconnectConfirm, Nsp, Packet, read_nsp, read_packet, write_nsp, write_packet};
use std::alloc::{AllocError, Global};
use wire_base::Side;

/// The routing header of a short format data packet: its fields as [`Packet::Data`] has them.
#[derive(Clone, Copy)]
pub struct Route {
    pub rtflg: u8,
    pub dst: u16,
    pub src: u16,
    pub forward: u8,
}

/// What becomes of a packet that this side sent, where it becomes another: `None` says that it stays as it is.
pub(crate) fn packet_left(
    alloc: Global,
    leaving: &Leaving<'_>,
    sender: Side,
    packet: &[u8],
) -> Result<Option<Vec<u8>>, AllocError>
    ensures { IfOk result (λ left. or_same packet.now left ≡ spec.packet_left leaving.now sender packet.now) }
{
    let Ok(read) = read_packet(packet) else {
        return carried_if(alloc, leaving.unread_packets, packet);
    };
    if read.returned() {
        return Ok(None);
    }
    match read {
        Packet::Control(_) => Ok(None),
        Packet::Data {
            rtflg,
            dst,
            src,
            forward,
            nsp,
        } => {
            let route = Route {
                rtflg,
                dst,
                src,
                forward,
            };
            message_left(alloc, leaving, sender, route, packet, nsp)
        }
    }
}

// What becomes of the packet with this header and message.
fn message_left(
    alloc: Global,
    leaving: &Leaving<'_>,
    sender: Side,
    route: Route,
    packet: &[u8],
    nsp: &[u8],
) -> Result<Option<Vec<u8>>, AllocError>
    requires { IsShortFormat route.rtflg }
    ensures { IfOk result (λ left. or_same packet.now left ≡ spec.message_left leaving.now sender route packet.now (nsp_at nsp.now)) }
{
    let Ok(message) = read_nsp(nsp) else {
        return carried_if(alloc, leaving.unread_messages, packet);
    };
    let ends = ends_of(&message);
    if !leaving.has(at_sender(sender, ends)) {
        return Ok(None);
    }
    if leaving.has(at_receiver(sender, ends)) {
        return Ok(Some(unmet(alloc, packet)?));
    }
    link_left(alloc, leaving.head(sender), route, packet, &message)
}

// The packet as it is, or carried.
fn carried_if(alloc: Global, is_carried: bool, packet: &[u8]) -> Result<Option<Vec<u8>>, AllocError>
    ensures { IfOk result (λ left. or_same packet.now left ≡ spec.carried_if is_carried packet.now) }
{
    if is_carried {
        return Ok(Some(carried(alloc, packet)?));
    }
    Ok(None)
}

// What becomes of the packet of a message that is left out at its sender alone.
fn link_left(
    alloc: Global,
    head: Head,
    route: Route,
    packet: &[u8],
    message: &Nsp<'_>,
) -> Result<Option<Vec<u8>>, AllocError>
    requires { IsShortFormat route.rtflg }
    ensures { IfOk result (λ left. or_same packet.now left ≡ spec.link_left head route packet.now (view message.now)) }
{
    match message {
        Nsp::DisconnectInitiate(m) => {
            if names_both(head, route, m.dstaddr, m.srcaddr) {
                let confirm = DisconnectConfirm {
                    dstaddr: m.dstaddr,
                    srcaddr: m.srcaddr,
                    reason: m.reason,
                };
                return Ok(Some(confirmed(alloc, route, confirm)?));
            }
            Ok(Some(unmet(alloc, packet)?))
        }
        Nsp::DisconnectConfirm(m) => {
            if names_both(head, route, m.dstaddr, m.srcaddr) {
                return Ok(None);
            }
            Ok(Some(unmet(alloc, packet)?))
        }
        _ => Ok(Some(unmet(alloc, packet)?)),
    }
}

// Whether the message from a link to another names both, in a packet from the node of this head to its peer.
fn names_both(head: Head, route: Route, link_dst: u16, link_src: u16) -> bool
    ensures { result ≡ spec.names_both head route link_dst link_src }
{
    if route.src != head.own || route.dst != head.peer {
        return false;
    }
    link_dst != 0 && link_src != 0
}

// The packet of a DC.
fn confirmed(alloc: Global, route: Route, confirm: DisconnectConfirm) -> Result<Vec<u8>, AllocError>
    requires { IsShortFormat route.rtflg }
    ensures { IfOk result (λ v. v.items ≡ spec.packet_with route (view (messages.DisconnectConfirm confirm))) }
{
    let message = write_nsp(alloc, &Nsp::DisconnectConfirm(confirm))?;
    let packet = Packet::Data {
        rtflg: route.rtflg,
        dst: route.dst,
        src: route.src,
        forward: route.forward,
        nsp: &message,
    };
    write_packet(alloc, &packet)
}
