//! In which lines of a capture the links of a side got their addresses, and in which they ended.

use crate::accusation::Excuse;
use crate::inits::Inits;
use crate::other_node::OtherNode;
use beyond::other_in;
use capture_record::Entry;
use ddcmp_msg::read_unit;
use dna_packet::{Nsp, read_nsp};
use pair_judge::{Reason, SideEnd};
use record_words::layers::{message_in, message_in_unit, packet_in};
use record_words::lines::Lines;
use record_words::side_past::SidePast;
use side_words::subject::Addresses;
use std::alloc::{AllocError, Global};
use wire_base::Side;

/// What the records of both sides tell of their links, one after another.
#[derive(Drop)]
pub struct LinkPast {
    a: SidePast,
    b: SidePast,
    inits: Inits,
}

impl LinkPast {
    /// Before any record.
    pub fn new(alloc: Global) -> LinkPast {
        LinkPast {
            a: SidePast::new(alloc),
            b: SidePast::new(alloc),
            inits: Inits::NONE,
        }
    }

    /// This side made the record of this entry and these bytes, its next one. `AllocError`: there is no memory for an address.
    pub fn note(&mut self, side: Side, entry: Entry, bytes: &[u8]) -> Result<(), AllocError> {
        self.inits.note(side, entry, bytes);
        match side {
            Side::A => self.a.made(entry, bytes),
            Side::B => self.b.made(entry, bytes),
        }
    }

    /// Whether records of this side tell what it takes to be refused for this reason: for a message of another state, or of a link that is not there,
    /// that its user started or halted its line, or that its node was started anew. What a recording lacks that begins later it can't tell.
    pub fn has_begun(&self, side: Side, reason: Reason) -> bool {
        match reason {
            Reason::WrongState | Reason::WrongKeep | Reason::NoLink => self.of(side).has_begun(),
            _ => true,
        }
    }

    /// What excuses a record of this side, of this entry and these bytes, that is refused for this reason, where queues excuse it so: besides, a call
    /// that a DC ended may go on if that waited in a queue.
    pub fn excuse(
        &self,
        side: Side,
        reason: Reason,
        entry: Entry,
        bytes: &[u8],
        excuse: Excuse,
    ) -> Excuse {
        if excuse == Excuse::Accepted || reason != Reason::NoLink {
            return excuse;
        }
        let Some(far) = caller_of(entry, bytes) else {
            return excuse;
        };
        match self.of(side).may_go_on(far) {
            true => Excuse::DcWaited,
            false => excuse,
        }
    }

    /// The node besides the two of the line that a record of this end, of this entry and these bytes, names, where it is refused for its addresses;
    /// with what both nodes say that they are.
    pub fn other_node(
        &self,
        reason: Reason,
        entry: Entry,
        bytes: &[u8],
        end: &SideEnd,
    ) -> Option<OtherNode> {
        if reason != Reason::WrongNode {
            return None;
        }
        let packet = match entry {
            Entry::Composed => bytes,
            Entry::Sent | Entry::Received { .. } => packet_in(read_unit(bytes))?,
            _ => return None,
        };
        let nodes = end.incoming();
        Some(OtherNode {
            node: other_in(nodes.destination, nodes.source, packet)?,
            kind_a: self.inits.a,
            kind_b: self.inits.b,
        })
    }

    /// The lines of the link with these addresses at this side, as they are after the records that were made.
    pub fn lines(&self, side: Side, named: Addresses) -> Lines {
        self.of(side).lines(named.own, named.far)
    }

    fn of(&self, side: Side) -> &SidePast {
        match side {
            Side::A => &self.a,
            Side::B => &self.b,
        }
    }
}

// The far address of the call that a record of this entry and these bytes answers, if it may answer one that has no own address yet.
fn caller_of(entry: Entry, bytes: &[u8]) -> Option<u16> {
    match entry {
        Entry::Accept { partner, .. } | Entry::Reject { partner, .. } => Some(partner),
        Entry::Sent => acknowledged_call(message_in_unit(bytes)?),
        Entry::Composed => acknowledged_call(message_in(bytes)?),
        _ => None,
    }
}

// The far address of the call that a message acknowledges.
fn acknowledged_call(message: &[u8]) -> Option<u16> {
    match &read_nsp(message) {
        Ok(Nsp::ConnectAck(message)) => Some(message.dstaddr),
        _ => None,
    }
}
