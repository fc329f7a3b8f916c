//! The node of one side of a line, accused by what is in its data units.

ghost use Rattle.std.specs.Prelude.{◌≡◌, ◌||◌, [], ◌∷◌, ◌++◌, ℕ, List, IfSome, OnOk, OnErr};
ghost use Rattle.ddcmp_msg.specs.Reading.{reading};
ghost use Rattle.dna_packet.specs.ReadingNsp.{nsp_at};
ghost use Rattle.dna_packet.specs.Nsp.{view};
ghost use Rattle.dna_node.specs.Content.{content, message_in};
ghost use Rattle.accusing.specs.Placing.{Passed, Own, Other};
ghost use Rattle.accusing_links.specs.Answers.{IsAfter, IsWrong, heard_by};
ghost use Rattle.accusing_links.specs.Connects as calls;
ghost use Rattle.accusing_links.specs.Heard.{heard};
ghost use Rattle.accusing_links.specs.Segments.{has, packet_in, segment_of, shown_by, shown_in};
ghost use Rattle.accusing_links.specs.Wrong as specs;

mod acknowledging;

use crate::found::{Found, find};
use crate::triples::Triples;
use crate::wrong::Wrong;
use ddcmp_msg::{Message, Reading, read_unit};
use dna_packet::{Nsp, read_nsp};
use dna_station::Head;
use std::alloc::{AllocError, Global};
use std::marker::Model;

// The MSGFLG of a CI that is sent for the first time, and of a CC; and one that stands for all messages of RUN.
const CI: u16 = 0x18;

const CC: u16 = 0x28;

const RUN: u16 = 0x04;

/// The node of one side of a line, of whose units is asked what is in them. The units of the other side are told by `other_passed` in the order in
/// which they passed beside them.
///
/// ```text
///  passed                                                   answer
///  own    data, no byte in it                               BadPacket
///  own    data, a packet with a message of flag byte 02     BadNsp
///  own    data, a CI in a packet from this node to a third  WrongNode
///  own    data, a CI in a packet to the other node          None
///  own    data, a CI from link 0                            NoLink: no link has the address 0
///  own    data, link 7 acknowledges 0 to link 9             NoLink: no CI of link 9 passed, and no CC from it to link 7
///  other  data, a CC from link 9 to link 7
///  own    data, link 7 acknowledges 0 to link 9             None
///  own    data, a CC from link 7 to link 9                  NoLink: no CI of link 9 passed
///  other  data, a CI from link 5
///  own    data, a segment from link 3 to link 5             NoLink: no message of RUN from link 5 to link 3 passed
///  other  data, segment 1 from link 9 to link 7
///  own    data, link 7 acknowledges 1 to link 9             None
///  own    data, link 7 acknowledges 2 to link 9             WrongAck: no segment 2 passed
/// ```
#[derive(Drop)]
pub struct LinkAccuser {
    // the addresses of the node and of the one at the other end
    head: Head,
    // the data segments of the other side that passed; and its CIs, CCs and messages of RUN, by their links
    segments: Triples,
    connects: Triples,
}

impl Model for LinkAccuser {
    ghost use Rattle.accusing_links.specs.Answers.{Sight};

    ghost Value = { Sight };

    ghost view = { λ a. record { head = a.head; segments = a.segments; connects = a.connects } };
}

impl LinkAccuser {
    /// Of the node with this address, at whose other end is the one with that, before any unit passed. It takes no memory.
    pub fn new(alloc: Global, own: u16, peer: u16) -> LinkAccuser
        ensures head { result.head ≡ record { own = own; peer = peer } }
        ensures after { IsAfter result [] }
    {
        LinkAccuser {
            head: Head { own, peer },
            segments: Triples::none(alloc),
            connects: Triples::none(alloc),
        }
    }

    /// This unit of the other side passed, and may come to this side from now on. It takes memory for a segment, and for a CI, a CC or a
    /// message of RUN between two links, that passed for the first time; where that is refused, nothing changes.
    pub fn other_passed(&mut self, unit: &[u8]) -> Result<(), AllocError>
        ensures head { self.new.head ≡ self.old.head }
        ensures after { (passed : List Passed) → IsAfter self.old passed → OnOk result (IsAfter self.new (passed ++ Other unit.now ∷ [])) }
        ensures err { (passed : List Passed) → IsAfter self.old passed → OnErr result (IsAfter self.new passed) }
    {
        self.takes_note(unit)
    }

    fn takes_note(&mut self, unit: &[u8]) -> Result<(), AllocError>
        ensures head { self.new.head ≡ self.old.head }
        ensures segments { (o f n : ℕ) → OnOk result (has self.new.segments o f n
            ≡ (shown_by segment_of (packet_in (reading unit.now)) o f n || has self.old.segments o f n)) }
        ensures connects { (m o f : ℕ) → OnOk result (has self.new.connects m o f
            ≡ (shown_by calls.connect_of (packet_in (reading unit.now)) m o f || has self.old.connects m o f)) }
        ensures err_segments { (o f n : ℕ) → OnErr result (has self.new.segments o f n ≡ has self.old.segments o f n) }
        ensures err_connects { (m o f : ℕ) → OnErr result (has self.new.connects m o f ≡ has self.old.connects m o f) }
    {
        match read_unit(unit) {
            Reading::Sound(message) => match message {
                Message::Data { body, .. } => self.notes_packet(body),
                Message::Ack { .. } | Message::Nak { .. } | Message::Rep { .. } => Ok(()),
                Message::Strt { .. } | Message::Stack { .. } => Ok(()),
            },
            Reading::HeaderBad | Reading::DataBad | Reading::Malformed(_) => Ok(()),
        }
    }

    fn notes_packet(&mut self, packet: &[u8]) -> Result<(), AllocError>
        ensures head { self.new.head ≡ self.old.head }
        ensures segments { (o f n : ℕ) → OnOk result (has self.new.segments o f n
            ≡ (shown_in segment_of (content packet.now) o f n || has self.old.segments o f n)) }
        ensures connects { (m o f : ℕ) → OnOk result (has self.new.connects m o f
            ≡ (shown_in calls.connect_of (content packet.now) m o f || has self.old.connects m o f)) }
        ensures err_segments { (o f n : ℕ) → OnErr result (has self.new.segments o f n ≡ has self.old.segments o f n) }
        ensures err_connects { (m o f : ℕ) → OnErr result (has self.new.connects m o f ≡ has self.old.connects m o f) }
    {
        match find(packet) {
            Found::Message { dst, src, nsp } => self.notes_message(dst, src, nsp),
            Found::Unreadable | Found::Nothing => Ok(()),
        }
    }

    fn notes_message(&mut self, dst: u16, src: u16, nsp: &[u8]) -> Result<(), AllocError>
        ensures head { self.new.head ≡ self.old.head }
        ensures segments { (o f n : ℕ) → OnOk result (has self.new.segments o f n
            ≡ (shown_in segment_of (message_in dst src (nsp_at nsp.now)) o f n || has self.old.segments o f n)) }
        ensures connects { (m o f : ℕ) → OnOk result (has self.new.connects m o f
            ≡ (shown_in calls.connect_of (message_in dst src (nsp_at nsp.now)) m o f || has self.old.connects m o f)) }
        ensures err_segments { (o f n : ℕ) → OnErr result (has self.new.segments o f n ≡ has self.old.segments o f n) }
        ensures err_connects { (m o f : ℕ) → OnErr result (has self.new.connects m o f ≡ has self.old.connects m o f) }
    {
        let Ok(message) = read_nsp(nsp) else {
            return Ok(());
        };
        match message {
            Nsp::DataSegment(segment) => self.segments.show_beside(
                (segment.dstaddr, segment.srcaddr, segment.number),
                &mut self.connects,
                (RUN, segment.dstaddr, segment.srcaddr),
            ),
            Nsp::ConnectInitiate(message) => self.connects.show(CI, 0, message.srcaddr),
            Nsp::ConnectConfirm(message) => {
                self.connects.show(CC, message.dstaddr, message.srcaddr)
            }
            Nsp::DataAck(m) => self.connects.show(RUN, m.dstaddr, m.srcaddr),
            Nsp::LinkService(m) => self.connects.show(RUN, m.dstaddr, m.srcaddr),
            Nsp::OtherDataAck(m) => self.connects.show(RUN, m.dstaddr, m.srcaddr),
            Nsp::ConnectAck(_) | Nsp::NoOperation(_) => Ok(()),
            Nsp::DisconnectInitiate(_) | Nsp::DisconnectConfirm(_) => Ok(()),
        }
    }

    /// Why no right node can have sent this unit, whatever came to it of what passed, whatever was lost or damaged, whatever noise there was and
    /// whatever its user did. `None` says nothing. It takes no memory.
    pub fn sends(&self, unit: &[u8]) -> Option<Wrong>
        ensures known { (passed : List Passed) → IsAfter self.now passed → result ≡ specs.wrong_unit self.now.head (heard passed) unit.now }
        ensures after { (passed : List Passed) → IsAfter self.now passed → IsAfter self.now (passed ++ Own unit.now ∷ []) }
        ensures wrong { (passed : List Passed) → IsAfter self.now passed
            → IfSome result (λ wrong. IsWrong self.now.head (passed ++ Own unit.now ∷ [])) }
    {
        self.finds(unit)
    }

    fn finds(&self, unit: &[u8]) -> Option<Wrong>
        ensures { result ≡ specs.wrong_unit self.now.head (heard_by self.now) unit.now }
    {
        match read_unit(unit) {
            Reading::Sound(message) => match message {
                Message::Data { body, .. } => self.carries(body),
                Message::Ack { .. } | Message::Nak { .. } | Message::Rep { .. } => None,
                Message::Strt { .. } | Message::Stack { .. } => None,
            },
            Reading::HeaderBad | Reading::DataBad | Reading::Malformed(_) => None,
        }
    }

    // This packet.
    fn carries(&self, packet: &[u8]) -> Option<Wrong>
        ensures { result ≡ specs.wrong_content self.now.head (heard_by self.now) (content packet.now) }
    {
        match find(packet) {
            Found::Message { dst, src, nsp } => self.says(dst, src, nsp),
            Found::Nothing => None,
            Found::Unreadable => Some(Wrong::BadPacket),
        }
    }

    // This message, in a packet to one node from another.
    fn says(&self, dst: u16, src: u16, nsp: &[u8]) -> Option<Wrong>
        ensures { result ≡ specs.wrong_content self.now.head (heard_by self.now) (message_in dst src (nsp_at nsp.now)) }
    {
        let Ok(message) = read_nsp(nsp) else {
            return Some(Wrong::BadNsp);
        };
        if src == self.head.own && dst == self.head.peer {
            return self.is_of_link(&message);
        }
        Some(Wrong::WrongNode)
    }

    // This message, from this node to the other one.
    fn is_of_link(&self, message: &Nsp) -> Option<Wrong>
        ensures { result ≡ specs.wrong_of_link (heard_by self.now) (view message.now) }
    {
        if !self.has_link(message) {
            return Some(Wrong::NoLink);
        }
        if !self.acknowledges(message) {
            return Some(Wrong::WrongAck);
        }
        None
    }

    // Whether a link of which it may be sent can be.
    fn has_link(&self, message: &Nsp) -> bool
        ensures { result ≡ calls.has_link (has self.now.connects) (view message.now) }
    {
        match message {
            Nsp::ConnectAck(m) => self.was_called(m.dstaddr),
            Nsp::ConnectInitiate(m) => is_address(m.srcaddr),
            Nsp::ConnectConfirm(m) => is_address(m.srcaddr) && self.was_called(m.dstaddr),
            Nsp::DisconnectInitiate(m) => {
                is_address(m.srcaddr) && self.was_joined(m.srcaddr, m.dstaddr)
            }
            Nsp::DataSegment(m) => is_address(m.srcaddr) && self.can_run(m.srcaddr, m.dstaddr),
            Nsp::DataAck(m) => is_address(m.srcaddr) && self.can_run(m.srcaddr, m.dstaddr),
            Nsp::LinkService(m) => is_address(m.srcaddr) && self.can_run(m.srcaddr, m.dstaddr),
            Nsp::OtherDataAck(m) => is_address(m.srcaddr) && self.can_run(m.srcaddr, m.dstaddr),
            Nsp::NoOperation(_) | Nsp::DisconnectConfirm(_) => true,
        }
    }

    // A CI passed from this link.
    fn was_called(&self, far: u16) -> bool
        ensures { result ≡ calls.was_called (has self.now.connects) far }
    {
        self.connects.has(CI, 0, far)
    }

    // It did, or a CC from it to that link.
    fn was_joined(&self, own: u16, far: u16) -> bool
        ensures { result ≡ calls.was_joined (has self.now.connects) own far }
    {
        self.was_called(far) || self.connects.has(CC, own, far)
    }

    // A link can be in RUN: a CI passed from that one and a message of RUN from it to this one, or a CC.
    fn can_run(&self, own: u16, far: u16) -> bool
        ensures { result ≡ calls.can_run (has self.now.connects) own far }
    {
        (self.was_called(far) && self.connects.has(RUN, own, far))
            || self.connects.has(CC, own, far)
    }
}

// A link can have this address of its own.
fn is_address(own: u16) -> bool
    ensures { result ≡ calls.is_address own }
{
    own != 0
}
