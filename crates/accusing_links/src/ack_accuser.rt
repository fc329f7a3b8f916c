//! The node of one side of a line, accused by an acknowledgement that goes back.

ghost use Rattle.std.specs.Prelude.{◌≡◌, ◌+◌, ◌&&◌, ◌||◌, [], ◌∷◌, ◌++◌, ℕ, not, true, List, OnOk};
ghost use Rattle.ddcmp_msg.specs.Reading.{reading};
ghost use Rattle.dna_packet.specs.ReadingNsp.{nsp_at};
ghost use Rattle.dna_station.specs.declared.head.Head.{Head};
ghost use Rattle.dna_node.specs.Content.{content, message_in};
ghost use Rattle.accusing.specs.Placing.{Passed, Own, Other};
ghost use Rattle.accusing_links.specs.Answers.{IsWrong};
ghost use Rattle.accusing_links.specs.AckAnswers.{AreKnownAfter};
ghost use Rattle.accusing_links.specs.Back as specs;
ghost use Rattle.accusing_links.specs.Segments.{has, is_this, packet_in, segment_of, shown_by, shown_in};

mod going_back;

use crate::found::{Found, find};
use crate::triples::Triples;
use ddcmp_msg::{Message, Reading, read_unit};
use dna_packet::{AckWord, Nsp, read_nsp};
use std::alloc::{AllocError, Global};
use std::marker::Model;

/// The node of one side of a line, of whose data acknowledgement messages is asked whether they go back. The units of both sides are told in the
/// order in which they passed; where one can't be told for want of memory, nothing is to be asked any more.
///
/// ```text
///  passed                                               accuses
///  other  data, a CI from link 9
///  other  data, segments 1 to 3 from link 9 to link 7
///  own    data, link 7 acknowledges 3 to link 9         no
///  own    data, link 7 acknowledges 2 to link 9         yes: it had acknowledged 3
///  own    data, link 8 acknowledges 2 to link 9         no: another link
///  other  data, a second CI from link 9
///  own    data, link 7 acknowledges 2 to link 9         no: a later link may have these addresses
/// ```
///
/// A word of a data segment is not asked: one that goes again may be as it was composed.
#[derive(Drop)]
pub struct AckAccuser {
    // the data segments of the other side that passed
    segments: Triples,
    // the words of this side, and those of its data acknowledgement messages by the NUM of their units
    said: Triples,
    alone: Triples,
    // the links from which a CI or a CC passed, and those from which a second one did
    called: Triples,
    again: Triples,
}

impl Model for AckAccuser {
    ghost use Rattle.accusing_links.specs.AckAnswers.{AckSight};

    ghost Value = { AckSight };

    ghost view = { λ a. record { segments = a.segments; said = a.said; alone = a.alone; called = a.called; again = a.again } };
}

impl AckAccuser {
    /// Before any unit passed. It takes no memory.
    pub fn new(alloc: Global) -> AckAccuser
        ensures after { AreKnownAfter result [] }
    {
        AckAccuser {
            segments: Triples::none(alloc),
            said: Triples::none(alloc),
            alone: Triples::none(alloc),
            called: Triples::none(alloc),
            again: Triples::none(alloc),
        }
    }

    /// This unit of the other side passed, and may come to this side from now on. It takes memory for a segment that passed for the first time, and
    /// for the first two CIs or CCs from a link.
    pub fn other_passed(&mut self, unit: &[u8]) -> Result<(), AllocError>
        ensures { (passed : List Passed) → AreKnownAfter self.old passed → OnOk result (AreKnownAfter self.new (passed ++ Other unit.now ∷ [])) }
    {
        self.hears(unit)
    }

    /// This side sent this unit. It takes memory for its words.
    pub fn own_passed(&mut self, unit: &[u8]) -> Result<(), AllocError>
        ensures { (passed : List Passed) → AreKnownAfter self.old passed → OnOk result (AreKnownAfter self.new (passed ++ Own unit.now ∷ [])) }
    {
        self.sends(unit)
    }

    /// The node with any addresses can't send this unit now if it is a right one, whatever came to it of what passed, whatever was lost or damaged,
    /// whatever noise there was and whatever its user did: its acknowledgement goes back. `false` says nothing. It takes no memory.
    pub fn accuses(&self, unit: &[u8]) -> bool
        ensures known { (passed : List Passed) → AreKnownAfter self.now passed → result ≡ specs.is_back_unit (specs.told passed) unit.now }
        ensures wrong { (passed : List Passed) → AreKnownAfter self.now passed → result ≡ true
            → (head : Head) → IsWrong head (passed ++ Own unit.now ∷ []) }
    {
        self.finds(unit)
    }
}

// What passed.
impl AckAccuser {
    fn hears(&mut self, unit: &[u8]) -> Result<(), AllocError>
        ensures said { self.new.said ≡ self.old.said }
        ensures alone { self.new.alone ≡ self.old.alone }
        ensures segments { (o f n : ℕ) → OnOk result (has self.new.segments o f n
            ≡ (shown_by segment_of (packet_in (reading unit.now)) o f n || has self.old.segments o f n)) }
        ensures called { (f : ℕ) → OnOk result (has self.new.called 0 0 f
            ≡ (shown_by specs.call_of (packet_in (reading unit.now)) 0 0 f || has self.old.called 0 0 f)) }
        ensures again { (f : ℕ) → OnOk result (has self.new.again 0 0 f
            ≡ ((shown_by specs.call_of (packet_in (reading unit.now)) 0 0 f && has self.old.called 0 0 f) || has self.old.again 0 0 f)) }
    {
        match read_unit(unit) {
            Reading::Sound(message) => match message {
                Message::Data { body, .. } => self.hears_packet(body),
                Message::Ack { .. } | Message::Nak { .. } | Message::Rep { .. } => Ok(()),
                Message::Strt { .. } | Message::Stack { .. } => Ok(()),
            },
            Reading::HeaderBad | Reading::DataBad | Reading::Malformed(_) => Ok(()),
        }
    }

    fn hears_packet(&mut self, packet: &[u8]) -> Result<(), AllocError>
        ensures said { self.new.said ≡ self.old.said }
        ensures alone { self.new.alone ≡ self.old.alone }
        ensures segments { (o f n : ℕ) → OnOk result (has self.new.segments o f n
            ≡ (shown_in segment_of (content packet.now) o f n || has self.old.segments o f n)) }
        ensures called { (f : ℕ) → OnOk result (has self.new.called 0 0 f
            ≡ (shown_in specs.call_of (content packet.now) 0 0 f || has self.old.called 0 0 f)) }
        ensures again { (f : ℕ) → OnOk result (has self.new.again 0 0 f
            ≡ ((shown_in specs.call_of (content packet.now) 0 0 f && has self.old.called 0 0 f) || has self.old.again 0 0 f)) }
    {
        match find(packet) {
            Found::Message { dst, src, nsp } => self.hears_message(dst, src, nsp),
            Found::Unreadable | Found::Nothing => Ok(()),
        }
    }

    fn hears_message(&mut self, dst: u16, src: u16, nsp: &[u8]) -> Result<(), AllocError>
        ensures said { self.new.said ≡ self.old.said }
        ensures alone { self.new.alone ≡ self.old.alone }
        ensures segments { (o f n : ℕ) → OnOk result (has self.new.segments o f n
            ≡ (shown_in segment_of (message_in dst src (nsp_at nsp.now)) o f n || has self.old.segments o f n)) }
        ensures called { (f : ℕ) → OnOk result (has self.new.called 0 0 f
            ≡ (shown_in specs.call_of (message_in dst src (nsp_at nsp.now)) 0 0 f || has self.old.called 0 0 f)) }
        ensures again { (f : ℕ) → OnOk result (has self.new.again 0 0 f
            ≡ ((shown_in specs.call_of (message_in dst src (nsp_at nsp.now)) 0 0 f && has self.old.called 0 0 f)
            || has self.old.again 0 0 f)) }
    {
        let Ok(message) = read_nsp(nsp) else {
            return Ok(());
        };
        match message {
            Nsp::DataSegment(m) => self.segments.show(m.dstaddr, m.srcaddr, m.number),
            Nsp::ConnectInitiate(m) => self.is_called(m.srcaddr),
            Nsp::ConnectConfirm(m) => self.is_called(m.srcaddr),
            Nsp::DataAck(_) | Nsp::LinkService(_) | Nsp::OtherDataAck(_) => Ok(()),
            Nsp::ConnectAck(_) | Nsp::NoOperation(_) => Ok(()),
            Nsp::DisconnectInitiate(_) | Nsp::DisconnectConfirm(_) => Ok(()),
        }
    }

    // A CI or a CC passed from this link.
    fn is_called(&mut self, far: u16) -> Result<(), AllocError>
        ensures said { self.new.said ≡ self.old.said }
        ensures alone { self.new.alone ≡ self.old.alone }
        ensures segments { self.new.segments ≡ self.old.segments }
        ensures called { (f : ℕ) → OnOk result (has self.new.called 0 0 f ≡ (is_this (0, 0, far) 0 0 f || has self.old.called 0 0 f)) }
        ensures again { (f : ℕ) → OnOk result (has self.new.again 0 0 f
            ≡ ((is_this (0, 0, far) 0 0 f && has self.old.called 0 0 f) || has self.old.again 0 0 f)) }
    {
        self.is_called_again(far)?;
        self.called.show(0, 0, far)
    }

    // It is the second one, if one had passed.
    fn is_called_again(&mut self, far: u16) -> Result<(), AllocError>
        ensures said { self.new.said ≡ self.old.said }
        ensures alone { self.new.alone ≡ self.old.alone }
        ensures segments { self.new.segments ≡ self.old.segments }
        ensures called { self.new.called ≡ self.old.called }
        ensures again { (f : ℕ) → OnOk result (has self.new.again 0 0 f
            ≡ ((is_this (0, 0, far) 0 0 f && has self.old.called 0 0 f) || has self.old.again 0 0 f)) }
    {
        if self.called.has(0, 0, far) {
            return self.again.show(0, 0, far);
        }
        Ok(())
    }

    fn sends(&mut self, unit: &[u8]) -> Result<(), AllocError>
        ensures segments { self.new.segments ≡ self.old.segments }
        ensures called { self.new.called ≡ self.old.called }
        ensures again { self.new.again ≡ self.old.again }
        ensures said { (o f n : ℕ) → OnOk result (has self.new.said o f n
            ≡ (specs.sent_in (λ num. specs.said_in) (reading unit.now) o f n || has self.old.said o f n)) }
        ensures alone { (u o n : ℕ) → OnOk result (has self.new.alone u o n
            ≡ (specs.sent_in specs.alone_in (reading unit.now) u o n || has self.old.alone u o n)) }
    {
        match read_unit(unit) {
            Reading::Sound(message) => match message {
                Message::Data { num, body, .. } => self.sends_packet(u16::from(num), body),
                Message::Ack { .. } | Message::Nak { .. } | Message::Rep { .. } => Ok(()),
                Message::Strt { .. } | Message::Stack { .. } => Ok(()),
            },
            Reading::HeaderBad | Reading::DataBad | Reading::Malformed(_) => Ok(()),
        }
    }

    fn sends_packet(&mut self, num: u16, packet: &[u8]) -> Result<(), AllocError>
        ensures segments { self.new.segments ≡ self.old.segments }
        ensures called { self.new.called ≡ self.old.called }
        ensures again { self.new.again ≡ self.old.again }
        ensures said { (o f n : ℕ) → OnOk result (has self.new.said o f n
            ≡ (shown_in specs.said_in (content packet.now) o f n || has self.old.said o f n)) }
        ensures alone { (u o n : ℕ) → OnOk result (has self.new.alone u o n
            ≡ (shown_in (specs.alone_in num) (content packet.now) u o n || has self.old.alone u o n)) }
    {
        match find(packet) {
            Found::Message { dst, src, nsp } => self.sends_message(num, dst, src, nsp),
            Found::Unreadable | Found::Nothing => Ok(()),
        }
    }

    fn sends_message(&mut self, num: u16, dst: u16, src: u16, nsp: &[u8]) -> Result<(), AllocError>
        ensures segments { self.new.segments ≡ self.old.segments }
        ensures called { self.new.called ≡ self.old.called }
        ensures again { self.new.again ≡ self.old.again }
        ensures said { (o f n : ℕ) → OnOk result (has self.new.said o f n
            ≡ (shown_in specs.said_in (message_in dst src (nsp_at nsp.now)) o f n || has self.old.said o f n)) }
        ensures alone { (u o n : ℕ) → OnOk result (has self.new.alone u o n
            ≡ (shown_in (specs.alone_in num) (message_in dst src (nsp_at nsp.now)) u o n || has self.old.alone u o n)) }
    {
        let Ok(message) = read_nsp(nsp) else {
            return Ok(());
        };
        match message {
            Nsp::DataSegment(m) => self.said.show_words(m.srcaddr, m.dstaddr, &m.acks),
            Nsp::DataAck(m) => self.sends_alone(num, m.srcaddr, m.dstaddr, &m.acks),
            Nsp::LinkService(_) | Nsp::OtherDataAck(_) | Nsp::ConnectAck(_) => Ok(()),
            Nsp::NoOperation(_) | Nsp::ConnectInitiate(_) | Nsp::ConnectConfirm(_) => Ok(()),
            Nsp::DisconnectInitiate(_) | Nsp::DisconnectConfirm(_) => Ok(()),
        }
    }

    // These words go alone from link `own` to link `far`.
    fn sends_alone(
        &mut self,
        num: u16,
        own: u16,
        far: u16,
        words: &[AckWord],
    ) -> Result<(), AllocError>
        ensures segments { self.new.segments ≡ self.old.segments }
        ensures called { self.new.called ≡ self.old.called }
        ensures again { self.new.again ≡ self.old.again }
        ensures said { (o f n : ℕ) → OnOk result (has self.new.said o f n
            ≡ (specs.words_shown own far words.now o f n || has self.old.said o f n)) }
        ensures alone { (u o n : ℕ) → OnOk result (has self.new.alone u o n
            ≡ (specs.words_shown num own words.now u o n || has self.old.alone u o n)) }
    {
        self.said.show_words(own, far, words)?;
        self.alone.show_words(num, own, words)
    }
}
