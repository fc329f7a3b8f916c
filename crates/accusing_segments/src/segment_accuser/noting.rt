//! What is known after a unit passed.

ghost use Rattle.std.specs.Prelude.{◌≡◌, ◌&&◌, ◌||◌, [], ◌∷◌, ℕ, false, OnOk};
ghost use Rattle.dna_packet.specs.Nsp.{segment_view, DataSegment};
ghost use Rattle.dna_links.specs.SegmentBook.{REACH};
ghost use Rattle.accusing_segments.specs.Fits.{fits};
ghost use Rattle.accusing_segments.specs.History.{acknowledges, bit, end_sent, has, has_room, in_unit, is_room, is_this, message_in, words_name};
ghost use Rattle.accusing_segments.specs.Noted.{first_noted};
ghost use Rattle.accusing_segments.specs.Repeats.{calls, first_of, piece_in, piece_with};
ghost use Rattle.accusing_segments.specs.Wrong.{is_covered};

use crate::SegmentAccuser;
use crate::message::message_in;
use dna_packet::{AckQualifier, AckWord, Nsp, Segment};
use std::alloc::AllocError;

impl SegmentAccuser {
    pub(crate) fn hears(&mut self, unit: &[u8]) -> Result<(), AllocError>
        ensures ends { self.new.ends ≡ self.old.ends }
        ensures words { (o f n w : ℕ) → OnOk result (has self.new.words o f n w
            ≡ (in_unit acknowledges unit.now o f n w || has self.old.words o f n w)) }
        ensures rooms { (o f b w : ℕ) → OnOk result (fits self.new.rooms o f b w
            ≡ (in_unit has_room unit.now o f b w || fits self.old.rooms o f b w)) }
        ensures called { (o f n w : ℕ) → OnOk result (has self.new.noted.called o f n w
            ≡ (in_unit calls unit.now o f n w || has self.old.noted.called o f n w)) }
        ensures again { (o f n w : ℕ) → OnOk result (has self.new.noted.again o f n w
            ≡ ((in_unit calls unit.now o f n w && has self.old.noted.called o f n w) || has self.old.noted.again o f n w)) }
        ensures firsts { (o f n : ℕ) → OnOk result (is_covered (λ m. has self.new.words o f m 0) n REACH ≡ false
            → first_noted self.new.noted.firsts o f n ≡ first_noted self.old.noted.firsts o f n) }
    {
        let Some(message) = message_in(unit) else {
            return Ok(());
        };
        match message {
            Nsp::DataSegment(m) => self.hears_words(m.dstaddr, m.srcaddr, &m.acks),
            Nsp::DataAck(m) => self.hears_words(m.dstaddr, m.srcaddr, &m.acks),
            Nsp::ConnectInitiate(m) => self.is_called(0, m.srcaddr, m.segsize),
            Nsp::ConnectConfirm(m) => self.is_called(m.dstaddr, m.srcaddr, m.segsize),
            Nsp::LinkService(_) | Nsp::OtherDataAck(_) | Nsp::ConnectAck(_) => Ok(()),
            Nsp::NoOperation(_) | Nsp::DisconnectInitiate(_) | Nsp::DisconnectConfirm(_) => Ok(()),
        }
    }

    // A CI or a CC from link `far` to link `own`, of a CI 0, has this SEGSIZE.
    fn is_called(&mut self, own: u16, far: u16, segsize: u16) -> Result<(), AllocError>
        ensures ends { self.new.ends ≡ self.old.ends }
        ensures words { self.new.words ≡ self.old.words }
        ensures firsts { self.new.noted.firsts ≡ self.old.noted.firsts }
        ensures rooms { (o f b w : ℕ) → OnOk result (fits self.new.rooms o f b w
            ≡ (is_room own far segsize o f b w || fits self.old.rooms o f b w)) }
        ensures called { (o f n w : ℕ) → OnOk result (has self.new.noted.called o f n w
            ≡ (is_this (own, far, 0, 0) o f n w || has self.old.noted.called o f n w)) }
        ensures again { (o f n w : ℕ) → OnOk result (has self.new.noted.again o f n w
            ≡ ((is_this (own, far, 0, 0) o f n w && has self.old.noted.called o f n w) || has self.old.noted.again o f n w)) }
    {
        self.rooms.tell(own, far, segsize)?;
        self.noted.call(own, far)
    }

    // These words came to link `own` from link `far`.
    fn hears_words(&mut self, own: u16, far: u16, words: &[AckWord]) -> Result<(), AllocError>
        ensures ends { self.new.ends ≡ self.old.ends }
        ensures rooms { self.new.rooms ≡ self.old.rooms }
        ensures called { self.new.noted.called ≡ self.old.noted.called }
        ensures again { self.new.noted.again ≡ self.old.noted.again }
        ensures words { (o f n w : ℕ) → OnOk result (has self.new.words o f n w
            ≡ (words_name own far words.now o f n w || has self.old.words o f n w)) }
        ensures firsts { (o f n : ℕ) → OnOk result (is_covered (λ m. has self.new.words o f m 0) n REACH ≡ false
            → first_noted self.new.noted.firsts o f n ≡ first_noted self.old.noted.firsts o f n) }
    {
        for word in words {
            self.hears_word(own, far, *word)?;
        }
        Ok(())
    }

    fn hears_word(&mut self, own: u16, far: u16, word: AckWord) -> Result<(), AllocError>
        ensures ends { self.new.ends ≡ self.old.ends }
        ensures rooms { self.new.rooms ≡ self.old.rooms }
        ensures called { self.new.noted.called ≡ self.old.noted.called }
        ensures again { self.new.noted.again ≡ self.old.noted.again }
        ensures words { (o f n w : ℕ) → OnOk result (has self.new.words o f n w
            ≡ (words_name own far (word ∷ []) o f n w || has self.old.words o f n w)) }
        ensures firsts { (o f n : ℕ) → OnOk result (is_covered (λ m. has self.new.words o f m 0) n REACH ≡ false
            → first_noted self.new.noted.firsts o f n ≡ first_noted self.old.noted.firsts o f n) }
    {
        match word.qualifier {
            AckQualifier::OtherAck | AckQualifier::OtherNak => Ok(()),
            AckQualifier::Ack | AckQualifier::Nak => self.hears_number(own, far, word.number),
        }
    }

    fn hears_number(&mut self, own: u16, far: u16, number: u16) -> Result<(), AllocError>
        ensures ends { self.new.ends ≡ self.old.ends }
        ensures rooms { self.new.rooms ≡ self.old.rooms }
        ensures called { self.new.noted.called ≡ self.old.noted.called }
        ensures again { self.new.noted.again ≡ self.old.noted.again }
        ensures words { (o f n w : ℕ) → OnOk result (has self.new.words o f n w
            ≡ (is_this (own, far, number, 0) o f n w || has self.old.words o f n w)) }
        ensures firsts { (o f n : ℕ) → OnOk result (is_covered (λ m. has self.new.words o f m 0) n REACH ≡ false
            → first_noted self.new.noted.firsts o f n ≡ first_noted self.old.noted.firsts o f n) }
    {
        self.words.keep(own, far, number, 0)?;
        self.noted.release(own, far, number);
        Ok(())
    }

    pub(crate) fn sends(&mut self, unit: &[u8]) -> Result<(), AllocError>
        ensures words { self.new.words ≡ self.old.words }
        ensures rooms { self.new.rooms ≡ self.old.rooms }
        ensures called { self.new.noted.called ≡ self.old.noted.called }
        ensures again { self.new.noted.again ≡ self.old.noted.again }
        ensures ends { (o f n w : ℕ) → OnOk result (has self.new.ends o f n w
            ≡ (in_unit end_sent unit.now o f n w || has self.old.ends o f n w)) }
        ensures firsts { (o f n : ℕ) → OnOk result (first_noted self.new.noted.firsts o f n
            ≡ first_of (first_noted self.old.noted.firsts o f n) (piece_in (message_in unit.now) o f n)) }
    {
        let Some(message) = message_in(unit) else {
            return Ok(());
        };
        match message {
            Nsp::DataSegment(segment) => self.sends_segment(&segment),
            Nsp::DataAck(_) | Nsp::LinkService(_) | Nsp::OtherDataAck(_) => Ok(()),
            Nsp::ConnectAck(_) => Ok(()),
            Nsp::NoOperation(_) => Ok(()),
            Nsp::ConnectInitiate(_) => Ok(()),
            Nsp::ConnectConfirm(_) => Ok(()),
            Nsp::DisconnectInitiate(_) => Ok(()),
            Nsp::DisconnectConfirm(_) => Ok(()),
        }
    }

    fn sends_segment(&mut self, segment: &Segment<'_>) -> Result<(), AllocError>
        ensures words { self.new.words ≡ self.old.words }
        ensures rooms { self.new.rooms ≡ self.old.rooms }
        ensures called { self.new.noted.called ≡ self.old.noted.called }
        ensures again { self.new.noted.again ≡ self.old.noted.again }
        ensures ends { (o f n w : ℕ) → OnOk result (has self.new.ends o f n w
            ≡ (end_sent (DataSegment (segment_view segment.now)) o f n w || has self.old.ends o f n w)) }
        ensures firsts { (o f n : ℕ) → OnOk result (first_noted self.new.noted.firsts o f n
            ≡ first_of (first_noted self.old.noted.firsts o f n) (piece_with (DataSegment (segment_view segment.now)) o f n)) }
    {
        let (own, far, number) = (segment.srcaddr, segment.dstaddr, segment.number);
        self.ends.keep(own, far, number, bit(segment.ends))?;
        self.noted.send(segment)
    }
}

pub(crate) fn bit(set: bool) -> u16
    ensures { result ≡ bit set }
{
    if set { 1 } else { 0 }
}
