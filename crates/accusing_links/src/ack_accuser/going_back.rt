//! Which acknowledgement goes back.

ghost use Rattle.std.specs.Prelude.{◌≡◌, ◌+◌, ◌&&◌, not, true};
ghost use Rattle.std.specs.List.{list_any};
ghost use Rattle.dna_packet.specs.ReadingNsp.{nsp_at};
ghost use Rattle.dna_links.specs.SegmentBook.{REACH, wire};
ghost use Rattle.dna_node.specs.Content.{content, message_in};
ghost use Rattle.accusing_links.specs.AckAnswers.{told_by};
ghost use Rattle.accusing_links.specs.Back as specs;
ghost use Rattle.accusing_links.specs.Segments.{has, shown_in};

use super::AckAccuser;
use crate::found::{Found, find};
use ddcmp_msg::{Message, Reading, read_unit};
use dna_packet::{AckQualifier, AckWord, Nsp, read_nsp};

// How far an acknowledgement may lie below one that was sent before, for this to be seen.
const REACH: u16 = 2047;

impl AckAccuser {
    // A data acknowledgement message of this unit goes back.
    pub(super) fn finds(&self, unit: &[u8]) -> bool
        ensures { result ≡ specs.is_back_unit (told_by self.now) unit.now }
    {
        match read_unit(unit) {
            Reading::Sound(message) => match message {
                Message::Data { num, body, .. } => self.carries(u16::from(num), body),
                Message::Ack { .. } | Message::Nak { .. } | Message::Rep { .. } => false,
                Message::Strt { .. } | Message::Stack { .. } => false,
            },
            Reading::HeaderBad | Reading::DataBad | Reading::Malformed(_) => false,
        }
    }

    fn carries(&self, num: u16, packet: &[u8]) -> bool
        ensures { result ≡ shown_in (λ m first second third. specs.is_back_message (told_by self.now) num m) (content packet.now) 0 0 0 }
    {
        match find(packet) {
            Found::Message { dst, src, nsp } => self.says(num, dst, src, nsp),
            Found::Unreadable | Found::Nothing => false,
        }
    }

    fn says(&self, num: u16, dst: u16, src: u16, nsp: &[u8]) -> bool
        ensures { result ≡ shown_in (λ m first second third. specs.is_back_message (told_by self.now) num m)
            (message_in dst src (nsp_at nsp.now)) 0 0 0 }
    {
        let Ok(message) = read_nsp(nsp) else {
            return false;
        };
        match message {
            Nsp::DataAck(m) => self.goes_back(num, m.srcaddr, m.dstaddr, &m.acks),
            Nsp::DataSegment(_) | Nsp::LinkService(_) | Nsp::OtherDataAck(_) => false,
            Nsp::ConnectAck(_) | Nsp::NoOperation(_) | Nsp::ConnectInitiate(_) => false,
            Nsp::ConnectConfirm(_) | Nsp::DisconnectInitiate(_) => false,
            Nsp::DisconnectConfirm(_) => false,
        }
    }

    // One link alone can have the far address, and one of these words goes back.
    fn goes_back(&self, num: u16, own: u16, far: u16, words: &[AckWord]) -> bool
        ensures { result ≡ (not (has self.now.again 0 0 far) && list_any (specs.is_back (told_by self.now) num own far) words.now) }
    {
        if self.again.has(0, 0, far) {
            return false;
        }
        self.one_is_back(num, own, far, words)
    }

    fn one_is_back(&self, num: u16, own: u16, far: u16, words: &[AckWord]) -> bool
        ensures { result ≡ list_any (specs.is_back (told_by self.now) num own far) words.now }
    {
        for word in words {
            if self.is_back(num, own, far, *word) {
                return true;
            }
        }
        false
    }

    fn is_back(&self, num: u16, own: u16, far: u16, word: AckWord) -> bool
        ensures { result ≡ specs.is_back (told_by self.now) num own far word }
    {
        match word.qualifier {
            AckQualifier::OtherAck | AckQualifier::OtherNak => false,
            AckQualifier::Ack | AckQualifier::Nak => {
                self.number_is_back(num, own, far, word.number)
            }
        }
    }

    fn number_is_back(&self, num: u16, own: u16, far: u16, number: u16) -> bool
        ensures { result ≡ (not (has self.now.alone num own number)
            && (not (has self.now.segments own far (wire (number + 2048))) && specs.was_said (has self.now.said own far) number REACH)) }
    {
        if self.alone.has(num, own, number) {
            return false;
        }
        if self.segments.has(own, far, (number % 4096 + 2048) % 4096) {
            return false;
        }
        self.was_said(own, far, number)
    }

    // One of the numbers above this one was said.
    #[tactic(auto, using(crate::proofs::Saying::none_said))]
    fn was_said(&self, own: u16, far: u16, number: u16) -> bool
        ensures { result ≡ specs.was_said (has self.now.said own far) number REACH }
    {
        for above in 0..REACH {
            if self.has_said(own, far, (number % 4096 + above + 1) % 4096) {
                return true;
            }
        }
        false
    }

    fn has_said(&self, own: u16, far: u16, number: u16) -> bool
        ensures { result ≡ has self.now.said own far number }
    {
        self.said.has(own, far, number)
    }
}
