//! Which words acknowledge what passed.

ghost use Rattle.std.specs.Prelude.{◌≡◌, ◌||◌};
ghost use Rattle.std.specs.List.{list_all};
ghost use Rattle.dna_packet.specs.Nsp.{view};
ghost use Rattle.accusing_links.specs.Segments.{has};
ghost use Rattle.accusing_links.specs.Wrong as specs;

use super::LinkAccuser;
use dna_packet::{AckQualifier, AckWord, Nsp};

impl LinkAccuser {
    // Whether the words of this message acknowledge what passed.
    pub(super) fn acknowledges(&self, message: &Nsp) -> bool
        ensures { result ≡ specs.are_right_words (has self.now.segments) (view message.now) }
    {
        match message {
            Nsp::DataSegment(segment) => {
                self.have_passed(segment.srcaddr, segment.dstaddr, &segment.acks)
            }
            Nsp::DataAck(message) => {
                self.have_passed(message.srcaddr, message.dstaddr, &message.acks)
            }
            Nsp::LinkService(_) | Nsp::OtherDataAck(_) | Nsp::ConnectAck(_) => true,
            Nsp::NoOperation(_) | Nsp::ConnectInitiate(_) | Nsp::ConnectConfirm(_) => true,
            Nsp::DisconnectInitiate(_) | Nsp::DisconnectConfirm(_) => true,
        }
    }

    // Whether these words acknowledge what passed from one link to another.
    fn have_passed(&self, own: u16, far: u16, words: &[AckWord]) -> bool
        ensures { result ≡ list_all (specs.is_right_word (has self.now.segments own far)) words.now }
    {
        for word in words {
            if !self.has_passed(own, far, *word) {
                return false;
            }
        }
        true
    }

    fn has_passed(&self, own: u16, far: u16, word: AckWord) -> bool
        ensures { result ≡ specs.is_right_word (has self.now.segments own far) word }
    {
        match word.qualifier {
            AckQualifier::OtherAck | AckQualifier::OtherNak => true,
            AckQualifier::Ack | AckQualifier::Nak => {
                word.number == 0 || self.segments.has(own, far, word.number)
            }
        }
    }
}
