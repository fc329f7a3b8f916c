//! The last acknowledgement that was sent on a link.

ghost use Rattle.std.specs.Prelude.{◌≡◌, ◌<◌, false};
ghost use Rattle.std.specs.List.{AllByRecursion};
ghost use Rattle.dna_packet.specs.AckWord.{IsAckWord};
ghost use Rattle.dna_links.specs.SegmentBook.{distance, is_of_data};
ghost use Rattle.dna_links.specs.WireSegments.{last_named, is_ahead, is_behind, moved_to};
ghost use Rattle.nsp_link.specs.FailedSending.{asked_words};

pub(crate) mod allowed;
pub(crate) mod late;

use crate::failed::FailedLinkSending;
use dna_packet::AckWord;
use link_segments::{REACH, is_of_data};
use std::marker::Model;
use wire_base::Seq;

/// The last acknowledgement that was sent on a link, modulo 4,096, and whether it has reached 2,047.
#[derive(Clone, Copy)]
pub struct LastSent {
    last: Seq<4096>,
    is_high: bool,
}

impl Model for LastSent {
    ghost use Rattle.dna_links.specs.WireSegments.{LastSent};

    ghost Value = { LastSent };

    ghost view = { λ l. record { last = l.last; is_high = l.is_high } };

    ghost inverse = { λ l. record { last = l.last; is_high = l.is_high } };
}

impl LastSent {
    /// None was sent.
    pub fn new() -> LastSent
        ensures { result ≡ record { last = 0; is_high = false } }
    {
        LastSent {
            last: Seq::of(0),
            is_high: false,
        }
    }

    /// Its number, 0 to 4,095.
    pub fn number(self) -> u16
        ensures { result ≡ self.last }
    {
        self.last.value()
    }

    /// The last one after these words, where each may be sent: it names a number from the last one sent through the highest received,
    /// or, in a segment that is sent again, an earlier one, which it leaves as it is. Words of the other subchannel are not judged. Else the first
    /// one that may not be sent, with the numbers that are allowed in its place.
    #[tactic(auto, using(crate::proofs::Words::word_by_word))]
    pub fn ask_words(
        self,
        again: bool,
        received: Seq<4096>,
        words: &[AckWord],
    ) -> Result<LastSent, FailedLinkSending>
        requires { AllByRecursion IsAckWord words.now }
        ensures { result ≡ asked_words again received words.now self }
    {
        let mut sent = self;
        for word in words {
            if is_of_data(word.qualifier) {
                let Some(next) = sent.behind(again, received, word.number) else {
                    return Err(FailedLinkSending::Acknowledgement {
                        seen: word.number,
                        allowed: sent.word_numbers(again, received),
                    });
                };
                sent = next;
            }
        }
        Ok(sent)
    }

    // The last one after a word with this number, where it may be sent.
    fn behind(self, again: bool, received: Seq<4096>, number: u16) -> Option<LastSent>
        requires { number < 4096 }
        ensures { result ≡ last_named again received number self }
    {
        let named = Seq::of(u64::from(number));
        let ahead = Seq::distance(self.last, named);
        if ahead <= Seq::distance(self.last, received) {
            return Some(LastSent {
                last: named,
                is_high: self.is_high || self.last.value() + ahead >= REACH,
            });
        }
        if !again {
            return None;
        }
        let back = Seq::distance(named, self.last);
        if back > REACH {
            return None;
        }
        if self.is_high {
            return Some(self);
        }
        if back > self.last.value() {
            return None;
        }
        Some(self)
    }
}
