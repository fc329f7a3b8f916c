//! The last acknowledgement that was sent on a link of a node with queues, where new segments may have been composed before it.

ghost use Rattle.std.specs.Prelude.{◌≡◌, ◌<◌, option_map};
ghost use Rattle.std.specs.List.{AllByRecursion};
ghost use Rattle.dna_packet.specs.AckWord.{IsAckWord};
ghost use Rattle.dna_links.specs.SegmentBook as book;
ghost use Rattle.dna_links.specs.WireSegments.{gap_at, last_named_late};
ghost use Rattle.nsp_link.specs.FailedSending.{asked_late};
ghost use Rattle.nsp_link.specs.inner.Late.{after_late};

use super::LastSent;
use crate::failed::FailedLinkSending;
use dna_packet::AckWord;
use link_segments::{REACH, is_of_data};
use std::marker::Model;
use wire_base::Seq;

/// The last one after some words, and how far the highest one of a new segment then lies below it, 0 to 4,095.
#[derive(Clone, Copy)]
pub struct LateSent {
    pub sent: LastSent,
    pub gap: u16,
}

impl Model for LateSent {
    ghost use Rattle.dna_links.specs.WireSegments.{LateSent};

    ghost Value = { LateSent };

    ghost view = { λ l. record { sent = l.sent; gap = l.gap } };

    ghost inverse = { λ l. record { sent = l.sent; gap = l.gap } };
}

impl LastSent {
    /// The last one after these words of a new segment, as by [`LastSent::ask_words`]: each may besides name an earlier number that lies at most so
    /// far below the last one sent.
    #[tactic(auto, using(crate::proofs::LateWords::word_by_word))]
    pub fn ask_late(
        self,
        gap: u16,
        received: Seq<4096>,
        words: &[AckWord],
    ) -> Result<LateSent, FailedLinkSending>
        requires { AllByRecursion IsAckWord words.now }
        ensures { result ≡ asked_late received words.now (record { sent = self; gap = gap }) }
    {
        let mut late = LateSent { sent: self, gap };
        for word in words {
            if is_of_data(word.qualifier) {
                let Some(next) = late.sent.behind_late(late.gap, received, word.number) else {
                    return Err(FailedLinkSending::Acknowledgement {
                        seen: word.number,
                        allowed: late.numbers(received),
                    });
                };
                late = next;
            }
        }
        Ok(late)
    }

    /// The last one after such a word with this number, where it may be sent.
    pub fn behind_late(self, gap: u16, received: Seq<4096>, number: u16) -> Option<LateSent>
        requires { number < 4096 }
        ensures { result ≡ after_late received number self (last_named_late received number (record { sent = self; gap = gap })) }
    {
        let named = Seq::of(u64::from(number));
        let back = Seq::distance(named, self.last);
        let ahead = Seq::distance(self.last, named);
        let Some(sent) = self.behind(back <= gap, received, number) else {
            return None;
        };
        if ahead <= Seq::distance(self.last, received) {
            return Some(LateSent { sent, gap: 0 });
        }
        Some(LateSent { sent, gap: back })
    }

    /// How far it is from this one up to another.
    pub fn went_on(self, after: LastSent) -> u16
        ensures { result ≡ book.distance self.last after.last }
    {
        Seq::distance(self.last, after.last)
    }
}

/// How far the highest acknowledgement of a new segment lies below the last one sent, once that went on so far: at most 2,047.
pub fn wider(gap: u16, further: u16) -> u16
    ensures { result ≡ book.wider gap further }
{
    let all = u32::from(gap) + u32::from(further);
    if all >= u32::from(REACH) {
        return REACH;
    }
    all as u16
}
