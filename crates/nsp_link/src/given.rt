//! What a link has given, as far as it says which acknowledgements may come.

ghost use Rattle.std.specs.Prelude.{◌≡◌, ◌<◌, IfSome};
ghost use Rattle.std.specs.List.{AllByRecursion};
ghost use Rattle.dna_packet.specs.AckWord.{IsAckWord};
ghost use Rattle.nsp_link.specs.Given.{all_may_come, behind};

use dna_packet::AckWord;
use link_segments::{REACH, is_of_data};
use wire_base::Seq;

/// The numbers of the segments that a link has given, modulo 4,096. An acknowledgement of one that it has not given is none that a right
/// partner sends.
#[derive(Clone, Copy, PartialEq, Eq)]
pub struct Given {
    /// The highest number that the partner acknowledged, 0 to 4,095.
    pub acknowledged: u16,
    /// How many segments above it are given, at most 2,047.
    pub outstanding: u16,
    /// Whether the highest number given has reached 2,047. Until then no number below 0 was given.
    pub gave_many: bool,
}

impl Given {
    /// Whether a right partner may send these words, one after the other: each acknowledges a segment that is given, or repeats an earlier
    /// acknowledgement, at most 2,047 below the last one. Words of the other subchannel are not judged.
    #[tactic(auto, using(crate::proofs::Named::named))]
    pub fn may_name(self, words: &[AckWord]) -> bool
        requires acks { AllByRecursion IsAckWord words.now }
        requires number { self.acknowledged < 4096 }
        ensures { result ≡ all_may_come words.now self }
    {
        let mut given = self;
        for word in words {
            if is_of_data(word.qualifier) {
                let Some(next) = given.behind(word.number) else {
                    return false;
                };
                given = next;
            }
        }
        true
    }

    // What is given after an acknowledgement of this number, if one may come.
    fn behind(self, number: u16) -> Option<Given>
        requires number { number < 4096 }
        requires acknowledged { self.acknowledged < 4096 }
        ensures behind { result ≡ behind self number }
        ensures below { IfSome result (λ next. next.acknowledged < 4096) }
    {
        let acknowledged = Seq::<4096>::of(u64::from(self.acknowledged));
        let named = Seq::of(u64::from(number));
        let above = Seq::distance(acknowledged, named);
        if above <= self.outstanding {
            return Some(Given {
                acknowledged: named.value(),
                outstanding: self.outstanding - above,
                gave_many: self.gave_many,
            });
        }
        let back = Seq::distance(named, acknowledged);
        if back > REACH {
            return None;
        }
        if self.gave_many {
            return Some(self);
        }
        if back > self.acknowledged {
            return None;
        }
        Some(self)
    }
}
