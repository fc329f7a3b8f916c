//! Which numbers an acknowledgement word may have.

ghost use Rattle.std.specs.Prelude.{◌≡◌, ◌≤◌, None, if◌then◌else◌};
ghost use Rattle.nsp_link.specs.FailedSending as spec;

use super::LastSent;
use super::late::LateSent;
use crate::failed::Numbers;
use link_segments::REACH;
use wire_base::Seq;

impl LastSent {
    /// The numbers that a word after this one may have.
    pub fn word_numbers(self, again: bool, received: Seq<4096>) -> Numbers
        ensures { result ≡ spec.word_numbers again received self }
    {
        Numbers {
            lowest: self.last.value(),
            highest: received.value(),
            again: self.earliest(again),
        }
    }

    fn earliest(self, again: bool) -> Option<u16>
        ensures { result ≡ if again then spec.from_below self.last (spec.words_back self) else None }
    {
        if !again {
            return None;
        }
        from_below(self.last, self.back())
    }

    // How far a word of a segment that is sent again may reach back.
    fn back(self) -> u16
        ensures back { result ≡ spec.words_back self }
        ensures reach { result ≤ 2047 }
    {
        if self.is_high {
            return REACH;
        }
        REACH.min(self.last.value())
    }
}

impl LateSent {
    /// The numbers that a word of a new segment after this one may have.
    pub fn numbers(self, received: Seq<4096>) -> Numbers
        ensures { result ≡ spec.late_numbers received self }
    {
        let LateSent { sent, gap } = self;
        let reach = sent.back();
        let back = if gap < reach { gap } else { reach };
        Numbers {
            lowest: sent.last.value(),
            highest: received.value(),
            again: from_below(sent.last, back),
        }
    }
}

/// So many numbers below a number, if any.
pub fn from_below(number: Seq<4096>, count: u16) -> Option<u16>
    requires { count ≤ 2047 }
    ensures { result ≡ spec.from_below number count }
{
    if count == 0 {
        return None;
    }
    let above = u64::from(number.value()) + 4096;
    Some(Seq::<4096>::of(above - u64::from(count)).value())
}
