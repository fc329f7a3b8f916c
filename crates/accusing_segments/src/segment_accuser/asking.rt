//! What is asked of a unit.

ghost use Rattle.std.specs.Prelude.{◌≡◌, ◌&&◌, ◌||◌};
ghost use Rattle.dna_packet.specs.Nsp.{segment_view};
ghost use Rattle.accusing_segments.specs.Fits.{fits};
ghost use Rattle.accusing_segments.specs.History.{bit, has};
ghost use Rattle.accusing_segments.specs.Noted.{shown};
ghost use Rattle.accusing_segments.specs.Repeats as changes;
ghost use Rattle.accusing_segments.specs.Wrong as specs;
ghost use Rattle.accusing_segments.specs.inner.Seen.{seen};

use crate::SegmentAccuser;
use crate::message::message_in;
use crate::segment_accuser::noting::bit;
use dna_packet::{Nsp, Segment};

// How many segments may be outstanding.
const REACH: u16 = 2047;

impl SegmentAccuser {
    pub(crate) fn is_wrong(&self, unit: &[u8]) -> bool
        ensures { result ≡ specs.is_wrong_unit (seen self.now) unit.now }
    {
        let Some(message) = message_in(unit) else {
            return false;
        };
        match message {
            Nsp::DataSegment(segment) => !self.is_right(&segment),
            Nsp::DataAck(_) | Nsp::LinkService(_) | Nsp::OtherDataAck(_) => false,
            Nsp::ConnectAck(_) | Nsp::NoOperation(_) | Nsp::ConnectInitiate(_) => false,
            Nsp::ConnectConfirm(_) | Nsp::DisconnectInitiate(_) => false,
            Nsp::DisconnectConfirm(_) => false,
        }
    }

    pub(crate) fn is_long(&self, unit: &[u8]) -> bool
        ensures { result ≡ specs.is_long_unit (seen self.now) unit.now }
    {
        let Some(message) = message_in(unit) else {
            return false;
        };
        match message {
            Nsp::DataSegment(segment) => !self.is_in_room(&segment),
            Nsp::DataAck(_) | Nsp::LinkService(_) | Nsp::OtherDataAck(_) => false,
            Nsp::ConnectAck(_) | Nsp::NoOperation(_) | Nsp::ConnectInitiate(_) => false,
            Nsp::ConnectConfirm(_) | Nsp::DisconnectInitiate(_) => false,
            Nsp::DisconnectConfirm(_) => false,
        }
    }

    // A SEGSIZE passed for this segment, or it may be acknowledged.
    fn is_in_room(&self, segment: &Segment<'_>) -> bool
        ensures { result ≡ specs.is_in_room (seen self.now) (segment_view segment.now) }
    {
        let (own, far, number) = (segment.srcaddr, segment.dstaddr, segment.number);
        if self.is_short(own, far, segment.body.len()) {
            return true;
        }
        self.is_covered(own, far, number)
    }

    // A SEGSIZE passed for so many bytes.
    fn is_short(&self, own: u16, far: u16, bytes: usize) -> bool
        ensures { result ≡ (fits self.now.rooms 0 far bytes 0 || fits self.now.rooms own far bytes 0) }
    {
        if self.has_room(0, far, bytes) {
            return true;
        }
        self.has_room(own, far, bytes)
    }

    // A SEGSIZE from `far` to `own` passed for so many bytes.
    fn has_room(&self, own: u16, far: u16, bytes: usize) -> bool
        ensures { result ≡ fits self.now.rooms own far bytes 0 }
    {
        self.rooms.has(own, far, bytes)
    }

    // A right node may send this segment.
    fn is_right(&self, segment: &Segment<'_>) -> bool
        ensures { result ≡ specs.is_right (seen self.now) (segment_view segment.now) }
    {
        let (own, far, number) = (segment.srcaddr, segment.dstaddr, segment.number);
        if is_first(segment) {
            return true;
        }
        if self.sent(own, far, before(number), bit(segment.begins)) {
            return true;
        }
        self.is_acknowledged(own, far, number)
    }

    // One with this number was sent, and may be acknowledged.
    fn is_acknowledged(&self, own: u16, far: u16, number: u16) -> bool
        ensures { result ≡ ((has self.now.ends own far number 0 || has self.now.ends own far number 1)
            && specs.is_covered (λ n. has self.now.words own far n 0) number REACH) }
    {
        if self.was_sent(own, far, number) {
            return self.is_covered(own, far, number);
        }
        false
    }

    fn was_sent(&self, own: u16, far: u16, number: u16) -> bool
        ensures { result ≡ (has self.now.ends own far number 0 || has self.now.ends own far number 1) }
    {
        if self.sent(own, far, number, 0) {
            return true;
        }
        self.sent(own, far, number, 1)
    }

    // One with this number was sent, and ended its message, or did not.
    fn sent(&self, own: u16, far: u16, number: u16, end: u16) -> bool
        ensures { result ≡ has self.now.ends own far number end }
    {
        self.ends.has(own, far, number, end)
    }

    // The other side acknowledged this number.
    fn named(&self, own: u16, far: u16, number: u16) -> bool
        ensures { result ≡ has self.now.words own far number 0 }
    {
        self.words.has(own, far, number, 0)
    }

    // The other side acknowledged this number, or one so little above it.
    #[tactic(auto, using(crate::proofs::Known::none_covered))]
    fn is_covered(&self, own: u16, far: u16, number: u16) -> bool
        ensures { result ≡ specs.is_covered (λ n. has self.now.words own far n 0) number REACH }
    {
        for above in 0..REACH {
            if self.named(own, far, (number % 4096 + above) % 4096) {
                return true;
            }
        }
        false
    }

    pub(crate) fn is_other(&self, unit: &[u8]) -> bool
        ensures { result ≡ changes.is_changed_unit (seen self.now) (shown self.now.noted) unit.now }
    {
        let Some(message) = message_in(unit) else {
            return false;
        };
        match message {
            Nsp::DataSegment(segment) => self.carries_other(&segment),
            Nsp::DataAck(_) | Nsp::LinkService(_) | Nsp::OtherDataAck(_) => false,
            Nsp::ConnectAck(_) | Nsp::NoOperation(_) | Nsp::ConnectInitiate(_) => false,
            Nsp::ConnectConfirm(_) | Nsp::DisconnectInitiate(_) => false,
            Nsp::DisconnectConfirm(_) => false,
        }
    }

    // It carries something else than went first, of the same link, and can't be acknowledged.
    fn carries_other(&self, segment: &Segment<'_>) -> bool
        ensures { result ≡ changes.is_changed (seen self.now) (shown self.now.noted) (segment_view segment.now) }
    {
        if !self.noted.differs(segment) {
            return false;
        }
        if !self.noted.is_one_link(segment.srcaddr, segment.dstaddr) {
            return false;
        }
        !self.is_covered(segment.srcaddr, segment.dstaddr, segment.number)
    }
}

fn before(number: u16) -> u16
    ensures { result ≡ specs.before number }
{
    (number % 4096 + 4095) % 4096
}

fn is_first(segment: &Segment<'_>) -> bool
    ensures { result ≡ specs.is_first (segment_view segment.now) }
{
    segment.number == 1 && segment.begins
}
