//! The explanations of the reasons of the links.

ghost use Rattle.std.specs.Prelude.{◌≡◌};
ghost use Rattle.pair_judge.specs.Reason.{reason_of_links};

use crate::explanations::{Explanation, packets};
use dna_station::LinkRefusal;
use pair_judge::Reason;

/// What there is to say of this refusal of the links.
pub fn of_links(refusal: LinkRefusal) -> Explanation
    ensures { result.reason ≡ reason_of_links refusal }
{
    match refusal {
        LinkRefusal::WrongNode => packets::WRONG_NODE,
        LinkRefusal::NoLink => packets::NO_LINK,
        LinkRefusal::LinkState => packets::LINK_STATE,
        LinkRefusal::WrongSegment => WRONG_SEGMENT,
        LinkRefusal::WrongAck => WRONG_ACK,
        LinkRefusal::SegmentTooLong => SEGMENT_TOO_LONG,
        LinkRefusal::LinkWindowFull => LINK_WINDOW_FULL,
        LinkRefusal::WrongDelivery => WRONG_DELIVERY,
        LinkRefusal::CrossedLink => CROSSED_LINK,
        LinkRefusal::AddressInUse => ADDRESS_IN_USE,
    }
}

pub const WRONG_SEGMENT: Explanation = Explanation {
    reason: Reason::WrongSegment,
    seen: "\
a segment was sent that is neither the next piece nor an exact repeat.",
    rule: "\
a new segment has the number after the highest sent before, and the next
bytes of the message handed in, with bit 5 set exactly at its beginning and bit
6 exactly at its end. Only an empty message has an empty piece. Any other
segment repeats one of the last 2,047, with its flag byte and data as long as
that one is unacknowledged.",
    allowed: "\
the next piece of what `u in` lines handed in; or one of those
segments again, unchanged.",
    fault: "the sender",
    look_for: "\
- a `u in` that is missing, comes after its segments, or was written after the
  message had left
- a new segment without a line, after which all numbers are one too high
- node: segment numbers begin at 0; segment numbers begin at 2; SEGNUM has its
  high byte first; segments of all links are counted together; a reused address
  keeps its segment numbers; a segment that is sent again has a new number; a
  data acknowledgement uses up a segment number; the begin bit is missing; the
  end bit is missing; each piece has both bits; an empty piece follows a full
  last piece; a message that is sent again is cut elsewhere; a segment that is
  sent again has different data; an acknowledgement word before SEGNUM lacks
  bit 15 and is read as SEGNUM
- node, not a bug: a restart empties a queue, and a segment in it is lost
  before its first sending (an `x` line in format 3)",
    first: "\
see in `ddcap why` what differs: the number, the bits or the bytes.",
    sentence: "A new segment has the next number and the next piece of what the user handed in, and any other repeats an earlier one unchanged",
    page: "docs/REASONS.md#20-wrongsegment",
    table: "docs/LINKS.md#messages-in-pieces",
};

pub const WRONG_ACK: Explanation = Explanation {
    reason: Reason::WrongAck,
    seen: "\
an acknowledgement word names a wrong segment number.",
    rule: "\
an acknowledgement word of the data subchannel (ACK or NAK) names a
number from the last one sent on this link through the highest received without
a gap; in a repeated segment also an older one, down to 2,047 below the last.
Words of the other subchannel are not judged.",
    allowed: "\
a number in that range.",
    fault: "the sender",
    look_for: "\
- too high: a `k` line that is missing, is written as `r`, or comes after this
  unit
- a new segment that waited in a queue while a later number was sent: see check
  --queued
- node: the next expected number is acknowledged; a number after a gap is
  acknowledged; a number of another link is acknowledged; the last number sent
  is acknowledged; a reused address keeps its acknowledgement numbers
- node, not a bug: an acknowledgement waits in a queue of its own while a later
  one is sent",
    first: "\
if the number is too high, find the `k` line of the segment that it
names.",
    sentence: "An ACK or NAK of segments names a number from the last one sent through the highest received without a gap; a repeat may be older",
    page: "docs/REASONS.md#21-wrongack",
    table: "docs/LINKS.md#numbers-and-windows",
};

pub const SEGMENT_TOO_LONG: Explanation = Explanation {
    reason: Reason::SegmentTooLong,
    seen: "\
a new segment was sent with more data bytes than the other end takes.",
    rule: "\
a new segment has at most as many data bytes as the SEGSIZE in the other
end's CI or CC, the one that was acted on.",
    allowed: "\
that many data bytes, or fewer.",
    fault: "the sender",
    look_for: "\
- node: the node goes by its own SEGSIZE; the length of the NSP header is added
  to SEGSIZE; SEGSIZE has its high byte first",
    first: "\
compare SEGSIZE in `ddcap why` with the CI or CC that came first.",
    sentence: "A new segment has no more data bytes than the SEGSIZE that the other end gave in its CI or CC",
    page: "docs/REASONS.md#22-segmenttoolong",
    table: "docs/LINKS.md#numbers-and-windows",
};

pub const LINK_WINDOW_FULL: Explanation = Explanation {
    reason: Reason::LinkWindowFull,
    seen: "\
a new segment was sent while 2,047 of its link are unacknowledged.",
    rule: "\
at most 2,047 segments of a link may be unacknowledged.",
    allowed: "\
one of them again; or the new one, after an acknowledgement has
arrived.",
    fault: "the sender",
    look_for: "\
- the `k` line of a data acknowledgement, or of a segment with one: it is
  missing or comes after this unit
- node: there is no limit on unacknowledged segments
- node, not a bug: segments are acknowledged only in messages of the other
  subchannel",
    first: "\
find the last `k` line that acknowledged anything on this link.",
    sentence: "At most 2,047 segments of a link may be unacknowledged, so a new one waits until an acknowledgement makes room for it",
    page: "docs/REASONS.md#23-linkwindowfull",
    table: "docs/LINKS.md#numbers-and-windows",
};

pub const WRONG_DELIVERY: Explanation = Explanation {
    reason: Reason::WrongDelivery,
    seen: "\
the message of a `u up` line is not the next whole one of its link.",
    rule: "\
messages are delivered in the order of their segments, each once, and
only after all their segments, and all segments before those, were kept.",
    allowed: "\
the next whole message.",
    fault: "the receiver's own claim",
    look_for: "\
- a `k` line that is missing, is written as `r`, or comes after this line
- a message that was delivered earlier and has a second line
- a local address that was reused: `u up` then means the later link
- node: a message that arrives again is delivered again; each piece is
  delivered alone; a message after a gap is delivered; an empty message is not
  delivered; a message is delivered on the wrong link; the last byte of a
  message is lost",
    first: "\
find the message in the other side's `u in` lines.",
    sentence: "What is delivered on a link is its next whole message: in order, each once, and with no segment missing before its end",
    page: "docs/REASONS.md#24-wrongdelivery",
    table: "docs/LINKS.md#what-the-user-does",
};

pub const CROSSED_LINK: Explanation = Explanation {
    reason: Reason::CrossedLink,
    seen: "\
a link acted on a message that another link sent under the same
addresses.",
    rule: "\
a CC that is acted on must come from a link that goes with the receiver's
link. So must each message that is acted on in Confirming or RUN, except a DI
or DC. The protocol can't tell such messages apart, so neither node broke a
rule.",
    allowed: "\
a message of the link that goes with this one.",
    fault: "nobody",
    look_for: "\
- a hint that points to an earlier unit with the same bytes
- a missing CI
- a `k` line that should be `d`: the packet was lost above DDCMP
- node, not a bug: an address is used again while a message of its last link is
  under way",
    first: "\
see whether an earlier link had this address, and when it ended. If one
did, neither capture is wrong.",
    sentence: "A message that a link acts on was sent by the link that it goes with, not by an earlier one with the same address",
    page: "docs/REASONS.md#25-crossedlink",
    table: "docs/LINKS.md#what-an-arrival-does",
};

pub const ADDRESS_IN_USE: Explanation = Explanation {
    reason: Reason::AddressInUse,
    seen: "\
`u open`, `u accept` or `u reject` assigns a local address that is in
use.",
    rule: "\
a local address that is assigned must belong to no live link of the node.",
    allowed: "\
another address; the same one once its link is over.",
    fault: "the user, or the node if it chose the address",
    look_for: "\
- a missing `k` line of a DI or DC, so that the earlier link never ended here
- a recorder that mixes up the two ends of a link: in `u accept M L` the
  address of the other end comes first
- a missing `u boot`, where the node started anew
- node: an address is reused before the DC has arrived; addresses of opened and
  of called links are counted separately",
    first: "\
find what should have ended the earlier link with this address.",
    sentence: "The own address in u open, u accept or u reject is not that of a link of this node that is still live",
    page: "docs/REASONS.md#26-addressinuse",
    table: "docs/LINKS.md#what-the-user-does",
};
