//! The explanations of the reasons of units, hints, the line and noise.

ghost use Rattle.std.specs.Prelude.{◌≡◌};
ghost use Rattle.pair_judge.specs.Reason.{reason_of_step};

use crate::explanations::links::of_links;
use crate::explanations::stations::of_station;
use crate::explanations::{Explanation, packets};
use dna_station::StepRefusal;
use pair_judge::Reason;

/// What there is to say of this refusal of a node.
pub fn of_step(refusal: StepRefusal) -> Explanation
    ensures { result.reason ≡ reason_of_step refusal }
{
    match refusal {
        StepRefusal::NotAMessage => NOT_A_MESSAGE,
        StepRefusal::HintOrder => HINT_ORDER,
        StepRefusal::Undetected => UNDETECTED,
        StepRefusal::Station(refusal) => of_station(refusal),
        StepRefusal::BadPacket => packets::BAD_PACKET,
        StepRefusal::BadNsp => packets::BAD_NSP,
        StepRefusal::Links(refusal) => of_links(refusal),
        StepRefusal::NotNoise => NOT_NOISE,
    }
}

pub const NOT_A_MESSAGE: Explanation = Explanation {
    reason: Reason::NotAMessage,
    seen: "\
the bytes that were sent are not a valid DDCMP message.",
    rule: "\
a unit that is sent has one of the formats in docs/PROTOCOL.md, with
correct block checks.",
    allowed: "\
any message in one of these formats.",
    fault: "the sender",
    look_for: "\
- SYN or pad bytes left in the unit, or a unit that was cut
- checks left out because the line's hardware adds them
- node: the two bytes of a block check are swapped; the check of the data is
  left out; a block check is started at ffff; COUNT counts the check bytes too;
  COUNT has its high byte first; ADDR is 0; an ACK carries NUM; a REP carries
  RESP; a NAK has an unknown reason; an empty data message is sent as a
  keep-alive; a maintenance message (MOP) is sent",
    first: "\
see what `ddcap why` finds wrong: the number of bytes, a block check, or
the format.",
    sentence: "A unit that is sent is a DDCMP message in one of the formats of the standard, with the right block checks",
    page: "docs/REASONS.md#1-notamessage",
    table: "docs/PROTOCOL.md#units",
};

pub const HINT_ORDER: Explanation = Explanation {
    reason: Reason::HintOrder,
    seen: "\
a received unit has a hint that is not above all earlier ones on its
side.",
    rule: "\
a line neither repeats nor reorders units, so hints only rise. The hint
is the number that `ddcap show` prints, in every format.",
    allowed: "\
the hint of a later unit.",
    fault: "the hints",
    look_for: "\
- hints that start again at 0 with each start, or with a second session in the
  same file
- received units written out of order
- hints matched to the undamaged units first, so that none was left for a
  damaged one (docs/CAPTURES.md, \"An alignment\")
- node: the driver sends a unit twice; the driver sends an ACK before data that
  waits",
    first: "\
find the earlier received unit with this hint or a higher one.",
    sentence: "The hint of a receipt is above the hints of all earlier receipts, since a line neither repeats nor reorders units",
    page: "docs/REASONS.md#2-hintorder",
    table: "docs/PROTOCOL.md#the-line",
};

pub const NO_SUCH_UNIT: Explanation = Explanation {
    reason: Reason::NoSuchUnit,
    seen: "\
the hint of a received unit names a unit that the other side never sends:
the other capture was read to the end, and has too few `s` lines.",
    rule: "\
what is received was sent, so a hint is below the number of `s` lines on
the other side.",
    allowed: "\
the hint of a unit in the other capture.",
    fault: "the hints, or captures that do not pair",
    look_for: "\
- the other capture: it ends before this one, or was cut
- missing `s` lines in it
- hints that are too high, because they count from 1 or count lines
- captures of two sessions, or mismatched heads",
    first: "\
compare the ends of both captures. If the other one merely ends earlier,
cut this one there.",
    sentence: "The hint of a receipt names a unit that the other side sends, so it is below the number of s lines in the other capture",
    page: "docs/REASONS.md#3-nosuchunit",
    table: "docs/PROTOCOL.md#the-line",
};

pub const NO_ORDER: Explanation = Explanation {
    reason: Reason::NoOrder,
    seen: "\
the next record of each side receives a unit that the other has not sent
yet. Side a's record is named, but b's may equally be the wrong one.",
    rule: "\
a unit is received after it was sent, so all records must fit into one
order.",
    allowed: "\
receiving a unit that the other side can send first.",
    fault: "the hints, or captures that do not pair",
    look_for: "\
- hints that are all shifted
- a missing `s` line on either side, or one after its answer was received
- captures of two sessions",
    first: "\
look at the record at which b waits, too; `ddcap why` shows its hint.",
    sentence: "A unit is received after it was sent, so the two sides never both wait for a unit that the other one has not sent yet",
    page: "docs/REASONS.md#4-noorder",
    table: "docs/PROTOCOL.md#the-line",
};

pub const UNDETECTED: Explanation = Explanation {
    reason: Reason::Undetected,
    seen: "\
the received bytes are not those of the unit that the hint names, yet no
block check shows damage: they read as valid, or as malformed.",
    rule: "\
bytes arrive as they were sent, or a block check shows the damage.",
    allowed: "\
the unit's own bytes, or bytes that read as header bad or data bad.",
    fault: "the line, or captures that do not pair",
    look_for: "\
- hints that are shifted from some record on
- a missing `s` line in the other capture
- captures of two sessions or of two lines, or the same one twice
- damage that both block checks miss, which is rare: about one damaged unit in
  65,536
- node: a buffer is reused while its unit waits in the driver; the driver
  updates RESP in a unit that waits",
    first: "\
find the same bytes in a nearby `s` line of the other side: the hint
should point there.",
    sentence: "The bytes that are received are those of the unit that was sent, or a block check shows that they are damaged",
    page: "docs/REASONS.md#5-undetected",
    table: "docs/PROTOCOL.md#the-line",
};

pub const NOT_NOISE: Explanation = Explanation {
    reason: Reason::NotNoise,
    seen: "\
an `n` line has bytes that show no damage.",
    rule: "\
the bytes of an `n` line are not a unit of the peer, and a block check
shows it: they read as header bad or data bad.",
    allowed: "\
`n -`, since fewer than 8 bytes read as a bad header; or, if a unit of
the other side has these bytes, an `r` line with its hint.",
    fault: "the receiver's own claim",
    look_for: "\
- a received unit written as noise because its `s` line was not found: it is
  missing in the other capture, or the alignment is wrong
- a framer that takes a unit of another station, or a maintenance message, for
  one of this peer
- node: an unexpected unit is recorded as noise",
    first: "\
find these bytes in the `s` lines of the other side.",
    sentence: "The bytes of an n line show damage: a block check is wrong, or they are too few for a message",
    page: "docs/REASONS.md#27-notnoise",
    table: "docs/PROTOCOL.md#the-line",
};
