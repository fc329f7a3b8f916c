//! The explanations of the reasons of stations.

ghost use Rattle.std.specs.Prelude.{◌≡◌};
ghost use Rattle.pair_judge.specs.Reason.{reason_of_station};

use crate::explanations::Explanation;
use dna_station::StationRefusal;
use pair_judge::Reason;

/// What there is to say of this refusal of a station.
pub fn of_station(refusal: StationRefusal) -> Explanation
    ensures { result.reason ≡ reason_of_station refusal }
{
    match refusal {
        StationRefusal::WrongState => WRONG_STATE,
        StationRefusal::WrongNumber => WRONG_NUMBER,
        StationRefusal::WrongResponse => WRONG_RESPONSE,
        StationRefusal::WindowFull => WINDOW_FULL,
        StationRefusal::Changed => CHANGED,
        StationRefusal::NoCause => NO_CAUSE,
        StationRefusal::WrongKeep => WRONG_KEEP,
        StationRefusal::CrossedPeriod => CROSSED_PERIOD,
        StationRefusal::WrongUserEvent => WRONG_USER_EVENT,
    }
}

pub const WRONG_STATE: Explanation = Explanation {
    reason: Reason::WrongState,
    seen: "\
the station sent a message that its state does not allow.",
    rule: "\
each state allows certain messages, and HALTED none.",
    allowed: "\
STRT in ISTRT; STACK in ASTRT; ACK, NAK and data in RUNNING; REP in
RUNNING while a packet is unacknowledged.",
    fault: "the sender",
    look_for: "\
- a capture that begins in the middle of a session
- a missing `u start`, especially where the station restarted by itself
- the STRT or STACK that is answered here: its line is missing or too late
- a STRT that arrived in RUNNING, which halts the station
- for a REP, the acknowledgement that arrived just before it
- node: data is sent before the start is complete; a STRT is answered with an
  ACK; STRT is repeated after a STRT has arrived; the startup timer still runs
  after the start; a STRT in RUNNING is ignored; a STRT in RUNNING is answered
  with a STACK; the REP timer still runs when all is acknowledged",
    first: "\
compare the state in `ddcap why` with what the node did last.",
    sentence: "STRT is sent in ISTRT, STACK in ASTRT, ACK, NAK and data in RUNNING, and REP in RUNNING while a packet is unacknowledged",
    page: "docs/REASONS.md#6-wrongstate",
    table: "docs/PROTOCOL.md#what-may-be-sent",
};

pub const WRONG_NUMBER: Explanation = Explanation {
    reason: Reason::WrongNumber,
    seen: "\
a data message or a REP was sent with the wrong NUM.",
    rule: "\
NUM of a data message is the next number to send: 1 after a start, then
one more each time. After a NAK has arrived it is the first unacknowledged one
again. It is never one that is acknowledged already. NUM of a REP is the
highest number assigned to a packet.",
    allowed: "\
that number.",
    fault: "the sender",
    look_for: "\
- an earlier data message without a line
- a received NAK: its line is missing, too early or too late
- a missing `u start`, if the number is 1
- node: the first data message has number 0; after number 255 comes 1; NUM goes
  on after a restart; the retransmission state is not reset at a start; a timer
  sends data again, without a NAK; after a NAK only one packet is sent again; a
  NAK is ignored; RESP of a NAK acknowledges nothing; REP asks for the next
  number; REP asks for the first unacknowledged one",
    first: "\
if NUM is too high, look for a missing `s` line before it. If it is too
low, look for the NAK that made the station go back.",
    sentence: "NUM of a data message is T, the number that is next to send, and NUM of a REP is N, the highest number given",
    page: "docs/REASONS.md#7-wrongnumber",
    table: "docs/PROTOCOL.md#what-may-be-sent",
};

pub const WRONG_RESPONSE: Explanation = Explanation {
    reason: Reason::WrongResponse,
    seen: "\
an ACK, a NAK or a data message was sent with the wrong RESP.",
    rule: "\
RESP is the number of the last data message that the station received in
order, 0 at first.",
    allowed: "\
that number.",
    fault: "the sender",
    look_for: "\
- RESP too high: a `k` line that is missing, comes after this unit, or is
  written as `r`
- RESP too low: a `k` line that is too early, for example written when the
  bytes passed, or a packet that was not kept after all
- RESP too low: an `s` line written when the last bit left, not when the unit
  was decided on
- node: a whole frame is kept and sent again with its old RESP; RESP is the
  next expected number; RESP of data messages is always 0; RESP counts a
  message after a gap; RESP counts a message that found no buffer; RESP counts
  a damaged message; RESP goes on after a restart; RESP is counted modulo 128",
    first: "\
find the `k` lines of the message that RESP names and of the next one.
This record belongs between them.",
    sentence: "RESP of an ACK, a NAK or a data message is R, the number of the last data message that the station received in order",
    page: "docs/REASONS.md#8-wrongresponse",
    table: "docs/PROTOCOL.md#what-may-be-sent",
};

pub const WINDOW_FULL: Explanation = Explanation {
    reason: Reason::WindowFull,
    seen: "\
a new packet was sent while 255 are unacknowledged.",
    rule: "\
at most 255 packets may be unacknowledged.",
    allowed: "\
one of them again, after a NAK; a REP; or the new packet, after an
acknowledgement.",
    fault: "the sender",
    look_for: "\
- a received ACK, NAK or data message: its line is missing or comes after this
  unit
- node: there is no limit on unacknowledged packets; 256 packets may be
  unacknowledged",
    first: "\
find the last received unit that acknowledged anything.",
    sentence: "At most 255 packets may be unacknowledged, so a new one waits until an acknowledgement makes room for it",
    page: "docs/REASONS.md#9-windowfull",
    table: "docs/PROTOCOL.md#what-may-be-sent",
};

pub const CHANGED: Explanation = Explanation {
    reason: Reason::Changed,
    seen: "\
a packet was sent again with data different from the first time.",
    rule: "\
a packet that is sent again has the data of its first sending.",
    allowed: "\
the same data.",
    fault: "the sender",
    look_for: "\
- a restart without its `u start`, after which the numbers mean other packets
- bytes taken from a buffer that was reused
- node: FORWARD is counted up again; a packet is composed again with a newer
  acknowledgement number; the buffer of an unacknowledged packet is reused; an
  urgent packet takes over a number",
    first: "\
compare the byte that `ddcap why` names in both sendings.",
    sentence: "A packet that is sent again, under a number given before, has the data of its first sending",
    page: "docs/REASONS.md#10-changed",
    table: "docs/PROTOCOL.md#sending-again",
};

pub const NO_CAUSE: Explanation = Explanation {
    reason: Reason::NoCause,
    seen: "\
a NAK of reason 1, 2, 3 or 8 was sent, and nothing is left for it to
answer.",
    rule: "\
such a NAK answers something that arrived in RUNNING since the start, and
each such thing once. Reason 1: a unit or noise with a bad header. Reason 2:
one with bad data. Reason 3: a REP whose number is not that of the last packet
received. Reason 8: the next packet, if it found no buffer, even if its message
has just completed the start.",
    allowed: "\
an ACK; a NAK of reason 9, 16 or 17, which need no cause.",
    fault: "the sender",
    look_for: "\
- the unit that it answers: its line is missing or comes after this one.
  Recorders often drop damaged units
- noise between two units, without its `n` line
- node: two NAKs answer one damaged unit; damaged data is answered with reason
  1; data after a gap is answered with a NAK; each REP is answered with a NAK;
  damage from before the start is answered after it; a valid unit is taken for
  a damaged one",
    first: "\
find what the node answered: a damaged unit, a REP, or a packet without
a buffer.",
    sentence: "A NAK of reason 1, 2, 3 or 8 needs something that caused it since the start, and each cause is answered at most once",
    page: "docs/REASONS.md#11-nocause",
    table: "docs/PROTOCOL.md#causes-of-a-nak",
};

pub const WRONG_KEEP: Explanation = Explanation {
    reason: Reason::WrongKeep,
    seen: "\
a `k` line says that the station accepted a packet that it could not
accept.",
    rule: "\
a packet is accepted only from an undamaged data message with the number
after the last one received, in RUNNING or, with RESP 0, in ASTRT.",
    allowed: "\
an `r` line. It is correct for the next packet too, if there was no
buffer.",
    fault: "the receiver's own claim",
    look_for: "\
- an earlier `k` line that is missing or written as `r`
- a recorder that writes `k` for every data message, even repeats
- node: a packet that arrives again is kept again; a packet after a gap is
  kept; a packet with a wrong check is kept; a packet is kept before RUNNING",
    first: "\
compare NUM of the unit with R in `ddcap why`. If NUM is above R + 1,
look for a missing `k` line before it.",
    sentence: "A packet is kept only from an undamaged data message with NUM R + 1, in RUNNING or, where its RESP is 0, in ASTRT",
    page: "docs/REASONS.md#12-wrongkeep",
    table: "docs/PROTOCOL.md#what-an-arrival-does",
};

pub const CROSSED_PERIOD: Explanation = Explanation {
    reason: Reason::CrossedPeriod,
    seen: "\
a station acted on a message from another pair of starts.",
    rule: "\
a STACK that completes a start must answer that start. Any other message,
except a STRT, must come from the start of the other side that goes with the
present one here, and from a station that took the two for a pair too. The
protocol can't tell such messages apart, so neither station broke a rule.",
    allowed: "\
the STACK that answers the present start; a message of the start that
goes with it.",
    fault: "nobody",
    look_for: "\
- a hint that points to an earlier start, if units with the same bytes were
  sent in both
- an extra `u start` here, or a missing one on the other side
- node, not a bug: both ends restart at once, and a message of an earlier start
  arrives",
    first: "\
see whether a station restarted just before. If so, neither capture is
wrong.",
    sentence: "A message that a station acts on belongs to the present pair of starts; only a STRT may begin another one",
    page: "docs/REASONS.md#13-crossedperiod",
    table: "docs/PROTOCOL.md#the-rule-on-periods",
};

pub const WRONG_USER_EVENT: Explanation = Explanation {
    reason: Reason::WrongUserEvent,
    seen: "\
a `u start` comes while the station is not halted.",
    rule: "\
a station can start only in HALTED.",
    allowed: "\
a halt first, which is possible in every state.",
    fault: "the user, or the node if it started by itself",
    look_for: "\
- a missing `u halt`, for example where the station restarted by itself
- a missing line for the STRT that halted it
- two sessions in one file
- a recorder that writes `u start` for every STRT sent
- node: a station that gets no answer starts again without a halt; each
  repetition of STRT is a new start",
    first: "\
find out why the station started again.",
    sentence: "A station is started only in HALTED, so in any other state it is halted before it is started again",
    page: "docs/REASONS.md#14-wronguserevent",
    table: "docs/PROTOCOL.md#what-a-station-keeps",
};
