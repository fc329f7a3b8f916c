//! How each row can be met.

ghost use Rattle.std.specs.Prelude.{◌≡◌, map, take};
ghost use Rattle.coverage.specs.Missing.{hint_row};
ghost use Rattle.coverage.specs.declared.order.TheConstants.{ORDER};

use crate::row::{
    AstrtArrival, Damage, LinkAct, Loss, MessageKind, Row, RunningArrival, Sending, UnitKind,
};
use dna_station::State;

/// How many rows those of stations are. They come first.
pub const STATION_ROWS: usize = 56;

/// A row, and what meets it: steps of a script with `, ` between them, of which the first may be the name of a set-up; or words, where no script
/// does.
#[derive(Clone, Copy, PartialEq, Eq)]
pub struct Hint(pub Row, pub &'static str);

/// A name for the first steps of scripts, and these steps, of which the first may be a name before it.
#[derive(Clone, Copy, PartialEq, Eq)]
pub struct Setup(pub &'static str, pub &'static str);

// `tools/tests/test_cover` plays each.
static HINTS: [Hint; 88] = [
    Hint(Row::Start, "a start"),
    Hint(Row::Halt(State::Halted), "a halt"),
    Hint(Row::Halt(State::Istrt), "a start, a halt"),
    Hint(Row::Halt(State::Astrt), "strt, b halt"),
    Hint(Row::Halt(State::Running), "run, a halt"),
    Hint(Row::Sends(Sending::Strt), "a start, a send"),
    Hint(Row::Sends(Sending::Stack), "strt, b send"),
    Hint(Row::Sends(Sending::Ack), "run"),
    Hint(Row::Sends(Sending::NakOfCause), "run, b noise -, b send"),
    Hint(
        Row::Sends(Sending::OtherNak),
        "no script does: the node must send one",
    ),
    Hint(Row::Sends(Sending::Rep), "call, a timer, a send"),
    Hint(Row::Sends(Sending::NewData), "run, a open, a send"),
    Hint(
        Row::Sends(Sending::DataAgain),
        "lost, b noise -, b send, a deliver, a send",
    ),
    Hint(Row::ToHalted(UnitKind::Strt), "a start, a send, b deliver"),
    Hint(
        Row::ToHalted(UnitKind::Stack),
        "strt, b send, a halt, a deliver",
    ),
    Hint(
        Row::ToHalted(UnitKind::Ack),
        "run, b timer, b send, a halt, a deliver",
    ),
    Hint(
        Row::ToHalted(UnitKind::Nak),
        "run, b noise -, b send, a halt, a deliver",
    ),
    Hint(
        Row::ToHalted(UnitKind::Rep),
        "call, a timer, a send, b halt, b deliver",
    ),
    Hint(
        Row::ToHalted(UnitKind::Data),
        "run, a open, a send, b halt, b deliver",
    ),
    Hint(Row::ToIstrt(UnitKind::Strt), "strt"),
    Hint(Row::ToIstrt(UnitKind::Stack), "stack"),
    Hint(
        Row::ToIstrt(UnitKind::Ack),
        "again, b timer, b send, a deliver",
    ),
    Hint(
        Row::ToIstrt(UnitKind::Nak),
        "again, b noise -, b send, a deliver",
    ),
    Hint(
        Row::ToIstrt(UnitKind::Rep),
        "back, a timer, a send, b deliver",
    ),
    Hint(
        Row::ToIstrt(UnitKind::Data),
        "again, b open, b send, a deliver",
    ),
    Hint(
        Row::ToAstrt(AstrtArrival::Strt),
        "strt, a timer, a send, b deliver",
    ),
    Hint(Row::ToAstrt(AstrtArrival::Stack), "both, a send, b deliver"),
    Hint(Row::ToAstrt(AstrtArrival::AckOfNone), "run"),
    Hint(Row::ToAstrt(AstrtArrival::AckOfSome), "no pair can meet it"),
    Hint(
        Row::ToAstrt(AstrtArrival::Nak),
        "stack, a noise -, a send, b deliver",
    ),
    Hint(
        Row::ToAstrt(AstrtArrival::Rep),
        "early, a timer, a send, b deliver",
    ),
    Hint(
        Row::ToAstrt(AstrtArrival::Kept),
        "stack, a open, a send, b deliver",
    ),
    Hint(
        Row::ToAstrt(AstrtArrival::NoBuffer),
        "stack, a open, a send, b refuse",
    ),
    Hint(
        Row::ToAstrt(AstrtArrival::RepeatOrGap),
        "early, a open, a send, b deliver",
    ),
    Hint(
        Row::ToAstrt(AstrtArrival::DataOfSome),
        "no pair can meet it",
    ),
    Hint(
        Row::ToRunning(RunningArrival::Strt),
        "again, a send, b deliver",
    ),
    Hint(
        Row::ToRunning(RunningArrival::Stack),
        "stack, b timer, b send, a deliver",
    ),
    Hint(
        Row::ToRunning(RunningArrival::Ack),
        "run, a timer, a send, b deliver",
    ),
    Hint(
        Row::ToRunning(RunningArrival::Nak),
        "run, a noise -, a send, b deliver",
    ),
    Hint(
        Row::ToRunning(RunningArrival::RepOfLast),
        "call, a timer, a send, b deliver",
    ),
    Hint(
        Row::ToRunning(RunningArrival::RepOfOther),
        "lost, a timer, a send, b deliver",
    ),
    Hint(Row::ToRunning(RunningArrival::Kept), "call"),
    Hint(
        Row::ToRunning(RunningArrival::NoBuffer),
        "run, a open, a send, b refuse",
    ),
    Hint(
        Row::ToRunning(RunningArrival::RepeatOrGap),
        "lost, a open, a send, b deliver",
    ),
    Hint(Row::Damaged(State::Halted, Damage::Header), "a noise -"),
    Hint(
        Row::Damaged(State::Halted, Damage::Data),
        "a noise 810100000101e381",
    ),
    Hint(
        Row::Damaged(State::Istrt, Damage::Header),
        "a start, a noise -",
    ),
    Hint(
        Row::Damaged(State::Istrt, Damage::Data),
        "a start, a noise 810100000101e381",
    ),
    Hint(
        Row::Damaged(State::Astrt, Damage::Header),
        "strt, b noise -",
    ),
    Hint(
        Row::Damaged(State::Astrt, Damage::Data),
        "strt, b noise 810100000101e381",
    ),
    Hint(
        Row::Damaged(State::Running, Damage::Header),
        "run, a noise -",
    ),
    Hint(
        Row::Damaged(State::Running, Damage::Data),
        "run, a noise 810100000101e381",
    ),
    Hint(Row::Boot(State::Halted), "a boot"),
    Hint(Row::Boot(State::Istrt), "a start, a boot"),
    Hint(Row::Boot(State::Astrt), "strt, b boot"),
    Hint(Row::Boot(State::Running), "run, a boot"),
    Hint(Row::LinkUser(LinkAct::Open), "a open"),
    Hint(Row::LinkUser(LinkAct::Accept), "call, b accept 1"),
    Hint(Row::LinkUser(LinkAct::Reject), "call, b reject 1"),
    Hint(Row::LinkUser(LinkAct::In), "link, a in 1 61"),
    Hint(
        Row::LinkUser(LinkAct::Up),
        "link, a in 1 61, a send, b deliver",
    ),
    Hint(Row::LinkUser(LinkAct::Close), "link, a close 1"),
    Hint(Row::LinkUser(LinkAct::Boot), "a boot"),
    Hint(Row::LinkUser(LinkAct::Abort), "a open, a abort 1"),
    Hint(
        Row::LinkSends(MessageKind::ConnectInitiate),
        "run, a open, a send",
    ),
    Hint(Row::LinkSends(MessageKind::ConnectAck), "call, b send"),
    Hint(
        Row::LinkSends(MessageKind::ConnectConfirm),
        "call, b accept 1, b send",
    ),
    Hint(
        Row::LinkSends(MessageKind::DisconnectInitiate),
        "link, a close 1, a send",
    ),
    Hint(
        Row::LinkSends(MessageKind::DisconnectConfirm),
        "closed, b send",
    ),
    Hint(
        Row::LinkSends(MessageKind::Segment),
        "link, a in 1 61, a send",
    ),
    Hint(Row::LinkSends(MessageKind::DataAck), "link"),
    Hint(
        Row::LinkSends(MessageKind::LinkService),
        "no script does: the node must send one",
    ),
    Hint(
        Row::LinkSends(MessageKind::Interrupt),
        "no script does: the node must send one",
    ),
    Hint(
        Row::LinkSends(MessageKind::OtherDataAck),
        "no script does: the node must send one",
    ),
    Hint(
        Row::LinkSends(MessageKind::NoOperation),
        "no script does: the node must send one",
    ),
    Hint(Row::LinkGets(MessageKind::ConnectInitiate), "call"),
    Hint(
        Row::LinkGets(MessageKind::ConnectAck),
        "call, b send, a deliver",
    ),
    Hint(
        Row::LinkGets(MessageKind::ConnectConfirm),
        "call, b accept 1, b send, a deliver",
    ),
    Hint(Row::LinkGets(MessageKind::DisconnectInitiate), "closed"),
    Hint(
        Row::LinkGets(MessageKind::DisconnectConfirm),
        "closed, b send, a deliver",
    ),
    Hint(
        Row::LinkGets(MessageKind::Segment),
        "link, a in 1 61, a send, b deliver",
    ),
    Hint(Row::LinkGets(MessageKind::DataAck), "link"),
    Hint(
        Row::LinkGets(MessageKind::LinkService),
        "no script does: the peer must send one",
    ),
    Hint(
        Row::LinkGets(MessageKind::Interrupt),
        "no script does: the peer must send one",
    ),
    Hint(
        Row::LinkGets(MessageKind::OtherDataAck),
        "no script does: the peer must send one",
    ),
    Hint(
        Row::LinkGets(MessageKind::NoOperation),
        "no script does: the peer must send one",
    ),
    Hint(Row::Lost(Loss::Above), "run, a open, a send, b drop"),
    Hint(
        Row::Lost(Loss::Unsent),
        "no script does: the node must lose one",
    ),
];

/// A hint for each row, in their order.
pub fn all_hints() -> &'static [Hint]
    ensures { map hint_row result.now ≡ ORDER }
{
    &HINTS
}

/// Those of the rows of stations.
pub fn station_hints() -> &'static [Hint]
    ensures { map hint_row result.now ≡ take 56 ORDER }
{
    &HINTS[..STATION_ROWS]
}
