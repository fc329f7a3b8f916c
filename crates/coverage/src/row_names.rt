//! The place of each row, and its name.

ghost use Rattle.std.specs.Prelude.{◌≡◌, ◌<◌};
ghost use Rattle.coverage.specs.Row as spec;

use crate::row::{
    AstrtArrival, Damage, LinkAct, Loss, MessageKind, Row, RunningArrival, Sending, UnitKind,
};
use dna_station::State;
use std::fmt;

impl Row {
    /// Its place in the order of the rows, 0 to 87.
    #[inline(always)]
    pub fn place(self) -> usize
        ensures place { result ≡ spec.place self }
        ensures below { result < 88 }
    {
        match self {
            Row::Start => 0,
            Row::Halt(state) => 1 + state_entry(state).0,
            Row::Sends(sending) => 5 + sending_entry(sending).0,
            Row::ToHalted(kind) => 13 + unit_entry(kind).0,
            Row::ToIstrt(kind) => 19 + unit_entry(kind).0,
            Row::ToAstrt(arrival) => 25 + astrt_entry(arrival).0,
            Row::ToRunning(arrival) => 35 + running_entry(arrival).0,
            Row::Damaged(state, damage) => 44 + 2 * state_entry(state).0 + damage_entry(damage).0,
            Row::Boot(state) => 52 + state_entry(state).0,
            Row::LinkUser(act) => 56 + act_entry(act).0,
            Row::LinkSends(kind) => 64 + message_entry(kind).0,
            Row::LinkGets(kind) => 75 + message_entry(kind).0,
            Row::Lost(loss) => 86 + loss_entry(loss).0,
        }
    }
}

/// Printed as its name: `RUNNING sends ACK`.
impl fmt::Display for Row {
    ghost use Rattle.std.specs.Prelude.{Some};
    ghost use Rattle.coverage.specs.Row.{name};

    ghost output = { λ row. Some (name row) };

    fn fmt<W: fmt::Write>(&self, f: &mut fmt::Formatter<W>) -> fmt::Result {
        match *self {
            Row::Start => f.write_str("HALTED user start"),
            Row::Halt(state) => {
                let (_, state) = state_entry(state);
                write!(f, "{state} user halt")
            }
            Row::Sends(sending) => f.write_str(sending_entry(sending).1),
            Row::ToHalted(kind) => {
                let (_, kind) = unit_entry(kind);
                write!(f, "HALTED gets {kind}")
            }
            Row::ToIstrt(kind) => {
                let (_, kind) = unit_entry(kind);
                write!(f, "ISTRT gets {kind}")
            }
            Row::ToAstrt(arrival) => {
                let (_, arrival) = astrt_entry(arrival);
                write!(f, "ASTRT gets {arrival}")
            }
            Row::ToRunning(arrival) => {
                let (_, arrival) = running_entry(arrival);
                write!(f, "RUNNING gets {arrival}")
            }
            Row::Damaged(state, damage) => {
                let (_, state) = state_entry(state);
                let (_, damage) = damage_entry(damage);
                write!(f, "{state} damage {damage}")
            }
            Row::Boot(state) => {
                let (_, state) = state_entry(state);
                write!(f, "{state} user boot")
            }
            Row::LinkUser(act) => {
                let (_, act) = act_entry(act);
                write!(f, "link user {act}")
            }
            Row::LinkSends(kind) => {
                let (_, kind) = message_entry(kind);
                write!(f, "link sends {kind}")
            }
            Row::LinkGets(kind) => {
                let (_, kind) = message_entry(kind);
                write!(f, "link gets {kind}")
            }
            Row::Lost(loss) => {
                let (_, loss) = loss_entry(loss);
                write!(f, "link packet {loss}")
            }
        }
    }
}

// Each state: its place among them, and its name.
#[inline(always)]
fn state_entry<'a>(state: State) -> (usize, &'a str)
    ensures place { result.0 ≡ (spec.state_entry state).0 }
    ensures name { result.1.now ≡ (spec.state_entry state).1 }
    ensures below { result.0 < 4 }
{
    match state {
        State::Halted => (0, "HALTED"),
        State::Istrt => (1, "ISTRT"),
        State::Astrt => (2, "ASTRT"),
        State::Running => (3, "RUNNING"),
    }
}

// What is sent: its place, and the name of its row.
#[inline(always)]
fn sending_entry<'a>(sending: Sending) -> (usize, &'a str)
    ensures place { result.0 ≡ (spec.sending_entry sending).0 }
    ensures name { result.1.now ≡ (spec.sending_entry sending).1 }
    ensures below { result.0 < 8 }
{
    match sending {
        Sending::Strt => (0, "ISTRT sends STRT"),
        Sending::Stack => (1, "ASTRT sends STACK"),
        Sending::Ack => (2, "RUNNING sends ACK"),
        Sending::NakOfCause => (3, "RUNNING sends NAK 1 2 3 8"),
        Sending::OtherNak => (4, "RUNNING sends NAK 9 16 17"),
        Sending::Rep => (5, "RUNNING sends REP"),
        Sending::NewData => (6, "RUNNING sends data, new"),
        Sending::DataAgain => (7, "RUNNING sends data, again"),
    }
}

// A unit: its place, and its name.
#[inline(always)]
fn unit_entry<'a>(kind: UnitKind) -> (usize, &'a str)
    ensures place { result.0 ≡ (spec.unit_entry kind).0 }
    ensures name { result.1.now ≡ (spec.unit_entry kind).1 }
    ensures below { result.0 < 6 }
{
    match kind {
        UnitKind::Strt => (0, "STRT"),
        UnitKind::Stack => (1, "STACK"),
        UnitKind::Ack => (2, "ACK"),
        UnitKind::Nak => (3, "NAK"),
        UnitKind::Rep => (4, "REP"),
        UnitKind::Data => (5, "DATA"),
    }
}

// What comes in ASTRT: its place, and its name.
#[inline(always)]
fn astrt_entry<'a>(arrival: AstrtArrival) -> (usize, &'a str)
    ensures place { result.0 ≡ (spec.astrt_entry arrival).0 }
    ensures name { result.1.now ≡ (spec.astrt_entry arrival).1 }
    ensures below { result.0 < 10 }
{
    match arrival {
        AstrtArrival::Strt => (0, "STRT"),
        AstrtArrival::Stack => (1, "STACK"),
        AstrtArrival::AckOfNone => (2, "ACK RESP 0"),
        AstrtArrival::AckOfSome => (3, "ACK RESP not 0"),
        AstrtArrival::Nak => (4, "NAK"),
        AstrtArrival::Rep => (5, "REP"),
        AstrtArrival::Kept => (6, "DATA RESP 0, next, kept"),
        AstrtArrival::NoBuffer => (7, "DATA RESP 0, next, no buffer"),
        AstrtArrival::RepeatOrGap => (8, "DATA RESP 0, repeat or gap"),
        AstrtArrival::DataOfSome => (9, "DATA RESP not 0"),
    }
}

// What comes in RUNNING: its place, and its name.
#[inline(always)]
fn running_entry<'a>(arrival: RunningArrival) -> (usize, &'a str)
    ensures place { result.0 ≡ (spec.running_entry arrival).0 }
    ensures name { result.1.now ≡ (spec.running_entry arrival).1 }
    ensures below { result.0 < 9 }
{
    match arrival {
        RunningArrival::Strt => (0, "STRT"),
        RunningArrival::Stack => (1, "STACK"),
        RunningArrival::Ack => (2, "ACK"),
        RunningArrival::Nak => (3, "NAK"),
        RunningArrival::RepOfLast => (4, "REP NUM R"),
        RunningArrival::RepOfOther => (5, "REP NUM not R"),
        RunningArrival::Kept => (6, "DATA, next, kept"),
        RunningArrival::NoBuffer => (7, "DATA, next, no buffer"),
        RunningArrival::RepeatOrGap => (8, "DATA, repeat or gap"),
    }
}

// Damage: its place, and its name.
#[inline(always)]
fn damage_entry<'a>(damage: Damage) -> (usize, &'a str)
    ensures place { result.0 ≡ (spec.damage_entry damage).0 }
    ensures name { result.1.now ≡ (spec.damage_entry damage).1 }
    ensures below { result.0 < 2 }
{
    match damage {
        Damage::Header => (0, "header bad"),
        Damage::Data => (1, "data bad"),
    }
}

// What a user does: its place, and its name.
#[inline(always)]
fn act_entry<'a>(act: LinkAct) -> (usize, &'a str)
    ensures place { result.0 ≡ (spec.act_entry act).0 }
    ensures name { result.1.now ≡ (spec.act_entry act).1 }
    ensures below { result.0 < 8 }
{
    match act {
        LinkAct::Open => (0, "OPEN"),
        LinkAct::Accept => (1, "ACCEPT"),
        LinkAct::Reject => (2, "REJECT"),
        LinkAct::In => (3, "IN"),
        LinkAct::Up => (4, "UP"),
        LinkAct::Close => (5, "CLOSE"),
        LinkAct::Boot => (6, "BOOT"),
        LinkAct::Abort => (7, "ABORT"),
    }
}

// How a packet is lost: its place, and its name.
#[inline(always)]
fn loss_entry<'a>(loss: Loss) -> (usize, &'a str)
    ensures place { result.0 ≡ (spec.loss_entry loss).0 }
    ensures name { result.1.now ≡ (spec.loss_entry loss).1 }
    ensures below { result.0 < 2 }
{
    match loss {
        Loss::Above => (0, "lost above"),
        Loss::Unsent => (1, "never sent"),
    }
}

// A message: its place, and its name.
#[inline(always)]
fn message_entry<'a>(kind: MessageKind) -> (usize, &'a str)
    ensures place { result.0 ≡ (spec.message_entry kind).0 }
    ensures name { result.1.now ≡ (spec.message_entry kind).1 }
    ensures below { result.0 < 11 }
{
    match kind {
        MessageKind::ConnectInitiate => (0, "CI"),
        MessageKind::ConnectAck => (1, "CACK"),
        MessageKind::ConnectConfirm => (2, "CC"),
        MessageKind::DisconnectInitiate => (3, "DI"),
        MessageKind::DisconnectConfirm => (4, "DC"),
        MessageKind::Segment => (5, "SEG"),
        MessageKind::DataAck => (6, "DACK"),
        MessageKind::LinkService => (7, "LINKSERV"),
        MessageKind::Interrupt => (8, "INTERRUPT"),
        MessageKind::OtherDataAck => (9, "OACK"),
        MessageKind::NoOperation => (10, "NOP"),
    }
}
