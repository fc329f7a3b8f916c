//! The rows of the rule tables, which a record of a capture goes through.

use dna_station::State;

/// A row of the tables of the station and of the links. There are 88, and this is their order. A record goes through one of the station, by the
/// state before it, or one of the links, or both; an interrupt goes through none.
#[derive(Clone, Copy, PartialEq, Eq)]
pub enum Row {
    /// The user starts the station, which is in HALTED.
    Start,
    /// The user halts the station, which is in this state.
    Halt(State),
    /// The station sends this.
    Sends(Sending),
    /// A sound unit comes to the station in HALTED.
    ToHalted(UnitKind),
    /// A sound unit comes to the station in ISTRT.
    ToIstrt(UnitKind),
    /// A sound unit comes to the station in ASTRT.
    ToAstrt(AstrtArrival),
    /// A sound unit comes to the station in RUNNING.
    ToRunning(RunningArrival),
    /// What shows damage comes to the station in this state.
    Damaged(State, Damage),
    /// The node is started anew, and its station is in this state.
    Boot(State),
    /// The user of a link does this.
    LinkUser(LinkAct),
    /// A new packet with this message is sent.
    LinkSends(MessageKind),
    /// A packet with this message is taken.
    LinkGets(MessageKind),
    /// A packet of the node goes this way.
    Lost(Loss),
}

/// What a station sends, with what its tables tell apart.
#[derive(Clone, Copy, PartialEq, Eq)]
pub enum Sending {
    /// STRT, in ISTRT.
    Strt,
    /// STACK, in ASTRT.
    Stack,
    /// ACK, in RUNNING, as all that follows.
    Ack,
    /// A NAK of reason 1, 2, 3 or 8, which answers a cause.
    NakOfCause,
    /// A NAK of reason 9, 16 or 17, which needs none.
    OtherNak,
    /// REP.
    Rep,
    /// Data with a new number.
    NewData,
    /// Data that were sent before.
    DataAgain,
}

/// What is told apart of a unit that comes in HALTED or ISTRT.
#[derive(Clone, Copy, PartialEq, Eq)]
pub enum UnitKind {
    Strt,
    Stack,
    Ack,
    Nak,
    Rep,
    Data,
}

/// What is told apart of a unit that comes in ASTRT.
#[derive(Clone, Copy, PartialEq, Eq)]
pub enum AstrtArrival {
    Strt,
    Stack,
    /// An ACK with RESP 0.
    AckOfNone,
    /// An ACK with another RESP.
    AckOfSome,
    Nak,
    Rep,
    /// Data with RESP 0 and the next number, whose packet is kept.
    Kept,
    /// Data with RESP 0 and the next number, for which no buffer is left.
    NoBuffer,
    /// Data with RESP 0 and another number.
    RepeatOrGap,
    /// Data with another RESP.
    DataOfSome,
}

/// What is told apart of a unit that comes in RUNNING.
#[derive(Clone, Copy, PartialEq, Eq)]
pub enum RunningArrival {
    Strt,
    Stack,
    Ack,
    Nak,
    /// A REP of the last number received.
    RepOfLast,
    /// A REP of another number, which opens a cause.
    RepOfOther,
    /// Data with the next number, whose packet is kept.
    Kept,
    /// Data with the next number, for which no buffer is left.
    NoBuffer,
    /// Data with another number.
    RepeatOrGap,
}

/// Which block check shows damage.
#[derive(Clone, Copy, PartialEq, Eq)]
pub enum Damage {
    Header,
    Data,
}

/// What the user of a link does, or what is done to all links of a node.
#[derive(Clone, Copy, PartialEq, Eq)]
pub enum LinkAct {
    Open,
    Accept,
    Reject,
    In,
    Up,
    Close,
    /// The node is started anew, and all its links end.
    Boot,
    /// A call is given up.
    Abort,
}

/// How a packet is lost inside a node.
#[derive(Clone, Copy, PartialEq, Eq)]
pub enum Loss {
    /// It came and was kept, and the links never meet it.
    Above,
    /// The links composed it, and it is never sent.
    Unsent,
}

/// The kind of an NSP message (NSP 4.0, message formats).
#[derive(Clone, Copy, PartialEq, Eq)]
pub enum MessageKind {
    ConnectInitiate,
    ConnectAck,
    ConnectConfirm,
    DisconnectInitiate,
    DisconnectConfirm,
    Segment,
    DataAck,
    LinkService,
    Interrupt,
    OtherDataAck,
    NoOperation,
}
