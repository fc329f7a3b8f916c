//! Which check a message or an event does not pass, with what is seen and what is allowed.

ghost use Rattle.std.specs.Prelude.{◌≡◌};
ghost use Rattle.nsp_link.specs.FailedArrival.{refusal_of_arrival};
ghost use Rattle.nsp_link.specs.FailedEvent.{refusal_of_event};
ghost use Rattle.nsp_link.specs.FailedSending.{refusal_of_sending};

use crate::{LinkRefusal, LinkTag};
use dna_links::{LinkQueue, LinkTest, Phase};

/// The first check that a message does not pass which the node of the links sent (NSP 4.0, port states, data segments and acknowledgements),
/// with what is seen there and what is allowed. Numbers of segments are those of messages, 0 to 4,095.
#[derive(Clone, Copy, Debug, PartialEq, Eq)]
pub enum FailedLinkSending {
    /// The packet does not go from this node to the other one (reason 16).
    Nodes {
        seen: Nodes,
        allowed: Nodes,
    },
    /// No live link is as the message asks for (reason 18).
    NoLink(MissingLink),
    /// The link with this number is in another phase than the message asks for (reason 19): Calling for a CI, Confirming for a CC, DI for a
    /// DI, RUN for the others.
    Phase {
        link: u64,
        seen: Phase,
        allowed: Phase,
    },
    /// With queues: the link with this number is not in the turn of a message that asks for this phase (reason 19). Seen are its phase, or that
    /// in which something of it waits, and what is remembered of what it reached and sent.
    Turn {
        link: u64,
        seen: Phase,
        queue: LinkQueue,
        allowed: Phase,
    },
    /// A DC goes between the addresses of this live link (reason 19). Allowed: those of none.
    Live {
        link: u64,
    },
    /// An acknowledgement word names a number that was not received, or one before the last that was sent (reason 21).
    Acknowledgement {
        seen: u16,
        allowed: Numbers,
    },
    /// A new segment while so many are outstanding (reason 23). Allowed: at most so many.
    Room {
        seen: usize,
        allowed: usize,
    },
    /// A new segment has more data bytes than the other side takes (reason 22), which is the SEGSIZE of its CI or CC.
    Length {
        seen: usize,
        allowed: u16,
    },
    /// A new segment carries other bytes than the next ones that were handed in (reason 20); `None` where none are left.
    NextPiece {
        seen: PieceShape,
        allowed: Option<NextPiece>,
    },
    /// A segment has neither the next number nor one that may go again (reason 20).
    Number {
        seen: u16,
        allowed: Numbers,
    },
    /// The segment that goes again as this number carries something else than at its first sending (reason 20).
    AsFirstGiven {
        number: u16,
        seen: PieceShape,
        allowed: PieceShape,
    },
}

impl FailedLinkSending {
    /// The refusal that this check gives.
    pub fn refusal(self) -> LinkRefusal
        ensures { result ≡ refusal_of_sending self }
    {
        match self {
            FailedLinkSending::Nodes { .. } => LinkRefusal::WrongNode,
            FailedLinkSending::NoLink(_) => LinkRefusal::NoLink,
            FailedLinkSending::Phase { .. } => LinkRefusal::LinkState,
            FailedLinkSending::Turn { .. } => LinkRefusal::LinkState,
            FailedLinkSending::Live { .. } => LinkRefusal::LinkState,
            FailedLinkSending::Acknowledgement { .. } => LinkRefusal::WrongAck,
            FailedLinkSending::Room { .. } => LinkRefusal::LinkWindowFull,
            FailedLinkSending::Length { .. } => LinkRefusal::SegmentTooLong,
            FailedLinkSending::NextPiece { .. } => LinkRefusal::WrongSegment,
            FailedLinkSending::Number { .. } => LinkRefusal::WrongSegment,
            FailedLinkSending::AsFirstGiven { .. } => LinkRefusal::WrongSegment,
        }
    }
}

/// The first check that a message does not pass which came to the node of the links (NSP 4.0, port states), with what is seen there and
/// what is allowed.
#[derive(Clone, Copy, Debug, PartialEq, Eq)]
pub enum FailedLinkArrival {
    /// The packet does not come from the other node to this one (reason 16).
    Nodes {
        seen: Nodes,
        allowed: Nodes,
    },
    /// A CC belongs to another call (reason 25): seen is its tag. Allowed: the tag of a link whose partner is the link with this number.
    OtherCall {
        link: u64,
        seen: LinkTag,
    },
    /// A message belongs to another pair of links (reason 25): seen is its tag. Allowed: the tag of this partner, whose partner is the link
    /// with this number.
    OtherPair {
        link: u64,
        partner: Option<u64>,
        seen: LinkTag,
    },
}

impl FailedLinkArrival {
    /// The refusal that this check gives.
    pub fn refusal(self) -> LinkRefusal
        ensures { result ≡ refusal_of_arrival self }
    {
        match self {
            FailedLinkArrival::Nodes { .. } => LinkRefusal::WrongNode,
            FailedLinkArrival::OtherCall { .. } => LinkRefusal::CrossedLink,
            FailedLinkArrival::OtherPair { .. } => LinkRefusal::CrossedLink,
        }
    }
}

/// The first check that an event of the links' user does not pass (NSP 4.0, session control interface), with what is seen there and what is
/// allowed.
#[derive(Clone, Copy, Debug, PartialEq, Eq)]
pub enum FailedLinkEvent {
    /// No link is as the event asks for (reason 18).
    NoLink(MissingLink),
    /// The live link with this number has the address that is given (reason 26). Allowed: an address that no live link has.
    AddressInUse {
        own: u16,
        link: u64,
    },
    /// A message is handed in at a link in this phase (reason 19). Allowed: Calling, Confirming and RUN.
    TakesMessages {
        link: u64,
        seen: Phase,
    },
    /// A link in this phase is closed (reason 19). Allowed: Confirming and RUN.
    IsConnected {
        link: u64,
        seen: Phase,
    },
    /// A call is given up at a link in this phase (reason 19). Allowed: Calling.
    IsCalling {
        link: u64,
        seen: Phase,
    },
    /// The message of so many bytes is not the next whole one that came at the link (reason 24). Allowed: the next whole one, of which at
    /// most `usize::MAX` bytes are counted; `None` where none is whole yet.
    Delivery {
        link: u64,
        seen: usize,
        allowed: Option<usize>,
    },
}

impl FailedLinkEvent {
    /// The refusal that this check gives.
    pub fn refusal(self) -> LinkRefusal
        ensures { result ≡ refusal_of_event self }
    {
        match self {
            FailedLinkEvent::NoLink(_) => LinkRefusal::NoLink,
            FailedLinkEvent::AddressInUse { .. } => LinkRefusal::AddressInUse,
            FailedLinkEvent::TakesMessages { .. } => LinkRefusal::LinkState,
            FailedLinkEvent::IsConnected { .. } => LinkRefusal::LinkState,
            FailedLinkEvent::IsCalling { .. } => LinkRefusal::LinkState,
            FailedLinkEvent::Delivery { .. } => LinkRefusal::WrongDelivery,
        }
    }
}

/// Between which nodes a packet goes.
#[derive(Clone, Copy, Debug, PartialEq, Eq)]
pub struct Nodes {
    /// The address of the node that it is from.
    pub source: u16,
    /// The address of the node that it is for.
    pub destination: u16,
}

/// A link that is asked for and that there is not.
#[derive(Clone, Copy, Debug, PartialEq, Eq)]
pub struct MissingLink {
    /// What is asked of it.
    pub wanted: LinkTest,
    /// The live link that has the own address which is asked for, by its number; `None` too where none is asked for.
    pub with_own: Option<u64>,
    /// Whether a live link has the far address that is asked for; `false` too where none is.
    pub with_far: bool,
}

/// Which numbers are allowed: those from `lowest` through `highest`, and again, where that is not `None`, those from it up to `lowest`. All
/// wrap after 4,095.
#[derive(Clone, Copy, Debug, PartialEq, Eq)]
pub struct Numbers {
    pub lowest: u16,
    pub highest: u16,
    pub again: Option<u16>,
}

/// What a segment carries, without its bytes.
#[derive(Clone, Copy, Debug, PartialEq, Eq)]
pub struct PieceShape {
    /// Whether it begins a message (bit 5 of the flag byte).
    pub begins: bool,
    /// Whether it ends one (bit 6).
    pub ends: bool,
    /// How many data bytes it has.
    pub length: usize,
}

/// What the next new segment has to carry: bytes at the front of what is left of the current message, all of them exactly if it ends the
/// message, and none only where none are left.
#[derive(Clone, Copy, Debug, PartialEq, Eq)]
pub struct NextPiece {
    /// Whether it begins the message: nothing of it was given yet.
    pub begins: bool,
    /// How many bytes are left of the message.
    pub left: usize,
}
