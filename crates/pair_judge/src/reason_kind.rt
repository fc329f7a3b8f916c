//! What there is to know of a reason besides its number and its name.

/// What the rule is about that a record breaks.
#[derive(Clone, Copy, PartialEq, Eq)]
pub enum Matter {
    /// Which bytes are a sound message.
    Soundness,
    /// Hints, and the order of units that they give.
    Hints,
    /// Whether the bytes that came are those that were sent.
    Passage,
    /// In which state a station sends which message.
    State,
    /// The number that a station acknowledges.
    Response,
    /// What else a station keeps.
    Station,
    /// Which pair of starts a message belongs to.
    Period,
    /// Which bytes are a packet.
    Packet,
    /// Between which nodes a packet goes.
    Nodes,
    /// Which bytes are an NSP message.
    Nsp,
    /// What of a link depends on the time at which a packet is composed or read, which a queue between NSP and DDCMP shifts.
    LinkNow,
    /// What else links keep.
    Link,
}

/// By whose fault a record is refused.
#[derive(Clone, Copy, PartialEq, Eq)]
pub enum Blame {
    /// The node that sent the unit, or composed the packet.
    Sender,
    /// The node that sent the packet, or heads that do not pair.
    SenderOrHeads,
    /// The node that sent the unit, or the user, of a record of the user's.
    SenderOrUser,
    /// The hints, or captures that do not pair.
    Hints,
    /// The line (damage that no block check shows), or captures that do not pair.
    LineOrCaptures,
    /// What the receiver says of itself.
    Claim,
    /// Nobody: the protocol can't tell two messages apart.
    Nobody,
    /// The user, or the node if it started by itself.
    Starter,
    /// The user, or the node if it chose the address.
    Chooser,
}
