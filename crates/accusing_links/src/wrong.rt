//! Why a node can't have put a packet into a data unit.

/// Why a node can't have put a packet into a data unit, in the order in which it is asked.
#[derive(Clone, Copy, Debug, PartialEq, Eq)]
pub enum Wrong {
    /// It can't be read (15).
    BadPacket,
    /// Its message can't be read (17).
    BadNsp,
    /// Its message is not from this node to the other one (16).
    WrongNode,
    /// No link of this side can have sent it: its SRCADDR is 0 (18), no CI and no CC passed by which such a link gets its far address (18), or of a
    /// link that a CI began no message of RUN passed by which it gets into RUN (19).
    NoLink,
    /// A word in it acknowledges a data segment that never passed (21).
    WrongAck,
}
