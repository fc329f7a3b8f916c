//! What the judge keeps beside a unit, and no byte of it tells.

/// Which start of its station a unit belongs to.
#[derive(Clone, Copy, Debug, PartialEq, Eq)]
pub struct Tag {
    /// The period of the sender: how many starts it had had when it sent the unit, from 1 on.
    pub period: u64,
    /// The period of the other side that the sender's period went with at that moment, where it knew one.
    pub partner: Option<u64>,
}
