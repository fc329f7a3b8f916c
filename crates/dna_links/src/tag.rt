//! What the judge keeps beside a packet, and no byte of it tells.

/// Which link of its sender a message belongs to. Links of a node are counted from 0, in the order in which they began.
#[derive(Clone, Copy, Debug, PartialEq, Eq)]
pub struct LinkTag {
    /// The sender's link whose rule allowed the message; of a DC the link that it ends. None of a no operation, and of a DC that
    /// ends none.
    pub link: Option<u64>,
    /// The other node's link that the sender's link went with when it sent the message, where it knew one.
    pub partner: Option<u64>,
}
