//! How far a capture was read.

/// How far a capture was read.
#[derive(Clone, Copy, Debug, PartialEq, Eq)]
pub enum Phase {
    /// More may come.
    Reading,
    /// The text came to its end.
    Ended,
    /// A call answered a fault.
    Failed,
}
