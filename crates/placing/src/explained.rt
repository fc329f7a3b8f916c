//! Whether both sides are explained together.

/// What has to go together in what is found.
#[derive(Clone, Copy, PartialEq, Eq)]
pub enum Explained {
    /// Both sides: what one received, the other sent, and the periods of both go together.
    Together,
    /// Each side by itself: what passed of the other side may have come whatever the other side meant by it, in any period.
    Apart,
}
