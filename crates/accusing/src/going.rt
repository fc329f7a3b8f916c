//! Which data message of a side goes.

/// Which data message of a side goes.
#[derive(Clone, Copy, PartialEq, Eq)]
pub enum Going {
    /// One with a new number.
    New,
    /// One that was given. So many come before the newest one from the next to send on.
    Again(u8),
}
