//! What is said of a unit.

use crate::wrong::Wrong;

/// What is said of a unit that a side sent.
#[derive(Clone, Copy, Debug, PartialEq, Eq)]
pub enum Answer {
    /// Nothing is said against it.
    CanHave,
    /// No right station can have sent it after what passed.
    CannotHave(Wrong),
}
