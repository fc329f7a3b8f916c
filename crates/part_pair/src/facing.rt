//! What a record meets on the other side.

/// What a record meets on the other side.
#[derive(Clone, Copy)]
pub struct Facing {
    /// Its capture is a part of a run.
    pub is_part: bool,
    /// All of its records were made.
    pub has_ended: bool,
}
