//! What a player answers of a whole script.

/// Every step of the script was made, and both captures are written.
#[derive(Clone, Copy, PartialEq, Eq)]
pub struct Played {
    /// How many steps the script has.
    pub steps: u64,
}
