//! A ladder that was told of the records that were kept.

use ladder::Ladder;

/// A ladder, and whether it was told of all records.
#[derive(Drop)]
pub struct Begun {
    pub ladder: Ladder,
    pub is_all: bool,
}
