//! Which rows are drawn.

use pair_judge::Layers;
use wire_base::Side;

/// As many rows are drawn where no number is named.
pub const ROWS: usize = 40;

/// No more rows are drawn.
pub const MAX_ROWS: usize = 200;

/// Which rows are drawn: from a record on or else the last ones up to a refused record, the first ones where none is refused.
#[derive(Clone, Copy, PartialEq, Eq)]
pub struct Range {
    /// With which record they begin, where one is named.
    pub start: Option<Start>,
    /// How many they are at most, 1 to `MAX_ROWS`.
    pub rows: usize,
    /// Over which layers both captures are judged.
    pub layers: Layers,
}

/// A record, by its side and its line.
#[derive(Clone, Copy, PartialEq, Eq)]
pub struct Start {
    /// Whose capture has it.
    pub side: Side,
    /// Which line of that capture it is on.
    pub line: u64,
}
