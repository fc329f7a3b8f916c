//! The limits of a text of what passed.

/// The most bytes of a piece: as many as the longest line, of 131,081 bytes before its LF, can spell.
pub const MAX_PIECE: usize = 65_539;

/// The most pieces of a text.
pub const MAX_PIECES: u64 = 1_000_000_000_000;
