//! The limit of a unit.

/// The most bytes of a unit: the eight of its header, 16,383 of data, as many as COUNT can say in 14 bits, and two of check.
pub const MAX_FRAME: usize = 16_393;

/// Six bytes and their check.
pub(crate) const HEADER_LEN: usize = 8;
