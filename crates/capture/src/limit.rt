//! The limits of a capture text.

/// The longest line, in bytes before its LF.
pub const MAX_LINE: usize = 131_081;

/// The most records of a capture.
pub const MAX_RECORDS: u64 = 1_000_000_000_000;

/// The greatest mark: one more than the greatest hint.
pub const MAX_MARK: u64 = 1_000_000_000_000_000_000;
