//! The limits of a record.

/// The greatest hint of a receipt.
pub const MAX_HINT: u64 = 999_999_999_999_999_999;

/// The greatest address of a link; the least is 1.
pub const MAX_LINK: u64 = 65_535;

/// The most bytes of a unit, sent or received.
pub const MAX_UNIT: usize = 16_393;

/// The most bytes of a message that is handed in or delivered.
pub const MAX_MESSAGE: usize = 65_535;

/// The most bytes of a packet that was composed and will never be sent: those of the longest that a unit holds.
pub const MAX_PACKET: usize = 16_383;

/// The most bytes of an interrupt that is handed in or delivered.
pub const MAX_INTERRUPT: usize = 16;
