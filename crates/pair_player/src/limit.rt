//! The limit of a script that its lines do not have from those of a capture.

/// The most steps of a script.
pub const MAX_STEPS: u64 = 100_000_000;
