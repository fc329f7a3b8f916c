//! What a text is whose head was read.

use crate::reader::CaptureReader;

/// A text whose head was read: its reader gives the records after it. In those of a part of a run the hint 0 says that the unit was sent before the
/// other capture begins, and k + 1 that it is that of its line `s` k.
#[derive(Drop)]
pub enum Opened {
    /// A whole capture, in one of the formats.
    Whole(CaptureReader),
    /// A part of a run.
    Part(CaptureReader),
}
