//! Why there is no verdict.

use capture::Departure;
use wire_base::Side;

/// What was wrong with the text of one side. Its lines are counted from 1 on, and line 1 is its head.
#[derive(Clone, Copy, PartialEq, Eq)]
pub enum TextFault {
    /// The line departs from the format in this way.
    Departs { kind: Departure, line: u64 },
    /// The reader failed. It counted that.
    Read,
}

/// Why there is no verdict.
#[derive(Clone, Copy, PartialEq, Eq)]
pub enum JudgeFault {
    /// A text was faulty, or could not be read, as far as it was read by then.
    Capture { side: Side, fault: TextFault },
    /// There was no memory for a reader's block or its room for bytes, a station's window, a packet, a link, a message that was handed in, a segment
    /// that is held, or a unit that may still be received, its tag, and the lists of those.
    OutOfMemory,
}
