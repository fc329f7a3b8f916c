//! Which unit of the other side each receipt of a capture was, found by the bytes alone: for recorders that count no units. It judges nothing, and
//! touches no file, clock or thread.
//!
//! The receipts are taken in their order. One whose bytes show no damage gets the first unit with the same bytes that comes after the unit of the
//! receipt before it; one that shows damage gets the next unit, whatever its bytes are. This finds units for all receipts whenever that can be done.
//! Where a receipt gets none, it and all later ones get the next numbers, and no two nodes can have done that.
#![tactic(auto)]

mod aligned;
mod choice;
mod laws;
mod report;
mod whole;

pub use aligned::aligned_text;
pub use choice::{Chosen, choose};
pub use laws::{aligned_hints_rise, hints_alone_change};
pub use report::{Note, Report, told_of};
pub use whole::{Whole, read_whole};
