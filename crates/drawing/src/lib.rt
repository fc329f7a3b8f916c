//! Draws the ladder of a pair of captures while both are judged: which rows are drawn, and of what they are told. It gives no verdict of its
//! own, and prints no fault; it reads two captures, those of a refused pair twice, and writes the text of the rows.
#![tactic(auto)]

mod begun;
mod behind;
mod drawing;
mod fault;
mod first;
mod log;
mod range;
mod recent;
mod tell;
mod telling;
mod told_record;

pub use behind::tell_behind;
pub use drawing::{DrawnPair, draw_to, drawing_of};
pub use fault::DrawFault;
pub use range::{MAX_ROWS, ROWS, Range, Start};
