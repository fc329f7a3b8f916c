//! What every layer of the line is built on: numbers that wrap and windows of items that are not yet acknowledged, the block
//! check of DDCMP, readers and writers whose failed calls are counted, copies of bytes, and the two sides of a line. It decides no rule of a
//! protocol but the block check, and it touches no file, clock or thread.
#![tactic(auto)]

mod check;
mod check_laws;
mod check_table;
mod copied;
mod plain_window;
mod ring_window;
mod seq;
mod side;
mod tally;
mod window;

pub use check::{block_check, checks};
pub use check_laws::{damaged_byte_shows, good_is_tested, good_with_its_check_alone};
pub use copied::Copied;
pub use plain_window::PlainWindow;
pub use ring_window::RingWindow;
pub use seq::Seq;
pub use side::Side;
pub use tally::{Tally, WriteFailed, write_whole};
pub use window::{PushFault, Window};
