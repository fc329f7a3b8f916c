//! The text of what passed on a line: a head with the addresses of both nodes, and a line for each piece of bytes, in the order in which they
//! passed.
//!
//! The crate decides which bytes are such a text, which pieces they spell, and where and how a text departs from the format. It never touches a
//! file or a clock, nor what the pieces mean: where a unit begins in them is `framer`'s. A packet capture, which somebody may take for such a text,
//! it tells by its first bytes.
#![tactic(auto)]

mod limit;
mod packet_capture;
mod wire_reader;

pub use limit::{MAX_PIECE, MAX_PIECES};
pub use packet_capture::is_packet_capture;
pub use wire_reader::{Pieces, WireReader};
