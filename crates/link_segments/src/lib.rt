//! What any node keeps of the segments of one logical link (NSP 4.0): the messages that were handed in and are in no segment yet, the
//! segments that are outstanding, and those that came; and which link a message or an event is about.
//!
//! The judge's links (`nsp_link`) and the player's ends (`player_end`) are built on it. It judges nothing and owes nothing.
#![tactic(auto)]

mod look_up;
mod outstanding;
mod piece;
mod received;
mod unsent;

pub use look_up::{is_connected, is_running, passes, takes_messages};
pub use outstanding::{Outstanding, REACH, is_of_data};
pub use piece::{Piece, PieceSlice};
pub use received::Received;
pub use unsent::Unsent;
