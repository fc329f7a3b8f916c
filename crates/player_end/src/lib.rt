//! One end of a line, as the player plays it: a node with its station and its links, what they keep and what they owe, over bytes and
//! wrapped numbers.
//!
//! The crate decides what each step of a script makes of its end: the records that the end adds to its capture, the units that it sends, and
//! what it owes after that. It knows nothing of a script's text, of the other end, or of the line between them.
//! Its tests are `pair_tests`' `one_end`: there they need no second proof of what is stated here.
#![tactic(auto)]

mod addresses;
mod choice;
mod debt;
mod duty;
mod end;
mod fault;
mod given_piece;
mod held_packet;
mod link_end;
mod link_ends;
mod link_owed;
mod marks;
mod owed;
mod owed_confirm;
mod station_end;

pub use end::End;
pub use fault::StepFault;
pub use given_piece::GivenPiece;
pub use held_packet::{ComposedPacket, HeldPacket};
