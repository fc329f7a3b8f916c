//! Units out of the bytes of one direction of a line (DDCMP 4.1, framing), in pieces that may be cut anywhere: where a unit begins and ends, and
//! which bytes belong to none. It decides by the header's check alone, and never asks what a unit says, nor whether its data are sound: that is
//! `ddcmp_msg`'s. It touches no file or clock, and knows nothing of the other direction.
#![tactic(auto)]

mod completing;
mod framer;
mod front;
mod kind;
mod laws;
mod limit;
mod room;

pub use framer::{Found, Framer};
pub use front::Front;
pub use kind::Kind;
pub use laws::{
    cuts_change_nothing, found_are_frames, framed_on, left_is_short, messages_are_frames,
    written_is_found,
};
pub use limit::MAX_FRAME;
