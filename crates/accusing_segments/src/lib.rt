//! Whether the node of one side of a line can have sent a data segment after those that it sent before, by the units that passed, and nothing
//! else: no capture, no clock. Where it says that a node can't, no right node that sends every packet it composed sent it, whatever came to it of
//! what passed, whatever was lost or damaged, whatever noise there was and whatever its user did. And whether a segment is too long, or goes again
//! with something else in it, which no right node sends, whether it sends every packet or not. It does not find every wrong segment.
#![tactic(auto)]

mod kept;
mod laws;
mod message;
mod noted;
mod rooms;
mod segment_accuser;

pub use laws::{
    changed_segments_have_no_placing, long_segments_have_no_placing, wrong_segments_have_no_placing,
};
pub use segment_accuser::SegmentAccuser;
