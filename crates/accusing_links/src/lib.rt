//! Whether the node of one side of a line can have put a packet into a data unit, by the units that passed, and nothing else: no capture, no clock.
//! Where it says that a node can't, no right node sent this unit, whatever came to it of what passed, whatever was lost or damaged, whatever noise
//! there was and whatever its user did. It does not find every wrong packet. Of the units themselves crate `accusing` says the same.
#![tactic(auto)]

mod ack_accuser;
mod found;
mod laws;
mod link_accuser;
mod triples;
mod wrong;

pub use ack_accuser::AckAccuser;
pub use laws::{backward_acknowledgements_have_no_placing, wrong_packets_have_no_placing};
pub use link_accuser::LinkAccuser;
pub use wrong::Wrong;
