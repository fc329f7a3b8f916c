//! The text of a capture in which what is left out is carried, so that no link meets it: an end is judged by what is left. And which own
//! address a record is about, which own addresses a text binds to each other, and which record keeps a message between wrong nodes.
//!
//! The crate decides by what a record says alone; it judges nothing, keeps no groups, and touches no file.
#![tactic(auto)]

mod binding;
mod carried;
mod fitting;
mod laws;
mod leaving;
mod located;
mod message;
mod naming;
mod packet_left;
mod record_left;
mod text_left;
mod unit_left;
mod wrong_nodes;

pub use binding::{bind_all, binding_of};
pub use fitting::{fitted, head_fitted, heads_fit};
pub use laws::{
    left_is_a_record, made_is_read_alike, no_link_meets_it, no_two_become_one, nothing_left_out,
};
pub use leaving::{Head, Leaving};
pub use located::{address_at, head};
pub use naming::about;
pub use text_left::left_out;
pub use wrong_nodes::wrong_node_at;
