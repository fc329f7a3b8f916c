//! What a reader must believe of the player: what an end of it owes and sends, what a step makes, and what a script stands for, as
//! definitions in `specs/`, and laws of it with a node beside each end. It decides nothing and touches no file and no memory.
#![tactic(auto)]

pub mod laws;

pub use laws::{
    ends_keep_what_nodes_keep, nodes_make_what_ends_make, played_captures_are_a_run,
    played_captures_are_few, played_records_are_made, steps_go_by_their_rules,
};
