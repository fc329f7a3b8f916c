//! Nodes with queues between NSP and DDCMP: what they are, by steps that no record shows, and that the links with queues of `dna_links`, which
//! judge in one pass, accept what such nodes make, where no call is given up, and nothing else. It has no code that runs.
#![tactic(auto)]

pub mod laws;

pub use laws::{
    acknowledgement_sent_after_the_end, call_given_up_before_its_answer,
    machine_accepts_nodes_with_queues, nodes_with_queues_make_what_the_machine_accepts,
    nodes_without_queues_are_among_them,
};
