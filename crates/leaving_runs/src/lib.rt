//! Leaving links out makes no refusal, of two captures or of one: what is left of a run is a run, and what is left of one end that passes passes. It
//! has no code that runs.
#![tactic(auto)]

pub mod laws;

pub use laws::{
    judged_record_of_a_pair_is_refused_alike, judged_record_of_one_end_is_refused_alike,
    leaving_out_makes_no_refusal, leaving_out_makes_no_refusal_of_one_end,
    stations_look_at_no_packet, what_is_left_of_a_pair_is_a_run, whole_groups_are_alike,
    whole_groups_are_alike_alone,
};
