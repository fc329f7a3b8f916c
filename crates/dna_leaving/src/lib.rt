//! Leaving links out makes no refusal: of the links of one end, and of both ends in a run, what is left is made where the whole is, and a judged
//! record is refused for the same reason. What is left out is asked one thing: no event binds a judged address to one that is left out. It has no
//! code that runs.
#![tactic(auto)]

pub mod laws;

pub use laws::{
    answer_to_a_call_that_is_left_out, answer_to_address_0, judged_message_is_of_judged_links,
    judged_record_is_refused_alike, message_of_a_link_that_is_left_out,
    next_record_is_refused_alike, nothing_left_out, one_record_goes_along, what_is_left_is_made,
    what_is_left_of_a_run_is_a_run,
};
