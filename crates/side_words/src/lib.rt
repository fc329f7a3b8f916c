//! What is said of a side: the variables of its station and of its links, and the check of either that was not passed, with what is seen there and
//! what is allowed. It judges nothing, and knows no reason of a refusal and no line.
#![tactic(auto)]

pub mod arrival_checks;
mod causes;
mod data_bytes;
pub mod form;
mod front_behind;
pub mod link_arrival_checks;
mod link_check_fields;
pub mod link_event_checks;
pub mod link_line;
pub mod link_sending_checks;
pub mod nodes;
mod piece_fields;
pub mod sides;
pub mod state_line;
mod state_text;
pub mod station_checks;
pub mod subject;
pub mod undetected;
