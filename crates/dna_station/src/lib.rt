//! What a reader must believe of one DDCMP station and of the line between two of them, as definitions in `specs/`, with the few types that
//! code and definitions share; the same station on numbers modulo 256 (the wire station); and laws of both. It decides nothing and touches
//! no file and no memory: the machines above are proved to follow these definitions.
#![tactic(auto)]

mod arrival_row;
mod head;
pub mod laws;
mod link_refusal;
mod message_fields;
mod nodes;
mod refusal;
mod state;
mod tag;

pub use arrival_row::{ArrivalRow, PeriodNeed};
pub use head::Head;
pub use laws::{
    captures_deliver_in_order, counts_rise_by_one, cut_arrival, cut_event, cut_label, cut_record,
    cut_sending, delivered_in_order, numbers_in_order, numbers_within_bounds,
    packets_at_their_places, wire_nodes_see_right,
};
pub use link_refusal::LinkRefusal;
pub use message_fields::{body_of, num_of, resp_of};
pub use nodes::{TrueNodes, WireNodes};
pub use refusal::{StationRefusal, StepRefusal};
pub use state::{State, StationEvent};
pub use tag::Tag;
