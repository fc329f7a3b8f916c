//! What a reader must believe of a node, its station with its links on top, of the run of two captures and of the verdict on them, as
//! definitions in `specs/`; the same node on numbers that wrap (the wire node); what one end makes of its capture without the other; and
//! laws of all that. It decides nothing and touches no file and no memory.
#![tactic(auto)]

pub mod alone_laws;
mod finding;
pub mod laws;
mod nodes;

pub use alone_laws::{
    alone_misses_nothing_of_its_own, alone_with_queues_does_as_much, refused_alone_is_final,
    refused_station_alone_is_final, station_alone_misses_nothing_of_its_own,
};
pub use finding::{Cause, Finding};
pub use laws::{
    layers_deliver_in_order, layers_run_as_stations, layers_with_queues_do_as_much,
    links_meet_packets_in_order, queued_wire_layers_see_right, wire_layers_see_right,
};
pub use nodes::{TrueLayersNodes, WireLayersNodes};
