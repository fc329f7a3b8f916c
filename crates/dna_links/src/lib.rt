//! What a reader must believe of the logical links of one node, and of both nodes' links, as definitions in `specs/`, with the few types that
//! code and definitions share; the same links on numbers modulo 4,096 (the wire links); and laws of both. Of a packet's way it asks only that
//! what is kept was sent, in order. It decides nothing and touches no file and no memory.
#![tactic(auto)]

mod event;
pub mod laws;
mod port;
mod queue;
pub mod run_laws;
mod tag;

pub use event::LinkEvent;
pub use laws::{cut_link_steps, cut_segments};
pub use port::{LinkTest, Phase, Port};
pub use queue::{LinkQueue, Queues, Said};
pub use run_laws::{
    links_count_deliveries, links_deliver_in_order, links_read_off_captures,
    links_with_queues_do_as_much, links_within_bounds, wire_links_see_right,
};
pub use tag::LinkTag;
