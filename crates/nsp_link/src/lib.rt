//! The logical links of one node as a machine: it decides whether its user may do something, whether a message may be sent, and what
//! an arrival does (NSP 4.0). It looks at no time, no file and no line, at a message only to compare it with what was handed in, first
//! given or received, and at no order but the order of its calls.
#![tactic(auto)]

mod failed;
mod fault;
mod given;
mod index;
mod kind;
mod last_sent;
mod laws;
mod link;
mod links;
mod permit;
mod phase;
mod segments;
mod view;

pub use dna_links::{LinkEvent, LinkTag};
pub use dna_station::LinkRefusal;
pub use failed::{
    FailedLinkArrival, FailedLinkEvent, FailedLinkSending, MissingLink, NextPiece, Nodes, Numbers,
    PieceShape,
};
pub use fault::LinkFault;
pub use given::Given;
pub use kind::{WITH_QUEUES, WITHOUT_QUEUES};
pub use laws::{allowed_at_links, failed_as_refused, link_view_shows_truth};
pub use link_segments::Piece;
pub use links::Links;
pub use permit::{LinkArrivalPermit, LinkSendPermit, LinkUserPermit};
pub use view::{LinkNumbers, LinkView};
