//! One DDCMP station as a machine: it decides whether its user may do something, whether a message may be sent, and what an
//! arrival does (DDCMP 4.1, startup state table, data transfer). It looks at no time, no file and no line, at a packet only to
//! compare it with its first sending, and at no order but the order of its calls.
#![tactic(auto)]

mod arrival;
mod causes;
mod check;
mod failed;
mod laws;
mod permit;
mod sent_as;
mod station;
mod view;

pub use arrival::Arrival;
pub use check::{ArrivalCheck, SendingCheck};
pub use dna_station::{ArrivalRow, PeriodNeed, State, StationEvent, StationRefusal, Tag};
pub use failed::{DataByte, FailedArrival, FailedSending};
pub use laws::{allowed_arrives, allowed_passes, view_shows_truth};
pub use permit::{ArrivalPermit, SendPermit};
pub use sent_as::SentAs;
pub use station::{HeldPacket, Station};
pub use view::{OpenCauses, StationView};
