//! One DDCMP station whose capture begins in its midst: it was recorded from some time on, and nothing is known of what was before. A set of cases
//! tells what it may be; each record goes through all of them, and where none is left no station makes the records.
#![tactic(auto)]

mod fault;
mod known;
mod laws;
mod numbers;
mod open_case;
mod seen;
mod station;

pub use ddcmp_station::Arrival;
pub use dna_station::{StationEvent, StationRefusal};
pub use fault::PartFault;
pub use laws::{numbers_rise_by_one, refused_is_no_piece};
pub use station::PartStation;
