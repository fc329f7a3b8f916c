//! What one side of a line did between the units that it sent, found by a search: which units of the other side came to it, which it kept, and
//! what its user did, so that its station may send each of its units.
//!
//! The crate decides what is put between the units of a side; the units themselves it writes as they were given, each once and in order. What it
//! finds accuses nobody, and is to be judged: where it finds nothing, something may be there. It touches no file, and no packet.
#![tactic(auto)]

mod carried;
mod explained;
mod laws;
mod limit;
mod movement;
mod numbering;
mod open_messages;
mod passed_unit;
mod placing;
mod said;
mod search;
mod station;
mod turn;
mod turned;
mod user_link;
mod user_links;
mod waiting;

pub use carried::message_of;
pub use explained::Explained;
pub use laws::{
    counts_ask_no_packet, counts_go_along, put_receipts_name_units, put_units_were_sent,
};
pub use limit::MOST_STATES;
pub use placing::Placing;
pub use search::{Reached, Search};
pub use turn::{Assumed, Turn};
