//! The messages of a DDCMP line (DDCMP 4.1, message formats) as bytes: it decides what one unit's bytes say, and
//! which bytes say a message. It never looks at a station's state, at another unit, or at the packet in a body.
//! Maintenance messages, SYN and pad bytes are no part of it.
#![tactic(auto)]

mod departure;
mod flags;
mod laws;
mod layout;
mod message;
mod nak_reason;
mod reading;
mod writing;

pub use departure::Departure;
pub use flags::Flags;
pub use laws::{
    damaged_byte_shows, message_has_one_unit, reading_is_by_the_rule, spelling_is_by_the_grammar,
    spelling_is_read_back, unit_has_one_reading,
};
pub use message::Message;
pub use nak_reason::NakReason;
pub use reading::{Reading, read_sound, read_unit};
pub use writing::write_unit;
