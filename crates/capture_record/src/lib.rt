//! One record of a capture: what one side of the line saw, and whether a line can say it.
//!
//! It knows neither the text of a line, which is for crate `capture`, nor what a record means.
#![tactic(auto)]

mod bytes;
mod entry;
mod event;
mod fate;
mod limit;
mod record;

pub use bytes::Bytes;
pub use entry::Entry;
pub use event::Event;
pub use fate::Fate;
pub use limit::{MAX_HINT, MAX_INTERRUPT, MAX_LINK, MAX_MESSAGE, MAX_PACKET, MAX_UNIT};
pub use record::Record;
