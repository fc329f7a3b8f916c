//! What comes to a station.

use ddcmp_msg::Message;
use dna_station::Tag;

/// What comes to a station from its line.
#[derive(Clone, Copy, PartialEq, Eq)]
pub enum Arrival<'a> {
    /// A message, as it was sent, with the tag that it was sent with.
    Sound(Message<'a>, Tag),
    /// A unit, or noise, whose header shows damage.
    HeaderBad,
    /// A unit, or noise, whose header is good and whose data shows damage.
    DataBad,
}
