//! What a station says of a message that it let its node send.

use dna_station::Tag;

/// How a message was sent.
#[derive(Clone, Copy, PartialEq, Eq)]
pub struct SentAs<T> {
    /// The sender's period and its partner at that moment.
    pub tag: Tag,
    /// Whether the message gave a new number: a packet that is sent for the first time.
    pub first: bool,
    /// Of a packet that is sent again, the label that was put beside it, if one was.
    pub label: Option<T>,
}
