//! What a link may have to send.

/// What a link may have to send, in the order in which it is sent (NSP 4.0, port states).
#[derive(Clone, Copy, PartialEq, Eq)]
pub enum Duty {
    ConnectAck,
    Initiate,
    Confirm,
    Disconnect,
    DataAck,
    Segment,
}
