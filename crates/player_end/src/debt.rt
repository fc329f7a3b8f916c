//! One thing that a station may owe.

use ddcmp_msg::NakReason;

/// One thing that a station may owe (DDCMP 4.1, startup and data transfer).
#[derive(Clone, Copy, PartialEq, Eq)]
pub enum Debt {
    Strt,
    Stack,
    Ack,
    Rep,
    Nak(NakReason),
}
