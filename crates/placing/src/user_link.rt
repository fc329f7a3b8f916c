//! A link as its user and its packets tell of it.

/// What a user does with a link (NSP 4.0, session control interface), before a packet that tells of it is sent.
#[derive(Clone, Copy, PartialEq, Eq)]
pub(crate) enum UserAct {
    Open { link: u16 },
    Accept { partner: u16, link: u16 },
    Reject { partner: u16, link: u16 },
    Close { link: u16 },
    /// A message is handed in on this link, whose first segment has this number.
    HandIn { link: u16, far: u16, number: u16 },
}

/// How a user answers a call of this partner, which gets this link.
#[derive(Clone, Copy, Debug, PartialEq, Eq)]
pub(crate) struct Answer {
    pub(crate) partner: u16,
    pub(crate) link: u16,
    pub(crate) accepts: bool,
}

/// What is assumed of a unit: whether its call is given up, and whether it begins something anew.
#[derive(Clone, Copy, PartialEq, Eq)]
pub(crate) struct Taken {
    pub(crate) is_given_up: bool,
    pub(crate) is_anew: Option<bool>,
}

/// The phases of a link that has an own address (NSP 4.0, port states).
#[derive(Clone, Copy, Debug, PartialEq, Eq)]
pub(crate) enum Phase {
    Calling,
    Confirming,
    Running,
    Disconnecting,
}

/// What was sent of a link.
#[derive(Clone, Copy, PartialEq, Eq, PartialOrd, Ord)]
pub(crate) enum Sent {
    Nothing,
    OfRun,
    Disconnect,
}

/// The link that got an own address last, while something of it may still be sent: its far address, 0 while it calls; whether it was opened
/// here; whether it is assumed that its user gives it up while it calls; whether what came ended it, after which what waits in the queues of its node
/// is still sent; of the segments the last number that was given, and whether a message is handed in whose last segment is not sent yet.
#[derive(Clone, Copy, PartialEq, Eq)]
pub(crate) struct UserLink {
    pub(crate) far: u16,
    pub(crate) phase: Phase,
    pub(crate) is_opened: bool,
    pub(crate) is_given_up: bool,
    pub(crate) is_over: bool,
    pub(crate) sent: Sent,
    pub(crate) given: u16,
    pub(crate) in_message: bool,
}
