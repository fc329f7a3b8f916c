//! What look-ups know of one end of a logical link.

/// The phase of a link (NSP 4.0, port states; those in which nothing differs here are one phase).
#[derive(Clone, Copy, Debug, PartialEq, Eq)]
pub enum Phase {
    /// Opened from here; nothing that it acts on has come yet (CI and CD).
    Calling,
    /// Begun by a CI that came; the user has not answered yet.
    Called,
    /// Accepted by the user; the CC goes out, and is not answered yet.
    Confirming,
    /// RUN: both sides know of each other, and segments may go.
    Running,
    /// DI: rejected or closed by the user; the DI goes out, and is not answered yet.
    Disconnecting,
    /// Over. Nothing is sent and nothing comes any more; what had come whole may still be delivered.
    Ended,
}

/// What look-ups know of one end of a link (NSP 4.0, ports).
#[derive(Clone, Copy, PartialEq, Eq)]
pub struct Port {
    /// Its phase.
    pub phase: Phase,
    /// Whether the user here opened it; else a CI that came began it.
    pub opened: bool,
    /// The address that this node gave it, once it has one. An ended link loses it where the address is given again.
    pub own: Option<u16>,
    /// The address that the other node gave it, once that is known.
    pub far: Option<u16>,
}

/// Which link a message or an event is about. A link is live until it is ended; an own address is given only where no live link has it.
#[derive(Clone, Copy, Debug, PartialEq, Eq)]
pub enum LinkTest {
    /// The link that got this own address last, live or ended.
    HasAddress { own: u16 },
    /// The live link with this own address.
    LiveAt { own: u16 },
    /// The live link with this own address and this far one.
    TheLink { own: u16, far: u16 },
    /// A live link with this far address.
    LiveTo { far: u16 },
    /// The live link with this own address, if it was opened here.
    OpenedAt { own: u16 },
    /// The link in Calling with this own address.
    CallingAt { own: u16 },
    /// The link in Called with this far address.
    CalledBy { far: u16 },
    /// A live link with this far address that a CI began.
    BegunBy { far: u16 },
    /// The link with these two addresses, in Confirming or RUN.
    ActedOn { own: u16, far: u16 },
}
