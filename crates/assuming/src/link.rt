//! A link as a node with queues keeps it.

/// How far a link has come.
#[derive(Clone, Copy, Debug, PartialEq, Eq)]
pub(crate) enum Phase {
    Calling,
    Confirming,
    Running,
    Disconnecting,
}

/// What was sent of a link.
#[derive(Clone, Copy, PartialEq, Eq)]
pub(crate) enum Sent {
    Nothing,
    OfRun,
    Disconnect,
}

/// Which link a packet was sent on, and the partner of that; 0 where it is none.
#[derive(Clone, Copy, Debug, PartialEq, Eq)]
pub(crate) struct Tag {
    pub(crate) link: u64,
    pub(crate) partner: u64,
}

/// The tag of what is sent on no link.
pub(crate) const NO_LINK: Tag = Tag {
    link: 0,
    partner: 0,
};

/// The last link with an own address, of which something may still be sent. `call` is the unit by which it was called from here, and
/// `length` how many bytes of a message were sent whose last segment was not.
#[derive(Clone, Copy, PartialEq, Eq)]
pub(crate) struct Link {
    pub(crate) tag: Tag,
    pub(crate) far: u16,
    pub(crate) phase: Phase,
    pub(crate) is_opened: bool,
    pub(crate) is_accepted: bool,
    pub(crate) has_run: bool,
    pub(crate) is_over: bool,
    pub(crate) sent: Sent,
    pub(crate) size: u64,
    pub(crate) given: u16,
    pub(crate) received: u16,
    pub(crate) call: u64,
    pub(crate) length: u64,
}

/// A link that a CI began, and which is not answered yet.
#[derive(Clone, Copy, PartialEq, Eq)]
pub(crate) struct Called {
    pub(crate) tag: Tag,
    pub(crate) size: u64,
}

impl Link {
    /// One that has this tag, of which nothing was sent.
    pub(crate) fn new(tag: Tag, far: u16, phase: Phase, size: u64, call: u64) -> Link {
        Link {
            tag,
            far,
            phase,
            is_opened: false,
            is_accepted: false,
            has_run: false,
            is_over: false,
            sent: Sent::Nothing,
            size,
            given: 0,
            received: 0,
            call,
            length: 0,
        }
    }

    /// Whether its user may still give it up.
    pub(crate) fn is_calling(self) -> bool {
        self.phase == Phase::Calling && !self.is_over
    }

    /// A message of RUN was sent.
    pub(crate) fn ran(self) -> Link {
        match self.sent {
            Sent::Nothing => Link {
                sent: Sent::OfRun,
                ..self
            },
            Sent::OfRun | Sent::Disconnect => self,
        }
    }

    /// A DI was sent.
    pub(crate) fn disconnected(self) -> Link {
        Link {
            sent: Sent::Disconnect,
            phase: Phase::Disconnecting,
            ..self
        }
    }
}

/// Whether this number of a segment is after that one, and less than 2,048 after it.
pub(crate) fn is_after(number: u16, other: u16) -> bool {
    let distance = number.wrapping_sub(other) % 4096;
    distance > 0 && distance < 2048
}
