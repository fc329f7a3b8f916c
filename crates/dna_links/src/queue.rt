//! What is known of the queues between NSP and DDCMP.

use crate::Phase;

/// Whether packets wait between NSP and DDCMP, both ways.
#[derive(Clone, Copy, PartialEq, Eq)]
pub enum Queues {
    /// They do not: NSP acts on a packet when DDCMP keeps it, and composes one when it is first sent.
    Without,
    /// They do: a link acts on what was kept for it, and composes what it sends, at any time between.
    With,
}

/// How far a link has come in what it has sent.
#[derive(Clone, Copy, Debug, PartialEq, Eq)]
pub enum Said {
    /// Nothing of RUN and no DI.
    Nothing,
    /// A message of RUN, and no DI; or its node has shown by a DC that its phase of RUN had begun.
    OfRun,
    /// A DI; or its node has shown by a DC that it was closed.
    Disconnect,
}

/// What the queues of its node leave open of a link (NSP 4.0, port states). Without queues it stays as it begins.
#[derive(Clone, Copy, Debug, PartialEq, Eq)]
pub struct LinkQueue {
    /// The phase in which the link ended, while what was composed before that may still be sent; `Called` of a call that was opened here and given
    /// up, whose CI may still be sent. `None` of a live link, and of one of which nothing waits any more.
    pub waits: Option<Phase>,
    /// Whether it has been in RUN.
    pub ran: bool,
    /// Whether its user accepted it.
    pub accepted: bool,
    /// How far it has come in what it has sent.
    pub said: Said,
    /// How far below its last acknowledgement that was sent the highest one lies that a new segment had: 0 to 2,047.
    pub gap: u16,
}
