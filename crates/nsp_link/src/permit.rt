//! That the links allow an event or a message, with what was found when they were asked.

use crate::last_sent::LastSent;
use crate::last_sent::late::LateSent;
use dna_links::{Phase, Said};

/// That the user may do something with the links now, and what it then makes of them. Of the links that gave it, and of that event, until the
/// links change.
#[derive(Clone, Copy)]
pub enum LinkUserPermit {
    /// A link is opened with this own address, which no live link has.
    Opens { own: u16 },
    /// The call that began the link with this number is answered: it gets this own address, which no live link has, and goes to this phase.
    Answers { link: usize, own: u16, phase: Phase },
    /// A message is handed in at this link.
    HandsIn { link: usize },
    /// The message that this link delivers came in so many segments.
    Delivers { link: usize, pieces: usize },
    /// This link is closed.
    Closes { link: usize },
    /// The call of this link is given up.
    GivesUp { link: usize },
    /// The node starts anew.
    Boots,
}

/// That a message may be sent now, and what it then makes of its link. Of the links that gave it, and of that message, until the links change.
#[derive(Clone, Copy)]
pub enum LinkSendPermit {
    /// It is of no link, and changes nothing.
    OfNoLink,
    /// It is of the link with this number, and changes nothing.
    OfLink { link: usize },
    /// With queues: it shows that this link has come so far in what it sends.
    Shows { link: usize, said: Said },
    /// Acknowledgement words alone, or a segment that goes again: this is the last acknowledgement that was sent on this link from then on.
    GoesOn { link: usize, sent: LastSent },
    /// A new segment of this link: this is the last acknowledgement then, and how far the highest one of a new segment lies below it.
    Gives { link: usize, late: LateSent },
    /// A DC that ends this link, which is in Called.
    Drops { link: usize },
    /// With queues: a DC with the address of this link, for which all that came was acted on.
    Settles { link: usize },
}

/// That a message which came may be taken now, and what it is then to the links. Of the links that gave it, and of that message, until the links
/// change.
#[derive(Clone, Copy)]
pub enum LinkArrivalPermit {
    /// It changes nothing.
    Ignored,
    /// A CI that begins a link: no live one knows its SRCADDR.
    Begins,
    /// It is acted on by the link with this number.
    OfLink { link: usize },
}
