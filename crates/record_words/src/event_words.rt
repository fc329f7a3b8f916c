//! The words of a user's line.

use capture_record::Entry;
use std::fmt;

/// The words of a user's line after `u `, with its bytes, which are spelled already. Nothing for a record that is no user's.
#[derive(Clone, Copy)]
pub struct EventWords<'d> {
    pub entry: Entry,
    pub digits: &'d str,
}

impl fmt::Display for EventWords<'_> {
    fn fmt<W: fmt::Write>(&self, f: &mut fmt::Formatter<W>) -> fmt::Result {
        let digits = self.digits;
        match self.entry {
            Entry::Start => f.write_str("start"),
            Entry::Halt => f.write_str("halt"),
            Entry::Open { link } => write!(f, "open {link}"),
            Entry::Accept { partner, link } => write!(f, "accept {partner} {link}"),
            Entry::Reject { partner, link } => write!(f, "reject {partner} {link}"),
            Entry::In { link } => write!(f, "in {link} {digits}"),
            Entry::Up { link } => write!(f, "up {link} {digits}"),
            Entry::Close { link } => write!(f, "close {link}"),
            Entry::Boot => f.write_str("boot"),
            Entry::Abort { link } => write!(f, "abort {link}"),
            Entry::Interrupt { link } => write!(f, "interrupt {link} {digits}"),
            Entry::Interrupted { link } => write!(f, "interrupted {link} {digits}"),
            Entry::Sent | Entry::Received { .. } | Entry::Noise | Entry::Composed => Ok(()),
        }
    }
}
