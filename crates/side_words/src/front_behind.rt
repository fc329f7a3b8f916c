//! The first bytes of a message or of a segment, in words.

use record_words::words::words_if;
use std::fmt;

/// The front of so many bytes after these words, with two dots where it does not tell all of them. Printed as `: 0506..`; nothing where there
/// is no byte.
#[derive(Clone, Copy)]
pub struct FrontBehind<'l, 't> {
    pub lead: &'l str,
    pub front: &'t str,
    pub count: usize,
}

impl fmt::Display for FrontBehind<'_, '_> {
    fn fmt<W: fmt::Write>(&self, f: &mut fmt::Formatter<W>) -> fmt::Result {
        let FrontBehind { lead, front, count } = *self;
        if count == 0 {
            return Ok(());
        }
        let dots = words_if(front.len() / 2 < count, "..");
        write!(f, "{lead}{front}{dots}")
    }
}
