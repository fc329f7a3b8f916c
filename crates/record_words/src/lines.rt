//! The lines of captures that an answer names.

/// The lines that an answer names beside the refused one; `None` where none is known.
#[derive(Clone, Copy, PartialEq, Eq)]
pub struct Lines {
    /// In which the live link with the own address that the record names got it.
    pub since: Option<u64>,
    /// In which the last link with the addresses that the record names ended.
    pub ended: Option<u64>,
    /// At which the other side waits.
    pub other_at: Option<u64>,
    /// In which a STRT came that halted the station of this side, if it is halted.
    pub halted: Option<u64>,
    /// Whether a live link has the two addresses that the record names, exchanged.
    pub exchanged: bool,
}

impl Lines {
    /// None is known.
    pub fn none() -> Lines {
        Lines {
            since: None,
            ended: None,
            other_at: None,
            halted: None,
            exchanged: false,
        }
    }
}
