//! Why no more is read.

use crate::tapped::Ending;
use capture::CaptureFault;

/// Why no more of a text is read.
#[derive(Clone, Copy, PartialEq, Eq)]
pub(crate) enum Stop {
    /// The captures end.
    Ends(Ending),
    /// The text departs from its format, or can't be read.
    Text(CaptureFault),
}
