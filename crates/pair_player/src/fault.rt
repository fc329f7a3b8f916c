//! Why a script is not played to its end.

use capture::Departure;
use thiserror::Error;
use wire_base::Side;

/// Why a script is not played to its end. Lines are counted from 1.
#[derive(Clone, Copy, Debug, PartialEq, Eq, Error)]
pub enum PlayFault {
    /// The line departs from the format in this way.
    #[error("script: line {line}: {kind}")]
    Departs { kind: Departure, line: u64 },
    /// The line's step can't be made: it breaks its rule.
    #[error("script: line {line}: bad step")]
    BadStep { line: u64 },
    /// The line's step needs a link address of its end, and all 65,535 are given.
    #[error("script: line {line}: full")]
    Full { line: u64 },
    /// The script's reader failed in this call.
    #[error("script: read failed")]
    Read,
    /// The writer of this side's capture failed in this call.
    #[error("{side}: write failed")]
    Write { side: Side },
    /// There was no memory for the reader, for the ends, or for the text of a step.
    #[error("out of memory")]
    OutOfMemory,
}
