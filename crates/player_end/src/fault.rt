//! Why a step of a script is not made.

use thiserror::Error;

/// Why a step of a script is not made.
#[derive(Clone, Copy, Debug, PartialEq, Eq, Error)]
pub enum StepFault {
    /// It breaks its rule.
    #[error("bad step")]
    BadStep,
    /// All 65,535 link addresses of the end are given.
    #[error("full")]
    Full,
    /// Memory was refused.
    #[error("out of memory")]
    OutOfMemory,
}
