//! Why a side made no step.

use dna_station::StepRefusal;

/// Why a side made no step.
#[derive(Clone, Copy)]
pub enum StepFault {
    /// No node may make it.
    Refused(StepRefusal),
    /// It is allowed so far, and memory that it needs was refused.
    OutOfMemory,
}
