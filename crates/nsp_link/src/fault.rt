//! Why the links of a node made no step.

use dna_station::LinkRefusal;

/// Why the links of a node made no step. They are as they were.
#[derive(Clone, Copy, Debug, PartialEq, Eq)]
pub enum LinkFault {
    /// No node may make this step: reasons 16 and 18 to 26.
    Refused(LinkRefusal),
    /// The step is allowed, and memory that it needs was refused.
    OutOfMemory,
}
