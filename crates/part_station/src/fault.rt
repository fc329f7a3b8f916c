//! Why a record can't be made.

use dna_station::StationRefusal;

/// Why a record can't be made.
#[derive(Clone, Copy, Debug, PartialEq, Eq)]
pub enum PartFault {
    /// No station that may have been there makes it: for this reason of its own, or for `WrongResponse` at an arrival, which is the other side's.
    Refused(StationRefusal),
    /// Memory was refused.
    OutOfMemory,
}
