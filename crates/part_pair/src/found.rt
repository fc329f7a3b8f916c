//! What the line has of the unit that a receipt names.

use dna_station::StepRefusal;

/// What the line has of the unit that a receipt names.
#[derive(Clone, Copy)]
pub enum Found {
    /// The unit, or one that was sent before the capture; so many of those that may come can't come any more.
    Comes { gone: usize },
    /// One that was sent after the other capture ended.
    ComesFromBehind,
    /// It is not sent yet.
    IsToCome,
    /// It can't be that unit.
    CannotCome(StepRefusal),
}
