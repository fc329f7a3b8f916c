//! Why nothing is drawn.

use pair_judge::JudgeFault;

/// Why a pair is not drawn, or not all of it.
#[derive(Clone, Copy)]
pub enum DrawFault {
    /// There is no verdict, by this fault; or memory was wanting for the rows, or a read failed after a refused record. Nothing was written.
    Judge(JudgeFault),
    /// A write failed; a beginning was written.
    Write,
}
