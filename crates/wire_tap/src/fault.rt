//! Why a text of what passed was not read to its end, or its captures were not written.

ghost use Rattle.std.specs.Prelude.{◌≡◌};
ghost use Rattle.wire_tap.specs.inner.Moving.{fault_of};

use capture::{CaptureFault, Departure};
use std::alloc::AllocError;
use wire_base::Side;

/// Why there are no whole captures. What was written is a beginning of both.
#[derive(Clone, Copy, Debug, PartialEq, Eq)]
pub enum TapFault {
    /// The text departs from its format on this line.
    Departs { kind: Departure, line: u64 },
    /// A call of the text's reader failed.
    Read,
    /// A call of the writer of this side's capture failed.
    Write { side: Side },
    /// Memory was refused.
    OutOfMemory,
}

impl From<AllocError> for TapFault {
    fn from(_: AllocError) -> TapFault {
        TapFault::OutOfMemory
    }
}

/// A fault of the text's reader, which did not fail before.
pub(crate) fn reading_fault(fault: CaptureFault) -> TapFault
    ensures { result ≡ fault_of fault }
{
    match fault {
        CaptureFault::Departs { kind, line } => TapFault::Departs { kind, line },
        CaptureFault::Read | CaptureFault::Failed => TapFault::Read,
        CaptureFault::OutOfMemory => TapFault::OutOfMemory,
    }
}
