//! A fault that was told on standard error.

ghost use Rattle.std.specs.Prelude.{◌≡◌};

use crate::files::Named;
use capture::{CaptureFault, Departure};
use pair_judge::{JudgeFault, TextFault};
use wire_base::Side;

/// What is wrong with a file, or that memory was refused.
#[derive(Clone, Copy)]
pub enum FaultKind {
    /// This line departs from its format.
    Departs { kind: Departure, line: u64 },
    NotOpened,
    Read,
    Write,
    /// It is to be written, and is this one too.
    SameFile(Named),
    /// No unit is in it.
    NoUnit,
    /// It can't be read again.
    ReadOnce,
    OutOfMemory,
}

/// A fault that was told on standard error: of which file, if it is one's, and with which status.
#[derive(Clone, Copy)]
pub struct FaultTold {
    pub named: Option<Named>,
    pub kind: FaultKind,
    pub status: u8,
}

impl FaultTold {
    /// Of this file.
    pub fn of(named: Named, kind: FaultKind, status: u8) -> FaultTold
        ensures { result.status ≡ status }
    {
        FaultTold {
            named: Some(named),
            kind,
            status,
        }
    }

    /// Memory was refused.
    pub fn out_of_memory(status: u8) -> FaultTold
        ensures { result.status ≡ status }
    {
        FaultTold {
            named: None,
            kind: FaultKind::OutOfMemory,
            status,
        }
    }

    /// Why there is no verdict on a pair.
    pub fn of_judge(fault: JudgeFault, status: u8) -> FaultTold
        ensures { result.status ≡ status }
    {
        match fault {
            JudgeFault::Capture { side, fault } => match fault {
                TextFault::Departs { kind, line } => {
                    FaultTold::of(named_of(side), FaultKind::Departs { kind, line }, status)
                }
                TextFault::Read => FaultTold::of(named_of(side), FaultKind::Read, status),
            },
            JudgeFault::OutOfMemory => FaultTold::out_of_memory(status),
        }
    }

    /// Why there is no verdict on this capture.
    pub fn of_capture(side: Side, fault: CaptureFault, status: u8) -> FaultTold
        ensures { result.status ≡ status }
    {
        match fault {
            CaptureFault::Departs { kind, line } => {
                FaultTold::of(named_of(side), FaultKind::Departs { kind, line }, status)
            }
            CaptureFault::Read | CaptureFault::Failed => {
                FaultTold::of(named_of(side), FaultKind::Read, status)
            }
            CaptureFault::OutOfMemory => FaultTold::out_of_memory(status),
        }
    }
}

/// The name of a side's capture.
pub fn named_of(side: Side) -> Named {
    match side {
        Side::A => Named::A,
        Side::B => Named::B,
    }
}
