//! A unit that passed.

ghost use Rattle.std.specs.Prelude.{◌≡◌, ◌≤◌, length, IfOk};
ghost use Rattle.capture_record.specs.declared.limit.TheConstants.{MAX_UNIT};

use std::alloc::{AllocError, Global};
use std::marker::Model;
use wire_base::Copied;

/// A copy of the bytes of a unit, of which there are at most 16,393. A contract sees the bytes.
#[derive(Drop)]
pub(crate) struct PassedUnit {
    bytes: Copied,
}

impl Model for PassedUnit {
    ghost use Rattle.std.specs.Prelude.{◌≤◌, List, ℕ, length};
    ghost use Rattle.capture_record.specs.declared.limit.TheConstants.{MAX_UNIT};

    ghost Value = { List ℕ };

    ghost view = { λ unit. unit.bytes };

    ghost invariant = { λ unit. length unit.bytes ≤ MAX_UNIT };
}

impl PassedUnit {
    /// A copy of these. `AllocError` where there is no memory for it.
    pub(crate) fn of(alloc: Global, bytes: &[u8]) -> Result<PassedUnit, AllocError>
        requires { length bytes.now ≤ MAX_UNIT }
        ensures { IfOk result (λ unit. unit ≡ bytes.now) }
    {
        let bytes = Copied::of(alloc, bytes)?;
        Ok(PassedUnit { bytes })
    }

    /// The bytes.
    pub(crate) fn as_slice(&self) -> &[u8]
        ensures bytes { result.now ≡ self.now }
        ensures short { length self.now ≤ MAX_UNIT }
    {
        self.bytes.as_slice()
    }
}
