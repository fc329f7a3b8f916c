//! Which unit a record is.

ghost use Rattle.std.specs.Prelude.{◌≡◌, ◌≤◌, ℕ, List, [], ◌∷◌, length, IfOk};
ghost use Rattle.wire_base.specs.Tally.{tally_lent};
ghost use Rattle.capture_record.specs.Entries.{record_with};
ghost use Rattle.placing.specs.Placed.{units_sent};
ghost use Rattle.tap_answer.specs.Before.{HasBefore};

use capture::{CaptureFault, CaptureReader};
use capture_record::Entry;
use std::alloc::Global;
use std::io::Read;
use wire_base::Tally;

/// How many units a capture has sent before the record with this number, counted from 0: the number of that record's unit, or, where it is no unit's,
/// of the next one. The faults are those of the reader; `Read` too where the capture has fewer records.
pub fn units_before<R: Read>(
    alloc: Global,
    capture: &mut Tally<R>,
    place: u64,
) -> Result<u64, CaptureFault>
    ensures { IfOk result (HasBefore (R.remaining (tally_lent capture.old)) place) }
{
    let mut reader = CaptureReader::open(alloc, capture)?;
    let mut units: u64 = 0;
    for _ in 0..place {
        match reader.advance(capture) {
            Ok(Some(entry)) => units += units_of(entry),
            Ok(None) => return Err(CaptureFault::Read),
            Err(fault) => return Err(fault),
        }
    }
    Ok(units)
}

// How many units a record says were sent.
fn units_of(entry: Entry) -> u64
    ensures units { (bytes : List ℕ) → length (units_sent (record_with entry bytes ∷ [])) ≡ result }
    ensures few { result ≤ 1 }
{
    match entry {
        Entry::Sent => 1,
        Entry::Received { .. } | Entry::Noise => 0,
        Entry::Start | Entry::Halt | Entry::Open { .. } | Entry::Accept { .. } => 0,
        Entry::Reject { .. } | Entry::In { .. } | Entry::Up { .. } | Entry::Close { .. } => 0,
        Entry::Boot | Entry::Abort { .. } | Entry::Composed => 0,
        Entry::Interrupt { .. } | Entry::Interrupted { .. } => 0,
    }
}
