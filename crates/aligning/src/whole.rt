//! A capture that was read whole.

ghost use Rattle.std.specs.Prelude.{IfOk};
ghost use Rattle.wire_base.specs.Tally.{tally_lent};
ghost use Rattle.capture.specs.declared.hint.HintForm.{HintForm as Form};
ghost use Rattle.capture.specs.Range.{IsCapture};
ghost use Rattle.capture.specs.SoFar.{IsReadSoFar, TheEnd, so_far};

use capture::{CaptureFault, CaptureReader, MAX_RECORDS, text_read_on};
use capture_record::Record;
use std::alloc::Global;
use std::io::Read;
use wire_base::Tally;

/// A capture: both addresses of its head, and its records.
#[derive(Drop)]
pub struct Whole {
    pub own: u16,
    pub peer: u16,
    pub records: Vec<Record>,
}

/// Reads a capture to its end. The faults are those of the capture's reader; `OutOfMemory` also where there is no memory for its records.
pub fn read_whole<R: Read>(alloc: Global, reader: &mut Tally<R>) -> Result<Whole, CaptureFault>
    ensures whole { IfOk result (λ whole. (form : Form) × IsReadSoFar (R.remaining (tally_lent reader.old))
        (so_far form whole.own whole.peer whole.records.items TheEnd)) }
    ensures fits { IfOk result (λ whole. IsCapture whole.own whole.peer whole.records.items) }
{
    text_read_on();
    let mut capture = CaptureReader::open(alloc, reader)?;
    let mut records = Vec::new(alloc);
    for number in 0..MAX_RECORDS + 1 {
        match capture.next(reader) {
            Ok(Some(record)) => {
                let Ok(()) = records.push(record) else {
                    return Err(CaptureFault::OutOfMemory);
                };
            }
            Ok(None) => {
                return Ok(Whole {
                    own: capture.own(),
                    peer: capture.peer(),
                    records,
                });
            }
            Err(fault) => return Err(fault),
        }
    }
    unreachable!()
}
