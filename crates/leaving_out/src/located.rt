//! The head of a text, and which own address a record of it is about.

ghost use Rattle.wire_base.specs.Tally.{tally_faults, tally_lent};
ghost use Rattle.capture.specs.Faulty.{CountsReads, is_failed_read};
ghost use Rattle.leaving_out.specs.Texts.{FindsAt, IsHeadOf};

use crate::leaving::Head;
use crate::naming::about;
use capture::{CaptureFault, CaptureReader, MAX_RECORDS};
use link_groups::OwnAddress;
use std::alloc::Global;
use std::io::Read;
use wire_base::{Side, Tally};

/// Which own address the record at this place of a side's text is about, as [`about`](crate::about) says; the first record is at place 0. None too
/// where the text has no such record, as far as it can be read.
///
/// `Departs` names no line but the head's; `Read` and `OutOfMemory` are those of the reader.
pub fn address_at<R: Read>(
    alloc: Global,
    side: Side,
    place: u64,
    reader: &mut Tally<R>,
) -> Result<Option<OwnAddress>, CaptureFault>
    ensures address { FindsAt side place (R.remaining (tally_lent reader.old)) result }
    ensures reads { CountsReads (is_failed_read result) (tally_faults reader.old) (tally_faults reader.new) }
{
    let mut capture = CaptureReader::open(alloc, reader)?;
    for count in 0..MAX_RECORDS + 1 {
        match capture.advance(reader) {
            Ok(Some(entry)) => {
                if count == place {
                    return Ok(about(side, entry, capture.bytes()));
                }
            }
            Ok(None) => return Ok(None),
            Err(CaptureFault::Departs { .. }) => return Ok(None),
            Err(fault) => return Err(fault),
        }
    }
    unreachable!()
}

/// Both node addresses of a text's head.
///
/// `Departs`: the head's line departs, which is line 1. `Read` and `OutOfMemory` are those of the reader.
pub fn head<R: Read>(alloc: Global, reader: &mut Tally<R>) -> Result<Head, CaptureFault>
    ensures head { IsHeadOf (R.remaining (tally_lent reader.old)) result }
    ensures reads { CountsReads (is_failed_read result) (tally_faults reader.old) (tally_faults reader.new) }
{
    match CaptureReader::open(alloc, reader) {
        Ok(capture) => Ok(Head {
            own: capture.own(),
            peer: capture.peer(),
        }),
        Err(fault) => Err(fault),
    }
}
