//! The text of a capture in which what is left out is carried.

ghost use Rattle.std.specs.Prelude.{◌≡◌, ◌++◌, OnOk};
ghost use Rattle.wire_base.specs.Tally.{tally_faults, tally_lent};
ghost use Rattle.capture.specs.Faulty.{CountsReads, is_failed_read};
ghost use Rattle.leaving_out.specs.Texts.{LeavesOut, departing, too_long_line};

use crate::leaving::Leaving;
use crate::record_left::put_left;
use capture::{
    CaptureFault, CaptureReader, Departure, Format, MAX_LINE, MAX_RECORDS, put_head_line,
};
use std::alloc::{AllocError, Global};
use std::io::Read;
use wire_base::{Side, Tally};

/// The text of format 3 in which what is left out at this side is carried, in memory: with as many lines as the text of the reader, in
/// its format, and as many records.
///
/// Where a line after the head's departs from the format, the text that is made ends with a line that departs in the same way. `Departs`: the head's
/// line departs, which is line 1. `Read` and `OutOfMemory` as of the reader, and the latter also where there is no memory for the text.
pub fn left_out<R: Read>(
    alloc: Global,
    side: Side,
    leaving: &Leaving<'_>,
    reader: &mut Tally<R>,
) -> Result<Vec<u8>, CaptureFault>
    ensures text { LeavesOut leaving.now side (R.remaining (tally_lent reader.old)) result }
    ensures reads { CountsReads (is_failed_read result) (tally_faults reader.old) (tally_faults reader.new) }
{
    let mut capture = CaptureReader::open(alloc, reader)?;
    let mut text = Vec::new(alloc);
    let Ok(()) = put_head_line(&mut text, Format::Three, capture.own(), capture.peer()) else {
        return Err(CaptureFault::OutOfMemory);
    };
    for _ in 0..MAX_RECORDS + 1 {
        match capture.advance(reader) {
            Ok(Some(entry)) => {
                let put = put_left(alloc, &mut text, leaving, side, entry, capture.bytes());
                let Ok(()) = put else {
                    return Err(CaptureFault::OutOfMemory);
                };
            }
            Ok(None) => return Ok(text),
            Err(CaptureFault::Departs { kind, line: _ }) => {
                let Ok(()) = put_departure(alloc, &mut text, kind) else {
                    return Err(CaptureFault::OutOfMemory);
                };
                return Ok(text);
            }
            Err(fault) => return Err(fault),
        }
    }
    unreachable!()
}

/// A line that departs in this way, as one behind the most that a text has departs whatever it is; as a part's head only a head departs.
pub(crate) fn put_departure(
    alloc: Global,
    text: &mut Vec<u8>,
    kind: Departure,
) -> Result<(), AllocError>
    ensures { OnOk result (text.new.items ≡ text.old.items ++ departing kind) }
{
    match kind {
        Departure::Syntax => text.extend_from_slice(b"?\n"),
        Departure::TooMany | Departure::Part => text.extend_from_slice(b"?\n"),
        Departure::TooLong => put_too_long(alloc, text),
    }
}

fn put_too_long(alloc: Global, text: &mut Vec<u8>) -> Result<(), AllocError>
    ensures { OnOk result (text.new.items ≡ text.old.items ++ too_long_line) }
{
    let long = vec![in alloc; b'?'; MAX_LINE + 1]?;
    text.extend_from_slice(&long)?;
    text.push(b'\n')?;
    Ok(())
}
