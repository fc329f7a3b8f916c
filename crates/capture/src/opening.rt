//! Reading the head of a text, be it a whole capture's or that of a part of a run.

ghost use Rattle.std.specs.Prelude.{◌≡◌};
ghost use Rattle.wire_base.specs.Tally.{tally_faults, tally_lent};
ghost use Rattle.capture.specs.Faulty.{CountsReads, is_failed_read};
ghost use Rattle.capture.specs.Lines.{IsCutBehind};
ghost use Rattle.capture.specs.Opening.{OpensEither};
ghost use Rattle.capture.specs.Reader.{WhereReadFails};

use crate::fault::{CaptureFault, Departure, LineFault};
use crate::hint::HintForm;
use crate::line_reader::LineReader;
use crate::opened::Opened;
use crate::part_head::part_head_of;
use crate::reader::CaptureReader;
use crate::record_words::head_of;
use std::alloc::Global;
use std::io::Read;
use wire_base::Tally;

// A first line that is no head.
const NO_HEAD: CaptureFault = CaptureFault::Departs {
    kind: Departure::Syntax,
    line: 1,
};

/// Reads the head of a whole capture, `ddcap 1 OWN PEER`, or with the number 2 or 3, or that of a part of a run, `ddcap 4 OWN PEER part`: a reader
/// of the records after it, and which of them it was.
///
/// Its faults are those of [`CaptureReader::open`], but never `Part`. `ddcap 4 1.1 1.2`, with no `part`, is no head.
pub fn open_either<R: Read>(alloc: Global, reader: &mut Tally<R>) -> Result<Opened, CaptureFault>
    ensures opens { OpensEither (R.remaining (tally_lent reader.old)) (R.remaining (tally_lent reader.new)) result }
    ensures cut { WhereReadFails (is_failed_read result)
        (IsCutBehind (R.remaining (tally_lent reader.old)) (R.remaining (tally_lent reader.new))) }
    ensures reads { CountsReads (is_failed_read result) (tally_faults reader.old) (tally_faults reader.new) }
{
    let Ok(mut lines) = LineReader::new(alloc) else {
        return Err(CaptureFault::OutOfMemory);
    };
    match lines.next(1, reader) {
        Ok(Some(len)) => {
            if let Some((format, own, peer)) = head_of(lines.line(len)) {
                lines.skip(len);
                return match CaptureReader::behind_head(
                    alloc,
                    lines,
                    format.first_form(),
                    own,
                    peer,
                ) {
                    Ok(capture) => Ok(Opened::Whole(capture)),
                    Err(_) => Err(CaptureFault::OutOfMemory),
                };
            }
            if let Some((own, peer)) = part_head_of(lines.line(len)) {
                lines.skip(len);
                return match CaptureReader::behind_head(alloc, lines, HintForm::Part, own, peer) {
                    Ok(capture) => Ok(Opened::Part(capture)),
                    Err(_) => Err(CaptureFault::OutOfMemory),
                };
            }
            Err(NO_HEAD)
        }
        Ok(None) => Err(NO_HEAD),
        Err(LineFault::Departs(kind)) => Err(CaptureFault::Departs { kind, line: 1 }),
        Err(LineFault::Read) => Err(CaptureFault::Read),
    }
}
