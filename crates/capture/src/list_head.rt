//! The head of a text that lists items, which each have a line.

ghost use Rattle.std.specs.Prelude.{◌≡◌};
ghost use Rattle.wire_base.specs.Tally.{tally_faults, tally_lent};
ghost use Rattle.capture.specs.Faulty.{CountsReads, is_failed_read};
ghost use Rattle.capture.specs.Lines.{IsCutBehind};
ghost use Rattle.capture.specs.Listed.{ListOpens, list_head_at};
ghost use Rattle.capture.specs.Reader.{WhereReadFails};

use crate::fault::{CaptureFault, Departure, LineFault};
use crate::line_reader::LineReader;
use crate::part::after;
use crate::record_words::nodes_of;
use std::alloc::Global;
use std::io::Read;
use wire_base::Tally;

// A first line that is no head.
const NO_HEAD: CaptureFault = CaptureFault::Departs {
    kind: Departure::Syntax,
    line: 1,
};

// The addresses of both nodes, as a head with these first words spells them; the line is given without its LF.
#[tactic(auto, unfolding(crate::specs::Listed::list_head_at))]
fn list_head_of(line: &[u8], first_words: &[u8]) -> Option<(u16, u16)>
    ensures { result ≡ list_head_at first_words.now line.now }
{
    nodes_of(after(line, first_words)?)
}

/// Reads the head of a text that lists items: its first words, and then the addresses of two nodes. Gives a reader of the lines after it, and both
/// addresses. Takes memory for the reader's block.
///
/// Faults, after which the reader has given what was read ahead: `Departs` at line 1, with `TooLong` where more than 131,081 bytes come before
/// the first LF or the end, and with `Syntax` where the first line has no LF, as in an empty text, or is no head; `Read` where a call of the
/// reader failed, and at any other answer its count of them is as it was; `OutOfMemory` where there is no memory. Where a read failed the reader had
/// given no whole line.
pub fn open_list<R: Read>(
    alloc: Global,
    first_words: &[u8],
    reader: &mut Tally<R>,
) -> Result<(LineReader, u16, u16), CaptureFault>
    ensures opens { ListOpens first_words.now (R.remaining (tally_lent reader.old)) (R.remaining (tally_lent reader.new)) result }
    ensures cut { WhereReadFails (is_failed_read result)
        (IsCutBehind (R.remaining (tally_lent reader.old)) (R.remaining (tally_lent reader.new))) }
    ensures reads { CountsReads (is_failed_read result) (tally_faults reader.old) (tally_faults reader.new) }
{
    let Ok(mut lines) = LineReader::new(alloc) else {
        return Err(CaptureFault::OutOfMemory);
    };
    match lines.next(1, reader) {
        Ok(Some(len)) => match list_head_of(lines.line(len), first_words) {
            Some((node_a, node_b)) => {
                lines.skip(len);
                Ok((lines, node_a, node_b))
            }
            None => Err(NO_HEAD),
        },
        Ok(None) => Err(NO_HEAD),
        Err(LineFault::Departs(kind)) => Err(CaptureFault::Departs { kind, line: 1 }),
        Err(LineFault::Read) => Err(CaptureFault::Read),
    }
}
