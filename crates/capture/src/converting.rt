//! A text is read in its format and written in the one that is asked for.

ghost use Rattle.std.specs.Prelude.{◌≡◌, ◌≢◌, ◌+◌, ◌≤◌, ◌++◌, length, List, ℕ, OnOk, OnErr, Err};
ghost use Rattle.std.specs.Io.KnownBytes.{Appends};
ghost use Rattle.wire_base.specs.Tally.{CountedFault, tally_faults, tally_lent};
ghost use Rattle.capture_record.specs.declared.fate.Fate.{Fate as Became};
ghost use Rattle.capture.specs.declared.format.Format.{Format as Layout};
ghost use Rattle.capture.specs.declared.hint.HintForm.{HintForm as Form};
ghost use Rattle.capture_record.specs.declared.limit.TheConstants.{MAX_HINT};
ghost use Rattle.capture.specs.declared.limit.TheConstants.{MAX_LINE};
ghost use Rattle.capture.specs.declared.page.TheConstants.{PAGE_SIZE};
ghost use Rattle.capture.specs.declared.converting.TheConstants.{LINE};
ghost use Rattle.capture_record.specs.declared.record.Record.TheVariants as records;
ghost use Rattle.capture.specs.Converting.{Converts, ConvertsWholeLines, CountsReadsOf, CountsWritesOf, convert_fault, devices};
ghost use Rattle.capture_record.specs.Entries.{record_with};
ghost use Rattle.capture_record.specs.Range.{NumbersFit};
ghost use Rattle.capture.specs.Range.{FormFits};
ghost use Rattle.capture.specs.Text.{format_number, hint_text, record_line, record_text};

use crate::fault::{CaptureFault, ConvertFault, WriteFault};
use crate::format::Format;
use crate::hint::HintForm;
use crate::limit::{MAX_LINE, MAX_RECORDS};
use crate::page::Page;
use crate::part::cut_at;
use crate::reader::CaptureReader;
use crate::so_far::text_read_on;
use crate::writer::write_head_in;
use capture_record::Entry;
use std::alloc::Global;
use std::io::{Read, Write};
use wire_base::Tally;

// More bytes than a line takes in another format, with its LF.
const LINE: usize = 131_200;

/// Reads a text in its format to its end, writes it in the format of the number `to`, which is 1, 2 or 3, and answers how many
/// records it has.
///
/// The head is written first, and then the lines of the records, put together in large pieces. `Capture(Departs)`: this line departs;
/// `Capture(Read)`: the reader failed. At either the writer has the head and the lines of all records before that, of each whole line
/// that the reader had given, and nothing where no head was read. `NotInFormat`: the record of this line is in format 3 alone, and another was
/// asked for; the writer has the head and the lines of all records before that. `Write`: the writer failed, and has a beginning of those that is not
/// all of them; it comes too where the text's fault was met before. `OutOfMemory`: there is no memory for a block of the reader, for
/// the head's line or for the pieces, and nothing was written. Once the head is written nothing takes memory.
pub fn convert<R: Read, W: Write>(
    alloc: Global,
    to: u8,
    reader: &mut Tally<R>,
    writer: &mut Tally<W>,
) -> Result<u64, ConvertFault>
    requires { (format : Layout) × (to ≡ format_number format) }
    ensures converts { (format : Layout) → to ≡ format_number format → Converts format (R.remaining (tally_lent reader.old))
        (W.contents (tally_lent writer.old)) (W.contents (tally_lent writer.new)) result }
    ensures lines { (format : Layout) → to ≡ format_number format → ConvertsWholeLines format (devices (R.remaining (tally_lent reader.old))
        (R.remaining (tally_lent reader.new)) (W.contents (tally_lent writer.old)) (W.contents (tally_lent writer.new))) result }
    ensures reads { CountsReadsOf result (tally_faults reader.old) (tally_faults reader.new) }
    ensures writes { CountsWritesOf result (tally_faults writer.old) (tally_faults writer.new) }
{
    match to {
        1 => convert_to(alloc, Format::One, reader, writer),
        2 => convert_to(alloc, Format::Two, reader, writer),
        _ => convert_to(alloc, Format::Three, reader, writer),
    }
}

fn convert_to<R: Read, W: Write>(
    alloc: Global,
    to: Format,
    reader: &mut Tally<R>,
    writer: &mut Tally<W>,
) -> Result<u64, ConvertFault>
    ensures converts { Converts to (R.remaining (tally_lent reader.old))
        (W.contents (tally_lent writer.old)) (W.contents (tally_lent writer.new)) result }
    ensures lines { ConvertsWholeLines to (devices (R.remaining (tally_lent reader.old)) (R.remaining (tally_lent reader.new))
        (W.contents (tally_lent writer.old)) (W.contents (tally_lent writer.new))) result }
    ensures reads { CountsReadsOf result (tally_faults reader.old) (tally_faults reader.new) }
    ensures writes { CountsWritesOf result (tally_faults writer.old) (tally_faults writer.new) }
{
    text_read_on();
    let Ok(mut page) = Page::new(alloc) else {
        return Err(ConvertFault::OutOfMemory);
    };
    let mut capture = match CaptureReader::open(alloc, reader) {
        Ok(capture) => capture,
        Err(fault) => return Err(fault_of(fault)),
    };
    match write_head_in(alloc, to, capture.own(), capture.peer(), writer) {
        Ok(()) => {}
        Err(WriteFault::Write) => return Err(ConvertFault::Write),
        Err(WriteFault::OutOfMemory) => return Err(ConvertFault::OutOfMemory),
    }
    let mut form = to.first_form();
    for count in 0..MAX_RECORDS + 1 {
        match capture.advance(reader) {
            Ok(Some(entry)) => {
                if !to.has(entry) {
                    let Ok(()) = page.write_out(writer) else {
                        return Err(ConvertFault::Write);
                    };
                    return Err(ConvertFault::NotInFormat { line: count + 2 });
                }
                let Ok(()) = page.make_room(LINE, writer) else {
                    return Err(ConvertFault::Write);
                };
                put_line(&mut page, form, entry, capture.line());
                form = form.after(entry);
            }
            Ok(None) => match page.write_out(writer) {
                Ok(()) => return Ok(count),
                Err(_) => return Err(ConvertFault::Write),
            },
            Err(fault) => match page.write_out(writer) {
                Ok(()) => return Err(fault_of(fault)),
                Err(_) => return Err(ConvertFault::Write),
            },
        }
    }
    unreachable!()
}

// A fault of the text's reader, which did not fail before.
fn fault_of(fault: CaptureFault) -> ConvertFault
    ensures { result ≡ convert_fault fault }
{
    match fault {
        CaptureFault::OutOfMemory => ConvertFault::OutOfMemory,
        CaptureFault::Departs { .. } | CaptureFault::Read | CaptureFault::Failed => {
            ConvertFault::Capture(fault)
        }
    }
}

// Appends the line of the record of this entry, which is at hand in some format: only a hint is spelled anew.
#[inline(always)]
fn put_line(page: &mut Page, to: HintForm, entry: Entry, line: &[u8])
    requires short { length line.now ≤ MAX_LINE }
    requires room { length page.old + LINE ≤ PAGE_SIZE }
    ensures { (from : Form) (bytes : List ℕ) → FormFits from → NumbersFit (record_with entry bytes) →
        line.now ≡ record_text from (record_with entry bytes) →
        page.new ≡ page.old ++ record_line to (record_with entry bytes) }
{
    if let Entry::Received { fate: _, hint } = entry {
        put_receipt(page, to, hint, line);
        return;
    }
    page.put(line);
    page.put(b"\n");
}

// The line of a receipt.
fn put_receipt(page: &mut Page, to: HintForm, hint: u64, line: &[u8])
    requires short { length line.now ≤ MAX_LINE }
    requires room { length page.old + LINE ≤ PAGE_SIZE }
    ensures { (from : Form) (fate : Became) (bytes : List ℕ) → FormFits from → hint ≤ MAX_HINT →
        line.now ≡ record_text from (records.Received hint fate bytes) →
        page.new ≡ page.old ++ record_line to (records.Received hint fate bytes) }
{
    let Some((letter, rest)) = cut_at(line, b' ') else {
        return;
    };
    let Some((_, bytes)) = cut_at(rest, b' ') else {
        return;
    };
    page.put(letter);
    page.put(b" ");
    put_hint(page, to, hint);
    page.put(b" ");
    page.put(bytes);
    page.put(b"\n");
}

fn put_hint(page: &mut Page, form: HintForm, hint: u64)
    requires { length page.old + 41 ≤ PAGE_SIZE }
    ensures bytes { page.new ≡ page.old ++ hint_text form hint }
    ensures len { length page.new ≤ length page.old + 41 }
{
    match form {
        HintForm::Number | HintForm::Wide => page.put_number(hint),
        HintForm::Distance { mark } if mark <= hint => page.put_number(hint - mark),
        HintForm::Distance { mark } => {
            page.put(b"-");
            page.put_number(mark - hint);
        }
        HintForm::Part if hint == 0 => page.put(b"-"),
        HintForm::Part => page.put_number(hint - 1),
    }
}
