//! Writing a capture, line by line.

ghost use Rattle.std.specs.Prelude.{◌≡◌, ◌≤◌, Err, IfOk, OnOk};
ghost use Rattle.std.specs.Io.KnownBytes.{Appends};
ghost use Rattle.wire_base.specs.Tally.{tally_faults, tally_lent};
ghost use Rattle.capture.specs.declared.limit.TheConstants.{MAX_MARK};
ghost use Rattle.capture.specs.Text.{head_line, mark_after, part_head_line, record_line};
ghost use Rattle.capture_record.specs.Range.{IsRecord};
ghost use Rattle.capture.specs.Range.{IsInFormat, IsNode};
ghost use Rattle.capture.specs.Writing.{WriteMeans};

use crate::entry_line::put_line_in;
use crate::fault::WriteFault;
use crate::format::Format;
use crate::hint::{HintForm, next_mark_of};
use crate::line_words::{put_head_line, put_part_head_line};
use capture_record::Record;
use std::alloc::{AllocError, Global};
use std::io::Write;
use wire_base::{Tally, write_whole};

// The words of a line that are not BYTES, its LF included, are fewer: "accept" and two addresses,
// or a letter and a hint.
const WORDS: usize = 64;

/// Writes the head `ddcap 1 OWN PEER`, in one piece. Both have to be node addresses, which `is_node` tells.
///
/// `Write`: the writer failed in this call, and has a beginning of the line that is not all of it.
/// `OutOfMemory`: there is no memory for the line, and the writer was not called.
pub fn write_head<W: Write>(
    alloc: Global,
    own: u16,
    peer: u16,
    writer: &mut Tally<W>,
) -> Result<(), WriteFault>
    requires own { IsNode own }
    requires peer { IsNode peer }
    ensures ok { OnOk result (Appends (W.contents (tally_lent writer.old)) (W.contents (tally_lent writer.new))
        (head_line Format.One own peer)) }
    ensures fault { WriteMeans (W.contents (tally_lent writer.old)) (W.contents (tally_lent writer.new))
        (tally_faults writer.old) (tally_faults writer.new) (head_line Format.One own peer) result }
{
    write_head_in(alloc, Format::One, own, peer, writer)
}

/// Writes the head `ddcap 2 OWN PEER`, in one piece. Both have to be node addresses, which `is_node` tells.
///
/// `Write`: the writer failed in this call, and has a beginning of the line that is not all of it.
/// `OutOfMemory`: there is no memory for the line, and the writer was not called.
pub fn write_head_2<W: Write>(
    alloc: Global,
    own: u16,
    peer: u16,
    writer: &mut Tally<W>,
) -> Result<(), WriteFault>
    requires own { IsNode own }
    requires peer { IsNode peer }
    ensures ok { OnOk result (Appends (W.contents (tally_lent writer.old)) (W.contents (tally_lent writer.new))
        (head_line Format.Two own peer)) }
    ensures fault { WriteMeans (W.contents (tally_lent writer.old)) (W.contents (tally_lent writer.new))
        (tally_faults writer.old) (tally_faults writer.new) (head_line Format.Two own peer) result }
{
    write_head_in(alloc, Format::Two, own, peer, writer)
}

/// Writes the head `ddcap 3 OWN PEER`, in one piece. Both have to be node addresses, which `is_node` tells.
///
/// `Write`: the writer failed in this call, and has a beginning of the line that is not all of it.
/// `OutOfMemory`: there is no memory for the line, and the writer was not called.
pub fn write_head_3<W: Write>(
    alloc: Global,
    own: u16,
    peer: u16,
    writer: &mut Tally<W>,
) -> Result<(), WriteFault>
    requires own { IsNode own }
    requires peer { IsNode peer }
    ensures ok { OnOk result (Appends (W.contents (tally_lent writer.old)) (W.contents (tally_lent writer.new))
        (head_line Format.Three own peer)) }
    ensures fault { WriteMeans (W.contents (tally_lent writer.old)) (W.contents (tally_lent writer.new))
        (tally_faults writer.old) (tally_faults writer.new) (head_line Format.Three own peer) result }
{
    write_head_in(alloc, Format::Three, own, peer, writer)
}

/// Writes the head in this format, in one piece. Its faults are those of [`write_head`].
pub fn write_head_in<W: Write>(
    alloc: Global,
    format: Format,
    own: u16,
    peer: u16,
    writer: &mut Tally<W>,
) -> Result<(), WriteFault>
    requires own { IsNode own }
    requires peer { IsNode peer }
    ensures ok { OnOk result (Appends (W.contents (tally_lent writer.old)) (W.contents (tally_lent writer.new))
        (head_line format own peer)) }
    ensures fault { WriteMeans (W.contents (tally_lent writer.old)) (W.contents (tally_lent writer.new))
        (tally_faults writer.old) (tally_faults writer.new) (head_line format own peer) result }
{
    let Ok(line) = head_words(alloc, format, own, peer) else {
        return Err(WriteFault::OutOfMemory);
    };
    match write_whole(writer, line.as_slice()) {
        Ok(()) => Ok(()),
        Err(_) => Err(WriteFault::Write),
    }
}

/// Writes the head of a part of a run, `ddcap 4 OWN PEER part`, in one piece. Its faults are those of [`write_head`].
pub fn write_part_head<W: Write>(
    alloc: Global,
    own: u16,
    peer: u16,
    writer: &mut Tally<W>,
) -> Result<(), WriteFault>
    requires own { IsNode own }
    requires peer { IsNode peer }
    ensures ok { OnOk result (Appends (W.contents (tally_lent writer.old)) (W.contents (tally_lent writer.new))
        (part_head_line own peer)) }
    ensures fault { WriteMeans (W.contents (tally_lent writer.old)) (W.contents (tally_lent writer.new))
        (tally_faults writer.old) (tally_faults writer.new) (part_head_line own peer) result }
{
    let Ok(line) = part_head_words(alloc, own, peer) else {
        return Err(WriteFault::OutOfMemory);
    };
    match write_whole(writer, line.as_slice()) {
        Ok(()) => Ok(()),
        Err(_) => Err(WriteFault::Write),
    }
}

fn part_head_words(alloc: Global, own: u16, peer: u16) -> Result<Vec<u8>, AllocError>
    ensures { IfOk result (λ line. line.items ≡ part_head_line own peer) }
{
    let mut line = Vec::with_capacity(alloc, WORDS)?;
    put_part_head_line(&mut line, own, peer)?;
    Ok(line)
}

fn head_words(alloc: Global, format: Format, own: u16, peer: u16) -> Result<Vec<u8>, AllocError>
    ensures { IfOk result (λ line. line.items ≡ head_line format own peer) }
{
    let mut line = Vec::with_capacity(alloc, WORDS)?;
    put_head_line(&mut line, format, own, peer)?;
    Ok(line)
}

/// Writes the record's line in format 1, in one piece. The record has to be in range (`Record::in_range`), and in the format (`Record::is_in`).
///
/// `Write`: the writer failed in this call, and has a beginning of the line that is not all of it.
/// `OutOfMemory`: there is no memory for the line, and the writer was not called.
pub fn write_record<W: Write>(
    alloc: Global,
    record: &Record,
    writer: &mut Tally<W>,
) -> Result<(), WriteFault>
    requires record { IsRecord «record».now }
    requires format { IsInFormat Format.One «record».now }
    ensures ok { OnOk result (Appends (W.contents (tally_lent writer.old)) (W.contents (tally_lent writer.new))
        (record_line HintForm.Number «record».now)) }
    ensures fault { WriteMeans (W.contents (tally_lent writer.old)) (W.contents (tally_lent writer.new))
        (tally_faults writer.old) (tally_faults writer.new) (record_line HintForm.Number «record».now) result }
{
    write_record_in(alloc, HintForm::Number, record, writer)
}

/// Writes the record's line in format 2, in one piece, and answers the mark after it. The mark before the first record is 0;
/// it is at most 1,000,000,000,000,000,000. The record has to be in range (`Record::in_range`), and in the format (`Record::is_in`).
///
/// `Write`: the writer failed in this call, and has a beginning of the line that is not all of it.
/// `OutOfMemory`: there is no memory for the line, and the writer was not called. After either the old mark still holds.
pub fn write_record_2<W: Write>(
    alloc: Global,
    mark: u64,
    record: &Record,
    writer: &mut Tally<W>,
) -> Result<u64, WriteFault>
    requires mark { mark ≤ MAX_MARK }
    requires record { IsRecord «record».now }
    requires format { IsInFormat Format.Two «record».now }
    ensures ok { OnOk result (Appends (W.contents (tally_lent writer.old)) (W.contents (tally_lent writer.new))
        (record_line (HintForm.Distance mark) «record».now)) }
    ensures mark { IfOk result (λ after. after ≡ mark_after mark «record».now) }
    ensures fault { WriteMeans (W.contents (tally_lent writer.old)) (W.contents (tally_lent writer.new))
        (tally_faults writer.old) (tally_faults writer.new) (record_line (HintForm.Distance mark) «record».now) result }
{
    match write_record_in(alloc, HintForm::Distance { mark }, record, writer) {
        Ok(()) => Ok(next_mark_of(mark, record)),
        Err(fault) => Err(fault),
    }
}

/// Writes the record's line in format 3, in one piece. The record has to be in range (`Record::in_range`).
///
/// `Write`: the writer failed in this call, and has a beginning of the line that is not all of it.
/// `OutOfMemory`: there is no memory for the line, and the writer was not called.
pub fn write_record_3<W: Write>(
    alloc: Global,
    record: &Record,
    writer: &mut Tally<W>,
) -> Result<(), WriteFault>
    requires { IsRecord «record».now }
    ensures ok { OnOk result (Appends (W.contents (tally_lent writer.old)) (W.contents (tally_lent writer.new))
        (record_line HintForm.Wide «record».now)) }
    ensures fault { WriteMeans (W.contents (tally_lent writer.old)) (W.contents (tally_lent writer.new))
        (tally_faults writer.old) (tally_faults writer.new) (record_line HintForm.Wide «record».now) result }
{
    write_record_in(alloc, HintForm::Wide, record, writer)
}

/// Writes the record's line in a part of a run, in one piece: with `-` for the hint 0, and else with the hint less one. The record has to be in range
/// (`Record::in_range`). Its faults are those of [`write_record_3`].
pub fn write_part_record<W: Write>(
    alloc: Global,
    record: &Record,
    writer: &mut Tally<W>,
) -> Result<(), WriteFault>
    requires { IsRecord «record».now }
    ensures ok { OnOk result (Appends (W.contents (tally_lent writer.old)) (W.contents (tally_lent writer.new))
        (record_line HintForm.Part «record».now)) }
    ensures fault { WriteMeans (W.contents (tally_lent writer.old)) (W.contents (tally_lent writer.new))
        (tally_faults writer.old) (tally_faults writer.new) (record_line HintForm.Part «record».now) result }
{
    write_record_in(alloc, HintForm::Part, record, writer)
}

fn write_record_in<W: Write>(
    alloc: Global,
    form: HintForm,
    record: &Record,
    writer: &mut Tally<W>,
) -> Result<(), WriteFault>
    requires { IsRecord «record».now }
    ensures ok { OnOk result (Appends (W.contents (tally_lent writer.old)) (W.contents (tally_lent writer.new))
        (record_line form «record».now)) }
    ensures fault { WriteMeans (W.contents (tally_lent writer.old)) (W.contents (tally_lent writer.new))
        (tally_faults writer.old) (tally_faults writer.new) (record_line form «record».now) result }
{
    let Ok(line) = record_words(alloc, form, record) else {
        return Err(WriteFault::OutOfMemory);
    };
    match write_whole(writer, line.as_slice()) {
        Ok(()) => Ok(()),
        Err(_) => Err(WriteFault::Write),
    }
}

fn record_words(alloc: Global, form: HintForm, record: &Record) -> Result<Vec<u8>, AllocError>
    requires { IsRecord «record».now }
    ensures { IfOk result (λ line. line.items ≡ record_line form «record».now) }
{
    let (entry, bytes) = record.parts();
    let mut line = Vec::with_capacity(alloc, WORDS + 2 * bytes.len())?;
    put_line_in(&mut line, form, entry, bytes)?;
    Ok(line)
}
