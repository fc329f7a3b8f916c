//! Reading the words of a record's line, and of the head.

ghost use Rattle.std.specs.Prelude.{◌≡◌, ◌≤◌, length, true, IfOk};
ghost use Rattle.capture_record.specs.declared.fate.Fate.{Fate as Became};
ghost use Rattle.capture.specs.Reading.{Gives, hint_at, is_wide, nodes_at, receipt_at, record_at, wide_at, head_at};
ghost use Rattle.capture.specs.Range.{FormFits, IsNode};
ghost use Rattle.capture_record.specs.declared.limit.TheConstants.{MAX_MESSAGE};
ghost use Rattle.capture.specs.declared.limit.TheConstants.{MAX_MARK};
ghost use Rattle.std.specs.Option.{option_map};
ghost use Rattle.capture.specs.Entries.{parted, told};
ghost use Rattle.capture_record.specs.declared.entry.Entry.TheVariants.{Received};

use crate::address::address_of;
use crate::digits::{bytes_into, bytes_of};
use crate::event_words::event_of;
use crate::fault::{Departure, PartFault};
use crate::format::Format;
use crate::hint::HintForm;
use crate::number::{number_before, number_of, positive_of};
use crate::part::{after, after_letter, cut_at};
use crate::wording::Wording;
use capture_record::{Bytes, Entry, Fate, MAX_HINT, Record};
use std::alloc::Global;

#[tactic(auto, unfolding(crate::specs::Reading::hint_at))]
#[inline(always)]
fn hint_of(form: HintForm, text: &[u8]) -> Option<u64>
    requires { FormFits form }
    ensures { result ≡ hint_at form text.now }
{
    match form {
        HintForm::Number | HintForm::Wide => number_of(text, MAX_HINT),
        HintForm::Distance { mark } => hint_by_distance(mark, text),
        HintForm::Part => hint_in_part(text),
    }
}

// The hint in a part of a run: 0 for `-`, and else one more than the number.
#[tactic(auto, unfolding(crate::specs::Reading::hint_at))]
fn hint_in_part(text: &[u8]) -> Option<u64>
    ensures { result ≡ hint_at HintForm.Part text.now }
{
    if text == b"-".as_slice() {
        return Some(0);
    }
    let number = number_of(text, MAX_HINT - 1)?;
    Some(number + 1)
}

// The hint at this distance from the mark.
#[tactic(auto, unfolding(crate::specs::Reading::hint_at, crate::specs::Reading::hint_above, crate::specs::Reading::hint_below))]
fn hint_by_distance(mark: u64, text: &[u8]) -> Option<u64>
    requires { mark ≤ MAX_MARK }
    ensures { result ≡ hint_at (HintForm.Distance mark) text.now }
{
    if let Some(rest) = after(text, b"-") {
        let distance = positive_of(rest, mark)?;
        return Some(mark - distance);
    }
    let hint = mark + number_of(text, MAX_HINT)?;
    if hint > MAX_HINT {
        return None;
    }
    Some(hint)
}

// The hint of a receipt and the text of its BYTES. That it is a receipt is told where it is read, so that nothing asks it again.
#[inline(always)]
fn receipt_of(form: HintForm, text: &[u8]) -> Option<(u64, &[u8])>
    requires { FormFits form }
    ensures { (fate : Became) → receipt_at form fate text.now ≡ told (option_map (λ parts. (Received fate parts.0, parts.1.now)) result) }
{
    match form {
        HintForm::Number | HintForm::Wide => receipt_by_number(text),
        HintForm::Distance { .. } | HintForm::Part => match receipt_in_form(form, text) {
            Some((hint, bytes)) => Some((hint, bytes)),
            None => None,
        },
    }
}

#[inline(always)]
fn receipt_by_number(text: &[u8]) -> Option<(u64, &[u8])>
    ensures number { (fate : Became) → receipt_at HintForm.Number fate text.now
        ≡ told (option_map (λ parts. (Received fate parts.0, parts.1.now)) result) }
    ensures wide { (fate : Became) → receipt_at HintForm.Wide fate text.now
        ≡ told (option_map (λ parts. (Received fate parts.0, parts.1.now)) result) }
{
    match number_before(text, MAX_HINT) {
        Some((hint, bytes)) => Some((hint, bytes)),
        None => None,
    }
}

#[tactic(auto, unfolding(crate::specs::Reading::receipt_at))]
fn receipt_in_form(form: HintForm, text: &[u8]) -> Option<(u64, &[u8])>
    requires { FormFits form }
    ensures { (fate : Became) → receipt_at form fate text.now ≡ told (option_map (λ parts. (Received fate parts.0, parts.1.now)) result) }
{
    let (hint, bytes) = cut_at(text, b' ')?;
    let hint = hint_of(form, hint)?;
    Some((hint, bytes))
}

/// What the line says beside its BYTES, and the text of BYTES, where it has any; `None` where it can be no record's. The line
/// is given without its LF.
#[tactic(auto, unfolding(crate::specs::Reading::line_at))]
pub fn entry_of(form: HintForm, line: &[u8]) -> Option<(Entry, &[u8])>
    requires { FormFits form }
    ensures { record_at form line.now ≡ told (option_map (λ parts. (parts.0, parts.1.now)) result) }
{
    if let Some(rest) = after_letter(line, b's') {
        return Some((Entry::Sent, rest));
    }
    if let Some(rest) = after_letter(line, b'r') {
        let (hint, bytes) = receipt_of(form, rest)?;
        return Some((
            Entry::Received {
                fate: Fate::NotKept,
                hint,
            },
            bytes,
        ));
    }
    if let Some(rest) = after_letter(line, b'k') {
        let (hint, bytes) = receipt_of(form, rest)?;
        return Some((
            Entry::Received {
                fate: Fate::Kept,
                hint,
            },
            bytes,
        ));
    }
    if let Some(rest) = after_letter(line, b'n') {
        return Some((Entry::Noise, rest));
    }
    if let Some(rest) = after_letter(line, b'u') {
        return event_of(form.is_wide(), rest);
    }
    if form.is_wide() {
        return wide_entry_of(form, line);
    }
    None
}

// The same of a line that format 3 alone has.
#[tactic(auto, unfolding(crate::specs::Reading::wide_at))]
#[inline(never)]
fn wide_entry_of(form: HintForm, line: &[u8]) -> Option<(Entry, &[u8])>
    requires { FormFits form }
    ensures { wide_at form line.now ≡ told (option_map (λ parts. (parts.0, parts.1.now)) result) }
{
    if let Some(rest) = after_letter(line, b'd') {
        let (hint, bytes) = receipt_of(form, rest)?;
        return Some((
            Entry::Received {
                fate: Fate::Dropped,
                hint,
            },
            bytes,
        ));
    }
    if let Some(rest) = after_letter(line, b'x') {
        return Some((Entry::Composed, rest));
    }
    None
}

/// The record that the line spells; the line is given without its LF.
///
/// Faults: `Departs(Syntax)` where it spells none; `Departs(TooLong)` where it would
/// spell one if there were not too many bytes; `OutOfMemory`. `r 0 -` is a record, `r 01 -` is none; where a hint is a distance, so is `r -1 -`,
/// as far as the mark reaches, and `r -0 -` is none.
#[inline(always)]
pub fn record_of(alloc: Global, form: HintForm, line: &[u8]) -> Result<Record, PartFault>
    requires { FormFits form }
    ensures { Gives result (record_at form line.now) }
{
    let Some((entry, text)) = entry_of(form, line) else {
        return Err(PartFault::Departs(Departure::Syntax));
    };
    let Some(most) = entry.limit() else {
        return Ok(entry.with(Bytes::new(Vec::new(alloc))));
    };
    let bytes = bytes_of(alloc, text, most)?;
    Ok(entry.with(bytes))
}

/// Reads the line's record in two parts: its entry, and its bytes, which are written to the front of the room, with how many they
/// are. The line is given without its LF. It departs as for [`record_of`]. Takes no memory.
pub fn line_into(
    wording: &Wording,
    line: &[u8],
    room: &mut [u8],
) -> Result<(Entry, usize), Departure>
    requires form { FormFits wording.now.form }
    requires room { length room.old ≡ MAX_MESSAGE }
    ensures record { record_at wording.now.form line.now ≡ parted room.new result }
    ensures len { IfOk result (λ parts. parts.1 ≤ MAX_MESSAGE) }
    ensures room { length room.new ≡ MAX_MESSAGE }
{
    let Some((entry, text)) = entry_of(wording.form, line) else {
        return Err(Departure::Syntax);
    };
    let Some(most) = entry.limit() else {
        return Ok((entry, 0));
    };
    let len = bytes_into(text, most, room)?;
    Ok((entry, len))
}

/// The addresses of two nodes, as a head spells them after its first words.
#[tactic(auto, unfolding(crate::specs::Reading::nodes_at))]
pub(crate) fn nodes_of(text: &[u8]) -> Option<(u16, u16)>
    ensures { result ≡ nodes_at text.now }
{
    let (own, peer) = cut_at(text, b' ')?;
    let own = address_of(own)?;
    let peer = address_of(peer)?;
    Some((own, peer))
}

/// The format, the own node's address and its peer's, as the head spells them; the line is given without its LF.
#[tactic(auto, unfolding(crate::specs::Reading::head_at))]
pub fn head_of(line: &[u8]) -> Option<(Format, u16, u16)>
    ensures { result ≡ head_at line.now }
{
    if let Some(rest) = after(line, b"ddcap 1 ") {
        let (own, peer) = nodes_of(rest)?;
        return Some((Format::One, own, peer));
    }
    if let Some(rest) = after(line, b"ddcap 2 ") {
        let (own, peer) = nodes_of(rest)?;
        return Some((Format::Two, own, peer));
    }
    if let Some(rest) = after(line, b"ddcap 3 ") {
        let (own, peer) = nodes_of(rest)?;
        return Some((Format::Three, own, peer));
    }
    None
}
