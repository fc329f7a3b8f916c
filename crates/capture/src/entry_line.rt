//! Putting the line of a record together without the record: from what it says beside its BYTES, and the bytes.

ghost use Rattle.std.specs.Prelude.{◌≡◌, ◌≤◌, ◌++◌, length, OnOk};
ghost use Rattle.capture_record.specs.declared.limit.TheConstants.{MAX_MESSAGE};
ghost use Rattle.capture_record.specs.Entries.{record_with};
ghost use Rattle.capture.specs.Text.{fate_front, record_line, record_text};
ghost use Rattle.capture.specs.declared.hint.HintForm.TheVariants.{Number};

use crate::hint::HintForm;
use crate::line_words::{put_link, put_links, put_message, put_receipt, put_unit};
use capture_record::{Entry, Fate};
use std::alloc::AllocError;

/// Puts the line of the record of this entry and these bytes, at most 65,535, with its LF, at the end of a text. Bytes beside an entry whose line has
/// no BYTES are not looked at. `AllocError` where an allocation for the text was refused; the text may then have a beginning of the line.
///
/// `Received { fate: Kept, hint: 3 }` and one byte 5 are the line `k 3 05`, in formats 1 and 3 alike. Whether format 1 has such a line at all
/// is not asked: `Format::has` tells it.
pub fn put_line(text: &mut Vec<u8>, entry: Entry, bytes: &[u8]) -> Result<(), AllocError>
    requires { length bytes.now ≤ MAX_MESSAGE }
    ensures { OnOk result (text.new.items ≡ text.old.items ++ record_line Number (record_with entry bytes.now)) }
{
    put_line_in(text, HintForm::Number, entry, bytes)
}

/// The same in any form of hints.
#[inline(always)]
pub(crate) fn put_line_in(
    text: &mut Vec<u8>,
    form: HintForm,
    entry: Entry,
    bytes: &[u8],
) -> Result<(), AllocError>
    requires { length bytes.now ≤ MAX_MESSAGE }
    ensures { OnOk result (text.new.items ≡ text.old.items ++ record_line form (record_with entry bytes.now)) }
{
    put_words(text, form, entry, bytes)?;
    text.push(b'\n')?;
    Ok(())
}

#[inline(always)]
fn put_words(
    text: &mut Vec<u8>,
    form: HintForm,
    entry: Entry,
    bytes: &[u8],
) -> Result<(), AllocError>
    requires { length bytes.now ≤ MAX_MESSAGE }
    ensures { OnOk result (text.new.items ≡ text.old.items ++ record_text form (record_with entry bytes.now)) }
{
    match entry {
        Entry::Sent => put_unit(text, b"s ", bytes),
        Entry::Received { fate, hint } => put_receipt(text, letter(fate), form, hint, bytes),
        Entry::Noise => put_unit(text, b"n ", bytes),
        Entry::In { link } => put_message(text, b"u in ", link, bytes),
        Entry::Up { link } => put_message(text, b"u up ", link, bytes),
        Entry::Start => text.extend_from_slice(b"u start"),
        Entry::Halt => text.extend_from_slice(b"u halt"),
        Entry::Open { link } => put_link(text, b"u open ", link),
        Entry::Accept { partner, link } => put_links(text, b"u accept ", partner, link),
        Entry::Reject { partner, link } => put_links(text, b"u reject ", partner, link),
        Entry::Close { link } => put_link(text, b"u close ", link),
        Entry::Boot => text.extend_from_slice(b"u boot"),
        Entry::Abort { link } => put_link(text, b"u abort ", link),
        Entry::Composed => put_unit(text, b"x ", bytes),
        Entry::Interrupt { link } => put_message(text, b"u interrupt ", link, bytes),
        Entry::Interrupted { link } => put_message(text, b"u interrupted ", link, bytes),
    }
}

// The letter of a receipt's line, and a space.
#[inline(always)]
fn letter<'a>(fate: Fate) -> &'a [u8]
    ensures { result.now ≡ fate_front fate }
{
    match fate {
        Fate::NotKept => b"r ",
        Fate::Kept => b"k ",
        Fate::Dropped => b"d ",
    }
}
