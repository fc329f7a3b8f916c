//! Writing the words of a line.

ghost use Rattle.std.specs.Prelude.{◌≡◌, ◌≤◌, ◌++◌, length, OnOk};
ghost use Rattle.std.specs.Fmt.{decimal};
ghost use Rattle.hex.specs.Hex.{encode_lower};
ghost use Rattle.capture_record.specs.declared.limit.TheConstants.{MAX_MESSAGE};
ghost use Rattle.capture.specs.Text.{address_text, bytes_text, format_text, head_line, head_text, hint_text, part_head_line, spaced};

use crate::format::Format;
use crate::hint::HintForm;
use itoa::Buffer;
use std::alloc::AllocError;

fn put_number(line: &mut Vec<u8>, number: u64) -> Result<(), AllocError>
    ensures { OnOk result (line.new.items ≡ line.old.items ++ decimal number) }
{
    let mut buffer = Buffer::new();
    line.extend_from_slice(buffer.format(number).as_bytes())
}

fn put_hint(line: &mut Vec<u8>, form: HintForm, hint: u64) -> Result<(), AllocError>
    ensures { OnOk result (line.new.items ≡ line.old.items ++ hint_text form hint) }
{
    match form {
        HintForm::Number | HintForm::Wide => put_number(line, hint),
        HintForm::Distance { mark } if mark <= hint => put_number(line, hint - mark),
        HintForm::Distance { mark } => {
            line.push(b'-')?;
            put_number(line, mark - hint)
        }
        HintForm::Part if hint == 0 => {
            line.push(b'-')?;
            Ok(())
        }
        HintForm::Part => put_number(line, hint - 1),
    }
}

fn put_address(line: &mut Vec<u8>, address: u16) -> Result<(), AllocError>
    ensures { OnOk result (line.new.items ≡ line.old.items ++ address_text address) }
{
    put_number(line, u64::from(address / 1024))?;
    line.push(b'.')?;
    put_number(line, u64::from(address % 1024))
}

fn put_bytes(line: &mut Vec<u8>, bytes: &[u8]) -> Result<(), AllocError>
    requires { length bytes.now ≤ MAX_MESSAGE }
    ensures { OnOk result (line.new.items ≡ line.old.items ++ bytes_text bytes.now) }
{
    if bytes.is_empty() {
        line.push(b'-')?;
        return Ok(());
    }
    put_digits(line, bytes)
}

// Two digits for each byte.
fn put_digits(line: &mut Vec<u8>, bytes: &[u8]) -> Result<(), AllocError>
    requires { length bytes.now ≤ MAX_MESSAGE }
    ensures { OnOk result (line.new.items ≡ line.old.items ++ encode_lower bytes.now) }
{
    let start = line.len();
    line.resize(start + 2 * bytes.len(), 0)?;
    let room = &mut line[start..];
    match hex::encode_to_slice(bytes, room) {
        Ok(()) => Ok(()),
        Err(_) => unreachable!(),
    }
}

/// Puts these words and a unit's BYTES at the end.
#[inline(always)]
pub(crate) fn put_unit(line: &mut Vec<u8>, words: &[u8], bytes: &[u8]) -> Result<(), AllocError>
    requires { length bytes.now ≤ MAX_MESSAGE }
    ensures { OnOk result (line.new.items ≡ line.old.items ++ (words.now ++ bytes_text bytes.now)) }
{
    line.extend_from_slice(words)?;
    put_bytes(line, bytes)
}

/// Puts these words, a hint and the BYTES of a receipt at the end.
#[inline(always)]
pub(crate) fn put_receipt(
    line: &mut Vec<u8>,
    words: &[u8],
    form: HintForm,
    hint: u64,
    bytes: &[u8],
) -> Result<(), AllocError>
    requires { length bytes.now ≤ MAX_MESSAGE }
    ensures { OnOk result (line.new.items ≡ line.old.items ++ (words.now ++ spaced (hint_text form hint) (bytes_text bytes.now))) }
{
    line.extend_from_slice(words)?;
    put_hint(line, form, hint)?;
    line.push(b' ')?;
    put_bytes(line, bytes)
}

/// Puts these words and the address of a link at the end.
#[inline(always)]
pub(crate) fn put_link(line: &mut Vec<u8>, words: &[u8], link: u16) -> Result<(), AllocError>
    ensures { OnOk result (line.new.items ≡ line.old.items ++ (words.now ++ decimal link)) }
{
    line.extend_from_slice(words)?;
    put_number(line, u64::from(link))
}

/// Puts these words and the addresses of two links at the end.
#[inline(always)]
pub(crate) fn put_links(
    line: &mut Vec<u8>,
    words: &[u8],
    partner: u16,
    link: u16,
) -> Result<(), AllocError>
    ensures { OnOk result (line.new.items ≡ line.old.items ++ (words.now ++ spaced (decimal partner) (decimal link))) }
{
    put_link(line, words, partner)?;
    put_link(line, b" ", link)
}

/// Puts these words, the address of a link and the BYTES of its message at the end.
#[inline(always)]
pub(crate) fn put_message(
    line: &mut Vec<u8>,
    words: &[u8],
    link: u16,
    bytes: &[u8],
) -> Result<(), AllocError>
    requires { length bytes.now ≤ MAX_MESSAGE }
    ensures { OnOk result (line.new.items ≡ line.old.items ++ (words.now ++ spaced (decimal link) (bytes_text bytes.now))) }
{
    put_link(line, words, link)?;
    put_unit(line, b" ", bytes)
}

fn put_format(line: &mut Vec<u8>, format: Format) -> Result<(), AllocError>
    ensures { OnOk result (line.new.items ≡ line.old.items ++ format_text format) }
{
    match format {
        Format::One => line.extend_from_slice(b"ddcap 1 "),
        Format::Two => line.extend_from_slice(b"ddcap 2 "),
        Format::Three => line.extend_from_slice(b"ddcap 3 "),
    }
}

/// Puts the line of a capture's head, with its LF, at the end. `AllocError` as for [`put_head`].
#[inline(always)]
pub fn put_head_line(
    line: &mut Vec<u8>,
    format: Format,
    own: u16,
    peer: u16,
) -> Result<(), AllocError>
    ensures { OnOk result (line.new.items ≡ line.old.items ++ head_line format own peer) }
{
    put_head(line, format, own, peer)?;
    line.push(b'\n')?;
    Ok(())
}

/// Puts the line of the head of a part of a run, `ddcap 4 OWN PEER part`, with its LF, at the end. `AllocError` as for [`put_head`].
pub fn put_part_head_line(line: &mut Vec<u8>, own: u16, peer: u16) -> Result<(), AllocError>
    ensures { OnOk result (line.new.items ≡ line.old.items ++ part_head_line own peer) }
{
    line.extend_from_slice(b"ddcap 4 ")?;
    put_address(line, own)?;
    line.push(b' ')?;
    put_address(line, peer)?;
    line.extend_from_slice(b" part\n")
}

/// Puts the words of a capture's head, in this format and of these node addresses (the area times 1,024, plus the node), without its LF,
/// at the end of a text. `AllocError` where an allocation for the text was refused; the text may then have a beginning of the words.
///
/// Format 1, 1025 and 1026 are the words `ddcap 1 1.1 1.2`.
pub fn put_head(line: &mut Vec<u8>, format: Format, own: u16, peer: u16) -> Result<(), AllocError>
    ensures { OnOk result (line.new.items ≡ line.old.items ++ head_text format own peer) }
{
    put_format(line, format)?;
    put_address(line, own)?;
    line.push(b' ')?;
    put_address(line, peer)
}
