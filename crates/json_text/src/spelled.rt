//! How the parts of a JSON text are spelled, after what is written already. `AllocError`: memory was refused, now or for a part.

ghost use Rattle.std.specs.Prelude.{◌≡◌, ◌<◌, ◌/◌, ◌%◌, false, ◌++◌, codes, flat_map, Some, None, IfOk, OnOk};
ghost use Rattle.std.specs.Fmt.{decimal, digit_glyph};
ghost use Rattle.json_text.specs.Spelled as spec;
ghost use Rattle.json_text.specs.Written.{with_element, with_member};
ghost use Rattle.json_text.specs.inner.Written.{value_text, with_value, written};

use crate::text::Text;
use crate::value::Value;
use std::alloc::{AllocError, Global};

/// A member, with the comma before it.
pub fn put_member(
    alloc: Global,
    text: &mut Vec<u8>,
    key: &str,
    value: Value<'_>,
) -> Result<(), AllocError>
    ensures { OnOk result (with_member key.now (value_text value.entry) (Some text.old.items) ≡ Some text.new.items) }
{
    put_comma(text)?;
    put_string(text, key)?;
    text.extend_from_slice(b": ")?;
    put_value(alloc, text, value)
}

/// An element, with the comma before it.
pub fn put_element(alloc: Global, text: &mut Vec<u8>, value: Value<'_>) -> Result<(), AllocError>
    ensures { OnOk result (with_element (value_text value.entry) (Some text.old.items) ≡ Some text.new.items) }
{
    put_comma(text)?;
    put_value(alloc, text, value)
}

// A comma, where something is written already.
fn put_comma(text: &mut Vec<u8>) -> Result<(), AllocError>
    ensures { OnOk result (text.new.items ≡ text.old.items ++ spec.comma text.old.items) }
{
    if text.is_empty() {
        return Ok(());
    }
    text.extend_from_slice(b", ")
}

fn put_value(alloc: Global, text: &mut Vec<u8>, value: Value<'_>) -> Result<(), AllocError>
    ensures { OnOk result (with_value (value_text value.entry) text.old.items ≡ Some text.new.items) }
{
    match value {
        Value::Null => text.extend_from_slice(b"null"),
        Value::Flag(true) => text.extend_from_slice(b"true"),
        Value::Flag(false) => text.extend_from_slice(b"false"),
        Value::Number(number) => put_number(alloc, text, number),
        Value::String(words) => put_string(text, words),
        Value::Object(members) => put_between(text, b"{", members, b"}"),
        Value::Array(elements) => put_between(text, b"[", elements, b"]"),
    }
}

fn put_number(alloc: Global, text: &mut Vec<u8>, number: u128) -> Result<(), AllocError>
    ensures { OnOk result (text.new.items ≡ text.old.items ++ decimal number) }
{
    let digits = format!(in alloc; "{number}")?;
    text.extend_from_slice(digits.as_bytes())
}

fn put_string(text: &mut Vec<u8>, words: &str) -> Result<(), AllocError>
    ensures { OnOk result (text.new.items ≡ text.old.items ++ spec.string_text words.now) }
{
    text.extend_from_slice(b"\"")?;
    put_characters(text, words.as_bytes())?;
    text.extend_from_slice(b"\"")
}

fn put_characters(text: &mut Vec<u8>, bytes: &[u8]) -> Result<(), AllocError>
    ensures { OnOk result (text.new.items ≡ text.old.items ++ flat_map spec.escaped bytes.now) }
{
    for byte in bytes {
        put_character(text, *byte)?;
    }
    Ok(())
}

// A quote and a backslash have a backslash before them, and a control character is told by its number.
fn put_character(text: &mut Vec<u8>, byte: u8) -> Result<(), AllocError>
    ensures { OnOk result (text.new.items ≡ text.old.items ++ spec.escaped byte) }
{
    match byte {
        b'"' => text.extend_from_slice(b"\\\""),
        b'\\' => text.extend_from_slice(b"\\\\"),
        0..=31 | 127 => put_numbered(text, byte),
        _ => {
            text.push(byte)?;
            Ok(())
        }
    }
}

fn put_numbered(text: &mut Vec<u8>, byte: u8) -> Result<(), AllocError>
    ensures { OnOk result (text.new.items ≡ text.old.items ++ spec.numbered (byte / 16) (byte % 16)) }
{
    text.extend_from_slice(b"\\u00")?;
    text.push(digit(byte / 16))?;
    text.push(digit(byte % 16))?;
    Ok(())
}

fn digit(value: u8) -> u8
    requires { value < 16 }
    ensures { result ≡ digit_glyph false value }
{
    if value < 10 {
        return b'0' + value;
    }
    b'a' - 10 + value
}

/// A part between its brackets.
pub fn put_between(
    text: &mut Vec<u8>,
    before: &[u8],
    part: &Text,
    after: &[u8],
) -> Result<(), AllocError>
    ensures whole { OnOk result (written part.now ≡ Some part.now.bytes.items) }
    ensures added { OnOk result (text.new.items ≡ text.old.items ++ (before.now ++ (part.now.bytes.items ++ after.now))) }
{
    if part.is_short {
        return Err(AllocError);
    }
    text.extend_from_slice(before)?;
    text.extend_from_slice(part.bytes.as_slice())?;
    text.extend_from_slice(after)
}
