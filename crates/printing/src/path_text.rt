//! A path in a line of its own.

ghost use Rattle.std.specs.Prelude.{◌≡◌, ◌++◌, map, OnOk};
ghost use Rattle.printing.specs.NotOpened as spec;

use std::alloc::AllocError;

/// Appends a path, with `?` in the place of a control character, which would break the line. `AllocError`: there is no memory for it.
pub fn put_path(text: &mut Vec<u8>, path: &str) -> Result<(), AllocError>
    ensures { OnOk result (text.new.items ≡ text.old.items ++ map spec.told_byte path.now) }
{
    let bytes = path.as_bytes();
    for byte in bytes {
        text.push(told_byte(*byte))?;
    }
    Ok(())
}

fn told_byte(byte: u8) -> u8
    ensures { result ≡ spec.told_byte byte }
{
    if byte < b' ' {
        return b'?';
    }
    if byte == 127 {
        return b'?';
    }
    byte
}
