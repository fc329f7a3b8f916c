//! Counting lines in bytes that were read ahead.

ghost use Rattle.std.specs.Prelude.{◌<◌, length};
ghost use Rattle.edited.specs.inner.Lines.{Reaches};

use memchr::memchr;

// How many of the bytes are of the first `lines` lines, and how many of these reach on past the bytes.
pub(crate) fn reach(bytes: &[u8], lines: u64) -> (usize, u64)
    ensures reaches { Reaches lines bytes.now result.0 result.1 }
    ensures some { 0 < lines → 0 < length bytes.now → 0 < result.0 }
{
    let mut len = 0;
    let mut left = lines;
    while left > 0 {
        let Some(at) = memchr(b'\n', &bytes[len..]) else {
            return (bytes.len(), left);
        };
        len += at + 1;
        left -= 1;
    }
    (len, left)
}
