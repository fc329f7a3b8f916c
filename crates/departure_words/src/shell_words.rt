//! The names of files as words for a shell.

use std::alloc::AllocError;

/// The name of a packet capture without what its kind is told by.
pub fn without_ending(path: &str) -> &str {
    for ending in [".pcap", ".pcapng", ".cap"] {
        if let Some(name) = path.strip_suffix(ending) {
            return name;
        }
    }
    path
}

/// Appends a name with this ending as a word for a shell. `AllocError`: there is no memory for it.
pub fn put_word(text: &mut Vec<u8>, path: &str, ending: &str) -> Result<(), AllocError> {
    let name = path.as_bytes();
    if is_word(name) {
        text.extend_from_slice(name)?;
        return text.extend_from_slice(ending.as_bytes());
    }
    text.push(b'\'')?;
    for byte in name {
        match *byte {
            b'\'' => text.extend_from_slice(b"'\\''")?,
            byte if byte < b' ' || byte == 127 => text.push(b'?')?,
            byte => text.push(byte)?,
        }
    }
    text.extend_from_slice(ending.as_bytes())?;
    text.push(b'\'')?;
    Ok(())
}

// Whether a shell takes these bytes as they are.
fn is_word(name: &[u8]) -> bool {
    for byte in name {
        let is_plain = match *byte {
            b'0'..=b'9' | b'A'..=b'Z' | b'a'..=b'z' => true,
            b'.' | b'/' | b'_' | b'-' | b'+' | b'=' | b':' | b',' | b'@' | b'%' => true,
            _ => false,
        };
        if !is_plain {
            return false;
        }
    }
    true
}
