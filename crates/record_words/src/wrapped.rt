//! Rows of at most 79 columns.

use std::alloc::AllocError;

/// How many columns of a row are left for its words, after what is in front of them.
const COLUMNS: usize = 68;

/// What is in front of the words of a further row.
pub const INDENT: &str = "           ";

/// Appends these words in rows that end with an LF: the first after `lead`, which has eleven columns, and as many further ones as they take. A word
/// that is longer than a row stays whole.
pub fn put_wrapped(text: &mut String, lead: &str, words: &str) -> Result<(), AllocError> {
    text.push_str(lead)?;
    let mut used = 0;
    for word in words.split(" ") {
        let with_blank = word.len().saturating_add(used).saturating_add(1);
        if used == 0 {
            used = word.len();
        } else if with_blank <= COLUMNS {
            text.push_str(" ")?;
            used = with_blank;
        } else {
            text.push_str("\n")?;
            text.push_str(INDENT)?;
            used = word.len();
        }
        text.push_str(word)?;
    }
    text.push_str("\n")
}
