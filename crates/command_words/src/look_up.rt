//! A word of a table by its name.

ghost use Rattle.std.specs.Prelude.{◌≡◌, find, option_map};
ghost use Rattle.std.specs.Str.{bytes_eq};

use crate::word::Word;

/// The first word of the table that has this name.
///
/// ```text
/// word_named(&WORDS, "check")    the row of `check`
/// word_named(&WORDS, "checks")   None
/// ```
pub fn word_named(words: &'static [Word], name: &str) -> Option<&'static Word>
    ensures { option_map (λ word. word.now) result ≡ find (λ word. bytes_eq word.name.now name.now) words.now }
{
    words.iter().find(|word| word.name == name)
}
