//! What is told after `bad words` of how the words are used.

ghost use Rattle.std.specs.Prelude.{◌≡◌, option_map, slice_get};
ghost use Rattle.command_words.specs.Advised as spec;

use crate::look_up::word_named;
use crate::word::Word;

/// Where to read of all words.
const TRY_HELP: &str = "try: ddcap help\n";

/// The line that is told after `bad words` of what was given, of which the first is the program's name: how the word is used, or where to read of
/// all words.
///
/// ```text
/// advice_on(&WORDS, ["ddcap", "help", "x", "y"])   usage: ddcap help [WORD]
/// advice_on(&WORDS, ["ddcap", "helps"])            try: ddcap help
/// ```
pub fn advice_on(words: &'static [Word], given: &[String]) -> &'static str
    ensures { result.now ≡ spec.advice_of words.now (option_map (λ text. text.bytes.items) (slice_get given.now 1)) }
{
    let Some(name) = given.get(1) else {
        return TRY_HELP;
    };
    let Some(word) = word_named(words, name.as_str()) else {
        return TRY_HELP;
    };
    word.usage
}
