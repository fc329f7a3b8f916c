//! The parts of a line.

ghost use Rattle.std.specs.Prelude.{◌≡◌, ◌∷◌, []};
ghost use Rattle.std.specs.Option.{option_map};
ghost use Rattle.capture.specs.Reading.{after, cut_at};

use memchr::memchr;

/// What follows `front`, where the text begins with it.
pub fn after<'a>(text: &'a [u8], front: &[u8]) -> Option<&'a [u8]>
    ensures { option_map (λ rest. rest.now) result ≡ after front.now text.now }
{
    text.strip_prefix(front)
}

/// What follows this letter and a space, where the text begins with them. A text that is asked for one letter after another is looked at once.
#[inline(always)]
pub fn after_letter(text: &[u8], letter: u8) -> Option<&[u8]>
    ensures { option_map (λ rest. rest.now) result ≡ after (letter ∷ 32 ∷ []) text.now }
{
    if text.len() < 2 || text[1] != b' ' || text[0] != letter {
        return None;
    }
    Some(&text[2..])
}

/// What comes before the first `mark`, and what follows it.
pub fn cut_at(text: &[u8], mark: u8) -> Option<(&[u8], &[u8])>
    ensures { option_map (λ parts. (parts.0.now, parts.1.now)) result ≡ cut_at mark text.now }
{
    let at = memchr(mark, text)?;
    Some((&text[..at], &text[at + 1..]))
}
