//! Which reason a word names.

ghost use Rattle.std.specs.Prelude.{◌≡◌, IfOk, IfSome, map};
ghost use Rattle.std.specs.Char.{to_ascii_lowercase};
ghost use Rattle.std.specs.Fmt.{decimal};
ghost use Rattle.pair_judge.specs.Reason.{reason_name, reason_number};

use pair_judge::{REASONS, Reason};
use std::alloc::{AllocError, Global};

/// The reason whose number is spelled so, as `1` or `27`; none where the word is no such number, or has a sign or a zero in front.
pub fn reason_spelled(word: &str) -> Option<Reason>
    ensures { IfSome result (λ reason. word.now ≡ decimal (reason_number reason)) }
{
    let mut digits = itoa::Buffer::new();
    for reason in &REASONS {
        if digits.format(reason.number()) == word {
            return Some(*reason);
        }
    }
    None
}

/// The reason with this name, in letters of either case. `AllocError` where there is no memory for a name to be compared.
pub fn reason_named(alloc: Global, word: &str) -> Result<Option<Reason>, AllocError>
    ensures { IfOk result (λ found. IfSome found (λ reason. map to_ascii_lowercase (reason_name reason) ≡ map to_ascii_lowercase word.now)) }
{
    for reason in &REASONS {
        let name = format!(in alloc; "{reason}")?;
        if name.as_str().eq_ignore_ascii_case(word) {
            return Ok(Some(*reason));
        }
    }
    Ok(None)
}
