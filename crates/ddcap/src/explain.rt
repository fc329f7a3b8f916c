//! `explain`: what a reason means.

ghost use Rattle.std.specs.Prelude.{◌≡◌, IfOk, string_bytes};
ghost use Rattle.ddcap.specs.Explaining.{Explains, explanation_head, explanation_text};
ghost use Rattle.printing.specs.Printed.{moved};

use printing::check::{print, print_out_of_memory};
use std::alloc::{AllocError, Global};
use std::io::Write;
use why::Explanation;
use wire_base::Tally;

/// The status where the explanation was printed.
const EXPLAINED: u8 = 0;

/// Prints an explanation to `out`, and answers the status: 0, or 3 where a write failed.
///
/// The text is put together before it is written. Where there is no memory for it, `out of memory` is printed to `err`, status 3.
pub fn explain_to<O: Write, E: Write>(
    alloc: Global,
    explanation: &Explanation,
    out: &mut Tally<O>,
    err: &mut Tally<E>,
) -> u8
    ensures { Explains explanation.now (moved O.contents out.old out.new) (moved E.contents err.old err.new) result }
{
    match text_of(alloc, explanation) {
        Ok(text) => print(out, text.as_bytes(), EXPLAINED),
        Err(_) => print_out_of_memory(err),
    }
}

// Number and name, and the parts of an explanation with their headings. Fails for want of memory alone.
fn text_of(alloc: Global, explanation: &Explanation) -> Result<String, AllocError>
    ensures { IfOk result (λ text. string_bytes text ≡ explanation_text explanation.now) }
{
    let head = head_of(alloc, explanation)?;
    let Explanation {
        look_for,
        first,
        ..
    } = *explanation;
    format!(in alloc;
        "{head}Look for:\n\n{look_for}\n\nFirst: {first}\n\nA pair that is refused for it: docs/REASONS.md\n"
    )
}

// What comes before the usual causes. Fails for want of memory alone.
fn head_of(alloc: Global, explanation: &Explanation) -> Result<String, AllocError>
    ensures { IfOk result (λ text. string_bytes text ≡ explanation_head explanation.now) }
{
    let Explanation {
        reason,
        seen,
        rule,
        allowed,
        fault,
        ..
    } = *explanation;
    let number = reason.number();
    format!(in alloc;
        "{number} {reason}\n\nSeen: {seen}\n\nRule: {rule}\n\nAllowed: {allowed}\n\nBy whose fault: {fault}.\n\n"
    )
}
