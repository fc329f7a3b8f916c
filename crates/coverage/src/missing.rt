//! What is printed of the rows that neither side went through.

ghost use Rattle.std.specs.Prelude.{◌≡◌, ◌++◌, IfOk, OnOk, codes, string_bytes};
ghost use Rattle.coverage.specs.Missing as spec;
ghost use Rattle.coverage.specs.Text as table;

use crate::counts::Counts;
use crate::hints::{Hint, Setup};
use crate::text::side_line;
use std::alloc::{AllocError, Global};
use wire_base::Side;

/// Which of the rows of these hints are missing: a line a side, one of headings, a line for each row that neither side went through, with what meets
/// it, and one for each set-up. Each line has its LF. Fails for want of memory alone.
pub fn missing_text(
    alloc: Global,
    hints: &[Hint],
    setups: &[Setup],
    a: &Counts,
    b: &Counts,
) -> Result<String, AllocError>
    ensures { IfOk result (λ text. string_bytes text ≡ spec.missing hints.now setups.now a.now.met b.now.met) }
{
    let mut text = head(alloc, hints.len(), a, b)?;
    put_hints(alloc, &mut text, hints, a, b)?;
    put_setups(alloc, &mut text, setups)?;
    Ok(text)
}

// The lines before the rows.
#[tactic(auto, unfolding(crate::specs::Missing::missing_head))]
fn head(alloc: Global, rows: usize, a: &Counts, b: &Counts) -> Result<String, AllocError>
    ensures { IfOk result (λ text. string_bytes text ≡ spec.missing_head rows a.now.met b.now.met) }
{
    let of_a = side_line(alloc, rows, Side::A, a)?;
    let of_b = side_line(alloc, rows, Side::B, b)?;
    let headings = headings(alloc)?;
    format!(in alloc; "{of_a}{of_b}{headings}")
}

// What is above the rows.
#[tactic(auto, unfolding(crate::specs::Missing::missing_headings))]
fn headings(alloc: Global) -> Result<String, AllocError>
    ensures { IfOk result (λ text. string_bytes text ≡ spec.missing_headings) }
{
    hint_text(alloc, "row", "what meets it")
}

// Appends the lines of these rows.
#[tactic(auto, unfolding(crate::specs::Missing::hint_lines))]
fn put_hints(
    alloc: Global,
    text: &mut String,
    hints: &[Hint],
    a: &Counts,
    b: &Counts,
) -> Result<(), AllocError>
    ensures { OnOk result (string_bytes text.new ≡ string_bytes text.old ++ spec.hint_lines a.now.met b.now.met hints.now) }
{
    for hint in hints {
        put_hint(alloc, text, *hint, a, b)?;
    }
    Ok(())
}

// Appends the line of a row, if neither side went through it.
#[tactic(auto, unfolding(crate::specs::Missing::hint_line))]
fn put_hint(
    alloc: Global,
    text: &mut String,
    hint: Hint,
    a: &Counts,
    b: &Counts,
) -> Result<(), AllocError>
    ensures { OnOk result (string_bytes text.new ≡ string_bytes text.old ++ spec.hint_line a.now.met b.now.met hint) }
{
    let Hint(row, how) = hint;
    let (of_a, of_b) = (a.of(row), b.of(row));
    if of_a != 0 || of_b != 0 {
        return Ok(());
    }
    let name = format!(in alloc; "{row}")?;
    let line = hint_text(alloc, name.as_str(), how)?;
    text.push_str(line.as_str())
}

fn hint_text(alloc: Global, name: &str, how: &str) -> Result<String, AllocError>
    ensures { IfOk result (λ text. string_bytes text ≡ table.left name.now ++ (codes " " ++ (how.now ++ codes "\n"))) }
{
    format!(in alloc; "{name:<34} {how}\n")
}

// Appends the lines of these names.
#[tactic(auto, unfolding(crate::specs::Missing::setup_lines))]
fn put_setups(alloc: Global, text: &mut String, setups: &[Setup]) -> Result<(), AllocError>
    ensures { OnOk result (string_bytes text.new ≡ string_bytes text.old ++ spec.setup_lines setups.now) }
{
    for setup in setups {
        let line = setup_line(alloc, *setup)?;
        text.push_str(line.as_str())?;
    }
    Ok(())
}

// A name, and what it stands for.
fn setup_line(alloc: Global, setup: Setup) -> Result<String, AllocError>
    ensures { IfOk result (λ text. string_bytes text ≡ spec.setup_line setup) }
{
    let Setup(name, steps) = setup;
    format!(in alloc; "{name} = {steps}\n")
}
