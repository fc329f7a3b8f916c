//! What is printed of the counts of both sides.

ghost use Rattle.std.specs.Prelude.{◌≡◌, ◌++◌, IfOk, OnOk, string_bytes};
ghost use Rattle.coverage.specs.Text as spec;

use crate::counts::Counts;
use crate::order::ORDER;
use crate::row::Row;
use std::alloc::{AllocError, Global};
use wire_base::Side;

/// The table of both sides: a line a side, with how many rows are counted; one of headings; and the rows that were met, each line with its LF. Fails
/// for want of memory alone.
pub fn table(alloc: Global, rows: usize, a: &Counts, b: &Counts) -> Result<String, AllocError>
    ensures { IfOk result (λ text. string_bytes text ≡ spec.table rows a.now.met b.now.met) }
{
    let mut text = head(alloc, rows, a, b)?;
    put_rows(alloc, &mut text, &ORDER, a, b)?;
    Ok(text)
}

// The lines before the rows.
#[tactic(auto, unfolding(crate::specs::Text::head))]
fn head(alloc: Global, rows: usize, a: &Counts, b: &Counts) -> Result<String, AllocError>
    ensures { IfOk result (λ text. string_bytes text ≡ spec.head rows a.now.met b.now.met) }
{
    let of_a = side_line(alloc, rows, Side::A, a)?;
    let of_b = side_line(alloc, rows, Side::B, b)?;
    let headings = headings(alloc)?;
    format!(in alloc; "{of_a}{of_b}{headings}")
}

// What is above the rows.
#[tactic(auto, unfolding(crate::specs::Text::headings))]
fn headings(alloc: Global) -> Result<String, AllocError>
    ensures { IfOk result (λ text. string_bytes text ≡ spec.headings) }
{
    line(alloc, "row", "a", "b")
}

/// How many rows a side went through, of so many that are counted.
pub fn side_line(
    alloc: Global,
    rows: usize,
    side: Side,
    counts: &Counts,
) -> Result<String, AllocError>
    ensures { IfOk result (λ text. string_bytes text ≡ spec.side_line rows side counts.now.met) }
{
    let met = counts.met_rows();
    format!(in alloc; "{side} went through {met} of {rows} rows\n")
}

// Appends the lines of these rows.
#[tactic(auto, unfolding(crate::specs::Text::row_lines))]
fn put_rows(
    alloc: Global,
    text: &mut String,
    rows: &[Row],
    a: &Counts,
    b: &Counts,
) -> Result<(), AllocError>
    ensures { OnOk result (string_bytes text.new ≡ string_bytes text.old ++ spec.row_lines a.now.met b.now.met rows.now) }
{
    for row in rows {
        put_row(alloc, text, *row, a, b)?;
    }
    Ok(())
}

// Appends the line of a row, if a side went through it.
#[tactic(auto, unfolding(crate::specs::Text::row_line))]
fn put_row(
    alloc: Global,
    text: &mut String,
    row: Row,
    a: &Counts,
    b: &Counts,
) -> Result<(), AllocError>
    ensures { OnOk result (string_bytes text.new ≡ string_bytes text.old ++ spec.row_line a.now.met b.now.met row) }
{
    let (of_a, of_b) = (a.of(row), b.of(row));
    if of_a == 0 && of_b == 0 {
        return Ok(());
    }
    let name = format!(in alloc; "{row}")?;
    let of_a = cell(alloc, of_a)?;
    let of_b = cell(alloc, of_b)?;
    let line = line(alloc, name.as_str(), of_a.as_str(), of_b.as_str())?;
    text.push_str(line.as_str())
}

// A line of the table.
fn line(alloc: Global, name: &str, a: &str, b: &str) -> Result<String, AllocError>
    ensures { IfOk result (λ text. string_bytes text ≡ spec.line name.now a.now b.now) }
{
    format!(in alloc; "{name:<34} {a:>6} {b:>6}\n")
}

// A count, and `.` for none.
fn cell(alloc: Global, count: u64) -> Result<String, AllocError>
    ensures { IfOk result (λ text. string_bytes text ≡ spec.cell count) }
{
    match count {
        0 => String::from_str(alloc, "."),
        _ => format!(in alloc; "{count}"),
    }
}
