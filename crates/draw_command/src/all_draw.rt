//! `draw --all`: the rows of a pair, with a mark at each record that is refused.

use all_answer::all_judged::{AllFault, find_all, read_again};
use all_answer::all_left::NotJudged;
use all_answer::all_pair::PairCaptures;
use all_answer::all_told::{AllTold, Answer, Refusal};
use ladder::{Drawn, Fate, Marked, Row};
use pair_judge::Verdict;
use printing::how::Form;
use std::alloc::{AllocError, Global};
use std::io::{Read, Seek};
use wire_base::Side;

// So wide is a row of the ladder.
const COLUMNS: usize = 80;

/// All refusals, and what is not judged any more behind them.
#[derive(Drop)]
pub struct AllFound {
    pub refusals: Vec<Refusal>,
    pub not_judged: NotJudged,
}

/// All refusals of both captures; `None` where none leads on, and both files are at their beginnings again.
pub fn all_found<A: Read + Seek, B: Read + Seek>(
    alloc: Global,
    captures: &mut PairCaptures<'_, '_, '_, A, B>,
) -> Result<Option<AllFound>, AllFault> {
    let first = captures.first(alloc)?;
    if first.leads_beyond().is_none() {
        read_again(Side::A, captures.a)?;
        read_again(Side::B, captures.b)?;
        return Ok(None);
    }
    all_beyond(alloc, captures, first)
}

// All refusals, of which this first one leads on.
fn all_beyond<A: Read + Seek, B: Read + Seek>(
    alloc: Global,
    captures: &mut PairCaptures<'_, '_, '_, A, B>,
    first: Answer,
) -> Result<Option<AllFound>, AllFault> {
    let mut told = AllTold::new(alloc, Form::Rows, false);
    let not_judged = find_all(alloc, captures, &mut told, first)?;
    Ok(Some(AllFound {
        refusals: told.into_refusals(),
        not_judged,
    }))
}

/// The rows, each with its LF, and with what is refused behind it. `AllocError` where there is no memory for them.
pub fn marked_rows(
    alloc: Global,
    drawn: &Drawn,
    refusals: &[Refusal],
) -> Result<String, AllocError> {
    let mut text = String::new(alloc);
    for index in 0..drawn.len() {
        if let (Some(row), Some(words)) = (drawn.row(index), drawn.text(alloc, index)?) {
            put_row(alloc, &mut text, row, words.as_str(), refusals)?;
        }
    }
    Ok(text)
}

// A row in these words, with its marks.
fn put_row(
    alloc: Global,
    text: &mut String,
    row: &Row,
    words: &str,
    refusals: &[Refusal],
) -> Result<(), AllocError> {
    text.push_str(words)?;
    put_marks(alloc, text, row, words.len(), refusals)?;
    text.push_str("\n")
}

// The marks of a row of so many columns: that of a refused record is there already.
fn put_marks(
    alloc: Global,
    text: &mut String,
    row: &Row,
    columns: usize,
    refusals: &[Refusal],
) -> Result<(), AllocError> {
    let mut is_marked = row.refused;
    for refusal in refusals {
        if has_record(row, *refusal) {
            if !is_marked {
                put_arrow(text, columns)?;
                is_marked = true;
            }
            let number = refusal.reason.number();
            let words = format!(in alloc; " {}: {number} {}", refusal.side, refusal.reason)?;
            text.push_str(words.as_str())?;
        }
    }
    Ok(())
}

// The mark, behind the last column.
fn put_arrow(text: &mut String, columns: usize) -> Result<(), AllocError> {
    for _ in columns..COLUMNS {
        text.push_str(" ")?;
    }
    text.push_str("  <== refused")
}

// Whether the row has this record.
fn has_record(row: &Row, refusal: Refusal) -> bool {
    let line = refusal.place.saturating_add(2);
    if row.told.side == refusal.side {
        return row.told.line == line;
    }
    match row.fate {
        Fate::Here(receipt) => receipt.line == line,
        Fate::Open | Fate::Came | Fate::Lost => false,
    }
}

/// The records that are marked in a picture: those that are refused, but for the one with which this verdict ends, which has a box of its own.
pub fn all_marked(
    alloc: Global,
    refusals: &[Refusal],
    verdict: Verdict,
) -> Result<Vec<Marked>, AllocError> {
    let mut marked = Vec::new(alloc);
    for refusal in refusals {
        if !ends_with(verdict, *refusal) {
            marked.push(Marked {
                side: refusal.side,
                line: refusal.place.saturating_add(2),
            })?;
        }
    }
    Ok(marked)
}

// Whether this record is refused by the verdict.
fn ends_with(verdict: Verdict, refusal: Refusal) -> bool {
    match verdict {
        Verdict::Accepted(_) => false,
        Verdict::Refused { side, place, .. } => side == refusal.side && place == refusal.place,
    }
}

/// The words above a picture: all refusals, and what is answered of the rest.
pub fn all_words(
    alloc: Global,
    refusals: &[Refusal],
    verdict: Verdict,
) -> Result<String, AllocError> {
    let mut text = String::from_str(alloc, "refused")?;
    let mut between = " ";
    for refusal in refusals {
        let Refusal {
            side,
            place,
            reason,
            ..
        } = *refusal;
        let line = place.saturating_add(2);
        let number = reason.number();
        let words = format!(in alloc; "{between}{side} {place} line {line}: {number} {reason}")?;
        text.push_str(words.as_str())?;
        between = ", ";
    }
    if let Verdict::Accepted(_) = verdict {
        text.push_str(", else accepted")?;
    }
    Ok(text)
}
