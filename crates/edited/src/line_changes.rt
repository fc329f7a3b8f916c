//! Changes of a line or two.

ghost use Rattle.std.specs.Prelude.{◌≡◌, ◌<◌, ℕ, List, IfOk};
ghost use Rattle.edited.specs.Edited.{edited};
ghost use Rattle.edited.specs.inner.LineChanges.{line_in_place, with_bytes_before, with_first, with_line_down, with_line_up};

use crate::change::Change;
use std::alloc::{AllocError, Global};

/// Puts bytes in front of a line, counted from 1; or after the text, where it has fewer lines.
pub fn put_before(alloc: Global, line: u64, put: Vec<u8>) -> Result<Vec<Change>, AllocError>
    ensures { IfOk result (λ changes. (text : List ℕ) → edited changes.items text ≡ with_bytes_before line put.items text) }
{
    let mut changes = Vec::new(alloc);
    changes.push(Change {
        passed: line.saturating_sub(1),
        put,
        dropped: 0,
    })?;
    Ok(changes)
}

/// Puts bytes in the place of a line, counted from 1.
pub fn line_replaced(alloc: Global, line: u64, put: Vec<u8>) -> Result<Vec<Change>, AllocError>
    ensures { IfOk result (λ changes. (text : List ℕ) → edited changes.items text ≡ line_in_place line put.items text) }
{
    let mut changes = Vec::new(alloc);
    changes.push(Change {
        passed: line.saturating_sub(1),
        put,
        dropped: 1,
    })?;
    Ok(changes)
}

/// Puts bytes in the place of the first line, and makes a change after it that let it pass.
pub fn with_first_line(
    alloc: Global,
    first: Vec<u8>,
    change: Change,
) -> Result<Vec<Change>, AllocError>
    ensures { IfOk result (λ changes. (text : List ℕ) → edited changes.items text ≡ with_first first.items change text) }
{
    let mut changes = Vec::new(alloc);
    changes.push(Change {
        passed: 0,
        put: first,
        dropped: 1,
    })?;
    let Change {
        passed,
        put,
        dropped,
    } = change;
    changes.push(Change {
        passed: passed.saturating_sub(1),
        put,
        dropped,
    })?;
    Ok(changes)
}

/// Drops a line, counted from 1, and puts bytes, its own, in front of an earlier one.
pub fn line_moved_up(
    alloc: Global,
    line: u64,
    before: u64,
    put: Vec<u8>,
) -> Result<Vec<Change>, AllocError>
    requires { before < line }
    ensures { IfOk result (λ changes. (text : List ℕ) → edited changes.items text ≡ with_line_up line before put.items text) }
{
    let mut changes = Vec::new(alloc);
    changes.push(Change {
        passed: before.saturating_sub(1),
        put,
        dropped: 0,
    })?;
    changes.push(Change {
        passed: line - before,
        put: Vec::new(alloc),
        dropped: 1,
    })?;
    Ok(changes)
}

/// Drops a line, counted from 1, and puts bytes, its own, after a later one.
pub fn line_moved_down(
    alloc: Global,
    line: u64,
    behind: u64,
    put: Vec<u8>,
) -> Result<Vec<Change>, AllocError>
    requires { line < behind }
    ensures { IfOk result (λ changes. (text : List ℕ) → edited changes.items text ≡ with_line_down line behind put.items text) }
{
    let mut changes = Vec::new(alloc);
    changes.push(Change {
        passed: line.saturating_sub(1),
        put: Vec::new(alloc),
        dropped: 1,
    })?;
    changes.push(Change {
        passed: behind - line,
        put,
        dropped: 0,
    })?;
    Ok(changes)
}
