//! A word of a program.

use crate::page::Page;
use crate::part::Part;

/// A row of the table: a word, and what there is of it.
#[derive(Clone, Copy)]
pub struct Word {
    /// The word itself.
    pub name: &'static str,
    /// What may follow it.
    pub parts: &'static [Part],
    /// Which files, or other words, have to follow it, as `two captures`.
    pub needs: &'static str,
    /// Which values there are of its options or of what has to follow it; empty where any is taken.
    pub values: &'static str,
    /// How it is used: a line.
    pub usage: &'static str,
    /// The page that `help` prints of it.
    pub page: Page,
}
