//! The words of a program by a table: what may follow each, what is told of its use, and its page. Commands of `clap` are built from the rows by
//! loops. It knows no captures, no judge and no file.
//!
//! A new word is a row of `table`, and a new file or option of a word one more part of its row.
#![tactic(auto)]

mod advice;
mod building;
mod given;
mod help_pages;
mod judging_pages;
mod look_up;
mod page;
mod part;
mod slip;
mod table;
mod word;

pub use advice::advice_on;
pub use building::command_of;
pub use help_pages::PROGRAM;
pub use look_up::word_named;
pub use page::Page;
pub use part::Part;
pub use slip::{Slip, slip_of};
pub use table::WORDS;
pub use word::Word;
