//! The page of a word, which its row names: a row that had the text itself would carry it into each proof that names the table.

ghost use Rattle.std.specs.Prelude.{◌≡◌};
ghost use Rattle.command_words.specs.Pages.{page_text};

use crate::help_pages::{ALIGN, CONVERT, EXPLAIN, HELP, PLAY, SHOW, TAP};
use crate::judging_pages::{ALONE, CHECK, COVER, DRAW, WHY};

/// Whose page it is.
#[derive(Clone, Copy)]
pub enum Page {
    /// `check`
    Check,
    /// `alone`
    Alone,
    /// `why`
    Why,
    /// `cover`
    Cover,
    /// `draw`
    Draw,
    /// `show`
    Show,
    /// `play`
    Play,
    /// `convert`
    Convert,
    /// `align`
    Align,
    /// `tap`
    Tap,
    /// `help`
    Help,
    /// `explain`
    Explain,
}

impl Page {
    /// What `help` prints of the word.
    ///
    /// ```text
    /// Page::Show.text()    "ddcap show A\n .."
    /// ```
    pub fn text(self) -> &'static str
        ensures { result.now ≡ page_text self }
    {
        match self {
            Page::Check => CHECK,
            Page::Alone => ALONE,
            Page::Why => WHY,
            Page::Cover => COVER,
            Page::Draw => DRAW,
            Page::Show => SHOW,
            Page::Play => PLAY,
            Page::Convert => CONVERT,
            Page::Align => ALIGN,
            Page::Tap => TAP,
            Page::Help => HELP,
            Page::Explain => EXPLAIN,
        }
    }
}
