//! What was given after a word: which of it are options, values and files.

use crate::part::Part;
use crate::slip::Slip;
use crate::word::Word;

/// What was read, from the left.
#[derive(Clone, Copy)]
pub struct Reading<'a> {
    /// How many files.
    pub files: usize,
    /// The option whose value comes next.
    pub open: Option<&'a str>,
    // after `--` all are files
    has_ended: bool,
}

impl<'a> Reading<'a> {
    /// Nothing yet.
    pub fn new() -> Reading<'a> {
        Reading {
            files: 0,
            open: None,
            has_ended: false,
        }
    }

    /// With the next of what was given, or what is wrong with that.
    pub fn next(self, word: &'static Word, text: &'a str) -> Result<Reading<'a>, Slip<'a>> {
        if let Some(option) = self.open {
            return self.valued(option, text);
        }
        if self.has_ended || !is_option(text) {
            return Ok(Reading {
                files: self.files.saturating_add(1),
                open: None,
                has_ended: self.has_ended,
            });
        }
        if text == "--" {
            return Ok(Reading {
                files: self.files,
                open: None,
                has_ended: true,
            });
        }
        let Some(part) = option_named(word, text) else {
            return Err(Slip::NoOption {
                word: word.name,
                option: text,
            });
        };
        Ok(Reading {
            files: self.files,
            open: value_wanted(part, text),
            has_ended: false,
        })
    }

    // With the value of this option.
    fn valued(self, option: &'a str, text: &'a str) -> Result<Reading<'a>, Slip<'a>> {
        if is_option(text) {
            return Err(Slip::NoValue(option));
        }
        Ok(Reading {
            files: self.files,
            open: None,
            has_ended: self.has_ended,
        })
    }

    /// Whether the last that was read is an option, if it is this.
    pub fn is_at_option(self, text: &str) -> bool {
        !self.has_ended && is_option(text)
    }
}

// The option, if its value has to come next.
fn value_wanted<'a>(part: Part, text: &'a str) -> Option<&'a str> {
    match part {
        Part::Valued(_) => {
            if text.contains('=') {
                return None;
            }
            Some(text)
        }
        _ => None,
    }
}

// The option of this word that is spelled so, with or without a value after `=`.
fn option_named(word: &Word, given: &str) -> Option<Part> {
    let name = name_given(given.strip_prefix("--")?);
    for part in word.parts {
        match part {
            Part::Flag(option) | Part::Valued(option) => {
                if *option == name {
                    return Some(*part);
                }
            }
            _ => {}
        }
    }
    None
}

fn name_given(option: &str) -> &str {
    match option.split_once('=') {
        Some((name, _)) => name,
        None => option,
    }
}

/// Whether this is among what was given.
pub fn is_given(given: &[String], option: &str) -> bool {
    for text in given {
        if text.as_str() == option {
            return true;
        }
    }
    false
}

/// Whether the option with this number was given before, with any value.
pub fn is_given_before(given: &[String], at: usize) -> bool {
    let Some(text) = given.get(at) else {
        return false;
    };
    let name = name_given(text.as_str());
    for other in given.iter().take(at) {
        if name_given(other.as_str()) == name {
            return true;
        }
    }
    false
}

fn is_option(given: &str) -> bool {
    given.len() > 1 && given.starts_with('-')
}
