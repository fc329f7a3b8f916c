//! What is wrong with words that are no task.

ghost use Rattle.std.specs.Prelude.{◌≡◌, ◌<◌, length, option_map, slice_get, true};
ghost use Rattle.command_words.specs.Advised as spec;

use crate::given::{Reading, is_given, is_given_before};
use crate::look_up::word_named;
use crate::part::Part;
use crate::word::Word;
use std::fmt;

/// What is wrong, as it is printed before the line of use.
#[derive(Clone, Copy)]
pub enum Slip<'a> {
    /// Nothing was given.
    NoWord,
    /// The program has no such word.
    Unknown(&'a str),
    /// The word has no such option.
    NoOption {
        word: &'static str,
        option: &'a str,
    },
    /// The option was given before.
    Twice(&'a str),
    /// The option has to have a value.
    NoValue(&'a str),
    /// `--line` and `--queued` name two kinds of node.
    BothNodes,
    /// So many files, or other words, were given, where the word needs these.
    Files {
        word: &'static str,
        needs: &'static str,
        given: usize,
    },
    /// A value, or a word, is none of these.
    Value(&'static str),
}

impl fmt::Display for Slip<'_> {
    fn fmt<W: fmt::Write>(&self, f: &mut fmt::Formatter<W>) -> fmt::Result {
        match *self {
            Slip::NoWord => f.write_str("no word was given"),
            Slip::Unknown(name) => {
                let name = Shown(name);
                write!(f, "there is no word {name}")
            }
            Slip::NoOption { word, option } => {
                let option = Shown(option);
                write!(f, "{word} has no option {option}")
            }
            Slip::Twice(option) => {
                let option = Shown(option);
                write!(f, "{option} was given twice")
            }
            Slip::NoValue(option) => write!(f, "{option} needs a value"),
            Slip::BothNodes => f.write_str("--line and --queued do not go together"),
            Slip::Files { word, needs, given } => {
                let count = CountGiven(given);
                write!(f, "{word} needs {needs}: {count} given")
            }
            Slip::Value(allowed) => f.write_str(allowed),
        }
    }
}

// What was given, with `?` in the place of a control character, which would break the line.
#[derive(Clone, Copy)]
struct Shown<'a>(&'a str);

impl fmt::Display for Shown<'_> {
    fn fmt<W: fmt::Write>(&self, f: &mut fmt::Formatter<W>) -> fmt::Result {
        for letter in self.0.chars() {
            f.write_char(if letter.is_control() { '?' } else { letter })?;
        }
        Ok(())
    }
}

// How many were given, with its verb.
#[derive(Clone, Copy)]
struct CountGiven(usize);

impl fmt::Display for CountGiven {
    fn fmt<W: fmt::Write>(&self, f: &mut fmt::Formatter<W>) -> fmt::Result {
        match self.0 {
            0 => f.write_str("none is"),
            1 => f.write_str("one is"),
            count => write!(f, "{count} are"),
        }
    }
}

/// What is wrong with what was given, of which the first is the program's name: the first thing from the left, and then the number of files.
/// `None` where no more is known than that it is no task. Takes no memory.
///
/// ```text
/// slip_of(&WORDS, ["ddcap", "check", "a"])             check needs two captures, or more in pairs: one is given
/// slip_of(&WORDS, ["ddcap", "check", "a", "--lin"])    check has no option --lin
/// slip_of(&WORDS, ["ddcap", "chec"])                   there is no word chec
/// ```
pub fn slip_of<'a>(words: &'static [Word], given: &'a [String]) -> Option<Slip<'a>>
    ensures { spec.is_no_word words.now (option_map (λ text. text.bytes.items) (slice_get given.now 1)) ≡ true → spec.is_of_word result ≡ true }
{
    let Some(name) = given.get(1) else {
        return Some(Slip::NoWord);
    };
    let Some(word) = word_named(words, name.as_str()) else {
        return Some(Slip::Unknown(name.as_str()));
    };
    slip_after(word, given)
}

fn slip_after<'a>(word: &'static Word, given: &'a [String]) -> Option<Slip<'a>> {
    let reading = match read_all(word, given) {
        Ok(reading) => reading,
        Err(slip) => return Some(slip),
    };
    if let Some(option) = reading.open {
        return Some(Slip::NoValue(option));
    }
    if is_given(given, "--line") && is_given(given, "--queued") {
        return Some(Slip::BothNodes);
    }
    slip_of_files(word, reading.files)
}

// What was read of all that was given after the word, or the first thing that is wrong with that.
fn read_all<'a>(word: &'static Word, given: &'a [String]) -> Result<Reading<'a>, Slip<'a>> {
    let mut reading = Reading::new();
    for index in 2..given.len() {
        reading = read_on(word, given, index, reading)?;
    }
    Ok(reading)
}

// The same with what was given at this place, where all before it was read.
fn read_on<'a>(
    word: &'static Word,
    given: &'a [String],
    index: usize,
    reading: Reading<'a>,
) -> Result<Reading<'a>, Slip<'a>>
    requires { index < length given.now }
{
    let text = given[index].as_str();
    let after = reading.next(word, text)?;
    if !after.is_at_option(text) {
        return Ok(after);
    }
    if is_given_before(given, index) {
        return Err(Slip::Twice(text));
    }
    Ok(after)
}

// What is wrong with the number of files, or else with a value.
fn slip_of_files<'a>(word: &'static Word, given: usize) -> Option<Slip<'a>> {
    let (least, most) = bounds_of(word);
    let is_in_pairs = most == usize::MAX;
    if given < least || given > most || is_in_pairs && given % 2 != 0 {
        return Some(Slip::Files {
            word: word.name,
            needs: word.needs,
            given,
        });
    }
    if word.values.is_empty() {
        return None;
    }
    Some(Slip::Value(word.values))
}

// How many files the word needs, and how many it takes.
fn bounds_of(word: &Word) -> (usize, usize) {
    let mut least: usize = 0;
    let mut more: usize = 0;
    for part in word.parts {
        match part {
            Part::Needed(_) => least = least.saturating_add(1),
            Part::Optional(_) => more = more.saturating_add(1),
            Part::Several(_) => more = usize::MAX,
            Part::Flag(_) | Part::Valued(_) => {}
        }
    }
    (least, least.saturating_add(more))
}
