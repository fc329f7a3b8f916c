//! The words after those that judge captures.

use crate::words::{Task, WordsFault};
use clap::ArgMatches;
use cover_command::cover_files::Listed;
use printing::how::{Form, How, Refusals};
use printing::layers::Layers;
use std::alloc::{AllocError, Global};
use tap_command::tap_files::TapPaths;
use why_answer::end_telling::EndPrintout;
use why_answer::telling::Printout;

/// The pairs of captures that the words after `check` name.
pub fn checked_of<'a>(alloc: Global, found: &ArgMatches<'a>) -> Result<Task<'a>, WordsFault> {
    let how = how_asked(found, refusals_of(found))?;
    let files = pairs_named(alloc, found)?;
    Ok(Task::Check { how, files })
}

/// The capture that the words after `alone` name.
pub fn judged_alone_of<'a>(found: &ArgMatches<'a>) -> Result<Task<'a>, WordsFault> {
    let how = how_asked(found, refusals_of(found))?;
    match found.get_str("A") {
        Some(a) => Ok(Task::Alone { how, a }),
        None => Err(WordsFault::BadWords),
    }
}

/// The captures that the words after `why` name, or the one.
pub fn explained_of<'a>(found: &ArgMatches<'a>) -> Result<Task<'a>, WordsFault> {
    let How {
        form,
        layers,
        refusals,
    } = how_asked(found, refusals_of(found))?;
    let full = found.get_flag("full");
    match (found.get_str("A"), found.get_str("B")) {
        (Some(name_a), Some(name_b)) => {
            let printout = Printout {
                layers,
                form,
                full,
                name_a,
                name_b,
            };
            Ok(Task::Why { refusals, printout })
        }
        (Some(name), None) => {
            let printout = EndPrintout {
                layers,
                form,
                full,
                name,
            };
            Ok(Task::WhyAlone { refusals, printout })
        }
        (None, _) => Err(WordsFault::BadWords),
    }
}

/// The pairs of captures that the words after `cover` name.
pub fn covered_of<'a>(alloc: Global, found: &ArgMatches<'a>) -> Result<Task<'a>, WordsFault> {
    let how = how_asked(found, Refusals::First)?;
    let files = pairs_named(alloc, found)?;
    Ok(Task::Cover {
        how,
        listed: listed_of(found),
        files,
    })
}

/// The text and the captures that the words after `tap` name.
pub fn tapped_of<'a>(found: &ArgMatches<'a>) -> Result<Task<'a>, WordsFault> {
    match (
        found.get_str("WIRE"),
        found.get_str("A"),
        found.get_str("B"),
    ) {
        (Some(wire), Some(a), Some(b)) => {
            let line_alone = found.get_flag("line");
            let paths = TapPaths {
                wire,
                a,
                b,
                line_alone,
            };
            Ok(Task::Tap {
                form: form_of(found),
                paths,
            })
        }
        _ => Err(WordsFault::BadWords),
    }
}

// How captures are judged, and how the answer is printed.
fn how_asked(found: &ArgMatches<'_>, refusals: Refusals) -> Result<How, WordsFault> {
    match judged_layers_of(found) {
        Some(layers) => Ok(How {
            form: form_of(found),
            layers,
            refusals,
        }),
        None => Err(WordsFault::BadWords),
    }
}

/// Which refusals are told.
pub fn refusals_of(found: &ArgMatches<'_>) -> Refusals {
    match found.get_flag("all") {
        true => Refusals::All,
        false => Refusals::First,
    }
}

// How the answer is printed.
fn form_of(found: &ArgMatches<'_>) -> Form {
    match found.get_flag("json") {
        true => Form::Json,
        false => Form::Rows,
    }
}

/// What is judged; `None` where two kinds of node are named.
pub fn judged_layers_of(found: &ArgMatches<'_>) -> Option<Layers> {
    match (found.get_flag("line"), found.get_flag("queued")) {
        (true, true) => None,
        (true, false) => Some(Layers::Station),
        (false, true) => Some(Layers::Queued),
        (false, false) => Some(Layers::Both),
    }
}

// Which rows are listed.
fn listed_of(found: &ArgMatches<'_>) -> Listed {
    match found.get_flag("missing") {
        true => Listed::Missing,
        false => Listed::Met,
    }
}

// The files that the words name, two of each pair.
fn pairs_named<'a>(alloc: Global, found: &ArgMatches<'a>) -> Result<Vec<&'a str>, WordsFault> {
    let (Some(a), Some(b)) = (found.get_str("A"), found.get_str("B")) else {
        return Err(WordsFault::BadWords);
    };
    let Ok(mut files) = one_pair(alloc, a, b) else {
        return Err(WordsFault::OutOfMemory);
    };
    let Some(more) = found.get_strs("MORE") else {
        return Ok(files);
    };
    if more.len() % 2 != 0 {
        return Err(WordsFault::BadWords);
    }
    match files.extend_from_slice(more) {
        Ok(()) => Ok(files),
        Err(_) => Err(WordsFault::OutOfMemory),
    }
}

fn one_pair<'a>(alloc: Global, a: &'a str, b: &'a str) -> Result<Vec<&'a str>, AllocError> {
    let mut files = Vec::new(alloc);
    files.push(a)?;
    files.push(b)?;
    Ok(files)
}
