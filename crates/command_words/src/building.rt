//! Commands of `clap`, built from a table.

ghost use Rattle.std.specs.Prelude.{◌≡◌, [], IfOk, false};
ghost use Rattle.clap.specs.Words.{app_of, rule_of};
ghost use Rattle.command_words.specs.Taken as spec;

use crate::part::Part;
use crate::word::Word;
use clap::{Arg, ArgAction, Command};
use std::alloc::{AllocError, Global};

/// The command of a program that takes these words, one of which has to be given. `AllocError`: there is no memory for it.
///
/// ```text
/// command_of(alloc, "ddcap", &WORDS)?.try_get_matches_from(given)
/// ```
pub fn command_of<'a>(
    alloc: Global,
    program: &'a str,
    words: &'static [Word],
) -> Result<Command<'a>, AllocError>
    ensures { IfOk result (λ command. app_of command ≡ spec.app_of_words program.now words.now) }
{
    let mut command = Command::new(alloc, program)
        .disable_help_subcommand(true)
        .subcommand_required(true);
    for word in words {
        command = command.subcommand(subcommand_of(alloc, word)?)?;
    }
    Ok(command)
}

fn subcommand_of<'a>(alloc: Global, word: &'static Word) -> Result<Command<'a>, AllocError>
    ensures { IfOk result (λ command. app_of command ≡ record { top = spec.shape_of_word word.now; subs = [] }) }
{
    let mut command = Command::new(alloc, word.name);
    for part in word.parts {
        command = command.arg(arg_of(alloc, *part))?;
    }
    Ok(command)
}

fn arg_of<'a>(alloc: Global, part: Part) -> Arg<'a>
    ensures rule { rule_of result ≡ spec.rule_of_part part }
    ensures local { result.global ≡ false }
{
    match part {
        Part::Needed(name) => Arg::new(alloc, name).required(true),
        Part::Optional(name) => Arg::new(alloc, name),
        Part::Several(name) => Arg::new(alloc, name).num_args(1..),
        Part::Flag(name) => { Arg::new(alloc, name).long(name).action(ArgAction::SetTrue) }
        Part::Valued(name) => Arg::new(alloc, name).long(name),
    }
}
