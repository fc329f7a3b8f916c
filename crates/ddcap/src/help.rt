//! `help`: what the program is, and what each of its words does.

ghost use Rattle.std.specs.Prelude.{◌++◌};
ghost use Rattle.ddcap.specs.Helping.{help_text};
ghost use Rattle.printing.specs.Printed.{Writes, stream_of};

use command_words::{PROGRAM, Word};
use printing::check::print;
use printing::text::FAILED;
use std::io::Write;
use wire_base::{Tally, write_whole};

/// The version of the program: this place alone has it.
pub const VERSION: &str = "1.13";

/// The status where the page was printed.
const HELPED: u8 = 0;

/// What help is asked for.
#[derive(Clone, Copy)]
pub enum Topic {
    /// The program as a whole.
    Program,
    /// One of its words.
    Of(&'static Word),
}

/// Prints the page of this topic, and answers the status: 0, or 3 where a write failed. It takes no memory.
pub fn help_to<W: Write>(stream: &mut Tally<W>, topic: Topic) -> u8
    ensures { Writes (stream_of W.contents stream.old) (stream_of W.contents stream.new) (help_text topic) 0 result }
{
    match topic {
        Topic::Program => print_program(stream),
        Topic::Of(word) => print(stream, word.page.text().as_bytes(), HELPED),
    }
}

// Prints name and version, and the page of the whole after them.
fn print_program<W: Write>(stream: &mut Tally<W>) -> u8
    ensures { Writes (stream_of W.contents stream.old) (stream_of W.contents stream.new) (help_text Topic.Program) 0 result }
{
    match write_whole(stream, b"ddcap ") {
        Ok(()) => print_both(stream, VERSION.as_bytes(), PROGRAM.as_bytes(), HELPED),
        Err(_) => FAILED,
    }
}

// Writes two texts, one after the other, and answers the status: the given one, or 3 where a write failed.
fn print_both<W: Write>(stream: &mut Tally<W>, first: &[u8], second: &[u8], status: u8) -> u8
    ensures { Writes (stream_of W.contents stream.old) (stream_of W.contents stream.new) (first.now ++ second.now) status result }
{
    match write_whole(stream, first) {
        Ok(()) => print(stream, second, status),
        Err(_) => FAILED,
    }
}
