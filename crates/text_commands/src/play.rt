//! `play`: a script, and the captures of both sides that it stands for.

ghost use Rattle.std.specs.Prelude.{◌≡◌, ◌≤◌, length, None, IfSome};
ghost use Rattle.text_commands.specs.Playing.{IsPlaying, TellsPlayed, play_fault_status, play_fault_text, script_line_text, steps_text};
ghost use Rattle.printing.specs.Printed.{Writes, moved, stream_of};

use capture::Page;
use pair_player::{NeedsFormat3, PlayFault, Played, play, play_at_once};
use printing::check::{print, print_failed_write, print_out_of_memory};
use printing::text::{FAILED, FAULTY};
use std::alloc::Global;
use std::io::{Read, Write};
use wire_base::Tally;

/// The status where the whole script was played.
const PLAYED: u8 = 0;

/// Plays the script that a reader gives, writes both captures, prints how many steps it has, and answers the status.
///
/// Status 0: `played N steps` is printed to `out`. Else a fault is printed to `err`: a line of the script that departs, its kind
/// after it, or whose step can't be made, `bad step` or `full`, status 2, or a failed read, `script: read failed`, status 3,
/// where both captures have their heads and the records of all steps before it, and nothing where no head was read;
/// `a: write failed` or `b: write failed`, status 3, where each capture has a beginning of those; or `out of memory`, status 3.
/// A failed write to `out` or to `err` ends the printing, with status 3. The memory for the printed text is asked for first, so that
/// no allocation comes after a write to `out` or `err`.
pub fn play_to<S: Read, A: Write, B: Write, O: Write, E: Write>(
    alloc: Global,
    script: &mut Tally<S>,
    a: &mut Tally<A>,
    b: &mut Tally<B>,
    out: &mut Tally<O>,
    err: &mut Tally<E>,
) -> u8
    ensures { IsPlaying (moved S.remaining script.old script.new)
        (moved A.contents a.old a.new, moved B.contents b.old b.new)
        (moved O.contents out.old out.new) (moved E.contents err.old err.new) result }
{
    let Ok(mut page) = Page::new(alloc) else {
        return print_out_of_memory(err);
    };
    let answer = play(alloc, script, a, b);
    print_answer(&mut page, answer, out, err)
}

/// The same, where few lines wait in memory. `None`: a step needs format 3, and lines were written in format 1. Then nothing was printed, and the
/// script is to be played again, by `play_to`, into files that hold nothing.
pub fn play_at_once_to<S: Read, A: Write, B: Write, O: Write, E: Write>(
    alloc: Global,
    script: &mut Tally<S>,
    a: &mut Tally<A>,
    b: &mut Tally<B>,
    out: &mut Tally<O>,
    err: &mut Tally<E>,
) -> Option<u8>
    ensures played { IfSome result (IsPlaying (moved S.remaining script.old script.new)
        (moved A.contents a.old a.new, moved B.contents b.old b.new)
        (moved O.contents out.old out.new) (moved E.contents err.old err.new)) }
    ensures out { result ≡ None → out.new ≡ out.old }
    ensures err { result ≡ None → err.new ≡ err.old }
{
    let Ok(mut page) = Page::new(alloc) else {
        return Some(print_out_of_memory(err));
    };
    match play_at_once(alloc, script, a, b) {
        Ok(answer) => Some(print_answer(&mut page, answer, out, err)),
        Err(NeedsFormat3) => None,
    }
}

// Prints what the player answers, put together on the page, and answers the status.
fn print_answer<O: Write, E: Write>(
    page: &mut Page,
    answer: Result<Played, PlayFault>,
    out: &mut Tally<O>,
    err: &mut Tally<E>,
) -> u8
    ensures { TellsPlayed (moved O.contents out.old out.new) (moved E.contents err.old err.new) answer result }
{
    match answer {
        Ok(played) => print_steps(page, out, played.steps),
        Err(fault) => print_play_fault(page, err, fault),
    }
}

// Prints how many steps were played, put together on the page, and answers the status.
fn print_steps<W: Write>(page: &mut Page, out: &mut Tally<W>, steps: u64) -> u8
    ensures { Writes (stream_of W.contents out.old) (stream_of W.contents out.new) (steps_text steps) 0 result }
{
    page.clear();
    page.put(b"played ");
    page.put_number(steps);
    page.put(b" steps\n");
    print(out, page.as_slice(), PLAYED)
}

// Prints why a script was not played to its end, put together on the page, and answers the status.
fn print_play_fault<W: Write>(page: &mut Page, err: &mut Tally<W>, fault: PlayFault) -> u8
    ensures { Writes (stream_of W.contents err.old) (stream_of W.contents err.new)
        (play_fault_text fault) (play_fault_status fault) result }
{
    match fault {
        PlayFault::Departs { kind, line } => print_script_line(page, err, line, kind.words()),
        PlayFault::BadStep { line } => print_script_line(page, err, line, b"bad step"),
        PlayFault::Full { line } => print_script_line(page, err, line, b"full"),
        PlayFault::Read => print(err, b"script: read failed\n", FAILED),
        PlayFault::Write { side } => print_failed_write(err, side),
        PlayFault::OutOfMemory => print_out_of_memory(err),
    }
}

// Prints what is wrong with a line of the script.
fn print_script_line<W: Write>(page: &mut Page, err: &mut Tally<W>, line: u64, words: &[u8]) -> u8
    requires { length words.now ≤ 8 }
    ensures { Writes (stream_of W.contents err.old) (stream_of W.contents err.new) (script_line_text line words.now) 2 result }
{
    page.clear();
    page.put(b"script: line ");
    page.put_number(line);
    page.put(b": ");
    page.put(words);
    page.put(b"\n");
    print(err, page.as_slice(), FAULTY)
}
