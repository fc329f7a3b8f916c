//! `play` between the names of its files and its status.

use crate::play::{play_at_once_to, play_to};
use printing::fault_told::FaultTold;
use printing::files::{Named, Wanted, opened_plain};
use printing::written::{Beside, is_on_disk, written_pair};
use std::io::Write;
use std::rt::Files;
use wire_base::Tally;

/// The names of the files: the script, and the captures to be written.
#[derive(Clone, Copy)]
pub struct PlayPaths<'a> {
    pub script: &'a str,
    pub a: &'a str,
    pub b: &'a str,
}

// The same files, open, and whether each is on a disk.
#[derive(Drop)]
struct PlayFiles<F> {
    script: Tally<F>,
    a: Tally<F>,
    b: Tally<F>,
    are_on_disk: bool,
}

/// Plays the script into both captures, and answers the status. Files on a disk are written as it is played, in format 1, and where a step then needs
/// format 3 it is played again, since their heads have to say so; of what is no file all lines wait until the format is known. `Err`: a fault, which
/// was told.
pub fn play_files<R: Files + AllocGlobal, O: Write, E: Write>(
    rt: &R,
    paths: PlayPaths<'_>,
    out: &mut Tally<O>,
    err: &mut Tally<E>,
) -> Result<u8, FaultTold> {
    let mut files = opened_files(rt, paths, err)?;
    if files.are_on_disk {
        let (script, a, b) = (&mut files.script, &mut files.a, &mut files.b);
        if let Some(status) = play_at_once_to(rt.alloc(), script, a, b, out, err) {
            return Ok(status);
        }
        files = opened_files(rt, paths, err)?;
    }
    let (script, a, b) = (&mut files.script, &mut files.a, &mut files.b);
    Ok(play_to(rt.alloc(), script, a, b, out, err))
}

// Opens all three, and empties the captures. `Err`: one of them can't be opened, or is another one of them, which was told.
fn opened_files<R: Files + AllocGlobal, E: Write>(
    rt: &R,
    paths: PlayPaths<'_>,
    err: &mut Tally<E>,
) -> Result<PlayFiles<R::File>, FaultTold> {
    let script = opened_plain(rt, Wanted::by_name(Named::Script, paths.script), err)?;
    let beside = Beside {
        named: Named::Script,
        file: &script,
    };
    let wanted_a = Wanted::by_name(Named::A, paths.a);
    let wanted_b = Wanted::by_name(Named::B, paths.b);
    let (a, b) = written_pair(rt, &beside, wanted_a, wanted_b, err)?;
    let (a, b) = (a.into_inner(), b.into_inner());
    let are_on_disk = is_on_disk(&script) && is_on_disk(&a) && is_on_disk(&b);
    Ok(PlayFiles {
        script: Tally::new(script),
        a: Tally::new(a),
        b: Tally::new(b),
        are_on_disk,
    })
}
