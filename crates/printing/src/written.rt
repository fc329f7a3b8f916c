//! The files that are written: none is emptied before each is known to be another file than those beside it.

ghost use Rattle.std.specs.Prelude.{◌⊎◌};
ghost use Rattle.pair_judge.specs.declared.fault.JudgeFault.TheVariants.{OutOfMemory};
ghost use Rattle.printing.specs.NotOpened.{same_file_text};
ghost use Rattle.printing.specs.Printed.{Writes, fault_text, stream_of};

use crate::check::{print, print_out_of_memory};
use crate::fault_told::{FaultKind, FaultTold};
use crate::files::{Named, Wanted, opened_to_read_back, opened_to_write, told_fault_of};
use crate::text::FAILED;
use std::alloc::Global;
use std::fs::OpenFile;
use std::io::{self, Write};
use std::os::unix::fs::MetadataExt;
use std::rt::Files;
use wire_base::Tally;

/// An open file, and the name that it has in what is printed.
#[derive(Drop)]
pub struct Beside<'f, F> {
    pub named: Named,
    pub file: &'f F,
}

/// Which file on a disk it is, by whatever name it was opened.
#[derive(Clone, Copy, PartialEq, Eq)]
struct Node {
    device: u64,
    number: u64,
}

/// Opens a file to be written, beside one that is read, and empties it. `Err`: it can't be opened, or is the other one, and keeps what it has. That
/// was told.
pub fn written<R: Files + AllocGlobal, E: Write>(
    rt: &R,
    read: &Beside<'_, R::File>,
    wanted: Wanted<'_>,
    err: &mut Tally<E>,
) -> Result<Tally<R::File>, FaultTold> {
    let file = opened_to_write(rt, wanted, err)?;
    keep_apart(rt, read, wanted, &file, err)?;
    emptied(rt, wanted, file, err)
}

/// Opens two files to be written, beside one that is read, the first one first, and empties them. `Err`: one of them can't be opened, or is another
/// one of the three, and both keep what they have. That was told.
pub fn written_pair<R: Files + AllocGlobal, E: Write>(
    rt: &R,
    read: &Beside<'_, R::File>,
    wanted_a: Wanted<'_>,
    wanted_b: Wanted<'_>,
    err: &mut Tally<E>,
) -> Result<(Tally<R::File>, Tally<R::File>), FaultTold> {
    let a = opened_to_write(rt, wanted_a, err)?;
    keep_apart(rt, read, wanted_a, &a, err)?;
    let b = opened_to_write(rt, wanted_b, err)?;
    keep_apart_from_both(rt, read, &a, wanted_a, wanted_b, &b, err)?;
    emptied_pair(rt, wanted_a, wanted_b, a, b, err)
}

/// Opens two files to be written and read back, beside one that is read, the first one first, and waits for no other end of a pipe. `Err`: one of
/// them can't be opened, or is another one of the three. That was told. All keep what they have.
pub fn opened_pair_to_write<R: Files + AllocGlobal, E: Write>(
    rt: &R,
    read: &Beside<'_, R::File>,
    wanted_a: Wanted<'_>,
    wanted_b: Wanted<'_>,
    err: &mut Tally<E>,
) -> Result<(R::File, R::File), FaultTold> {
    let a = opened_to_read_back(rt, wanted_a, err)?;
    keep_apart(rt, read, wanted_a, &a, err)?;
    let b = opened_to_read_back(rt, wanted_b, err)?;
    keep_apart_from_both(rt, read, &a, wanted_a, wanted_b, &b, err)?;
    Ok((a, b))
}

/// Opens two files to be written, beside two that are read, the first one first, and empties them. `Err`: one of them can't be opened, or is another
/// one of the four, and both keep what they have. That was told.
pub fn written_pair_beside_pair<R: Files + AllocGlobal, E: Write>(
    rt: &R,
    a: &R::File,
    b: &R::File,
    wanted_a: Wanted<'_>,
    wanted_b: Wanted<'_>,
    err: &mut Tally<E>,
) -> Result<(Tally<R::File>, Tally<R::File>), FaultTold> {
    let out_a = opened_beside_pair(rt, a, b, wanted_a, err)?;
    let out_b = opened_beside_pair(rt, a, b, wanted_b, err)?;
    let beside = Beside {
        named: wanted_a.named,
        file: &out_a,
    };
    keep_apart(rt, &beside, wanted_b, &out_b, err)?;
    emptied_pair(rt, wanted_a, wanted_b, out_a, out_b, err)
}

/// Opens a file to be written, beside two that are read, and empties it. `Err` as for `written`.
pub fn written_beside_pair<R: Files + AllocGlobal, E: Write>(
    rt: &R,
    a: &R::File,
    b: &R::File,
    wanted: Wanted<'_>,
    err: &mut Tally<E>,
) -> Result<Tally<R::File>, FaultTold> {
    let file = opened_beside_pair(rt, a, b, wanted, err)?;
    emptied(rt, wanted, file, err)
}

// Opens it so, and leaves what it has.
fn opened_beside_pair<R: Files + AllocGlobal, E: Write>(
    rt: &R,
    a: &R::File,
    b: &R::File,
    wanted: Wanted<'_>,
    err: &mut Tally<E>,
) -> Result<R::File, FaultTold> {
    let file = opened_to_write(rt, wanted, err)?;
    keep_apart_from_pair(rt, a, b, wanted, &file, err)?;
    Ok(file)
}

// `Err`: the file to be written is the one that is read, or the one that is written first, or the system doesn't tell. That was told.
fn keep_apart_from_both<R: Files + AllocGlobal, E: Write>(
    rt: &R,
    read: &Beside<'_, R::File>,
    a: &R::File,
    wanted_a: Wanted<'_>,
    wanted: Wanted<'_>,
    file: &R::File,
    err: &mut Tally<E>,
) -> Result<(), FaultTold> {
    keep_apart(rt, read, wanted, file, err)?;
    let beside_a = Beside {
        named: wanted_a.named,
        file: a,
    };
    keep_apart(rt, &beside_a, wanted, file, err)
}

// `Err`: the file is one of these two, or the system doesn't tell. That was told.
fn keep_apart_from_pair<R: Files + AllocGlobal, E: Write>(
    rt: &R,
    a: &R::File,
    b: &R::File,
    wanted: Wanted<'_>,
    file: &R::File,
    err: &mut Tally<E>,
) -> Result<(), FaultTold> {
    for (named, other) in [(Named::A, a), (Named::B, b)] {
        let other = Beside { named, file: other };
        keep_apart(rt, &other, wanted, file, err)?;
    }
    Ok(())
}

// `Err`: the file is the other one, or the system doesn't tell. That was told.
fn keep_apart<R: Files + AllocGlobal, E: Write>(
    rt: &R,
    other: &Beside<'_, R::File>,
    wanted: Wanted<'_>,
    file: &R::File,
    err: &mut Tally<E>,
) -> Result<(), FaultTold> {
    match is_same(other.file, file) {
        Ok(false) => Ok(()),
        Ok(true) => {
            let status = print_same_file(rt.alloc(), err, wanted.named, other.named);
            Err(FaultTold::of(wanted.named, FaultKind::SameFile(other.named), status))
        }
        Err(error) => Err(told_fault_of(rt.alloc(), err, wanted, &error)),
    }
}

// Both are asked once both are open: where a file that is opened to be written becomes a new one of a layer above, as in a container, both are that
// one by then.
fn is_same<F: OpenFile>(file: &F, other: &F) -> io::Result<bool> {
    let Some(node) = node_of(file)? else {
        return Ok(false);
    };
    Ok(node_of(other)? == Some(node))
}

/// Whether it is a file on a disk, which holds what was written into it; not a pipe, a terminal or another device, and not one of which the system
/// doesn't tell.
pub fn is_on_disk<F: OpenFile>(file: &F) -> bool {
    match node_of(file) {
        Ok(node) => node.is_some(),
        Err(_) => false,
    }
}

// `None` of a pipe, a terminal or another device, which holds nothing that could be lost.
fn node_of<F: OpenFile>(file: &F) -> io::Result<Option<Node>> {
    let metadata = file.metadata()?;
    if !metadata.is_file() {
        return Ok(None);
    }
    Ok(Some(Node {
        device: metadata.dev(),
        number: metadata.ino(),
    }))
}

// A file on a disk loses what it has; a device has nothing.
fn emptied<R: Files + AllocGlobal, E: Write>(
    rt: &R,
    wanted: Wanted<'_>,
    file: R::File,
    err: &mut Tally<E>,
) -> Result<Tally<R::File>, FaultTold> {
    empty_told(rt, wanted, &file, err)?;
    Ok(Tally::new(file))
}

// Both lose what they have, the first one first.
fn emptied_pair<R: Files + AllocGlobal, E: Write>(
    rt: &R,
    wanted_a: Wanted<'_>,
    wanted_b: Wanted<'_>,
    a: R::File,
    b: R::File,
    err: &mut Tally<E>,
) -> Result<(Tally<R::File>, Tally<R::File>), FaultTold> {
    empty_told(rt, wanted_a, &a, err)?;
    empty_told(rt, wanted_b, &b, err)?;
    Ok((Tally::new(a), Tally::new(b)))
}

fn empty_told<R: Files + AllocGlobal, E: Write>(
    rt: &R,
    wanted: Wanted<'_>,
    file: &R::File,
    err: &mut Tally<E>,
) -> Result<(), FaultTold> {
    match empty(file) {
        Ok(()) => Ok(()),
        Err(error) => Err(told_fault_of(rt.alloc(), err, wanted, &error)),
    }
}

fn empty<F: OpenFile>(file: &F) -> io::Result<()> {
    if node_of(file)?.is_none() {
        return Ok(());
    }
    file.set_len(0)
}

// Prints that a file to be written is another one of the program's files, and answers the status.
fn print_same_file<W: Write>(alloc: Global, err: &mut Tally<W>, named: Named, other: Named) -> u8
    ensures { Writes (stream_of W.contents err.old) (stream_of W.contents err.new) (same_file_text named other) 3 result
        ⊎ Writes (stream_of W.contents err.old) (stream_of W.contents err.new) (fault_text OutOfMemory) 3 result }
{
    match format!(in alloc; "{named}: same file as {other}\n") {
        Ok(text) => print(err, text.as_bytes(), FAILED),
        Err(_) => print_out_of_memory(err),
    }
}
