//! The files that the words name: how they are opened, and what is told where one can't be.

ghost use Rattle.std.specs.Prelude.{◌≡◌, ◌⊎◌, IfOk};
ghost use Rattle.std.specs.IoError.{error_kind};
ghost use Rattle.pair_judge.specs.declared.fault.JudgeFault.TheVariants.{OutOfMemory};
ghost use Rattle.printing.specs.NotOpened.{IsPathNotOpened, path_not_opened_text};
ghost use Rattle.printing.specs.Printed.{Writes, fault_text, moved, not_opened_says, not_opened_text, stream_of};

use crate::check::{print, print_out_of_memory};
use crate::fault_told::{FaultKind, FaultTold};
use crate::path_text::put_path;
use crate::text::FAILED;
use std::alloc::{AllocError, Global};
use std::fmt;
use std::fs::{OpenFile, OpenOptions};
use std::io::{self, ErrorKind, Write};
use std::rt::Files;
use wire_base::Tally;

/// A file, by the name that it has in what is printed.
#[derive(Clone, Copy)]
pub enum Named {
    Script,
    Wire,
    A,
    B,
    /// The picture of `draw`.
    Svg,
    /// What `align` writes for side a, and for side b.
    OutA,
    OutB,
}

impl fmt::Display for Named {
    ghost use Rattle.std.specs.Prelude.{Some};
    ghost use Rattle.printing.specs.NotOpened.{name_of};

    ghost output = { λ named. Some (name_of named) };

    fn fmt<W: fmt::Write>(&self, f: &mut fmt::Formatter<W>) -> fmt::Result {
        match self {
            Named::Script => f.write_str("script"),
            Named::Wire => f.write_str("wire"),
            Named::A => f.write_str("a"),
            Named::B => f.write_str("b"),
            Named::Svg => f.write_str("svg"),
            Named::OutA => f.write_str("out a"),
            Named::OutB => f.write_str("out b"),
        }
    }
}

/// What is told of a file that can't be opened.
#[derive(Clone, Copy)]
pub enum Told {
    /// `a: cannot open`
    Name,
    /// `a: cannot open: PATH`
    Path,
}

/// A file that a word names.
#[derive(Clone, Copy)]
pub struct Wanted<'p> {
    pub named: Named,
    pub path: &'p str,
    pub told: Told,
}

impl<'p> Wanted<'p> {
    /// A file of which its name is told.
    pub fn by_name(named: Named, path: &'p str) -> Wanted<'p> {
        Wanted {
            named,
            path,
            told: Told::Name,
        }
    }

    /// A file of which its path is told too.
    pub fn by_path(named: Named, path: &'p str) -> Wanted<'p> {
        Wanted {
            named,
            path,
            told: Told::Path,
        }
    }
}

/// Opens a file to be read. `Err`: it can't be opened, which was told.
pub fn opened<R: Files + AllocGlobal, E: Write>(
    rt: &R,
    wanted: Wanted<'_>,
    err: &mut Tally<E>,
) -> Result<Tally<R::File>, FaultTold> {
    let file = opened_plain(rt, wanted, err)?;
    Ok(Tally::new(file))
}

/// Opens a file to be read, whose calls nobody counts yet. `Err` as for `opened`.
pub fn opened_plain<R: Files + AllocGlobal, E: Write>(
    rt: &R,
    wanted: Wanted<'_>,
    err: &mut Tally<E>,
) -> Result<R::File, FaultTold> {
    match open_to_read(rt, wanted.path) {
        Ok(file) => Ok(file),
        Err(error) => Err(told_fault_of(rt.alloc(), err, wanted, &error)),
    }
}

/// Opens a file to be read, and tells nothing.
pub fn open_to_read<R: Files>(rt: &R, path: &str) -> io::Result<R::File> {
    let mut how = OpenOptions::new();
    how.read(true);
    open_above_streams(rt, &how, path)
}

/// Opens a file to be written, which is created where there is none, and keeps what it has. `Err` as for `opened`.
pub fn opened_to_write<R: Files + AllocGlobal, E: Write>(
    rt: &R,
    wanted: Wanted<'_>,
    err: &mut Tally<E>,
) -> Result<R::File, FaultTold> {
    let mut how = OpenOptions::new();
    how.write(true).create(true);
    match open_above_streams(rt, &how, wanted.path) {
        Ok(file) => Ok(file),
        Err(error) => Err(told_fault_of(rt.alloc(), err, wanted, &error)),
    }
}

/// Opens a file to be written and read back, likewise. A pipe is opened without its other end.
pub fn opened_to_read_back<R: Files + AllocGlobal, E: Write>(
    rt: &R,
    wanted: Wanted<'_>,
    err: &mut Tally<E>,
) -> Result<R::File, FaultTold> {
    let mut how = OpenOptions::new();
    how.read(true).write(true).create(true);
    match open_above_streams(rt, &how, wanted.path) {
        Ok(file) => Ok(file),
        Err(error) => Err(told_fault_of(rt.alloc(), err, wanted, &error)),
    }
}

// The system gives a new file the lowest free number. Where the program was started with a standard stream closed, that may be the number of the
// stream, and what is printed would be written into the file. A copy's number is never one of theirs.
fn open_above_streams<R: Files>(rt: &R, how: &OpenOptions, path: &str) -> io::Result<R::File> {
    let file = how.open(rt, path)?;
    file.try_clone()
}

/// The same file once more, to be read again from its beginning; `None` where the system gives no second number.
pub fn another_of<F: OpenFile>(file: &F) -> Option<F> {
    match file.try_clone() {
        Ok(another) => Some(another),
        Err(_) => None,
    }
}

/// Tells that a file can't be opened, or that memory was wanting for it.
pub fn told_fault_of<W: Write>(
    alloc: Global,
    err: &mut Tally<W>,
    wanted: Wanted<'_>,
    error: &io::Error,
) -> FaultTold {
    let status = print_fault_of(alloc, err, wanted, error);
    if error.kind() == ErrorKind::OutOfMemory {
        return FaultTold::out_of_memory(status);
    }
    FaultTold::of(wanted.named, FaultKind::NotOpened, status)
}

// Prints that a file can't be opened, or that memory was wanting for it, and answers the status.
fn print_fault_of<W: Write>(
    alloc: Global,
    err: &mut Tally<W>,
    wanted: Wanted<'_>,
    error: &io::Error,
) -> u8 {
    match wanted.told {
        Told::Name => print_not_opened(err, wanted.named, error),
        Told::Path => print_path_not_opened(alloc, err, wanted.named, wanted.path, error),
    }
}

// Prints that a file can't be opened, or that memory was wanting for it, and answers the status.
fn print_not_opened<W: Write>(err: &mut Tally<W>, named: Named, error: &io::Error) -> u8
    ensures { Writes (stream_of W.contents err.old) (stream_of W.contents err.new)
        (not_opened_says named (error_kind error.now)) 3 result }
{
    if error.kind() == ErrorKind::OutOfMemory {
        return print_out_of_memory(err);
    }
    print_cannot_open(err, named)
}

// Prints that a file can't be opened, from a constant, and answers the status.
fn print_cannot_open<W: Write>(err: &mut Tally<W>, named: Named) -> u8
    ensures { Writes (stream_of W.contents err.old) (stream_of W.contents err.new) (not_opened_text named) 3 result }
{
    match named {
        Named::Script => print(err, b"script: cannot open\n", FAILED),
        Named::Wire => print(err, b"wire: cannot open\n", FAILED),
        Named::A => print(err, b"a: cannot open\n", FAILED),
        Named::B => print(err, b"b: cannot open\n", FAILED),
        Named::Svg => print(err, b"svg: cannot open\n", FAILED),
        Named::OutA => print(err, b"out a: cannot open\n", FAILED),
        Named::OutB => print(err, b"out b: cannot open\n", FAILED),
    }
}

// Prints that the file of this path can't be opened, or that memory was wanting for it or for the line, and answers the status.
fn print_path_not_opened<W: Write>(
    alloc: Global,
    err: &mut Tally<W>,
    named: Named,
    path: &str,
    error: &io::Error,
) -> u8
    ensures { IsPathNotOpened (moved W.contents err.old err.new) named path.now (error_kind error.now) result }
{
    if error.kind() == ErrorKind::OutOfMemory {
        return print_out_of_memory(err);
    }
    print_path(alloc, err, named, path)
}

// Prints `a: cannot open: PATH`, and answers the status.
fn print_path<W: Write>(alloc: Global, err: &mut Tally<W>, named: Named, path: &str) -> u8
    ensures { Writes (stream_of W.contents err.old) (stream_of W.contents err.new) (path_not_opened_text named path.now) 3 result
        ⊎ Writes (stream_of W.contents err.old) (stream_of W.contents err.new) (fault_text OutOfMemory) 3 result }
{
    match path_not_opened(alloc, named, path) {
        Ok(text) => print(err, text.as_slice(), FAILED),
        Err(_) => print_out_of_memory(err),
    }
}

// `a: cannot open: PATH`. Fails for want of memory alone.
fn path_not_opened(alloc: Global, named: Named, path: &str) -> Result<Vec<u8>, AllocError>
    ensures { IfOk result (λ text. text.items ≡ path_not_opened_text named path.now) }
{
    let head = format!(in alloc; "{named}: cannot open: ")?;
    let mut text = Vec::new(alloc);
    text.extend_from_slice(head.as_bytes())?;
    put_path(&mut text, path)?;
    text.push(b'\n')?;
    Ok(text)
}
