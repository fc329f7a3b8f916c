//! Why a text is no capture, or could not be read or written.

ghost use Rattle.std.specs.Prelude.{◌≡◌, ◌≤◌, length};

use std::fmt;
use thiserror::Error;

/// How a line departs from the format. Printed as `syntax`, `too long`, `too many` or `part`.
#[derive(Clone, Copy, Debug, PartialEq, Eq)]
pub enum Departure {
    /// The line is none of the format's, or has no LF.
    Syntax,
    /// The line, or its BYTES, is longer than the format allows.
    TooLong,
    /// The line comes after as many as a text may have.
    TooMany,
    /// The line is the head of a part of a run, where that of a whole capture is wanted.
    Part,
}

impl Departure {
    ghost use Rattle.capture.specs.Faulty.{kind_words};

    /// The words that a departure of this kind is told by, of at most 8 bytes. Takes no memory.
    pub fn words<'a>(self) -> &'a [u8]
        ensures words { result.now ≡ kind_words self }
        ensures short { length result.now ≤ 8 }
    {
        match self {
            Departure::Syntax => b"syntax",
            Departure::TooLong => b"too long",
            Departure::TooMany => b"too many",
            Departure::Part => b"part",
        }
    }
}

impl fmt::Display for Departure {
    ghost use Rattle.std.specs.Prelude.{Some};
    ghost use Rattle.capture.specs.Faulty.{kind_words};

    ghost output = { λ kind. Some (kind_words kind) };

    fn fmt<W: fmt::Write>(&self, f: &mut fmt::Formatter<W>) -> fmt::Result {
        match self {
            Departure::Syntax => f.write_str("syntax"),
            Departure::TooLong => f.write_str("too long"),
            Departure::TooMany => f.write_str("too many"),
            Departure::Part => f.write_str("part"),
        }
    }
}

/// Why a part of a line could not be read.
#[derive(Clone, Copy, Debug, PartialEq, Eq)]
pub enum PartFault {
    /// The part departs from the format.
    Departs(Departure),
    /// There was no memory for its bytes.
    OutOfMemory,
}

/// Why no next line is at hand.
#[derive(Clone, Copy, Debug, PartialEq, Eq)]
pub enum LineFault {
    /// The line at hand departs from the format before a word of it is read.
    Departs(Departure),
    /// The reader failed.
    Read,
}

/// Why a reader of a capture, or of another text of lines, gives no head or no next line. Lines are counted from 1.
#[derive(Clone, Copy, Debug, PartialEq, Eq, Error)]
pub enum CaptureFault {
    /// The line departs from the format in this way.
    #[error("line {line}: {kind}")]
    Departs { kind: Departure, line: u64 },
    /// The reader failed in this call.
    #[error("read failed")]
    Read,
    /// There was no memory for the record, or for the reader's block or its room.
    #[error("out of memory")]
    OutOfMemory,
    /// An earlier call answered a fault.
    #[error("failed before")]
    Failed,
}

/// Why a line was not written.
#[derive(Clone, Copy, Debug, PartialEq, Eq, Error)]
pub enum WriteFault {
    /// The writer failed in this call; it has a beginning of the line.
    #[error("write failed")]
    Write,
    /// There was no memory for the line; nothing of it was written.
    #[error("out of memory")]
    OutOfMemory,
}

/// Why a text was not converted to its end.
#[derive(Clone, Copy, Debug, PartialEq, Eq, Error)]
pub enum ConvertFault {
    /// The text is faulty, or its reader failed: all before that was written. The fault is `Departs` or `Read`.
    #[error("{0}")]
    Capture(CaptureFault),
    /// The format that was asked for has no line for the record of this line of the text, counted from 1: all before that was written.
    #[error("line {line}: not in the format")]
    NotInFormat { line: u64 },
    /// The writer failed; it has a beginning of what was to be written.
    #[error("write failed")]
    Write,
    /// There was no memory; nothing was written.
    #[error("out of memory")]
    OutOfMemory,
}
