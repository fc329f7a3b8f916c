//! Bytes that were read ahead, in a block.

ghost use Rattle.std.specs.Prelude.{◌≡◌, ◌<◌, ◌≤◌, ◌++◌, [], length, take, drop, min};
ghost use Rattle.std.specs.Prelude.{IfOk, OnErr};
ghost use Rattle.std.specs.Io.KnownBytes.{Consumes, IsAtEnd, Keeps};
ghost use Rattle.edited.specs.inner.Reading.{ReadsAhead};

use std::alloc::{AllocError, Global};
use std::io::{self, Read};
use std::marker::Model;

const BLOCK: usize = 65_536;

// What was read and not yet given. A contract sees it as the list of its bytes.
#[derive(Drop)]
pub(crate) struct Ahead {
    block: Vec<u8>,
    start: usize,
    end: usize,
}

impl Model for Ahead {
    ghost use Rattle.std.specs.Prelude.{List, ℕ};
    ghost use Rattle.edited.specs.inner.Ahead.{ahead_bytes, IsBlock};

    ghost Value = { List ℕ };

    ghost view = { ahead_bytes };

    ghost invariant = { IsBlock };
}

impl Ahead {
    // No bytes. `AllocError` where there is no memory for the block.
    pub(crate) fn new(alloc: Global) -> Result<Ahead, AllocError>
        ensures { IfOk result (λ ahead. ahead ≡ []) }
    {
        let block = vec![in alloc; 0u8; BLOCK]?;
        Ok(Ahead {
            block,
            start: 0,
            end: 0,
        })
    }

    pub(crate) fn as_slice(&self) -> &[u8]
        ensures { result.now ≡ self.now }
    {
        &self.block[self.start..self.end]
    }

    // Leaves the first bytes behind.
    pub(crate) fn skip(&mut self, len: usize)
        requires { len ≤ length self.old }
        ensures { self.new ≡ drop len self.old }
    {
        self.start += len;
    }

    // Gives the first bytes.
    pub(crate) fn give(&mut self, buf: &mut [u8], len: usize)
        requires some { len ≤ length self.old }
        requires room { len ≤ length buf.old }
        ensures given { buf.new ≡ take len self.old ++ drop len buf.old }
        ensures left { self.new ≡ drop len self.old }
    {
        buf[..len].copy_from_slice(&self.as_slice()[..len]);
        self.skip(len);
    }

    // Reads once, where no byte was left. `false` says that the reader is at its end.
    pub(crate) fn fill<R: Read>(&mut self, reader: &mut R) -> io::Result<bool>
        requires { self.old ≡ [] }
        ensures ok { IfOk result (ReadsAhead self.new (R.remaining reader.old) (R.remaining reader.new)) }
        ensures same { OnErr result (self.new ≡ []) }
        ensures left { OnErr result (Keeps (R.remaining reader.old) (R.remaining reader.new)) }
    {
        match reader.read(&mut self.block) {
            Ok(count) => {
                self.start = 0;
                self.end = count;
                Ok(count != 0)
            }
            Err(error) => {
                self.start = 0;
                self.end = 0;
                Err(error)
            }
        }
    }
}

// Copies as many bytes as there are and as the buffer holds: how many.
pub(crate) fn give_front(bytes: &[u8], buf: &mut [u8]) -> usize
    ensures count { result ≡ min (length bytes.now) (length buf.old) }
    ensures given { buf.new ≡ take result bytes.now ++ drop result buf.old }
{
    let count = bytes.len().min(buf.len());
    buf[..count].copy_from_slice(&bytes[..count]);
    count
}
