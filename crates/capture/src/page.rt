//! Bytes that wait to be written together.

ghost use Rattle.std.specs.Prelude.{◌≡◌, ◌+◌, ◌*◌, ◌≤◌, [], ◌++◌, length, IfOk, OnOk, OnErr};
ghost use Rattle.std.specs.Fmt.{decimal};
ghost use Rattle.hex.specs.Hex.{encode_lower};
ghost use Rattle.wire_base.specs.Tally.{AppendsBeginning, CountedFault, tally_faults, tally_lent};
ghost use Rattle.capture.specs.Paged.{HandsOver};
ghost use Rattle.capture.specs.declared.page.TheConstants.{PAGE_SIZE};

use itoa::Buffer;
use std::alloc::{AllocError, Global};
use std::io::Write;
use std::marker::Model;
use wire_base::{Tally, WriteFailed, write_whole};

/// How many bytes a page holds: a longest line, and about as much again.
pub const PAGE_SIZE: usize = 262_144;

/// Bytes that wait to be written together. It takes memory only when it is made. A contract sees the bytes.
#[derive(Drop)]
pub struct Page {
    block: Vec<u8>,
}

impl Model for Page {
    ghost use Rattle.std.specs.Prelude.{List, ℕ};
    ghost use Rattle.capture.specs.inner.PageBlock.{HasRoom};

    ghost Value = { List ℕ };

    ghost view = { λ page. page.block.items };

    ghost invariant = { HasRoom };
}

impl Page {
    /// An empty page. `AllocError` where there is no memory for it.
    pub fn new(alloc: Global) -> Result<Page, AllocError>
        ensures { IfOk result (λ page. page ≡ []) }
    {
        let block = Vec::with_capacity(alloc, PAGE_SIZE)?;
        Ok(Page { block })
    }

    /// The bytes.
    pub fn as_slice(&self) -> &[u8]
        ensures { result.now ≡ self.now }
    {
        self.block.as_slice()
    }

    /// How many bytes there are.
    pub fn len(&self) -> usize
        ensures { result ≡ length self.now }
    {
        self.block.len()
    }

    /// Empties the page.
    pub fn clear(&mut self)
        ensures { self.new ≡ [] }
    {
        self.block.clear();
    }

    /// Appends bytes for which there is room.
    pub fn put(&mut self, bytes: &[u8])
        requires { length self.old + length bytes.now ≤ PAGE_SIZE }
        ensures bytes { self.new ≡ self.old ++ bytes.now }
        ensures len { length self.new ≡ length self.old + length bytes.now }
    {
        let Ok(()) = self.block.extend_from_slice(bytes) else {
            unreachable!()
        };
    }

    /// Appends a decimal number, which takes no more than 40 bytes.
    pub fn put_number(&mut self, number: u64)
        requires { length self.old + 40 ≤ PAGE_SIZE }
        ensures bytes { self.new ≡ self.old ++ decimal number }
        ensures len { length self.new ≤ length self.old + 40 }
    {
        let mut buffer = Buffer::new();
        self.put(buffer.format(number).as_bytes());
    }

    /// Appends two digits for each byte, 0 to 9 and a to f.
    pub fn put_digits(&mut self, bytes: &[u8])
        requires { length self.old + 2 * length bytes.now ≤ PAGE_SIZE }
        ensures bytes { self.new ≡ self.old ++ encode_lower bytes.now }
        ensures len { length self.new ≡ length self.old + 2 * length bytes.now }
    {
        let start = self.len();
        let Ok(()) = self.block.resize(start + 2 * bytes.len(), 0) else {
            unreachable!()
        };
        let Ok(()) = hex::encode_to_slice(bytes, &mut self.block[start..]) else {
            unreachable!()
        };
    }

    /// Writes what is on the page, and empties it. `WriteFailed`: the writer failed in this call, and took a beginning of the
    /// page that is not all of it.
    pub fn write_out<W: Write>(&mut self, writer: &mut Tally<W>) -> Result<(), WriteFailed>
        ensures empty { OnOk result (self.new ≡ []) }
        ensures ok { OnOk result (HandsOver self.old self.new (W.contents (tally_lent writer.old)) (W.contents (tally_lent writer.new))) }
        ensures err { OnErr result (AppendsBeginning (W.contents (tally_lent writer.old)) (W.contents (tally_lent writer.new)) self.old) }
        ensures faults { OnOk result (tally_faults writer.new ≡ tally_faults writer.old) }
        ensures counted { OnErr result (CountedFault (tally_faults writer.old) (tally_faults writer.new)) }
    {
        match write_whole(writer, self.block.as_slice()) {
            Ok(()) => {
                self.block.clear();
                Ok(())
            }
            Err(failed) => Err(failed),
        }
    }

    /// Writes what is on the page where there is no room for so many bytes after it, and empties it then. `WriteFailed` as for
    /// [`write_out`](Page::write_out).
    pub fn make_room<W: Write>(
        &mut self,
        room: usize,
        writer: &mut Tally<W>,
    ) -> Result<(), WriteFailed>
        requires { room ≤ PAGE_SIZE }
        ensures room { OnOk result (length self.new + room ≤ PAGE_SIZE) }
        ensures ok { OnOk result (HandsOver self.old self.new (W.contents (tally_lent writer.old)) (W.contents (tally_lent writer.new))) }
        ensures err { OnErr result (AppendsBeginning (W.contents (tally_lent writer.old)) (W.contents (tally_lent writer.new)) self.old) }
        ensures faults { OnOk result (tally_faults writer.new ≡ tally_faults writer.old) }
        ensures counted { OnErr result (CountedFault (tally_faults writer.old) (tally_faults writer.new)) }
    {
        if self.len() > PAGE_SIZE - room {
            return self.write_out(writer);
        }
        Ok(())
    }
}
