ghost use Rattle.std.specs.Prelude.{◌≡◌, ℕ, ◌<◌, ◌≤◌, false, List, [], ◌++◌, length, take, drop, IfOk, IsTrue, option_map};
ghost use Rattle.std.specs.Io.{ReadsAtMost};
ghost use Rattle.std.specs.Io.KnownBytes.{Consumes, IsAtEnd, Keeps, ReadConsumes};
ghost use Rattle.edited.specs.Edited.{edited};
ghost use Rattle.edited.specs.Reader.{edited_on, edited_remaining};
ghost use Rattle.edited.specs.inner.Reading.{IsFront, Turns};

use crate::ahead::{Ahead, give_front};
use crate::change::Change;
use crate::lines::reach;
use std::alloc::{AllocError, Global};
use std::io::{self, Read};

/// Reads a text with changes of its lines.
///
/// It asks the reader that it was lent for blocks, and takes memory only when it is made. A failed read is passed on, and no byte is
/// lost by it: the next call goes on from there.
#[derive(Drop)]
pub struct EditedReader<R> {
    inner: R,
    ahead: Ahead,
    left: Left,
}

// What is left of the change at hand, with how much of its bytes was given, and the later changes.
#[derive(Drop)]
struct Left {
    passed: u64,
    put: Vec<u8>,
    given: usize,
    dropped: u64,
    later: Vec<Change>,
}

impl Left {
    // Gives the next bytes that are put in.
    fn give(&mut self, buf: &mut [u8]) -> usize
        requires some { self.old.given < length self.old.put.items }
        requires room { 0 < length buf.old }
        ensures count { (0 < result) × IsFront result buf.new }
        ensures bytes { drop self.old.given self.old.put.items ≡ take result buf.new ++ drop self.new.given self.old.put.items }
        ensures same { self.new ≡ record self.old { given = self.new.given } }
    {
        let count = give_front(&self.put[self.given..], buf);
        self.given += count;
        count
    }

    // Goes on to the next change, where nothing is left of the one at hand.
    fn begin_next(&mut self)
        requires { 0 < length self.old.later.items }
        ensures { (text : List ℕ) → edited_on self.new text ≡ edited self.old.later.items text }
    {
        let Change {
            passed,
            put,
            dropped,
        } = self.later.remove(0);
        self.passed = passed;
        self.put = put;
        self.given = 0;
        self.dropped = dropped;
    }
}

impl<R: Read + Drop> EditedReader<R> {
    /// Lends a reader at the beginning of its text, with the changes to make. `AllocError` where there is no memory for a block.
    pub fn new(alloc: Global, changes: Vec<Change>, inner: R) -> Result<EditedReader<R>, AllocError>
        ensures { IfOk result (λ reader. edited_remaining R.remaining reader ≡ option_map (edited changes.items) (R.remaining inner)) }
    {
        let ahead = Ahead::new(alloc)?;
        Ok(EditedReader {
            inner,
            ahead,
            left: Left {
                passed: 0,
                put: Vec::new(alloc),
                given: 0,
                dropped: 0,
                later: changes,
            },
        })
    }
}

impl<R: Read> EditedReader<R> {
    // Whether a byte of the text is to come, and has been read ahead.
    fn look_ahead(&mut self) -> io::Result<bool>
        ensures same { self.new.left ≡ self.old.left }
        ensures kept { Keeps (edited_remaining R.remaining self.old) (edited_remaining R.remaining self.new) }
        ensures some { IfOk result (λ more. IsTrue more → 0 < length self.new.ahead) }
        ensures none { IfOk result (λ more. more ≡ false → (self.new.ahead ≡ []) × IsAtEnd (R.remaining self.new.inner)) }
    {
        if !self.ahead.as_slice().is_empty() {
            return Ok(true);
        }
        match self.ahead.fill(&mut self.inner) {
            Ok(more) => Ok(more),
            Err(error) => Err(error),
        }
    }

    // Gives bytes that were read ahead, of the lines that pass.
    fn give_lines(&mut self, buf: &mut [u8]) -> usize
        requires passed { 0 < self.old.left.passed }
        requires some { 0 < length self.old.ahead }
        requires room { 0 < length buf.old }
        ensures count { (0 < result) × IsFront result buf.new }
        ensures bytes { Consumes (edited_remaining R.remaining self.old) (edited_remaining R.remaining self.new) (take result buf.new) }
    {
        let unread = self.ahead.as_slice();
        let most = unread.len().min(buf.len());
        let (len, left) = reach(&unread[..most], self.left.passed);
        self.ahead.give(buf, len);
        self.left.passed = left;
        len
    }

    // Leaves bytes out that were read ahead, of the lines that are dropped.
    fn drop_lines(&mut self)
        requires passed { self.old.left.passed ≡ 0 }
        ensures { Keeps (edited_remaining R.remaining self.old) (edited_remaining R.remaining self.new) }
    {
        let (len, left) = reach(self.ahead.as_slice(), self.left.dropped);
        self.ahead.skip(len);
        self.left.dropped = left;
    }

    // Gives what comes after all changes.
    fn give_rest(&mut self, buf: &mut [u8]) -> io::Result<usize>
        requires room { 0 < length buf.old }
        requires passed { self.old.left.passed ≡ 0 }
        requires given { length self.old.left.put.items ≤ self.old.left.given }
        requires dropped { self.old.left.dropped ≡ 0 }
        requires last { self.old.left.later.items ≡ [] }
        ensures bound { ReadsAtMost result buf.new }
        ensures bytes { ReadConsumes (edited_remaining R.remaining self.old)
            (edited_remaining R.remaining self.new) result buf.new }
    {
        let ready = self.ahead.as_slice().len();
        if ready > 0 {
            let len = ready.min(buf.len());
            self.ahead.give(buf, len);
            return Ok(len);
        }
        match self.inner.read(buf) {
            Ok(count) => Ok(count),
            Err(error) => Err(error),
        }
    }

    // Gives bytes, or else goes on by a step that gives none.
    fn turn(&mut self, buf: &mut [u8]) -> io::Result<Option<usize>>
        requires { 0 < length buf.old }
        ensures { Turns (edited_remaining R.remaining self.old)
            (edited_remaining R.remaining self.new) result buf.new }
    {
        if self.left.passed > 0 {
            match self.look_ahead() {
                Ok(true) => return Ok(Some(self.give_lines(buf))),
                Ok(false) => {
                    self.left.passed = 0;
                    return Ok(None);
                }
                Err(error) => return Err(error),
            }
        }
        if self.left.given < self.left.put.len() {
            return Ok(Some(self.left.give(buf)));
        }
        if self.left.dropped > 0 {
            match self.look_ahead() {
                Ok(true) => {
                    self.drop_lines();
                    return Ok(None);
                }
                Ok(false) => {
                    self.left.dropped = 0;
                    return Ok(None);
                }
                Err(error) => return Err(error),
            }
        }
        if !self.left.later.is_empty() {
            self.left.begin_next();
            return Ok(None);
        }
        match self.give_rest(buf) {
            Ok(count) => Ok(Some(count)),
            Err(error) => Err(error),
        }
    }
}

impl<R: Read> Read for EditedReader<R> {
    ghost remaining = { edited_remaining R.remaining };

    fn read(&mut self, buf: &mut [u8]) -> io::Result<usize>
        ensures bound { ReadsAtMost result buf.new }
        ensures bytes { ReadConsumes (edited_remaining R.remaining self.old)
            (edited_remaining R.remaining self.new) result buf.new }
    {
        if buf.is_empty() {
            return Ok(0);
        }
        for _ in 0..u64::MAX {
            match self.turn(buf) {
                Ok(Some(count)) => return Ok(count),
                Ok(None) => {}
                Err(error) => return Err(error),
            }
        }
        Err(io::Error::from(io::ErrorKind::Interrupted))
    }
}
