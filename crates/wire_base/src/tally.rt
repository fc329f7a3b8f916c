ghost use Rattle.std.specs.Prelude.{◌≡◌, true, is_err, OnOk, OnErr, Some, codes};
ghost use Rattle.std.specs.Io.{ReadsAtMost, WritesAtMost};
ghost use Rattle.std.specs.Io.KnownBytes.{Appends, Keeps, ReadConsumes, WriteAppends};
ghost use Rattle.wire_base.specs.Tally.{AppendsBeginning, CountedFault, faults_after, tally_faults, tally_lent, write_failed};

use std::io::{self, Read, Write};
use std::{error, fmt};

/// A reader or writer that is lent, with the count of its calls that failed.
///
/// Each call of `read`, `write` and `flush` is passed on as it is, and counts as failed where it answers an error, an
/// interrupted call among them, or where a `write` takes no byte of a piece that has some. At `u64::MAX` the count stays.
/// The count is known of direct calls alone: what the library builds from them, as `write_all` or `read_to_end`, tries an
/// interrupted call again and does not say how often.
#[derive(Drop)]
pub struct Tally<T> {
    lent: T,
    faults: u64,
}

impl<T> Tally<T> {
    /// Lends a reader or writer whose calls are to be counted. No call has failed yet. Takes no memory.
    pub fn new(lent: T) -> Self
        ensures lent { tally_lent result ≡ lent }
        ensures faults { tally_faults result ≡ 0 }
    {
        Tally { lent, faults: 0 }
    }

    /// How many calls failed so far; at `u64::MAX` the count stays. Takes no memory.
    pub fn faults(&self) -> u64
        ensures { result ≡ tally_faults self.now }
    {
        self.faults
    }

    /// Counts one failed call.
    fn count_fault(&mut self)
        ensures lent { tally_lent self.new ≡ tally_lent self.old }
        ensures faults { tally_faults self.new ≡ faults_after (tally_faults self.old) true }
        ensures counted { CountedFault (tally_faults self.old) (tally_faults self.new) }
    {
        self.faults = self.faults.saturating_add(1);
    }

    /// Gives the reader or writer back.
    pub fn into_inner(self) -> T
        ensures { result ≡ tally_lent self }
    {
        let Tally { lent, faults: _ } = self;
        lent
    }
}

impl<R: Read> Read for Tally<R> {
    ghost remaining = { λ tally. R.remaining tally.lent };

    fn read(&mut self, buf: &mut [u8]) -> io::Result<usize>
        ensures bound { ReadsAtMost result buf.new }
        ensures bytes { ReadConsumes (R.remaining (tally_lent self.old))
            (R.remaining (tally_lent self.new)) result buf.new }
        ensures faults { tally_faults self.new ≡ faults_after (tally_faults self.old) (is_err result) }
        ensures counted { OnErr result (CountedFault (tally_faults self.old) (tally_faults self.new)) }
    {
        match self.lent.read(buf) {
            Ok(count) => Ok(count),
            Err(error) => {
                self.count_fault();
                Err(error)
            }
        }
    }
}

impl<W: Write> Write for Tally<W> {
    ghost contents = { λ tally. W.contents tally.lent };

    fn write(&mut self, buf: &[u8]) -> io::Result<usize>
        ensures bound { WritesAtMost result buf.now }
        ensures bytes { WriteAppends (W.contents (tally_lent self.old))
            (W.contents (tally_lent self.new)) result buf.now }
        ensures faults { tally_faults self.new
            ≡ faults_after (tally_faults self.old) (write_failed result buf.now) }
        ensures counted { OnErr result (CountedFault (tally_faults self.old) (tally_faults self.new)) }
    {
        match self.lent.write(buf) {
            Ok(0) if !buf.is_empty() => {
                self.count_fault();
                Ok(0)
            }
            Ok(count) => Ok(count),
            Err(error) => {
                self.count_fault();
                Err(error)
            }
        }
    }

    fn flush(&mut self) -> io::Result<()>
        ensures bytes { Keeps (W.contents (tally_lent self.old)) (W.contents (tally_lent self.new)) }
        ensures faults { tally_faults self.new ≡ faults_after (tally_faults self.old) (is_err result) }
        ensures counted { OnErr result (CountedFault (tally_faults self.old) (tally_faults self.new)) }
    {
        match self.lent.flush() {
            Ok(()) => Ok(()),
            Err(error) => {
                self.count_fault();
                Err(error)
            }
        }
    }
}

/// A write failed before the whole piece was taken.
#[derive(Clone, Copy, Debug, PartialEq, Eq)]
pub struct WriteFailed;

impl fmt::Display for WriteFailed {
    ghost output = { λ _. Some (codes "the write failed") };

    fn fmt<W: fmt::Write>(&self, f: &mut fmt::Formatter<W>) -> fmt::Result {
        f.write_str("the write failed")
    }
}

impl error::Error for WriteFailed {}

/// Writes a whole piece by direct calls of `write`, as many as the writer needs. An interrupted call is not tried again.
///
/// `Ok`: the writer took exactly the piece, and no call failed. `WriteFailed`: one call failed and was counted, and the
/// writer took a beginning of the piece that is not all of it. An empty piece makes no call. Takes no memory.
pub fn write_whole<W: Write>(writer: &mut Tally<W>, piece: &[u8]) -> Result<(), WriteFailed>
    ensures ok { OnOk result (Appends (W.contents (tally_lent writer.old))
        (W.contents (tally_lent writer.new)) piece.now) }
    ensures err { OnErr result (AppendsBeginning (W.contents (tally_lent writer.old))
        (W.contents (tally_lent writer.new)) piece.now) }
    ensures faults { tally_faults writer.new ≡ faults_after (tally_faults writer.old) (is_err result) }
    ensures counted { OnErr result (CountedFault (tally_faults writer.old) (tally_faults writer.new)) }
{
    let mut taken = 0;
    while taken < piece.len() {
        match writer.write(&piece[taken..]) {
            Ok(0) => return Err(WriteFailed),
            Ok(count) => taken += count,
            Err(_) => return Err(WriteFailed),
        }
    }
    Ok(())
}
