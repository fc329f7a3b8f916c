//! Reading a text that lists items, item by item.

ghost use Rattle.std.specs.Prelude.{◌≡◌, ◌≤◌, ◌+◌, length, Ok, Err, None, IfOk, IfSome};
ghost use Rattle.wire_base.specs.Tally.{tally_faults, tally_lent};
ghost use Rattle.capture.specs.Faulty.{CountsReads, is_failed_read};
ghost use Rattle.capture.specs.Lines.{IsCutBehind, to_come};
ghost use Rattle.capture.specs.ListReader.{Advances, Opens, with_bytes};
ghost use Rattle.capture.specs.Reader.{WhereReadFails};
ghost use Rattle.capture.specs.inner.ListTurn.{TakesItem, in_room};

use crate::fault::{CaptureFault, LineFault};
use crate::line_reader::LineReader;
use crate::list_head::open_list;
use crate::list_item::ListItem;
use crate::phase::Phase;
use std::alloc::Global;
use std::io::Read;
use std::marker::{Model, PhantomData};
use wire_base::Tally;

/// Reads the head of a text that lists items and then these, one a call, from a reader that each call is lent, the same throughout.
///
/// It takes memory only when it is made. A reader that failed stays failed: after any fault every call answers `Failed`. After the end every call
/// answers `Ok(None)`.
#[derive(Drop)]
pub struct ListReader<I: ListItem> {
    lines: LineReader,
    node_a: u16,
    node_b: u16,
    phase: Phase,
    // The bytes of the item that `advance` read last: that many at the front of the room.
    room: Vec<u8>,
    len: usize,
    item: PhantomData<I>,
}

impl<I: ListItem> Model for ListReader<I> {
    ghost use Rattle.std.specs.Prelude.{◌-◌, take};
    ghost use Rattle.capture.specs.ListReader.{ListState};
    ghost use Rattle.capture.specs.inner.ListTurn.{IsCounted};

    ghost Value = { ListState };

    ghost view = { λ r. record {
      node_a = r.node_a;
      node_b = r.node_b;
      items = r.lines.taken - 1;
      phase = r.phase;
      unread = r.lines.unread;
      bytes = take r.len r.room.items;
    } };

    ghost invariant = { λ r. IsCounted I.form.most I.ROOM r.lines.taken r.len r.room.items };
}

// One item's turn, with its bytes at the front of the room: how many they are beside its entry.
#[inline(always)]
fn take_item<I: ListItem, R: Read>(
    lines: &mut LineReader,
    room: &mut [u8],
    reader: &mut Tally<R>,
) -> Result<Option<(I::Entry, usize)>, CaptureFault>
    requires head { 1 ≤ lines.old.taken }
    requires few { lines.old.taken ≤ I.form.most + 1 }
    requires room { length room.old ≡ I.ROOM }
    ensures takes { TakesItem I.form lines.old lines.new
        (to_come lines.old.unread (R.remaining (tally_lent reader.old)))
        (to_come lines.new.unread (R.remaining (tally_lent reader.new))) (in_room I.item room.new result) }
    ensures room { length room.new ≡ I.ROOM }
    ensures len { IfOk result (λ taken. IfSome taken (λ item. item.1 ≤ I.ROOM)) }
    ensures memory { result ≡ Err CaptureFault.OutOfMemory → ⊥ }
    ensures reads { CountsReads (is_failed_read result) (tally_faults reader.old) (tally_faults reader.new) }
{
    let most = I::most();
    let number = lines.taken() + 1;
    match lines.next(most + 1, reader) {
        Ok(Some(len)) => match I::read(lines.line(len), room) {
            Ok(item) => {
                lines.skip(len);
                Ok(Some(item))
            }
            Err(kind) => Err(CaptureFault::Departs { kind, line: number }),
        },
        Ok(None) => Ok(None),
        Err(LineFault::Departs(kind)) => Err(CaptureFault::Departs { kind, line: number }),
        Err(LineFault::Read) => Err(CaptureFault::Read),
    }
}

impl<I: ListItem> ListReader<I> {
    /// Reads the head: its first words, and then the addresses of both nodes.
    ///
    /// Faults, after which the reader has given what was read ahead: `Departs` at line 1, with `TooLong` where more than 131,081 bytes come before
    /// the first LF or the end, and with `Syntax` where the first line has no LF, as in an empty text, or is no head; `Read` where a call of the
    /// reader failed, and at any other answer its count of them is as it was; `OutOfMemory` where there is no memory for the reader's block or for
    /// its room for bytes. Where a read failed the reader had given no whole line.
    pub fn open<R: Read>(
        alloc: Global,
        reader: &mut Tally<R>,
    ) -> Result<ListReader<I>, CaptureFault>
        ensures opens { Opens I.form.first_words (R.remaining (tally_lent reader.old)) (R.remaining (tally_lent reader.new)) result }
        ensures cut { WhereReadFails (is_failed_read result)
            (IsCutBehind (R.remaining (tally_lent reader.old)) (R.remaining (tally_lent reader.new))) }
        ensures reads { CountsReads (is_failed_read result) (tally_faults reader.old) (tally_faults reader.new) }
    {
        match open_list(alloc, I::first_words(), reader) {
            Ok((lines, node_a, node_b)) => {
                let Ok(room) = vec![in alloc; 0u8; I::ROOM] else {
                    return Err(CaptureFault::OutOfMemory);
                };
                Ok(ListReader {
                    lines,
                    node_a,
                    node_b,
                    phase: Phase::Reading,
                    room,
                    len: 0,
                    item: PhantomData,
                })
            }
            Err(fault) => Err(fault),
        }
    }

    /// The address of node a. Takes no memory.
    pub fn node_a(&self) -> u16
        ensures { result ≡ self.now.node_a }
    {
        self.node_a
    }

    /// The address of node b. Takes no memory.
    pub fn node_b(&self) -> u16
        ensures { result ≡ self.now.node_b }
    {
        self.node_b
    }

    /// How many items were read. The last of them is on the line whose number is one more. Takes no memory.
    pub fn items(&self) -> u64
        ensures { result ≡ self.now.items }
    {
        self.lines.taken() - 1
    }

    /// The bytes of the item that `advance` read last, until the next call; none before the first. Takes no memory.
    pub fn bytes(&self) -> &[u8]
        ensures { result.now ≡ self.now.bytes }
    {
        &self.room[..self.len]
    }

    /// Reads the next item and answers its entry, or finds that none is left; `bytes` lends its bytes until the next call. Takes no memory, and so
    /// never answers `OutOfMemory`.
    ///
    /// Item i, counted from 0, is on line i + 2. `Departs` names that line, with the first of these kinds: `TooMany` after as many items as a
    /// text may have, whatever the line holds; `TooLong` at more than 131,081 bytes before its LF or the end; `Syntax` where it has no LF; and then
    /// as an item's line departs. `Read` comes where a call of the reader failed, after a piece of a line; at any other answer its count of them
    /// is as it was.
    #[inline(always)]
    pub fn advance<R: Read>(
        &mut self,
        reader: &mut Tally<R>,
    ) -> Result<Option<I::Entry>, CaptureFault>
        ensures advances { self.old.phase ≡ Phase.Reading → Advances I.form self.old self.new
            (to_come self.old.unread (R.remaining (tally_lent reader.old)))
            (to_come self.new.unread (R.remaining (tally_lent reader.new))) (with_bytes I.item self.new.bytes result) }
        ensures cut { self.old.phase ≡ Phase.Reading → WhereReadFails (is_failed_read result)
            (IsCutBehind (to_come self.old.unread (R.remaining (tally_lent reader.old))) (R.remaining (tally_lent reader.new))) }
        ensures ended { self.old.phase ≡ Phase.Ended → (result ≡ Ok None) × (self.new ≡ self.old) }
        ensures failed { self.old.phase ≡ Phase.Failed → (result ≡ Err CaptureFault.Failed) × (self.new ≡ self.old) }
        ensures head { (self.new.node_a ≡ self.old.node_a) × (self.new.node_b ≡ self.old.node_b) }
        ensures memory { result ≡ Err CaptureFault.OutOfMemory → ⊥ }
        ensures reads { CountsReads (is_failed_read result) (tally_faults reader.old) (tally_faults reader.new) }
    {
        match self.phase {
            Phase::Reading => {}
            Phase::Ended => return Ok(None),
            Phase::Failed => return Err(CaptureFault::Failed),
        }
        match take_item::<I, R>(&mut self.lines, &mut self.room, reader) {
            Ok(Some((entry, len))) => {
                self.len = len;
                Ok(Some(entry))
            }
            Ok(None) => {
                self.phase = Phase::Ended;
                Ok(None)
            }
            Err(fault) => {
                self.phase = Phase::Failed;
                Err(fault)
            }
        }
    }
}
