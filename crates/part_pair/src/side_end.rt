//! One side, as far as its records were made: its end, and the line that leads to it.

ghost use Rattle.std.specs.Prelude.{◌≡◌, ◌+◌, ◌-◌, ◌≤◌, ◌||◌, IfOk, OnOk, drop, length, slice_get, []};
ghost use Rattle.std.specs.Str.{bytes_eq};
ghost use Rattle.capture_record.specs.Entries.{record_with};
ghost use Rattle.capture_record.specs.Range.{NumbersFit};
ghost use Rattle.capture_record.specs.declared.limit.TheConstants.{MAX_HINT};
ghost use Rattle.capture_record.specs.declared.record.Record.TheVariants as Record;
ghost use Rattle.pair_judge.specs.Counting.{shows_damage};
ghost use Rattle.pair_judge.specs.Summary.{counts_of};
ghost use Rattle.ddcmp_msg.specs.Reading.{reading};
ghost use Rattle.part_judge.specs.Ends.{HasRoomInPart, HintIsLow, node_of_end};
ghost use Rattle.part_judge.specs.Steps.{step_in_part};
ghost use Rattle.part_pair.specs.Sides as specs;
ghost use Rattle.part_pair.specs.Sides.{after_step, first_number, first_side, found, number_of, receipt_step, step_in_pair, unit_found, with_record};
ghost use Rattle.part_pair.specs.inner.Ends.{FoundIsWithin, MadeInPairIs, found_view, side_of};

use crate::facing::Facing;
use crate::found::Found;
use capture_record::{Entry, Fate};
use ddcmp_msg::{Reading, read_unit};
use dna_station::StepRefusal;
use part_judge::{MadeInPart, PartEnd};
use std::alloc::{AllocError, Global};
use std::collections::VecDeque;
use wire_base::Copied;

/// One side: whether its capture is a part, its end, the other side's units that may still come, and the first of its records that was made as that
/// of one end alone.
#[derive(Drop)]
pub struct SideEnd {
    pub is_part: bool,
    pub end: PartEnd,
    pub coming: VecDeque<Copied>,
    pub alone_from: Option<u64>,
}

/// What became of a record.
#[derive(Clone, Copy)]
pub enum MadeInPair {
    /// It was made.
    Goes,
    /// It waits for its unit. Nothing changed.
    Waits,
    /// It can't be made.
    Stops(StepRefusal),
}

impl SideEnd {
    /// Before any record. `AllocError`: there is no memory for what its station keeps.
    pub fn new(alloc: Global, is_part: bool) -> Result<SideEnd, AllocError>
        ensures side { IfOk result (λ side. side_of side ≡ first_side is_part) }
        ensures counts { IfOk result (λ side. side.end.counts ≡ counts_of []) }
    {
        let coming = VecDeque::new(alloc);
        if is_part {
            return Ok(SideEnd {
                is_part: true,
                end: PartEnd::new(alloc)?,
                coming,
                alone_from: None,
            });
        }
        Ok(SideEnd {
            is_part: false,
            end: PartEnd::halted(alloc)?,
            coming,
            alone_from: None,
        })
    }

    /// Makes the record of this entry and these bytes, or finds that it waits, or why it can't be made. `AllocError`: there is no memory for a packet
    /// that it sends.
    pub fn make(
        &mut self,
        facing: Facing,
        entry: Entry,
        bytes: &[u8],
    ) -> Result<MadeInPair, AllocError>
        requires room { HasRoomInPart self.old.end }
        requires numbers { NumbersFit (record_with entry bytes.now) }
        ensures { IfOk result (λ made. MadeInPairIs made self.old self.new (record_with entry bytes.now)
            (step_in_pair (side_of self.old) facing (record_with entry bytes.now))) }
    {
        match entry {
            Entry::Received { fate, hint } => self.receive(facing, hint, fate, bytes),
            Entry::Sent | Entry::Noise => self.make_at_end(entry, bytes),
            Entry::Start | Entry::Halt | Entry::Boot => self.make_at_end(entry, bytes),
            Entry::Open { .. } | Entry::Accept { .. } | Entry::Reject { .. } => {
                self.make_at_end(entry, bytes)
            }
            Entry::In { .. } | Entry::Up { .. } | Entry::Close { .. } => {
                self.make_at_end(entry, bytes)
            }
            Entry::Abort { .. } | Entry::Composed => self.make_at_end(entry, bytes),
            Entry::Interrupt { .. } | Entry::Interrupted { .. } => self.make_at_end(entry, bytes),
        }
    }

    // Makes a record as one end alone does.
    fn make_at_end(&mut self, entry: Entry, bytes: &[u8]) -> Result<MadeInPair, AllocError>
        requires room { HasRoomInPart self.old.end }
        requires hint { HintIsLow (record_with entry bytes.now) }
        ensures { IfOk result (λ made. MadeInPairIs made self.old self.new (record_with entry bytes.now)
            (after_step (side_of self.old) self.old.coming.items self.old.alone_from
            (step_in_part (node_of_end self.old.end) (record_with entry bytes.now)))) }
    {
        match self.end.make(entry, bytes) {
            Ok(MadeInPart::Done) => Ok(MadeInPair::Goes),
            Ok(
                MadeInPart::Fails {
                    accused: _,
                    refusal,
                },
            ) => Ok(MadeInPair::Stops(refusal)),
            Err(AllocError) => Err(AllocError),
        }
    }

    fn receive(
        &mut self,
        facing: Facing,
        hint: u64,
        fate: Fate,
        bytes: &[u8],
    ) -> Result<MadeInPair, AllocError>
        requires room { HasRoomInPart self.old.end }
        requires hint { hint ≤ MAX_HINT }
        ensures { IfOk result (λ made. MadeInPairIs made self.old self.new (Record.Received hint fate bytes.now)
            (step_in_pair (side_of self.old) facing (Record.Received hint fate bytes.now))) }
    {
        let number = self.number_of(hint);
        let found = self.found(facing, number, bytes);
        self.receive_as(found, number, fate, bytes)
    }

    // Receives a unit that was found so.
    fn receive_as(
        &mut self,
        found: Found,
        number: u64,
        fate: Fate,
        bytes: &[u8],
    ) -> Result<MadeInPair, AllocError>
        requires room { HasRoomInPart self.old.end }
        requires number { number ≤ MAX_HINT + 1 }
        requires within { FoundIsWithin found self.old }
        ensures { IfOk result (λ made. MadeInPairIs made self.old self.new (Record.Received number fate bytes.now)
            (receipt_step (side_of self.old) (Record.Received number fate bytes.now) (found_view found self.old))) }
    {
        let entry = Entry::Received { fate, hint: number };
        match found {
            Found::Comes { gone } => {
                drop_front(&mut self.coming, gone);
                self.make_at_end(entry, bytes)
            }
            Found::ComesFromBehind => {
                self.coming.clear();
                self.alone_from = or_first(self.alone_from, self.end.counts.records);
                self.make_at_end(entry, bytes)
            }
            Found::IsToCome => Ok(MadeInPair::Waits),
            Found::CannotCome(reason) => Ok(MadeInPair::Stops(reason)),
        }
    }

    // Hints of a part are counted from 1 on as they are.
    fn number_of(&self, hint: u64) -> u64
        requires { hint ≤ MAX_HINT }
        ensures number { result ≡ number_of (side_of self.now) hint }
        ensures low { result ≤ MAX_HINT + 1 }
    {
        if self.is_part { hint } else { hint + 1 }
    }

    // What the line has of the unit with this number.
    fn found(&self, facing: Facing, number: u64, bytes: &[u8]) -> Found
        requires { number ≤ MAX_HINT + 1 }
        ensures found { found_view result self.now ≡ found (side_of self.now) facing number bytes.now }
        ensures within { FoundIsWithin result self.now }
    {
        if number < self.end.front {
            return Found::CannotCome(StepRefusal::HintOrder);
        }
        if number == 0 {
            if facing.is_part {
                return Found::Comes { gone: 0 };
            }
            return Found::CannotCome(StepRefusal::HintOrder);
        }
        self.unit_found(facing, number, bytes)
    }

    fn unit_found(&self, facing: Facing, number: u64, bytes: &[u8]) -> Found
        requires { number ≤ MAX_HINT + 1 }
        ensures found { found_view result self.now ≡ unit_found (side_of self.now) facing number bytes.now
            (slice_get self.now.coming.items (number - first_number (side_of self.now))) }
        ensures within { FoundIsWithin result self.now }
    {
        let first = 1u64.max(self.end.front);
        let place = number.saturating_sub(first) as usize;
        match self.coming.get(place) {
            Some(unit) => {
                if is_unit(unit, bytes) {
                    let gone = (number + 1).saturating_sub(first) as usize;
                    return Found::Comes { gone };
                }
                Found::CannotCome(StepRefusal::Undetected)
            }
            None => {
                if facing.is_part && facing.has_ended {
                    return Found::ComesFromBehind;
                }
                Found::IsToCome
            }
        }
    }

    /// The other side made the record of this entry and these bytes: a unit that it sent may come. `AllocError`: there is no memory for a copy of it.
    pub fn tell(&mut self, alloc: Global, entry: Entry, bytes: &[u8]) -> Result<(), AllocError>
        ensures side { OnOk result (side_of self.new ≡ with_record (side_of self.old) (record_with entry bytes.now)) }
        ensures end { self.new.end ≡ self.old.end }
    {
        let Entry::Sent = entry else {
            return Ok(());
        };
        let unit = Copied::of(alloc, bytes)?;
        self.coming.reserve(1)?;
        self.coming.push_back_reserved(unit);
        Ok(())
    }
}

// Drops so many units at the front.
fn drop_front(coming: &mut VecDeque<Copied>, count: usize)
    requires { count ≤ length coming.old.items }
    ensures { coming.new.items ≡ drop count coming.old.items }
{
    coming.drain(..count);
}

// The first place, or this one.
fn or_first(earlier: Option<u64>, place: u64) -> Option<u64>
    ensures { result ≡ specs.or_first earlier place }
{
    match earlier {
        Some(earlier) => Some(earlier),
        None => Some(place),
    }
}

// What came is this unit, or damage.
fn is_unit(unit: &Copied, bytes: &[u8]) -> bool
    ensures { result ≡ (bytes_eq bytes.now unit.now || shows_damage (reading bytes.now)) }
{
    if bytes == unit.as_slice() {
        return true;
    }
    match read_unit(bytes) {
        Reading::Sound(_) => false,
        Reading::HeaderBad => true,
        Reading::DataBad => true,
        Reading::Malformed(_) => false,
    }
}
