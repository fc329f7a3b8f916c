//! Which small edits are judged, in which order, and how many: where the captures are so large that not all of them are, the nearest to the refused
//! record come first.

ghost use Rattle.std.specs.Prelude.{◌≡◌, ◌<◌, ◌≤◌, ◌/◌, OnOk};
ghost use Rattle.std.specs.List.Sorted.{IsPermutation, IsNonDecreasingBy};
ghost use Rattle.why_answer.specs.declared.trying.TheConstants.{LONG_LINE, MOST_OF_LONG, MOST_OF_SHORT};
ghost use Rattle.why_answer.specs.inner.Trying.{line_at, lines_away};

use crate::both_near::ToTry;
use crate::judged_again::{PairChanges, bytes_read, is_run_again};
use crate::recorder::Tried;
use crate::unit_changes::is_sent_at_another_time;
use edited::{Edit, MistakeOf};
use pair_judge::JudgedEnds;
use printing::layers::Layers;
use std::alloc::{AllocError, Global};
use std::io::{Read, Seek};
use wire_base::Side;

/// How many bytes are read at most while edits are judged: about two seconds' work.
const MOST_OF_LONG: u64 = 2_000_000_000;

/// The same where lines are short, of which each takes its time beside its bytes.
const MOST_OF_SHORT: u64 = 300_000_000;

/// Lines that have fewer bytes than this on average are short.
const LONG_LINE: u64 = 400;

/// The lines of both captures to which their sides come next, counted from 1.
#[derive(Clone, Copy)]
pub struct Places {
    pub a: u64,
    pub b: u64,
}

/// How many bytes are read before no further edit is judged, where both captures have so many records and bytes.
pub fn most_bytes(records: u64, bytes: u64) -> u64
    ensures short { bytes / LONG_LINE < records → result ≡ MOST_OF_SHORT }
    ensures long { records ≤ bytes / LONG_LINE → result ≡ MOST_OF_LONG }
{
    if bytes / LONG_LINE < records {
        return MOST_OF_SHORT;
    }
    MOST_OF_LONG
}

/// Puts the edits in order by how many lines they are away from the one to which their side comes next; those that are as near stay in their order.
/// `Err`: there is no memory for that, and they stay as they are.
pub fn put_nearest_first(edits: &mut Vec<Edit>, places: Places) -> Result<(), AllocError>
    ensures same { IsPermutation edits.old.items edits.new.items }
    ensures sorted { OnOk result (IsNonDecreasingBy (λ edit. lines_away places edit.of) edits.new.items) }
{
    edits.sort_by_key(|edit| lines_between(places, edit.of))?;
    Ok(())
}

// How many lines an edit is away from the line to which its side comes next.
fn lines_between(places: Places, of: MistakeOf) -> u64
    ensures { result ≡ lines_away places of }
{
    of.mistake.line().abs_diff(places.of(of.side))
}

impl Places {
    // The line to which this side comes next.
    fn of(self, side: Side) -> u64
        ensures { result ≡ line_at self side }
    {
        match side {
            Side::A => self.a,
            Side::B => self.b,
        }
    }
}

/// Judges the pair under these edits, and where one makes it a run, under the changes of the refused unit.
pub fn try_all<A: Read + Seek, B: Read + Seek>(
    alloc: Global,
    layers: Layers,
    a: &mut A,
    b: &mut B,
    ends: &JudgedEnds,
    to_try: ToTry,
    tried: &mut Tried,
) -> Result<(), AllocError> {
    let ToTry {
        edits,
        units,
        limit,
    } = to_try;
    try_each(alloc, layers, a, b, ends, (edits, limit), tried)?;
    if tried.failed.is_none() && tried.counts.accepted > 0 && !tried.unit_as_well {
        return try_units(alloc, layers, a, b, units, tried);
    }
    Ok(())
}

// Whether the pair is a run under one of these changes of a unit. Where a file can't be read again, nobody knows, and it may be.
fn try_units<A: Read + Seek, B: Read + Seek>(
    alloc: Global,
    layers: Layers,
    a: &mut A,
    b: &mut B,
    units: Vec<PairChanges>,
    tried: &mut Tried,
) -> Result<(), AllocError> {
    for changes in units {
        let is_run = is_run_again(alloc, layers, a, b, changes);
        if let Ok(Some(false)) = is_run {
            continue;
        }
        tried.unit_as_well = true;
        return match is_run {
            Ok(_) => Ok(()),
            Err(fault) => tried.stop(fault),
        };
    }
    Ok(())
}

// Judges the pair under one edit after another. None is begun once so many bytes were read.
fn try_each<A: Read + Seek, B: Read + Seek>(
    alloc: Global,
    layers: Layers,
    a: &mut A,
    b: &mut B,
    ends: &JudgedEnds,
    bounded: (Vec<Edit>, u64),
    tried: &mut Tried,
) -> Result<(), AllocError> {
    let (edits, limit) = bounded;
    let mut read = 0u64;
    let mut left = edits.len() as u64;
    for edit in edits {
        if read >= limit {
            tried.leave(left, edit.of);
            break;
        }
        if !try_edit(alloc, layers, a, b, ends, edit, tried)? {
            break;
        }
        left = left.saturating_sub(1);
        read = read
            .saturating_add(bytes_read(a))
            .saturating_add(bytes_read(b));
    }
    Ok(())
}

// Judges the pair under this edit; whether others may be tried.
fn try_edit<A: Read + Seek, B: Read + Seek>(
    alloc: Global,
    layers: Layers,
    a: &mut A,
    b: &mut B,
    ends: &JudgedEnds,
    edit: Edit,
    tried: &mut Tried,
) -> Result<bool, AllocError> {
    let Edit { of, changes } = edit;
    let changes = PairChanges::of(of.side, changes, Vec::new(alloc));
    match is_run_again(alloc, layers, a, b, changes) {
        Ok(Some(is_run)) => {
            tried.counts.tried = tried.counts.tried.saturating_add(1);
            if is_run {
                let moves = is_sent_at_another_time(ends, of.mistake);
                tried.unit_as_well = tried.unit_as_well || moves;
                tried.add(alloc, of)?;
            }
            Ok(true)
        }
        Ok(None) => Ok(false),
        Err(fault) => {
            tried.stop(fault)?;
            Ok(false)
        }
    }
}
