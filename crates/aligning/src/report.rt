//! What is told of an alignment: how many receipts got units, where another unit would do as well, and where there is none.

ghost use Rattle.std.specs.Prelude.{◌≤◌, length};
ghost use Rattle.capture.specs.declared.limit.TheConstants.{MAX_RECORDS};
ghost use Rattle.capture.specs.Range.{IsCapture};

use crate::choice::{choose, fits, is_damaged};
use crate::whole::Whole;
use capture_record::Record;
use std::alloc::{AllocError, Global};

/// Something to be told of a receipt, which is this record of its capture, counted from 0.
#[derive(Clone, Copy, Drop, PartialEq, Eq)]
pub enum Note {
    /// It got this unit, and so many of the units after it that no receipt got would have done as well.
    Chosen { place: u64, unit: u64, others: u64 },
    /// No unit from this one on has its bytes. Nor have the later receipts units.
    NoUnit { place: u64, unit: u64 },
}

/// What is told of the alignment of one capture.
#[derive(Drop)]
pub struct Report {
    /// How many receipts it has.
    pub receipts: u64,
    /// How many of them got a unit.
    pub found: u64,
    /// In the order of the receipts.
    pub notes: Vec<Note>,
}

// The receipt that got a unit last.
#[derive(Clone, Copy)]
struct Last<'r> {
    place: u64,
    unit: u64,
    bytes: &'r [u8],
}

impl<'r> Last<'r> {
    // How many of these units, which no receipt got, it may have been too.
    fn others(&self, passed: &[Record]) -> u64 {
        let damaged = is_damaged(self.bytes);
        let mut count = 0u64;
        for record in passed {
            if let Record::Sent(bytes) = record {
                if fits(damaged, self.bytes, bytes.as_slice()) {
                    count = count.saturating_add(1);
                }
            }
        }
        count
    }
}

impl Report {
    // Tells of the last receipt that got a unit, once it is known which units after it no receipt got.
    fn tell(&mut self, last: Option<Last<'_>>, passed: &[Record]) -> Result<(), AllocError> {
        let Some(last) = last else {
            return Ok(());
        };
        let others = last.others(passed);
        if others == 0 {
            return Ok(());
        }
        self.notes.push(Note::Chosen {
            place: last.place,
            unit: last.unit,
            others,
        })?;
        Ok(())
    }
}

/// What is told of the alignment of this capture, as `aligned_text` writes it. Each record is looked at twice at most. Fails for want of memory
/// alone.
pub fn told_of(alloc: Global, capture: &Whole, other: &[Record]) -> Result<Report, AllocError>
    requires few { length other.now ≤ MAX_RECORDS }
    requires fits { IsCapture capture.now.own capture.now.peer capture.now.records.items }
{
    let mut told = Report {
        receipts: 0,
        found: 0,
        notes: Vec::new(alloc),
    };
    let mut rest = other;
    let mut last = None;
    let mut place = 0u64;
    let mut next = 0u64;
    for record in &capture.records {
        if let Record::Received { bytes, .. } = record {
            told.receipts = told.receipts.saturating_add(1);
            let choice = choose(rest, next, bytes.as_slice());
            if choice.is_found {
                let passed = rest.len() - choice.rest.len();
                told.tell(last, &rest[..passed - 1])?;
                told.found = told.found.saturating_add(1);
                last = Some(Last {
                    place,
                    unit: choice.unit,
                    bytes: bytes.as_slice(),
                });
            } else if told.found.saturating_add(1) == told.receipts {
                told.tell(last, rest)?;
                told.notes.push(Note::NoUnit { place, unit: next })?;
                last = None;
            }
            rest = choice.rest;
            next = choice.unit + 1;
        }
        place = place.saturating_add(1);
    }
    told.tell(last, rest)?;
    Ok(told)
}
