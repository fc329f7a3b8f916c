//! The records of a capture near one of its lines.

use capture::{CaptureFault, CaptureReader, Format, HintForm, MAX_RECORDS};
use capture_record::Entry;
use edited::{Row, Stretch};
use pair_judge::JudgedEnds;
use std::alloc::{AllocError, Global};
use std::io::{Read, Seek};
use wire_base::{Side, Tally};

/// How many records in front of one are near it.
const BEFORE: u64 = 20;

/// How many records after it are near it.
const BEHIND: u64 = 8;

/// How many receipts after a record are kept at most.
const MOST_RECEIPTS: usize = 4_096;

/// How many bytes the kept receipts have at most.
const MOST_RECEIPT_BYTES: usize = 1_000_000;

/// What a capture has near the record that its side comes to next.
#[derive(Drop)]
pub struct Near {
    pub stretch: Stretch,
    /// How many records the capture has, up to a line that departs.
    pub records: u64,
    /// The hints of the receipts from that record on, as far as they are kept.
    pub hints: Vec<u64>,
    /// Whether the capture was read to its end, and these are all.
    pub has_all_hints: bool,
    /// The bytes of the unit that was asked for; `None` where none was, or it was never sent.
    pub unit: Option<Vec<u8>>,
    /// The receipt that was asked for; `None` where none was, or it never came.
    pub receipt: Option<Row>,
}

impl Near {
    /// The record that the side comes to next.
    pub fn row_ahead(&self) -> Option<&Row> {
        for row in &self.stretch.rows {
            if row.line == self.stretch.line {
                return Some(row);
            }
        }
        None
    }
}

/// What is asked for of a capture beside what is near: the unit with this number that was sent, and the receipt of the other side's unit with this
/// number, from the record on that its side comes to next.
#[derive(Clone, Copy)]
pub struct Asked {
    pub unit: Option<u64>,
    pub receipt: Option<u64>,
}

/// What is asked for of this side's capture: where the other side's record is refused, the unit that it received, or the receipt of what it sent.
pub fn what_is_asked(ends: &JudgedEnds, refused: Side, side: Side) -> Asked {
    let nothing = Asked {
        unit: None,
        receipt: None,
    };
    if refused == side {
        return nothing;
    }
    match ends.ahead(refused) {
        Some((Entry::Received { hint, .. }, _)) => Asked {
            unit: Some(hint),
            receipt: None,
        },
        Some((Entry::Sent, _)) => Asked {
            unit: None,
            receipt: Some(ends.sent(refused)),
        },
        _ => nothing,
    }
}

/// What a capture has near the record with this number, and what is asked for; `None` where the file can't be read again. `Err`: the head departs, a
/// read failed, or there is no memory for it.
pub fn near_of<R: Read + Seek>(
    alloc: Global,
    file: &mut R,
    place: u64,
    asked: Asked,
) -> Result<Option<Near>, CaptureFault> {
    if file.rewind().is_err() {
        return Ok(None);
    }
    let near = records_near(alloc, place, asked, &mut Tally::new(&mut *file))?;
    Ok(Some(near))
}

/// Reads a capture to its end, or to a line that departs, and keeps the record with this number, counted from 0, the last ones in front of it, the
/// first ones after it, the receipts after it where they are few, and what is asked for. `Err`: the head departs, a read failed, or there is no
/// memory for what is near.
pub fn records_near<R: Read>(
    alloc: Global,
    place: u64,
    asked: Asked,
    reader: &mut Tally<R>,
) -> Result<Near, CaptureFault> {
    let mut capture = CaptureReader::open(alloc, reader)?;
    let mut keeper = Keeper::new(alloc, place, asked, first_form(capture.format()));
    keeper.head = (capture.own(), capture.peer());
    let (records, has_ended) = keep_near(&mut capture, reader, &mut keeper)?;
    Ok(keeper.finish(records, has_ended))
}

// Reads this capture on; how many records it has, and whether it has ended there: else a line departs.
fn keep_near<R: Read>(
    capture: &mut CaptureReader,
    reader: &mut Tally<R>,
    keeper: &mut Keeper,
) -> Result<(u64, bool), CaptureFault> {
    for number in 0..MAX_RECORDS + 1 {
        match capture.advance(reader) {
            Ok(Some(entry)) => {
                if keeper.take(number, entry, capture.bytes()).is_err() {
                    return Err(CaptureFault::OutOfMemory);
                }
            }
            Err(CaptureFault::Read) => return Err(CaptureFault::Read),
            ended => return Ok((number, ended.is_ok())),
        }
    }
    Err(CaptureFault::Failed)
}

// What was kept so far, and what tells of the next record: in which form its hint is, and how many units were sent.
#[derive(Drop)]
struct Keeper {
    alloc: Global,
    // the addresses of its node and of the peer
    head: (u16, u16),
    place: u64,
    asked: Asked,
    unit: Option<Vec<u8>>,
    receipt: Option<Row>,
    form: HintForm,
    units: u64,
    rows: Vec<Row>,
    later: Vec<Row>,
    later_bytes: usize,
    has_all_later: bool,
    hints: Vec<u64>,
    has_all_hints: bool,
}

impl Keeper {
    fn new(alloc: Global, place: u64, asked: Asked, form: HintForm) -> Keeper {
        Keeper {
            alloc,
            head: (0, 0),
            place,
            asked,
            unit: None,
            receipt: None,
            form,
            units: 0,
            rows: Vec::new(alloc),
            later: Vec::new(alloc),
            later_bytes: 0,
            has_all_later: true,
            hints: Vec::new(alloc),
            has_all_hints: true,
        }
    }

    // The record with this number.
    fn take(&mut self, number: u64, entry: Entry, bytes: &[u8]) -> Result<(), AllocError> {
        let (place, near_end) = (self.place, self.place.saturating_add(BEHIND));
        if number.saturating_add(BEFORE) >= place && number <= near_end {
            let row = self.row(number, entry, bytes)?;
            self.rows.push(row)?;
        }
        if let Entry::Received { hint, .. } = entry {
            if number >= place {
                self.take_hint(hint)?;
            }
            if number >= place && self.asked.receipt == Some(hint) {
                self.receipt = Some(self.row(number, entry, bytes)?);
            }
            if number > place {
                self.take_receipt(number, entry, bytes)?;
            }
            self.form = form_behind(self.form, hint);
        }
        if entry == Entry::Sent {
            self.take_unit(bytes)?;
        }
        Ok(())
    }

    fn take_unit(&mut self, bytes: &[u8]) -> Result<(), AllocError> {
        if self.asked.unit == Some(self.units) {
            self.unit = Some(bytes.to_vec(self.alloc)?);
        }
        self.units = self.units.saturating_add(1);
        Ok(())
    }

    fn take_hint(&mut self, hint: u64) -> Result<(), AllocError> {
        if self.hints.len() >= MOST_RECEIPTS {
            self.has_all_hints = false;
            return Ok(());
        }
        self.hints.push(hint)?;
        Ok(())
    }

    fn take_receipt(&mut self, number: u64, entry: Entry, bytes: &[u8]) -> Result<(), AllocError> {
        let sum = self.later_bytes.saturating_add(bytes.len());
        if self.later.len() >= MOST_RECEIPTS || sum > MOST_RECEIPT_BYTES {
            self.has_all_later = false;
        }
        if !self.has_all_later {
            return Ok(());
        }
        self.later_bytes = sum;
        let row = self.row(number, entry, bytes)?;
        self.later.push(row)?;
        Ok(())
    }

    // Record i is on line i + 2.
    fn row(&self, number: u64, entry: Entry, bytes: &[u8]) -> Result<Row, AllocError> {
        Ok(Row {
            line: number.saturating_add(2),
            entry,
            bytes: bytes.to_vec(self.alloc)?,
            form: self.form,
            units: self.units,
        })
    }

    // The capture has so many records; where it has not ended there, a line departs.
    fn finish(self, records: u64, has_ended: bool) -> Near {
        let (has_all_later, receipts) = (self.has_all_later, self.later);
        let (own, peer) = self.head;
        let later = match has_all_later {
            true => Some(receipts),
            false => None,
        };
        Near {
            stretch: Stretch {
                own,
                peer,
                line: self.place.saturating_add(2),
                rows: self.rows,
                later,
            },
            records,
            hints: self.hints,
            has_all_hints: self.has_all_hints && has_ended,
            unit: self.unit,
            receipt: self.receipt,
        }
    }
}

fn first_form(format: u8) -> HintForm {
    match format {
        2 => Format::Two.first_form(),
        3 => Format::Three.first_form(),
        _ => Format::One.first_form(),
    }
}

// The form of the hint after that one: in format 2 it is told from one more.
fn form_behind(form: HintForm, hint: u64) -> HintForm {
    match form {
        HintForm::Distance { .. } => HintForm::Distance {
            mark: hint.saturating_add(1),
        },
        HintForm::Number | HintForm::Wide | HintForm::Part => form,
    }
}
