//! Who is told of the records of captures of which something may be left out.

use capture::{CaptureFault, CaptureReader};
use capture_record::Entry;
use pair_judge::{MadeEntry, Observer};
use std::alloc::{AllocError, Global};
use why_answer::last_rows::LastRows;
use wire_base::{Side, Tally};

/// Who is told of the records. No contract tells what it keeps.
#[derive(Drop)]
pub enum Onlooker<'t> {
    Nobody,
    /// The rows of the captures themselves.
    Originals(Originals<'t>),
}

impl Observer for Onlooker<'_> {
    ghost told = { λ onlooker order. Unit {0} };

    fn made(&mut self, next: &MadeEntry<'_>) -> Result<(), AllocError> {
        match self {
            Onlooker::Nobody => Ok(()),
            Onlooker::Originals(originals) => originals.made(next),
        }
    }
}

/// Rows that are told of the records of both captures as they are, while what is left of them is judged. A text of what is left has the same records
/// in the same places.
#[derive(Drop)]
pub struct Originals<'t> {
    pub rows: LastRows,
    a: Option<Original<'t>>,
    b: Option<Original<'t>>,
}

impl<'t> Originals<'t> {
    /// Of these texts of both captures. Of a text that departs from its format, records are told as they are judged. `AllocError`: there is no memory
    /// to read them.
    pub fn new(
        alloc: Global,
        rows: LastRows,
        text_a: &'t [u8],
        text_b: &'t [u8],
    ) -> Result<Originals<'t>, AllocError> {
        let (a, b) = Original::both(alloc, text_a, text_b)?;
        Ok(Originals { rows, a, b })
    }

    /// The same, with the last rows, of which none was told yet.
    pub fn begun(
        alloc: Global,
        text_a: &'t [u8],
        text_b: &'t [u8],
    ) -> Result<Originals<'t>, AllocError> {
        let rows = LastRows::new(alloc)?;
        Originals::new(alloc, rows, text_a, text_b)
    }

    fn of_side(&mut self, side: Side) -> (&mut LastRows, &mut Option<Original<'t>>) {
        match side {
            Side::A => (&mut self.rows, &mut self.a),
            Side::B => (&mut self.rows, &mut self.b),
        }
    }

    // This record was made of what is left.
    fn made(&mut self, next: &MadeEntry<'_>) -> Result<(), AllocError> {
        let (rows, original) = self.of_side(next.side);
        if let Some(original) = original
            && let Some(entry) = original.advance()?
        {
            return rows.note(next.side, entry, original.capture.bytes());
        }
        rows.note(next.side, next.entry, next.bytes)
    }

    /// The next record of this side was refused, with `changed` as for [`ladder::Ladder::refused`]. `AllocError`: there is no memory to read it.
    pub fn refused(&mut self, side: Side, changed: bool) -> Result<(), AllocError> {
        let (rows, original) = self.of_side(side);
        if let Some(original) = original
            && let Some(entry) = original.advance()?
        {
            rows.ladder
                .refused(side, entry, original.capture.bytes(), changed);
        }
        Ok(())
    }
}

// The text of a capture, record by record.
#[derive(Drop)]
struct Original<'t> {
    capture: CaptureReader,
    reader: Tally<&'t [u8]>,
}

impl<'t> Original<'t> {
    fn both(
        alloc: Global,
        text_a: &'t [u8],
        text_b: &'t [u8],
    ) -> Result<(Option<Original<'t>>, Option<Original<'t>>), AllocError> {
        let a = Original::new(alloc, text_a)?;
        let b = Original::new(alloc, text_b)?;
        Ok((a, b))
    }

    fn new(alloc: Global, text: &'t [u8]) -> Result<Option<Original<'t>>, AllocError> {
        let mut reader = Tally::new(text);
        match CaptureReader::open(alloc, &mut reader) {
            Ok(capture) => Ok(Some(Original { capture, reader })),
            Err(CaptureFault::OutOfMemory) => Err(AllocError),
            Err(_) => Ok(None),
        }
    }

    // The next record, if there is one.
    fn advance(&mut self) -> Result<Option<Entry>, AllocError> {
        match self.capture.advance(&mut self.reader) {
            Ok(entry) => Ok(entry),
            Err(CaptureFault::OutOfMemory) => Err(AllocError),
            Err(_) => Ok(None),
        }
    }
}
