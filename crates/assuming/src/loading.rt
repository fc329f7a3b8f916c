//! From the records of a capture to what its side did with links.

ghost use Rattle.std.specs.Prelude.{List, IfOk};
ghost use Rattle.wire_base.specs.Tally.{tally_lent};
ghost use Rattle.capture_record.specs.declared.record.Record.{Record as Line};
ghost use Rattle.assuming.specs.Assuming.{IsWhole};
ghost use Rattle.assuming.specs.inner.Spots.{AreOf};

use crate::event::{Act, Event, Gap, said_in};
use crate::log::SideLog;
use crate::spots::Spots;
use capture::{CaptureFault, CaptureReader, MAX_RECORDS, text_read_on};
use capture_record::Entry;
use ddcmp_msg::{Message, Reading, read_unit};
use placing::message_of;
use std::alloc::{AllocError, Global};
use std::io::Read;
use wire_base::Tally;

// How many numbers data may have.
const NUMBERS: usize = 256;

// What is read so far: of the last start, the place of the first sending by numbers, and the last number; the packets that were kept since the last
// unit; how many units of the other side are known to have been sent; and the place of the last spot.
#[derive(Drop)]
struct Loading {
    log: SideLog,
    sent: Vec<Option<u64>>,
    last: u8,
    gap: Vec<Open>,
    kept: u64,
    needs: u64,
    spot: u64,
}

// A packet that was kept since the last unit: the place of its event, and how many were kept before it.
#[derive(Clone, Copy)]
struct Open {
    at: u64,
    place: u64,
}

/// What the side of a capture did with links, and what its records give spot for.
#[derive(Drop)]
pub(crate) struct Loaded {
    pub(crate) log: SideLog,
    pub(crate) spots: Spots,
}

/// What is told of the side of this capture. The faults are those of the reader.
pub(crate) fn load<R: Read>(alloc: Global, capture: &mut Tally<R>) -> Result<Loaded, CaptureFault>
    ensures { IfOk result (λ loaded. (rs : List Line) × IsWhole (R.remaining (tally_lent capture.old)) rs × AreOf rs loaded.spots) }
{
    text_read_on();
    let mut reader = CaptureReader::open(alloc, capture)?;
    let Ok(mut loading) = Loading::new(alloc) else {
        return Err(CaptureFault::OutOfMemory);
    };
    let mut spots = Spots::new(alloc);
    for number in 0..MAX_RECORDS + 1 {
        match reader.advance(capture) {
            Ok(Some(entry)) => {
                let Ok(()) = spots.pass(entry, reader.bytes()) else {
                    return Err(CaptureFault::OutOfMemory);
                };
                let Ok(()) = loading.pass(entry, reader.bytes(), spots.last()) else {
                    return Err(CaptureFault::OutOfMemory);
                };
            }
            Ok(None) => {
                return Ok(Loaded {
                    log: loading.log,
                    spots,
                });
            }
            Err(fault) => return Err(fault),
        }
    }
    unreachable!()
}

impl Loading {
    fn new(alloc: Global) -> Result<Loading, AllocError> {
        Ok(Loading {
            log: SideLog::new(alloc),
            sent: vec![in alloc; None; NUMBERS]?,
            last: 0,
            gap: Vec::new(alloc),
            kept: 0,
            needs: 0,
            spot: 0,
        })
    }

    // The next record, of these bytes, with this last spot.
    fn pass(&mut self, entry: Entry, bytes: &[u8], spot: u64) -> Result<(), AllocError> {
        self.spot = spot;
        match entry {
            Entry::Sent => self.send(bytes),
            Entry::Received { fate, hint } => {
                self.needs = self.needs.max(hint.saturating_add(1));
                if fate.is_kept() {
                    return self.keep(bytes, hint);
                }
                Ok(())
            }
            Entry::Start => self.start(),
            _ => Ok(()),
        }
    }

    fn put(&mut self, act: Act) -> Result<u64, AllocError> {
        let at = self.log.events.len() as u64;
        let before = self.log.sendings.len() as u64;
        self.log.events.push(Event {
            act,
            before,
            needs: self.needs,
            spot: self.spot,
        })?;
        Ok(at)
    }

    // A unit was sent.
    fn send(&mut self, unit: &[u8]) -> Result<(), AllocError> {
        self.gap.clear();
        self.kept = 0;
        let first = match read_unit(unit) {
            Reading::Sound(Message::Strt { .. }) | Reading::Sound(Message::Stack { .. }) => {
                self.last = 0;
                None
            }
            Reading::Sound(Message::Data { num, .. }) => self.first_sending(unit, num)?,
            _ => None,
        };
        self.log.sendings.push(first)?;
        Ok(())
    }

    // The event in which the packet of this data was first sent: this one, if it has a new number.
    fn first_sending(&mut self, unit: &[u8], num: u8) -> Result<Option<u64>, AllocError> {
        if num != self.last.wrapping_add(1) {
            return Ok(match self.sent.get(usize::from(num)) {
                Some(sent) => *sent,
                None => None,
            });
        }
        self.last = num;
        let said = match message_of(unit) {
            Some(message) => said_in(&message),
            None => None,
        };
        let first = match said {
            Some(said) => {
                if self.log.used.insert(said.from).is_err() {
                    return Err(AllocError);
                }
                Some(self.put(Act::Sends(said))?)
            }
            None => None,
        };
        if let Some(sent) = self.sent.get_mut(usize::from(num)) {
            *sent = first;
        }
        Ok(first)
    }

    // The packet of the other side's unit with this number was kept.
    fn keep(&mut self, unit: &[u8], came: u64) -> Result<(), AllocError> {
        let place = self.kept;
        self.kept = place.saturating_add(1);
        let Some(message) = message_of(unit) else {
            return Ok(());
        };
        let Some(said) = said_in(&message) else {
            return Ok(());
        };
        let at = self.put(Act::Keeps {
            said,
            came,
            gap: None,
        })?;
        self.gap.push(Open { at, place })?;
        Ok(())
    }

    // The user starts the station: what was kept since the last unit may not have been.
    fn start(&mut self) -> Result<(), AllocError> {
        let Some(first) = self.gap.first().copied() else {
            return self.restart();
        };
        for open in &self.gap {
            if let Some(event) = self.log.events.get_mut(open.at as usize) {
                if let Act::Keeps { said, came, .. } = event.act {
                    let gap = Some(Gap {
                        first: first.at,
                        place: open.place,
                        start: self.spot,
                    });
                    event.act = Act::Keeps { said, came, gap };
                }
            }
        }
        self.gap.clear();
        self.restart()
    }

    fn restart(&mut self) -> Result<(), AllocError> {
        if self.log.sendings.is_empty() {
            return Ok(());
        }
        let _ = self.put(Act::Starts)?;
        Ok(())
    }
}
