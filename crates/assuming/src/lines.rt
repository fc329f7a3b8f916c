//! On which lines of the text of what passed the units are at which something is assumed.

use capture::CaptureFault;
use framer::{Found, Framer, Kind};
use placing::Turn;
use std::alloc::{AllocError, Global};
use std::collections::BTreeMap;
use std::io::Read;
use wire_base::{Side, Tally};
use wire_text::{MAX_PIECES, WireReader};

// The units of a side so far, and the places of what is assumed by the units at which it is.
#[derive(Drop)]
struct SideLines {
    framer: Framer,
    begun: u64,
    units: u64,
    turns: BTreeMap<u64, Vec<Turn>>,
}

/// What is assumed, in the order in which the units passed at which it is, each with the line of its unit's first byte. What is assumed behind the
/// last unit of a side comes last. The faults are those of the text's reader.
pub fn tell_lines<W: Read>(
    alloc: Global,
    wire: &mut Tally<W>,
    turns: &[Turn],
) -> Result<Vec<Turn>, CaptureFault> {
    let mut reader = WireReader::open(alloc, wire)?;
    let (Ok(mut a), Ok(mut b)) = (
        SideLines::of(alloc, Side::A, turns),
        SideLines::of(alloc, Side::B, turns),
    ) else {
        return Err(CaptureFault::OutOfMemory);
    };
    let mut told = Vec::new(alloc);
    for _ in 0..MAX_PIECES + 1 {
        let Some(side) = reader.advance(wire)? else {
            break;
        };
        let line = reader.items().saturating_add(1);
        let lines = match side {
            Side::A => &mut a,
            Side::B => &mut b,
        };
        if lines.pass(reader.bytes(), line, &mut told).is_err() {
            return Err(CaptureFault::OutOfMemory);
        }
    }
    match put_rest(&mut told, a, b) {
        Ok(()) => Ok(told),
        Err(_) => Err(CaptureFault::OutOfMemory),
    }
}

fn put_rest(told: &mut Vec<Turn>, a: SideLines, b: SideLines) -> Result<(), AllocError> {
    put_left(told, a)?;
    put_left(told, b)
}

fn put_left(told: &mut Vec<Turn>, lines: SideLines) -> Result<(), AllocError> {
    let SideLines { turns, .. } = lines;
    for (_, left) in &turns {
        for turn in left {
            told.push(*turn)?;
        }
    }
    Ok(())
}

impl SideLines {
    fn of(alloc: Global, side: Side, turns: &[Turn]) -> Result<SideLines, AllocError> {
        let mut lines = SideLines {
            framer: Framer::new(alloc)?,
            begun: 0,
            units: 0,
            turns: BTreeMap::new(alloc),
        };
        for turn in turns {
            if turn.side == side {
                lines.put(alloc, *turn)?;
            }
        }
        Ok(lines)
    }

    fn put(&mut self, alloc: Global, turn: Turn) -> Result<(), AllocError> {
        if let Some(at_unit) = self.turns.get_mut(&turn.unit) {
            at_unit.push(turn)?;
            return Ok(());
        }
        let mut at_unit = Vec::new(alloc);
        at_unit.push(turn)?;
        match self.turns.insert(turn.unit, at_unit) {
            Ok(_) => Ok(()),
            Err(_) => Err(AllocError),
        }
    }

    // A piece of the side passes, which is on this line.
    fn pass(&mut self, piece: &[u8], line: u64, told: &mut Vec<Turn>) -> Result<(), AllocError> {
        let mut rest = piece;
        for _ in 0..piece
            .len()
            .saturating_add(self.framer.held().len())
            .saturating_add(1)
        {
            match self.framer.next(rest) {
                Found::Unit {
                    kind,
                    rest: behind,
                    ..
                } => {
                    self.unit(kind, line, told)?;
                    rest = behind;
                }
                Found::Completed {
                    kind,
                    rest: behind,
                    ..
                } => {
                    self.unit(kind, self.begun, told)?;
                    rest = behind;
                }
                Found::More { .. } => {
                    if self.framer.held().len() <= rest.len() {
                        self.begun = line;
                    }
                    return Ok(());
                }
            }
        }
        Ok(())
    }

    // A unit passed, which begins on this line.
    fn unit(&mut self, kind: Kind, line: u64, told: &mut Vec<Turn>) -> Result<(), AllocError> {
        match kind {
            Kind::Maintenance => return Ok(()),
            Kind::Control | Kind::Data => {}
        }
        if let Some(at_unit) = self.turns.remove(&self.units) {
            for turn in &at_unit {
                told.push(Turn { line, ..*turn })?;
            }
        }
        self.units = self.units.saturating_add(1);
        Ok(())
    }
}
