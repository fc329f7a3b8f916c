//! One direction of a line that is tapped.

ghost use Rattle.std.specs.Prelude.{◌≡◌, ◌≤◌, ◌+◌, [], ◌∷◌, ◌++◌, length, Some, IfOk, IsTrue};
ghost use Rattle.wire_tap.specs.Units.{message_of};
ghost use Rattle.wire_tap.specs.inner.Side.{
  IsNew,
  MayEndAt,
  PassUnits,
  PassesBytes,
  TakesTurn,
  Tells,
  TellsNext,
  aim,
  side_state,
  units_in,
  units_state,
};

use crate::begun::{Begun, first_place};
use crate::tapped::{Ending, Passed, Skipped, Units};
use capture_record::MAX_UNIT;
use framer::{Found, Framer, Kind};
use placing::{Placing, Reached, Search, Turn};
use std::alloc::{AllocError, Global};
use wire_base::Side;

/// The units of one side: how they are found, what becomes of them, and what was skipped.
#[derive(Drop)]
pub(crate) struct SideTap {
    pub(crate) framer: Framer,
    pub(crate) units: SideUnits,
    // the lines of what the framer holds
    begun: Begun,
}

/// The units that a side sent so far.
#[derive(Drop)]
pub(crate) struct SideUnits {
    pub(crate) placing: Placing,
    pub(crate) count: u64,
    pub(crate) bytes: u64,
    pub(crate) skipped: Skipped,
}

/// Where a piece is, and with which unit the captures are to end.
#[derive(Clone, Copy)]
pub(crate) struct At {
    pub(crate) side: Side,
    pub(crate) line: u64,
    pub(crate) last: Option<(Side, u64)>,
}

/// What comes after a unit.
#[derive(Clone, Copy)]
pub(crate) enum Next<'a> {
    /// These bytes.
    Rest(&'a [u8]),
    /// No unit was whole any more.
    UsedUp,
    /// Nothing: the captures end with it.
    Ends(Ending),
}

impl SideTap {
    /// Nothing passed yet of this side, of which these turns are assumed. `AllocError` where there is no memory for it.
    pub(crate) fn new(
        alloc: Global,
        line_alone: bool,
        side: Side,
        turns: &[Turn],
    ) -> Result<SideTap, AllocError>
        ensures { IfOk result IsNew }
    {
        Ok(SideTap {
            framer: Framer::new(alloc)?,
            units: SideUnits {
                placing: Placing::new(alloc, line_alone, side, turns)?,
                count: 0,
                bytes: 0,
                skipped: Skipped {
                    maintenance: 0,
                    bytes: 0,
                },
            },
            begun: Begun::NOTHING,
        })
    }

    /// Places the units of some bytes of the side: the ending, where the captures end with one of them.
    pub(crate) fn pass_bytes(
        &mut self,
        piece: &[u8],
        at: At,
        other: &mut Placing,
        search: &mut Search,
    ) -> Result<Option<Ending>, AllocError>
        ensures own { IfOk result (PassesBytes (aim at.last at.side) (self.old.framer.held ++ piece.now)
            (side_state self.old) (side_state self.new)) }
        ensures other { IfOk result (λ ending. Tells (units_in (self.old.framer.held ++ piece.now)) ending other.old other.new) }
    {
        let mut rest = piece;
        let most = self.framer.held().len() + piece.len() + 1;
        for _ in 0..most {
            match self.pass_next(rest, at, other, search)? {
                Next::Rest(behind) => rest = behind,
                Next::UsedUp => return Ok(None),
                Next::Ends(ending) => return Ok(Some(ending)),
            }
        }
        unreachable!()
    }

    // Places the first unit in what is held and these bytes.
    fn pass_next<'a>(
        &mut self,
        piece: &'a [u8],
        at: At,
        other: &mut Placing,
        search: &mut Search,
    ) -> Result<Next<'a>, AllocError>
        ensures own { IfOk result (TakesTurn (aim at.last at.side) (self.old.framer.held ++ piece.entry.now)
            (side_state self.old) (side_state self.new)) }
        ensures other { IfOk result (λ next. TellsNext (self.old.framer.held ++ piece.entry.now) next other.old other.new) }
    {
        let held = self.framer.held().len();
        match self.framer.next(piece) {
            Found::Unit {
                kind,
                strays,
                unit,
                rest,
            } => {
                self.units.skip(strays);
                match self.units.pass(kind, unit, at, other, search)? {
                    Some(ending) => Ok(Next::Ends(ending)),
                    None => Ok(Next::Rest(rest)),
                }
            }
            Found::Completed { kind, strays, rest } => {
                self.units.skip(strays);
                let unit = self.framer.completed();
                let first = first_place(held, piece.len(), unit.len(), rest.len());
                let line = self.begun.line_at(held, first, at.line);
                match self
                    .units
                    .pass(kind, unit, At { line, ..at }, other, search)?
                {
                    Some(ending) => Ok(Next::Ends(ending)),
                    None => Ok(Next::Rest(rest)),
                }
            }
            Found::More { strays } => {
                self.units.skip(strays);
                let now = self.framer.held().len();
                self.begun.hold(held, piece.len(), at.line, now);
                Ok(Next::UsedUp)
            }
        }
    }
}

impl SideUnits {
    /// So many bytes belong to no unit.
    pub(crate) fn skip(&mut self, strays: usize)
        ensures placing { self.new.placing ≡ self.old.placing }
        ensures count { self.new.count ≡ self.old.count }
    {
        self.skipped.bytes = self.skipped.bytes.saturating_add(strays as u64);
    }

    /// How many there were, and their bytes.
    pub(crate) fn counted(&self) -> Units
        ensures { result.count ≡ self.now.count }
    {
        Units {
            count: self.count,
            bytes: self.bytes,
        }
    }

    // Places one unit of this kind, or skips a maintenance message: the ending, where the captures end with it.
    fn pass(
        &mut self,
        kind: Kind,
        unit: &[u8],
        at: At,
        other: &mut Placing,
        search: &mut Search,
    ) -> Result<Option<Ending>, AllocError>
        ensures own { IfOk result (λ _. PassUnits (message_of (Some kind) unit.now) (units_state self.old) (units_state self.new)) }
        ensures ends { IfOk result (MayEndAt (aim at.last at.side) (self.old.count + length (message_of (Some kind) unit.now))) }
        ensures other { IfOk result (λ ending. Tells (message_of (Some kind) unit.now) ending other.old other.new) }
    {
        match kind {
            Kind::Maintenance => {
                self.skipped.maintenance = self.skipped.maintenance.saturating_add(1);
                Ok(None)
            }
            Kind::Control | Kind::Data => self.pass_message(unit, at, other, search),
        }
    }

    // Places one unit that is a message: the ending, where the captures end with it.
    fn pass_message(
        &mut self,
        unit: &[u8],
        at: At,
        other: &mut Placing,
        search: &mut Search,
    ) -> Result<Option<Ending>, AllocError>
        ensures own { IfOk result (λ _. PassUnits (unit.now ∷ []) (units_state self.old) (units_state self.new)) }
        ensures ends { IfOk result (MayEndAt (aim at.last at.side) (self.old.count + 1)) }
        ensures other { IfOk result (λ ending. Tells (unit.now ∷ []) ending other.old other.new) }
    {
        // No unit that a framer finds is longer.
        if unit.len() > MAX_UNIT {
            return Err(AllocError);
        }
        let passed = Passed {
            side: at.side,
            unit: self.count,
            line: at.line,
        };
        self.count = self.count.saturating_add(1);
        self.bytes = self.bytes.saturating_add(unit.len() as u64);
        self.placing.sent(unit)?;
        match search.sent(at.side, unit)? {
            Reached::Way => other.sent_by_other(unit)?,
            Reached::NoWay => return Ok(Some(Ending::Unplaced(passed))),
            Reached::TooMany => return Ok(Some(Ending::TooWide(passed))),
        }
        self.placing.settle(search, at.side)?;
        if at.is_last(passed) {
            return Ok(Some(Ending::Asked(passed)));
        }
        Ok(None)
    }
}

impl At {
    // Whether the captures are to end with this unit.
    fn is_last(self, passed: Passed) -> bool
        ensures { IsTrue result → self.last ≡ Some (passed.side, passed.unit) }
    {
        match self.last {
            Some((side, unit)) => {
                if side != passed.side {
                    return false;
                }
                unit == passed.unit
            }
            None => false,
        }
    }
}
