//! How the units of one direction are found, each with its line.

ghost use Rattle.std.specs.Prelude.{◌≡◌, ◌+◌, [], ◌++◌, length, ℕ, Bool, List, IfOk, OnOk};
ghost use Rattle.wire_tap.specs.Units.{UnitPassed};
ghost use Rattle.wire_tap.specs.inner.Accused.{FindsAll, FindsNext, IsBehind, IsOnLine, IsTold, KeepsLines, LeavesLess};

use crate::begun::{Begun, first_place};
use crate::evidence::Evidence;
use crate::told::{Place, Told};
use framer::{Found, Framer};
use std::alloc::{AllocError, Global};
use wire_base::Side;

/// How the units of a direction are found.
#[derive(Drop)]
pub(crate) struct Direction {
    pub(crate) side: Side,
    pub(crate) framer: Framer,
    pub(crate) begun: Begun,
    // how many units of both sides had passed before what the framer holds
    pub(crate) order: u64,
}

/// What is left of a piece.
pub(crate) enum Next<'a> {
    Rest(&'a [u8]),
    UsedUp,
}

impl Direction {
    /// Nothing passed yet.
    pub(crate) fn new(alloc: Global, side: Side) -> Result<Direction, AllocError>
        ensures { IfOk result (IsBehind side []) }
    {
        Ok(Direction {
            side,
            framer: Framer::new(alloc)?,
            begun: Begun::NOTHING,
            order: 0,
        })
    }

    /// These bytes passed.
    pub(crate) fn pass_bytes(
        &mut self,
        piece: &[u8],
        line: u64,
        told: &mut Told,
    ) -> Result<(), AllocError>
        ensures { (line_alone : Bool) (a b : ℕ) (passed : List UnitPassed) (lines : ℕ → ℕ) (place : ℕ) → IsTold line_alone a b passed told.old
            → KeepsLines lines place (length self.old.framer.held) self.old.begun
            → IsOnLine lines place (length self.old.framer.held) (length piece.now) line
            → OnOk result (FindsAll line_alone a b self.old.side passed lines place (self.old.framer.held ++ piece.now) self.new told.new) }
    {
        let mut rest = piece;
        let most = self.framer.held().len() + piece.len() + 1;
        for _ in 0..most {
            match self.pass_next(rest, line, told)? {
                Next::Rest(behind) => rest = behind,
                Next::UsedUp => return Ok(()),
            }
        }
        unreachable!()
    }

    // The first unit in what is held and these bytes passed.
    fn pass_next<'a>(
        &mut self,
        piece: &'a [u8],
        line: u64,
        told: &mut Told,
    ) -> Result<Next<'a>, AllocError>
        ensures finds { (line_alone : Bool) (a b : ℕ) (passed : List UnitPassed) (lines : ℕ → ℕ) (place : ℕ) → IsTold line_alone a b passed told.old
            → KeepsLines lines place (length self.old.framer.held) self.old.begun
            → IsOnLine lines place (length self.old.framer.held) (length piece.entry.now) line
            → IfOk result (λ next. FindsNext line_alone a b self.old.side passed lines place (self.old.framer.held ++ piece.entry.now) next
            self.new told.new) }
        ensures less { IfOk result (LeavesLess (self.old.framer.held ++ piece.entry.now) (length piece.entry.now) self.new) }
        ensures side { self.new.side ≡ self.old.side }
    {
        let held = self.framer.held().len();
        let order = self.order_of(held, told.evidence.order);
        match self.framer.next(piece) {
            Found::Unit {
                kind,
                strays,
                unit,
                rest,
            } => {
                told.evidence.skip(self.side, strays as u64);
                let first = first_place(held, piece.len(), unit.len(), rest.len());
                let line = self.begun.line_at(held, first, line);
                let side = self.side;
                told.find(kind, unit, Place { side, line, order })?;
                Ok(Next::Rest(rest))
            }
            Found::Completed { kind, strays, rest } => {
                told.evidence.skip(self.side, strays as u64);
                let unit = self.framer.completed();
                let first = first_place(held, piece.len(), unit.len(), rest.len());
                let line = self.begun.line_at(held, first, line);
                let side = self.side;
                told.find(kind, unit, Place { side, line, order })?;
                Ok(Next::Rest(rest))
            }
            Found::More { strays } => {
                told.evidence.skip(self.side, strays as u64);
                let now = self.framer.held().len();
                self.begun.hold(held, piece.len(), line, now);
                self.order = order_kept(now <= piece.len(), told.evidence.order, self.order);
                Ok(Next::UsedUp)
            }
        }
    }

    // How many units had passed before the first of so many bytes that are held, or before the piece after them.
    fn order_of(&self, held: usize, now: u64) -> u64 {
        if held == 0 { now } else { self.order }
    }

    /// What is held is no unit.
    pub(crate) fn end(&self, evidence: &mut Evidence) {
        evidence.end(self.side, self.framer.held().len() as u64, self.order);
    }
}

// So many units had passed before what is held: it begins in this piece, or in an earlier one.
fn order_kept(is_in_piece: bool, now: u64, before: u64) -> u64 {
    if is_in_piece { now } else { before }
}
