//! What the units that passed tell of both sides.

ghost use Rattle.std.specs.Prelude.{◌≡◌, [], ◌∷◌, ◌++◌, ℕ, Bool, List, Some, OnOk};
ghost use Rattle.wire_tap.specs.Units.{UnitPassed, message_of, unit_passed};
ghost use Rattle.wire_tap.specs.inner.Accused.{IsTold};

use crate::evidence::Evidence;
use crate::suspects::SideAccused;
use framer::Kind;
use std::alloc::AllocError;
use wire_base::Side;

/// Both sides, and what shows that not all that they sent passed.
#[derive(Drop)]
pub(crate) struct Told {
    pub(crate) a: SideAccused,
    pub(crate) b: SideAccused,
    pub(crate) evidence: Evidence,
}

/// A unit's side, the line of its first byte, and how many units of both sides had passed before that.
#[derive(Clone, Copy)]
pub(crate) struct Place {
    pub(crate) side: Side,
    pub(crate) line: u64,
    pub(crate) order: u64,
}

impl Told {
    /// One unit of this kind was found there; maintenance messages are told to nobody.
    pub(crate) fn find(&mut self, kind: Kind, unit: &[u8], at: Place) -> Result<(), AllocError>
        ensures { (line_alone : Bool) (a b : ℕ) (passed : List UnitPassed) → IsTold line_alone a b passed self.old
            → OnOk result (IsTold line_alone a b (passed ++ message_of (Some kind) (unit_passed at.side unit.now at.line)) self.new) }
    {
        match kind {
            Kind::Control | Kind::Data => self.pass(unit, at),
            Kind::Maintenance => {
                self.evidence.find(at.side);
                Ok(())
            }
        }
    }

    fn pass(&mut self, unit: &[u8], at: Place) -> Result<(), AllocError>
        ensures { (line_alone : Bool) (a b : ℕ) (passed : List UnitPassed) → IsTold line_alone a b passed self.old
            → OnOk result (IsTold line_alone a b (passed ++ unit_passed at.side unit.now at.line ∷ []) self.new) }
    {
        let order = self.evidence.order;
        match at.side {
            Side::A => {
                let passed = self.a.pass(unit, at.line, order, &mut self.b)?;
                let goes = self.a.goes_where(unit);
                self.evidence.pass(unit, passed, goes, at.order);
                self.evidence.find(Side::A);
                Ok(())
            }
            Side::B => {
                let passed = self.b.pass(unit, at.line, order, &mut self.a)?;
                let goes = self.b.goes_where(unit);
                self.evidence.pass(unit, passed, goes, at.order);
                self.evidence.find(Side::B);
                Ok(())
            }
        }
    }
}
