//! The units of a side that are accused, whatever the recording is like.

ghost use Rattle.std.specs.Prelude.{◌≡◌, ◌⊎◌, ℕ, [], ◌∷◌, ◌++◌, None, Some, Bool, List, OnOk, IfOk, IfSome};
ghost use Rattle.wire_base.specs.Side.{other_side};
ghost use Rattle.wire_base.specs.declared.side.Side.{Side as OfSide};
ghost use Rattle.dna_station.specs.declared.head.Head.{Head};
ghost use Rattle.wire_tap.specs.Accusing.{HasException, head_of};
ghost use Rattle.wire_tap.specs.Units.{UnitPassed, unit_passed};
ghost use Rattle.wire_tap.specs.inner.Accused.{FirstIs, IsKnown, SegmentIs};

use crate::accusation::Exception;
use crate::accusers::{Accusers, Said};
use crate::addressed::{Addressed, goes_where};
use crate::exception::{Charge, exception_of};
use crate::tapped::Passed;
use std::alloc::{AllocError, Global};
use wire_base::Side;

/// A unit that no correct node sent, but for one that does what the exception names.
#[derive(Clone, Copy)]
pub(crate) struct Suspect {
    pub(crate) passed: Passed,
    pub(crate) unless: Option<Exception>,
    /// Whether the addresses in its packet are not those from this node to the other one.
    pub(crate) is_misaddressed: bool,
    /// How many units of both sides had passed before it.
    pub(crate) order: u64,
}

/// One side: what accuses it, and its first units that are accused.
#[derive(Drop)]
pub(crate) struct SideAccused {
    pub(crate) side: Side,
    own: u16,
    peer: u16,
    pub(crate) accusers: Accusers,
    pub(crate) count: u64,
    /// The first unit that it can't have sent.
    pub(crate) first: Option<Suspect>,
    /// Its first segment that is out of order, unless packets were dropped.
    pub(crate) segment: Option<Suspect>,
}

impl SideAccused {
    /// Nothing passed yet: of the node with this address, with that one at the other end.
    pub(crate) fn new(
        alloc: Global,
        side: Side,
        own: u16,
        peer: u16,
        line_alone: bool,
    ) -> SideAccused
        ensures { IsKnown line_alone (head_of own peer) side [] result }
    {
        SideAccused {
            side,
            own,
            peer,
            accusers: Accusers::new(alloc, own, peer, line_alone),
            count: 0,
            first: None,
            segment: None,
        }
    }

    /// One unit of this side passed, whose first byte is on this line, after so many units of both sides.
    pub(crate) fn pass(
        &mut self,
        unit: &[u8],
        line: u64,
        order: u64,
        other: &mut SideAccused,
    ) -> Result<Passed, AllocError>
        ensures own { (line_alone : Bool) (head : Head) (side : OfSide) (passed : List UnitPassed) → IsKnown line_alone head side passed self.old
            → OnOk result (IsKnown line_alone head side (passed ++ unit_passed side unit.now line ∷ []) self.new) }
        ensures other { (line_alone : Bool) (head : Head) (side : OfSide) (passed : List UnitPassed)
            → IsKnown line_alone head (other_side side) passed other.old
            → OnOk result (IsKnown line_alone head (other_side side) (passed ++ unit_passed side unit.now line ∷ []) other.new) }
    {
        other.hear(unit)?;
        let passed = Passed {
            side: self.side,
            unit: self.count,
            line,
        };
        self.ask(unit, passed, order)?;
        self.count = self.count.saturating_add(1);
        Ok(passed)
    }

    // A unit of the other side passed.
    fn hear(&mut self, unit: &[u8]) -> Result<(), AllocError>
        ensures { (line_alone : Bool) (head : Head) (side : OfSide) (passed : List UnitPassed) (line : ℕ)
            → IsKnown line_alone head (other_side side) passed self.old
            → OnOk result (IsKnown line_alone head (other_side side) (passed ++ unit_passed side unit.now line ∷ []) self.new) }
    {
        self.accusers.other_passed(unit)
    }

    // Whether the side can have sent this unit, if it is not accused yet.
    fn ask(&mut self, unit: &[u8], passed: Passed, order: u64) -> Result<(), AllocError>
        ensures side { self.new.side ≡ self.old.side }
        ensures count { self.new.count ≡ self.old.count }
        ensures first { (line_alone : Bool) (head : Head) (side : OfSide) (before : List UnitPassed) → IsKnown line_alone head side before self.old
            → passed.side ≡ side → passed.unit ≡ self.old.count
            → OnOk result (FirstIs line_alone head side (before ++ unit_passed side unit.now passed.line ∷ []) self.new.first self.new.accusers) }
        ensures segment { (line_alone : Bool) (head : Head) (side : OfSide) (before : List UnitPassed)
            → IsKnown line_alone head side before self.old → passed.side ≡ side → passed.unit ≡ self.old.count
            → OnOk result (SegmentIs line_alone head side (before ++ unit_passed side unit.now passed.line ∷ []) self.new.segment) }
    {
        match self.first {
            Some(_) => Ok(()),
            None => self.judge(unit, passed, order),
        }
    }

    // The same of a side that is not accused.
    fn judge(&mut self, unit: &[u8], passed: Passed, order: u64) -> Result<(), AllocError>
        requires { self.old.first ≡ None }
        ensures side { self.new.side ≡ self.old.side }
        ensures count { self.new.count ≡ self.old.count }
        ensures first { (line_alone : Bool) (head : Head) (side : OfSide) (before : List UnitPassed) → IsKnown line_alone head side before self.old
            → passed.side ≡ side → passed.unit ≡ self.old.count
            → OnOk result (FirstIs line_alone head side (before ++ unit_passed side unit.now passed.line ∷ []) self.new.first self.new.accusers) }
        ensures segment { (line_alone : Bool) (head : Head) (side : OfSide) (before : List UnitPassed)
            → IsKnown line_alone head side before self.old → passed.side ≡ side → passed.unit ≡ self.old.count
            → OnOk result (SegmentIs line_alone head side (before ++ unit_passed side unit.now passed.line ∷ []) self.new.segment) }
    {
        match self.accusers.own_passed(unit) {
            Ok(Said::Charged(charge)) => {
                self.first = Some(self.made_suspect(charge, unit, passed, order));
                Ok(())
            }
            Ok(Said::Doubted) => {
                self.segment = first_of(self.segment, passed, order);
                Ok(())
            }
            Ok(Said::Nothing) => Ok(()),
            Err(refused) => Err(refused),
        }
    }

    // This unit is accused by this charge.
    fn made_suspect(&self, charge: Charge, unit: &[u8], passed: Passed, order: u64) -> Suspect
        ensures passed { result.passed ≡ passed }
        ensures unless { HasException charge result.unless }
    {
        let goes = self.goes_where(unit);
        Suspect {
            passed,
            unless: exception_of(charge, goes),
            is_misaddressed: charge == Charge::Packet && goes.is_wrong(),
            order,
        }
    }

    /// Where the packet in this unit of the side goes.
    pub(crate) fn goes_where(&self, unit: &[u8]) -> Addressed {
        goes_where(self.own, self.peer, unit)
    }
}

// The first segment, where this one is out of order.
fn first_of(segment: Option<Suspect>, passed: Passed, order: u64) -> Option<Suspect>
    ensures { IfSome result (λ suspect. (segment ≡ Some suspect) ⊎ (suspect.passed ≡ passed)) }
{
    match segment {
        Some(suspect) => Some(suspect),
        None => Some(Suspect {
            passed,
            unless: None,
            is_misaddressed: false,
            order,
        }),
    }
}
