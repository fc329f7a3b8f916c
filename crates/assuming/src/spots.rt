//! At which records of a capture something may be assumed.

ghost use Rattle.std.specs.Prelude.{◌≡◌, ◌≤◌, ◌+◌, ◌∷◌, ◌++◌, [], true, List, IsTrue, IfSome, OnOk};
ghost use Rattle.std.specs.List.{AllByRecursion};
ghost use Rattle.capture_record.specs.Fates.{is_kept};
ghost use Rattle.capture.specs.declared.limit.TheConstants.{MAX_RECORDS};
ghost use Rattle.capture_record.specs.declared.record.Record.{Record as Line};
ghost use Rattle.capture_record.specs.declared.record.Record.TheVariants.{Sent, Received, User};
ghost use Rattle.capture_record.specs.declared.event.Event.TheVariants.{Start};
ghost use Rattle.capture_record.specs.Entries.{record_with};
ghost use Rattle.assuming.specs.Assuming.{Fits, IsSent};
ghost use Rattle.assuming.specs.inner.Spots.{AreOf, IsSpot, with_spot};

use crate::message::{Kind, begins_or_answers, caller_of, kind_of, message_in_unit};
use capture_record::{Entry, Fate};
use placing::{Assumed, Turn};
use std::alloc::{AllocError, Global};
use std::marker::Model;
use wire_base::Side;

/// What there is in a capture.
#[derive(Clone, Copy, PartialEq, Eq)]
pub(crate) enum Basis {
    /// The user starts the station, after so many packets were kept since its last unit.
    Starts { kept: u64 },
    /// The unit has a message of this kind.
    Sends { kind: Kind },
    /// The packet of the other side's unit with this number is kept, a CI from this link.
    Called { came: u64, partner: u16 },
}

/// The same, after so many units of the side.
#[derive(Clone, Copy, PartialEq, Eq)]
pub(crate) struct Spot {
    pub(crate) unit: u64,
    pub(crate) basis: Basis,
}

/// What the records so far give spot for, in their order.
#[derive(Drop)]
pub(crate) struct Spots {
    list: Vec<Spot>,
    units: u64,
    kept: u64,
}

impl Model for Spots {
    ghost use Rattle.assuming.specs.inner.Spots.{Kept};

    ghost Value = { Kept };

    ghost view = { λ g. record { spots = g.list.items; units = g.units; kept = g.kept } };
}

impl Spots {
    /// Of no record.
    pub(crate) fn new(alloc: Global) -> Spots
        ensures of { AreOf [] result }
        ensures few { (result.units ≡ 0) × (result.kept ≡ 0) }
    {
        Spots {
            list: Vec::new(alloc),
            units: 0,
            kept: 0,
        }
    }

    /// The place of the last one; 0 where there is none.
    pub(crate) fn last(&self) -> u64 {
        (self.list.len() as u64).saturating_sub(1)
    }

    /// The turn by which this is assumed at the spot at this place, if it may be assumed there.
    pub(crate) fn turn_at(&self, side: Side, place: u64, what: Assumed) -> Option<Turn>
        ensures fits { (rs : List Line) → AreOf rs self.now → IfSome result (λ turn. Fits rs turn.unit turn.what) }
        ensures side { IfSome result (λ turn. turn.side ≡ side) }
        ensures line { IfSome result (λ turn. turn.line ≡ 0) }
    {
        let spot = self.at(place)?;
        if !spot.bears(what) {
            return None;
        }
        Some(Turn {
            side,
            unit: spot.unit,
            line: 0,
            what,
        })
    }

    /// The unit at this place, if it has a data segment.
    pub(crate) fn segment_at(&self, place: u64) -> Option<u64>
        ensures { (rs : List Line) → AreOf rs self.now → IfSome result (λ unit. IsSent rs unit Kind.Segment) }
    {
        let spot = self.at(place)?;
        match spot.basis {
            Basis::Sends {
                kind: Kind::Segment,
            } => Some(spot.unit),
            _ => None,
        }
    }

    fn at(&self, place: u64) -> Option<Spot>
        ensures { (rs : List Line) → AreOf rs self.now → IfSome result (IsSpot rs) }
    {
        self.list.get(place as usize).copied()
    }

    /// One more record, of this entry and these bytes. `AllocError` where there is no memory for it.
    pub(crate) fn pass(&mut self, entry: Entry, bytes: &[u8]) -> Result<(), AllocError>
        requires few { (self.old.units ≤ MAX_RECORDS) × (self.old.kept ≤ MAX_RECORDS) }
        ensures of { OnOk result ((rs : List Line) → AreOf rs self.old → AreOf (rs ++ record_with entry bytes.now ∷ []) self.new) }
        ensures few { OnOk result ((self.new.units ≤ self.old.units + 1) × (self.new.kept ≤ self.old.kept + 1)) }
    {
        match entry {
            Entry::Sent => self.send(bytes),
            Entry::Received { fate, hint } => {
                if fate.is_kept() {
                    return self.keep(fate, hint, bytes);
                }
                Ok(())
            }
            Entry::Start => self.start(),
            _ => Ok(()),
        }
    }

    fn put(&mut self, basis: Basis) -> Result<(), AllocError>
        ensures { OnOk result (self.new ≡ with_spot self.old basis) }
    {
        self.list.push(Spot {
            unit: self.units,
            basis,
        })?;
        Ok(())
    }

    // The user starts the station.
    fn start(&mut self) -> Result<(), AllocError>
        ensures of { OnOk result ((rs : List Line) → AreOf rs self.old → AreOf (rs ++ User Start ∷ []) self.new) }
        ensures few { OnOk result ((self.new.units ≤ self.old.units + 1) × (self.new.kept ≤ self.old.kept + 1)) }
    {
        self.put(Basis::Starts { kept: self.kept })?;
        Ok(())
    }

    // A unit is sent.
    fn send(&mut self, bytes: &[u8]) -> Result<(), AllocError>
        requires few { self.old.units ≤ MAX_RECORDS }
        ensures of { OnOk result ((rs : List Line) → AreOf rs self.old → AreOf (rs ++ Sent bytes.now ∷ []) self.new) }
        ensures few { OnOk result ((self.new.units ≤ self.old.units + 1) × (self.new.kept ≤ self.old.kept + 1)) }
    {
        self.put_message(bytes)?;
        self.units = self.units + 1;
        self.kept = 0;
        Ok(())
    }

    fn put_message(&mut self, bytes: &[u8]) -> Result<(), AllocError>
        ensures each { OnOk result ((rs : List Line) → AreOf rs self.old → AllByRecursion (IsSpot (rs ++ Sent bytes.now ∷ [])) self.new.spots) }
        ensures same { OnOk result ((self.new.units ≡ self.old.units) × (self.new.kept ≡ self.old.kept)) }
    {
        let Some(message) = message_in_unit(bytes) else {
            return Ok(());
        };
        let kind = kind_of(&message);
        self.put(Basis::Sends { kind })?;
        Ok(())
    }

    // A packet of the other side's unit with this number is kept.
    fn keep(&mut self, fate: Fate, came: u64, bytes: &[u8]) -> Result<(), AllocError>
        requires few { self.old.kept ≤ MAX_RECORDS }
        requires kept { is_kept fate ≡ true }
        ensures of { OnOk result ((rs : List Line) → AreOf rs self.old → AreOf (rs ++ Received came fate bytes.now ∷ []) self.new) }
        ensures few { OnOk result ((self.new.units ≤ self.old.units + 1) × (self.new.kept ≤ self.old.kept + 1)) }
    {
        self.put_call(fate, came, bytes)?;
        self.kept = self.kept + 1;
        Ok(())
    }

    fn put_call(&mut self, fate: Fate, came: u64, bytes: &[u8]) -> Result<(), AllocError>
        requires kept { is_kept fate ≡ true }
        ensures each { OnOk result ((rs : List Line) → AreOf rs self.old →
            AllByRecursion (IsSpot (rs ++ Received came fate bytes.now ∷ [])) self.new.spots) }
        ensures same { OnOk result ((self.new.units ≡ self.old.units) × (self.new.kept ≡ self.old.kept)) }
    {
        let Some(message) = message_in_unit(bytes) else {
            return Ok(());
        };
        let partner = caller_of(&message);
        if partner == 0 {
            return Ok(());
        }
        self.put(Basis::Called { came, partner })?;
        Ok(())
    }
}

impl Spot {
    // Whether this may be assumed of it.
    fn bears(self, what: Assumed) -> bool
        ensures { (rs : List Line) → IsSpot rs self → IsTrue result → Fits rs self.unit what }
    {
        match (what, self.basis) {
            (Assumed::Keeps { most }, Basis::Starts { kept }) => most < kept,
            (Assumed::Boots, Basis::Starts { kept: _ }) => self.unit >= 1,
            (Assumed::GivesUp, Basis::Sends { kind: Kind::Call }) => true,
            (Assumed::Anew { is_anew: _ }, Basis::Sends { kind }) => begins_or_answers(kind),
            (
                Assumed::Answers {
                    came,
                    partner,
                    link: _,
                    accepts: _,
                },
                Basis::Called {
                    came: in_unit,
                    partner: caller,
                },
            ) => came == in_unit && partner == caller,
            _ => false,
        }
    }
}
