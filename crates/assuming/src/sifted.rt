//! What is assumed, of all that the search proposes.

ghost use Rattle.std.specs.Prelude.{◌≡◌, ◌⊎◌, ◌∷◌, ◌++◌, [], List, IfOk, IfSome, OnOk};
ghost use Rattle.capture_record.specs.declared.record.Record.{Record as Line};
ghost use Rattle.assuming.specs.Assuming.{AreApart, AreAssumed, FitsIn, IsTooLong, place_of, side_number};
ghost use Rattle.assuming.specs.inner.Spots.{AreOf};

use crate::places::Places;
use crate::spots::Spots;
use placing::{Assumed, Turn};
use std::alloc::{AllocError, Global};
use std::marker::Model;
use wire_base::Side;

/// This may be assumed of this side, where the spot at this place bears it.
#[derive(Clone, Copy, PartialEq, Eq)]
pub(crate) struct Proposal {
    pub(crate) side: Side,
    pub(crate) place: u64,
    pub(crate) what: Assumed,
}

// Turns, no two of which are about the same.
#[derive(Drop)]
struct Sifted {
    turns: Vec<Turn>,
    places: Places,
}

impl Model for Sifted {
    ghost use Rattle.std.specs.Prelude.{List};
    ghost use Rattle.placing.specs.declared.turn.Turn.{Turn as Told};
    ghost use Rattle.assuming.specs.inner.Sifted.{AreNoted};

    ghost Value = { List Told };

    ghost view = { λ s. s.turns.items };

    ghost invariant = { λ s. AreNoted s.places s.turns.items };
}

impl Sifted {
    fn new(alloc: Global) -> Sifted
        ensures { result ≡ [] }
    {
        Sifted {
            turns: Vec::new(alloc),
            places: Places::none(alloc),
        }
    }

    // One turn more, unless there is one about the same.
    fn put(&mut self, turn: Turn) -> Result<(), AllocError>
        ensures { OnOk result ((self.new ≡ self.old) ⊎ (self.new ≡ self.old ++ turn ∷ [])) }
    {
        let (side, kind, number) = place_of(turn);
        if self.places.has(side, kind, number) {
            return Ok(());
        }
        self.places.add(side, kind, number)?;
        self.turns.push(turn)?;
        Ok(())
    }

    fn turns(self) -> Vec<Turn>
        ensures same { result.items ≡ self }
        ensures apart { AreApart self }
    {
        let Sifted { turns, places: _ } = self;
        turns
    }
}

// What a turn is about: its side, its kind, and its unit, or where a call is answered the unit in which it came.
fn place_of(turn: Turn) -> (u8, u8, u64)
    ensures { result ≡ place_of turn }
{
    let side = side_number(turn.side);
    match turn.what {
        Assumed::Keeps { most: _ } => (side, 0, turn.unit),
        Assumed::Boots => (side, 1, turn.unit),
        Assumed::GivesUp => (side, 2, turn.unit),
        Assumed::Anew { is_anew: _ } => (side, 3, turn.unit),
        Assumed::Answers { came, .. } => (side, 4, came),
    }
}

fn side_number(side: Side) -> u8
    ensures { result ≡ side_number side }
{
    match side {
        Side::A => 0,
        Side::B => 1,
    }
}

/// The turns of those proposals that fit the captures of which these spots are, each once. `AllocError` where there is no memory for them.
pub(crate) fn sift(
    alloc: Global,
    a: &Spots,
    b: &Spots,
    proposals: &[Proposal],
) -> Result<Vec<Turn>, AllocError>
    ensures { IfOk result (λ turns. (of_a of_b : List Line) → AreOf of_a a.now → AreOf of_b b.now → AreAssumed turns.items of_a of_b) }
{
    let mut kept = Sifted::new(alloc);
    for proposal in proposals {
        if let Some(turn) = turn_of(a, b, *proposal) {
            kept.put(turn)?;
        }
    }
    Ok(kept.turns())
}

fn turn_of(a: &Spots, b: &Spots, proposal: Proposal) -> Option<Turn>
    ensures { (of_a of_b : List Line) → AreOf of_a a.now → AreOf of_b b.now → IfSome result (FitsIn of_a of_b) }
{
    match proposal.side {
        Side::A => a.turn_at(Side::A, proposal.place, proposal.what),
        Side::B => b.turn_at(Side::B, proposal.place, proposal.what),
    }
}

/// The first unit at which a message is too long, if the spot at this place of that side is a data segment.
pub(crate) fn too_long(a: &Spots, b: &Spots, found: Option<(Side, u64)>) -> Option<(Side, u64)>
    ensures { (of_a of_b : List Line) → AreOf of_a a.now → AreOf of_b b.now → IfSome result (IsTooLong of_a of_b) }
{
    let (side, place) = found?;
    match side {
        Side::A => {
            let unit = a.segment_at(place)?;
            Some((Side::A, unit))
        }
        Side::B => {
            let unit = b.segment_at(place)?;
            Some((Side::B, unit))
        }
    }
}
