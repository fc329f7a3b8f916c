//! A unit that was sent and may still be received.

ghost use Rattle.std.specs.Prelude.{◌≡◌};
ghost use Rattle.ddcmp_msg.specs.Reading.{reading};

use crate::held_link::HeldLink;
use crate::held_unit::HeldUnit;
use dna_station::Tag;
use std::marker::Model;

/// A unit that was sent, as a line lends it: its bytes, which are a sound message, and its tags. A contract sees it as the unit of the
/// definitions, whose message is what its bytes say.
#[derive(Drop)]
pub struct LineUnit<'a> {
    unit: &'a HeldUnit,
    tag: &'a Tag,
}

impl<'a> Model for LineUnit<'a> {
    ghost use Rattle.dna_node.specs.WireLayers.{WireLayersUnit};
    ghost use Rattle.pair_judge.specs.inner.Held.{sent_as};

    ghost Value = { WireLayersUnit };

    ghost view = { λ u. sent_as u.unit.now u.tag.now };
}

impl<'a> LineUnit<'a> {
    ghost use Rattle.pair_judge.specs.inner.Held.{sent_as};
    ghost use Rattle.pair_judge.specs.inner.Unit.{unit_of, IsSoundReading};

    /// This unit, sent with this tag of its station.
    #[inline(always)]
    pub fn new(unit: &'a HeldUnit, tag: &'a Tag) -> LineUnit<'a>
        ensures { result ≡ sent_as unit.now tag.now }
    {
        LineUnit { unit, tag }
    }

    /// Its bytes.
    #[inline(always)]
    pub fn bytes(&self) -> &[u8]
        ensures bytes { result.now ≡ self.now.bytes }
        ensures sound { IsSoundReading (reading self.now.bytes) }
        ensures message { self.now ≡ unit_of self.now.bytes self.now.known }
    {
        self.unit.bytes()
    }

    /// The tag of its station that it was sent with.
    #[inline(always)]
    pub fn station(&self) -> Tag
        ensures { result ≡ self.now.known.station }
    {
        *self.tag
    }

    /// The tag of its packet, if it has one.
    #[inline(always)]
    pub fn link(&self) -> &HeldLink
        ensures { result.now ≡ self.now.known.link }
    {
        self.unit.link()
    }
}
