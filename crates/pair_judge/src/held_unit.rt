//! A unit as a line keeps it.

ghost use Rattle.std.specs.Prelude.{◌≡◌};
ghost use Rattle.ddcmp_msg.specs.Reading.{reading};

use crate::held_link::HeldLink;
use capture_record::Bytes;
use dna_links::LinkTag;
use std::marker::Model;

/// The bytes of a unit that was sent, which are a sound message, and the tag of its packet.
#[derive(Drop)]
pub struct HeldUnit {
    bytes: Bytes,
    link: HeldLink,
}

impl Model for HeldUnit {
    ghost use Rattle.ddcmp_msg.specs.Reading.{reading};
    ghost use Rattle.pair_judge.specs.inner.Held.{HeldValue, held_value};
    ghost use Rattle.pair_judge.specs.inner.Unit.{IsSoundReading};

    ghost Value = { HeldValue };

    ghost view = { λ u. held_value u.bytes u.link };

    ghost invariant = { λ u. IsSoundReading (reading u.bytes) };
}

impl HeldUnit {
    ghost use Rattle.pair_judge.specs.inner.Held.{held_value};
    ghost use Rattle.pair_judge.specs.inner.Unit.{IsSoundReading};

    /// A unit with these bytes, in the memory that they have, and with this tag of its packet. Takes no memory.
    #[inline(always)]
    pub fn new(bytes: Bytes, link: &Option<LinkTag>) -> HeldUnit
        requires { IsSoundReading (reading bytes) }
        ensures { result ≡ held_value bytes link.now }
    {
        HeldUnit {
            bytes,
            link: HeldLink::new(link),
        }
    }

    /// Its bytes.
    #[inline(always)]
    pub fn bytes(&self) -> &[u8]
        ensures bytes { result.now ≡ self.now.bytes }
        ensures sound { IsSoundReading (reading self.now.bytes) }
    {
        self.bytes.as_slice()
    }

    /// The tag of its packet.
    #[inline(always)]
    pub fn link(&self) -> &HeldLink
        ensures { result.now ≡ self.now.link }
    {
        &self.link
    }

    /// Its bytes, in the memory that they have. Takes no memory.
    #[inline(always)]
    pub fn into_bytes(self) -> Bytes
        ensures { result ≡ self.bytes }
    {
        let HeldUnit { bytes, link: _ } = self;
        bytes
    }
}
