//! What a tap is asked for, and what it found.

use placing::Explained;
use wire_base::Side;

/// What a tap is asked for.
#[derive(Clone, Copy, PartialEq, Eq)]
pub struct Asked {
    /// Whether no packet is read.
    pub line_alone: bool,
    /// Whether both sides are explained together.
    pub explained: Explained,
    /// The unit with which both captures are to end, if one is named.
    pub last: Option<(Side, u64)>,
}

/// A unit of a side, counted from 0, and the line of the text on which its first byte is.
#[derive(Clone, Copy, Debug, PartialEq, Eq)]
pub struct Passed {
    pub side: Side,
    pub unit: u64,
    pub line: u64,
}

/// How the captures end.
#[derive(Clone, Copy, Debug, PartialEq, Eq)]
pub enum Ending {
    /// With all units that passed.
    Whole,
    /// With this unit, for which no placing was found.
    Unplaced(Passed),
    /// With this unit, before which there were too many states to try.
    TooWide(Passed),
    /// With this unit, as it was asked for.
    Asked(Passed),
}

/// What is in no capture: maintenance messages, and bytes that belong to no unit, SYN and pads not among them.
#[derive(Clone, Copy, Debug, PartialEq, Eq)]
pub struct Skipped {
    pub maintenance: u64,
    pub bytes: u64,
}

/// What is in a capture: the units of its side, and how many bytes they have, each up to 2^64 - 1.
#[derive(Clone, Copy, Debug, PartialEq, Eq)]
pub struct Units {
    pub count: u64,
    pub bytes: u64,
}

/// What a tap found, and what was skipped of each side.
#[derive(Clone, Copy, Debug, PartialEq, Eq)]
pub struct Tapped {
    pub ending: Ending,
    pub units_a: Units,
    pub units_b: Units,
    pub skipped_a: Skipped,
    pub skipped_b: Skipped,
}

impl Tapped {
    ghost use Rattle.std.specs.Prelude.{◌≡◌, ◌↔◌, IsTrue};
    ghost use Rattle.wire_tap.specs.declared.tapped.Ending.TheVariants.{Whole};

    /// Whether the captures hold all that passed, and that is no unit.
    ///
    /// ```text
    /// a text of a head alone      true
    /// a STRT of side a            false
    /// ```
    pub fn is_silent(self) -> bool
        ensures { IsTrue result ↔ ((self.ending ≡ Whole) × (self.units_a.count ≡ 0) × (self.units_b.count ≡ 0)) }
    {
        match self.ending {
            Ending::Whole => {
                if self.units_a.count != 0 {
                    return false;
                }
                self.units_b.count == 0
            }
            Ending::Unplaced(_) | Ending::TooWide(_) | Ending::Asked(_) => false,
        }
    }
}
