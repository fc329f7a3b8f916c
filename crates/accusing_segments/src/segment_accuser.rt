//! The node of one side of a line, accused by the order of its data segments.

ghost use Rattle.std.specs.Prelude.{◌≡◌, [], ◌∷◌, ◌++◌, true, List, OnOk};
ghost use Rattle.dna_station.specs.declared.head.Head.{Head};
ghost use Rattle.accusing.specs.Placing.{Passed, Own, Other};
ghost use Rattle.accusing_links.specs.Answers as anyhow;
ghost use Rattle.accusing_segments.specs.Answers.{IsAfter, IsWrong};
ghost use Rattle.accusing_segments.specs.History.{history};
ghost use Rattle.accusing_segments.specs.Repeats.{repeats};
ghost use Rattle.accusing_segments.specs.Repeats as changes;
ghost use Rattle.accusing_segments.specs.Wrong as specs;

mod asking;
mod noting;

use crate::kept::Kept;
use crate::noted::Noted;
use crate::rooms::Rooms;
use std::alloc::{AllocError, Global};
use std::marker::Model;

/// The node of one side of a line, of whose data segments is asked whether they can follow those that it sent before. The units of both sides are
/// told in the order in which they passed; where one can't be told for want of memory, nothing is to be asked any more.
///
/// ```text
///  passed                                              accuses
///  own    link 7 sends segment 1 to link 9, BOM        no
///  own    link 7 sends segment 2 to link 9, EOM        no
///  own    link 7 sends segment 3 to link 9, EOM        yes: segment 2 ended a message, and this one begins none
///  own    link 7 sends segment 2 to link 9, BOM, EOM   yes: segment 1 did not end its message
///  own    link 7 sends segment 5 to link 9, BOM, EOM   yes: no segment 4 passed
///  other  link 9 acknowledges segment 2 to link 7
///  own    link 7 sends segment 2 to link 9, BOM, EOM   no: it may be acknowledged, and what goes again is not asked then
///
///  passed                                              is too long
///  own    link 7 sends segment 1 to link 9, 20 bytes   yes: no SEGSIZE passed
///  other  link 9 calls, SEGSIZE 20
///  own    link 7 sends segment 1 to link 9, 20 bytes   no
///  own    link 7 sends segment 2 to link 9, 21 bytes   yes
///  other  link 9 acknowledges segment 2 to link 7
///  own    link 7 sends segment 2 to link 9, 21 bytes   no: it may be acknowledged
///
///  passed                                              is changed
///  other  link 9 answers link 7 by a CC
///  own    link 7 sends segment 1 to link 9, `hello`    no
///  own    link 7 sends segment 1 to link 9, `hello`    no
///  own    link 7 sends segment 1 to link 9, `hullo`    yes
///  other  link 9 acknowledges segment 1 to link 7
///  own    link 7 sends segment 1 to link 9, `hullo`    no: it may be acknowledged
///  own    link 7 sends segment 2 to link 9, `world`    no
///  other  link 9 answers link 7 by a CC
///  own    link 7 sends segment 2 to link 9, `would`    no: it may be another link
/// ```
#[derive(Drop)]
pub struct SegmentAccuser {
    // the data segments of this side that passed, with whether they end a message
    ends: Kept,
    // the numbers that the other side acknowledged
    words: Kept,
    // for how many data bytes it has room in a segment
    rooms: Rooms,
    // the data segments of this side that can't be acknowledged, by what they carried first; and the calls of the other side
    noted: Noted,
}

impl Model for SegmentAccuser {
    ghost use Rattle.accusing_segments.specs.Answers.{Sight};

    ghost Value = { Sight };

    ghost view = { λ a. record { ends = a.ends; words = a.words; rooms = a.rooms; noted = a.noted } };
}

impl SegmentAccuser {
    /// Before any unit passed. It takes no memory.
    pub fn new(alloc: Global) -> SegmentAccuser
        ensures after { IsAfter result [] }
    {
        SegmentAccuser {
            ends: Kept::nothing(alloc),
            words: Kept::nothing(alloc),
            rooms: Rooms::none(alloc),
            noted: Noted::nothing(alloc),
        }
    }

    /// This unit of the other side passed, and may come to this side from now on. It takes memory for the numbers that it acknowledges,
    /// for the first SEGSIZE between two links, and for the first two CIs and CCs.
    pub fn other_passed(&mut self, unit: &[u8]) -> Result<(), AllocError>
        ensures { (passed : List Passed) → IsAfter self.old passed → OnOk result (IsAfter self.new (passed ++ Other unit.now ∷ [])) }
    {
        self.hears(unit)
    }

    /// This side sent this unit. It takes memory for a segment, and for its data until they may be acknowledged.
    pub fn own_passed(&mut self, unit: &[u8]) -> Result<(), AllocError>
        ensures { (passed : List Passed) → IsAfter self.old passed → OnOk result (IsAfter self.new (passed ++ Own unit.now ∷ [])) }
    {
        self.sends(unit)
    }

    /// No right node that sends every packet that it composed can send this unit now, whatever came to it of what passed, whatever was lost or
    /// damaged, whatever noise there was and whatever its user did. `false` says nothing. It takes no memory.
    pub fn accuses(&self, unit: &[u8]) -> bool
        ensures known { (passed : List Passed) → IsAfter self.now passed → result ≡ specs.is_wrong_unit (history passed) unit.now }
        ensures wrong { (passed : List Passed) → IsAfter self.now passed → result ≡ true → IsWrong (passed ++ Own unit.now ∷ []) }
    {
        self.is_wrong(unit)
    }

    /// The node with any addresses can't send this unit now if it is a right one, whether it sends every packet that it composed or not, whatever
    /// came to it of what passed, whatever was lost or damaged, whatever noise there was and whatever its user did: its data segment has more bytes
    /// than each SEGSIZE that passed for its link, and can't be one that goes again when it was acknowledged. `false` says nothing. It takes no
    /// memory.
    pub fn is_too_long(&self, unit: &[u8]) -> bool
        ensures known { (passed : List Passed) → IsAfter self.now passed → result ≡ specs.is_long_unit (history passed) unit.now }
        ensures wrong { (passed : List Passed) → IsAfter self.now passed → result ≡ true
            → (head : Head) → anyhow.IsWrong head (passed ++ Own unit.now ∷ []) }
    {
        self.is_long(unit)
    }
    /// The node with any addresses can't send this unit now if it is a right one, whether it sends every packet that it composed or not, whatever
    /// came to it of what passed, whatever was lost or damaged, whatever noise there was and whatever its user did: its data segment has other bytes,
    /// or other bits for the begin and the end of a message, than the first one that went under its number from its link to the other, none of which
    /// can be acknowledged, where at most one CI or CC passed by which a link gets these two addresses. `false` says nothing. It takes no memory.
    pub fn is_changed(&self, unit: &[u8]) -> bool
        ensures known { (passed : List Passed) → IsAfter self.now passed
            → result ≡ changes.is_changed_unit (history passed) (repeats passed) unit.now }
        ensures wrong { (passed : List Passed) → IsAfter self.now passed → result ≡ true
            → (head : Head) → anyhow.IsWrong head (passed ++ Own unit.now ∷ []) }
    {
        self.is_other(unit)
    }
}
