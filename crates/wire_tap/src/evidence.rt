//! What shows that a recording is not whole.

use crate::accusation::Broken;
use crate::addressed::Addressed;
use crate::shown::{Shown, may_begin};
use crate::suspects::Suspect;
use crate::tapped::Passed;
use beyond::NodeKind;
use wire_base::Side;

/// What both directions of a recording show.
#[derive(Clone, Copy)]
pub(crate) struct Evidence {
    a: Shown,
    b: Shown,
    /// How many units of both sides passed, maintenance messages among them.
    pub(crate) order: u64,
    // the first side whose first unit can't be one
    begins: Option<Side>,
}

impl Evidence {
    /// Nothing passed.
    pub(crate) const NONE: Evidence = Evidence {
        a: Shown::NOTHING,
        b: Shown::NOTHING,
        order: 0,
        begins: None,
    };

    /// So many bytes of this side belong to no unit.
    pub(crate) fn skip(&mut self, side: Side, bytes: u64) {
        match side {
            Side::A => self.a.skip(bytes),
            Side::B => self.b.skip(bytes),
        }
    }

    /// So many bytes of this side at the end are no whole unit; so many units had passed before the first of them.
    pub(crate) fn end(&mut self, side: Side, bytes: u64, order: u64) {
        match side {
            Side::A => self.a.end(bytes, order),
            Side::B => self.b.end(bytes, order),
        }
    }

    /// A unit of this side was found.
    pub(crate) fn find(&mut self, side: Side) {
        self.order = self.order.saturating_add(1);
        match side {
            Side::A => self.a.find(self.order),
            Side::B => self.b.find(self.order),
        }
    }

    /// This unit passed, whose packet goes there; so many units had passed before its first byte.
    pub(crate) fn pass(&mut self, unit: &[u8], passed: Passed, goes: Addressed, order: u64) {
        if passed.unit == 0 && self.begins.is_none() {
            let after_strt = match passed.side {
                Side::A => self.b.has_strt,
                Side::B => self.a.has_strt,
            };
            if !may_begin(unit, after_strt) {
                self.begins = Some(passed.side);
            }
        }
        match passed.side {
            Side::A => self.a.pass(unit, passed, goes, order),
            Side::B => self.b.pass(unit, passed, goes, order),
        }
    }

    /// What shows that the recording is not whole where this unit is accused; of several, what passed first.
    pub(crate) fn against(&self, suspect: &Suspect) -> Option<Broken> {
        if let Some(side) = self.begins {
            return Some(Broken::Begins { side });
        }
        let before = suspect.passed;
        let of_a = earliest(self.skipped(Side::A, before), self.damaged(Side::A));
        let of_b = earliest(self.skipped(Side::B, before), self.damaged(Side::B));
        if let Some((broken, order)) = earliest(of_a, of_b) {
            if order <= suspect.order {
                return Some(broken);
            }
        }
        if suspect.is_misaddressed {
            return self.misaddressed(before.side);
        }
        None
    }

    /// What the first Init message of this side that tells it says that its node is.
    pub(crate) fn kind(&self, side: Side) -> Option<NodeKind> {
        self.shown(side).kind
    }

    fn shown(&self, side: Side) -> &Shown {
        match side {
            Side::A => &self.a,
            Side::B => &self.b,
        }
    }

    // The first bytes of this side that belong to no unit, and how many units had passed before anything can be missing there.
    fn skipped(&self, side: Side, before: Passed) -> Option<(Broken, u64)> {
        let gap = self.shown(side).gap?;
        let broken = Broken::Skipped {
            side,
            bytes: gap.bytes,
            before,
        };
        Some((broken, gap.order))
    }

    // The first damaged unit of this side, and how many units had passed before it.
    fn damaged(&self, side: Side) -> Option<(Broken, u64)> {
        let damage = self.shown(side).damage?;
        let broken = Broken::Damaged {
            passed: damage.passed,
        };
        Some((broken, damage.order))
    }

    // Whether the head is wrong, where a packet of this side is not from its node to the other one.
    fn misaddressed(&self, side: Side) -> Option<Broken> {
        let is_a = self.a.is_exchanged() && (self.b.is_exchanged() || self.b.has_none());
        let is_b = self.b.is_exchanged() && self.a.has_none();
        if is_a || is_b {
            return Some(Broken::Exchanged);
        }
        if self.shown(side).is_not_between() {
            return Some(Broken::NotBetween { side });
        }
        None
    }
}

// Before which fewer units had passed.
fn earliest(one: Option<(Broken, u64)>, two: Option<(Broken, u64)>) -> Option<(Broken, u64)> {
    let Some((_, order_one)) = one else {
        return two;
    };
    let Some((_, order_two)) = two else {
        return one;
    };
    if order_two < order_one {
        return two;
    }
    one
}
