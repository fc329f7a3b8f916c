//! What one direction of a recording shows of whether it is whole.

use crate::addressed::Addressed;
use crate::tapped::Passed;
use beyond::{NodeKind, kind_in_unit};
use ddcmp_msg::{Reading, read_unit};

// The bytes with which a STRT and a STACK begin.
const ENQ: u8 = 0x05;

const STRT: u8 = 0x06;

const STACK: u8 = 0x07;

/// Bytes between two units of a side that belong to no unit; and how many units of both sides had passed with the first of the two. What is missing
/// beside these bytes passed after that one.
#[derive(Clone, Copy)]
pub(crate) struct Gap {
    pub(crate) bytes: u64,
    pub(crate) order: u64,
    is_open: bool,
}

/// A unit whose data do not match their block check, and how many units of both sides had passed before its first byte.
#[derive(Clone, Copy)]
pub(crate) struct Damage {
    pub(crate) passed: Passed,
    pub(crate) order: u64,
}

/// What one side showed so far.
#[derive(Clone, Copy)]
pub(crate) struct Shown {
    /// Whether a STRT passed.
    pub(crate) has_strt: bool,
    // how many units of both sides had passed with its last unit
    with_last: u64,
    /// The first bytes that belong to no unit.
    pub(crate) gap: Option<Gap>,
    /// The first unit that is damaged.
    pub(crate) damage: Option<Damage>,
    /// Whether packets passed from its node to the other one, the other way, and between others.
    goes_out: bool,
    goes_back: bool,
    goes_elsewhere: bool,
    /// What the first Init message that tells it says that the node is.
    pub(crate) kind: Option<NodeKind>,
}

impl Shown {
    /// Nothing passed.
    pub(crate) const NOTHING: Shown = Shown {
        has_strt: false,
        with_last: 0,
        gap: None,
        damage: None,
        goes_out: false,
        goes_back: false,
        goes_elsewhere: false,
        kind: None,
    };

    /// So many bytes belong to no unit.
    pub(crate) fn skip(&mut self, bytes: u64) {
        self.skip_after(bytes, self.with_last);
    }

    /// So many bytes at the end are no whole unit; so many units of both sides had passed before the first of them.
    pub(crate) fn end(&mut self, bytes: u64, order: u64) {
        self.skip_after(bytes, order);
    }

    fn skip_after(&mut self, bytes: u64, order: u64) {
        if bytes == 0 {
            return;
        }
        match &mut self.gap {
            Some(gap) => {
                if gap.is_open {
                    gap.bytes = gap.bytes.saturating_add(bytes);
                }
            }
            None => {
                self.gap = Some(Gap {
                    bytes,
                    order,
                    is_open: true,
                });
            }
        }
    }

    /// A unit was found; with it so many units of both sides passed.
    pub(crate) fn find(&mut self, order: u64) {
        self.with_last = order;
        if let Some(gap) = &mut self.gap {
            gap.is_open = false;
        }
    }

    /// A unit passed, whose packet goes there; so many units had passed before its first byte.
    pub(crate) fn pass(&mut self, unit: &[u8], passed: Passed, goes: Addressed, order: u64) {
        if is_control(unit, STRT) {
            self.has_strt = true;
        }
        if self.damage.is_none() && is_damaged(unit) {
            self.damage = Some(Damage { passed, order });
        }
        if self.kind.is_none() {
            self.kind = kind_in_unit(unit);
        }
        match goes {
            Addressed::Nowhere => {}
            Addressed::Out | Addressed::OutToNoLink => self.goes_out = true,
            Addressed::Back => self.goes_back = true,
            Addressed::Elsewhere(_) => self.goes_elsewhere = true,
            Addressed::ToItself | Addressed::FromOther => self.goes_elsewhere = true,
        }
    }

    /// All its packets go from the other node to this one, and there are some.
    pub(crate) fn is_exchanged(&self) -> bool {
        self.goes_back && !self.goes_out && !self.goes_elsewhere
    }

    /// It has no packets.
    pub(crate) fn has_none(&self) -> bool {
        !self.goes_back && !self.goes_out && !self.goes_elsewhere
    }

    /// It has packets, and none goes from its node to the other one.
    pub(crate) fn is_not_between(&self) -> bool {
        !self.goes_out && (self.goes_back || self.goes_elsewhere)
    }
}

/// A unit that may be the first one of a side, if a STRT of the other side passed before it or not.
pub(crate) fn may_begin(unit: &[u8], after_strt: bool) -> bool {
    if is_control(unit, STRT) {
        return true;
    }
    after_strt && is_control(unit, STACK)
}

// It has the type of this control message, whatever else is in it.
fn is_control(unit: &[u8], kind: u8) -> bool {
    match unit {
        [first, second, ..] => *first == ENQ && *second == kind,
        _ => false,
    }
}

// Its data do not match their block check.
fn is_damaged(unit: &[u8]) -> bool {
    match read_unit(unit) {
        Reading::HeaderBad | Reading::DataBad => true,
        Reading::Sound(_) | Reading::Malformed(_) => false,
    }
}
