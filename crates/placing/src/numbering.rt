//! Which units of a side give a packet its number, by the numbers that they show.

use crate::said::Said;

/// The last number that a side gave a packet. A start begins anew.
#[derive(Clone, Copy, PartialEq, Eq)]
pub(crate) struct Numbering {
    last: u8,
}

impl Numbering {
    /// No packet has a number.
    pub(crate) fn new() -> Numbering {
        Numbering { last: 0 }
    }

    /// The next packet gets this number.
    pub(crate) fn before(number: u8) -> Numbering {
        Numbering {
            last: number.wrapping_sub(1),
        }
    }

    /// Whether the side's next unit, which says this, gives a packet its number.
    pub(crate) fn is_new(&mut self, said: Said) -> bool {
        match said {
            Said::Strt | Said::Stack => {
                self.last = 0;
                false
            }
            Said::Data { resp: _, num } if num == self.last.wrapping_add(1) => {
                self.last = num;
                true
            }
            _ => false,
        }
    }
}
