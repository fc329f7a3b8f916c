//! Which rows both sides go through, as the judge makes their records.

ghost use Rattle.std.specs.Prelude.{◌≡◌, []};
ghost use Rattle.wire_base.specs.declared.side.Side.TheVariants.{A, B};
ghost use Rattle.coverage.specs.Covered.{side_counts};
ghost use Rattle.coverage.specs.inner.Told.{Told};

use crate::counts::Counts;
use crate::half::Half;
use crate::tracker::Tracker;
use pair_judge::{MadeEntry, Observer};
use std::alloc::AllocError;
use wire_base::Side;

/// How often each side of a pair went through each row, as far as it was told of their records. It takes no memory.
#[derive(Drop, PartialEq, Eq)]
pub struct Cover {
    a: Half,
    b: Half,
}

impl Cover {
    /// No record yet.
    pub(crate) fn new() -> Cover
        ensures { Told result [] }
    {
        let half = Half {
            tracker: Tracker::new(),
            counts: Counts::new(),
        };
        Cover { a: half, b: half }
    }

    /// The counts of a side.
    pub fn of_side(&self, side: Side) -> Counts
        ensures { result.met ≡ side_counts side self.now }
    {
        match side {
            Side::A => self.a.counts,
            Side::B => self.b.counts,
        }
    }
}

impl Observer for Cover {
    ghost told = { Told };

    // Out of line, so that the judge's way is as short as where nobody looks on.
    #[inline(never)]
    fn made(&mut self, next: &MadeEntry<'_>) -> Result<(), AllocError> {
        match next.side {
            Side::A => {
                self.a.meet(next);
                Ok(())
            }
            Side::B => {
                self.b.meet(next);
                Ok(())
            }
        }
    }
}
