//! Tells a ladder of records that were kept.

ghost use Rattle.std.specs.Prelude.{◌≡◌, OnOk};
ghost use Rattle.drawing.specs.Telling.{ladder_behind, ladder_knowing, ladder_told};

use crate::told_record::{Later, ToldRecord};
use ladder::Ladder;
use std::alloc::AllocError;

/// The ladder learns that all of these were made, one after the other; none is drawn, nor their units.
#[tactic(auto, using(crate::proofs::Told::known_one_more))]
pub fn teach_all(ladder: &mut Ladder, records: &[ToldRecord])
    ensures { ladder.new ≡ ladder_knowing ladder.old records.now }
{
    for index in 0..records.len() {
        let Some(next) = records.get(index) else {
            unreachable!();
        };
        next.teach(ladder);
    }
}

/// All of these were made, one after the other. `AllocError` where there is no memory for a unit.
#[tactic(auto, using(crate::proofs::Told::told_one_more))]
pub fn tell_all(ladder: &mut Ladder, records: &[ToldRecord]) -> Result<(), AllocError>
    ensures { OnOk result (ladder.new ≡ ladder_told ladder.old records.now) }
{
    for index in 0..records.len() {
        let Some(next) = records.get(index) else {
            unreachable!();
        };
        next.tell(ladder)?;
    }
    Ok(())
}

/// All of these come after those that are drawn.
#[tactic(auto, using(crate::proofs::Told::followed_one_more))]
pub fn follow_all(ladder: &mut Ladder, later: &[Later])
    ensures { ladder.new ≡ ladder_behind ladder.old later.now }
{
    for index in 0..later.len() {
        let Some(next) = later.get(index) else {
            unreachable!();
        };
        ladder.follows(next.side, next.entry);
    }
}
