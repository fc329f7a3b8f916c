//! Edits that are worth a try.

ghost use Rattle.std.specs.Prelude.{◌≤◌, length};
ghost use Rattle.edited.specs.declared.edits.TheConstants.{MAX_EDITS};

use crate::change::Change;
use crate::mistake::{Mistake, MistakeOf};
use std::alloc::{AllocError, Global};
use wire_base::Side;

/// How many edits are tried at most.
pub const MAX_EDITS: usize = 96;

/// The changes of one side's capture that undo a mistake.
#[derive(Drop)]
pub struct Edit {
    pub of: MistakeOf,
    pub changes: Vec<Change>,
}

/// At most [`MAX_EDITS`] edits, the likeliest first.
#[derive(Drop)]
pub struct Edits {
    list: Vec<Edit>,
    ghost few: { length list.items ≤ MAX_EDITS },
}

impl Edits {
    /// No edits. Takes no memory.
    pub(crate) fn new(alloc: Global) -> Edits {
        Edits {
            list: Vec::new(alloc),
        }
    }

    /// The edits.
    pub fn into_vec(self) -> Vec<Edit>
        ensures { length result.items ≤ MAX_EDITS }
    {
        self.list
    }

    // One more, if there is room and it is not there yet in other words.
    pub(crate) fn add(
        &mut self,
        side: Side,
        mistake: Mistake,
        changes: Vec<Change>,
    ) -> Result<(), AllocError> {
        if self.list.len() >= MAX_EDITS || self.has_exchange(side, mistake) {
            return Ok(());
        }
        let of = MistakeOf { side, mistake };
        self.list.push(Edit { of, changes })?;
        Ok(())
    }

    // Whether an edit exchanges the same two lines, which come one after the other: the later one goes up, or the earlier one down.
    fn has_exchange(&self, side: Side, mistake: Mistake) -> bool {
        let Some(first) = mistake.exchanged() else {
            return false;
        };
        for edit in &self.list {
            if edit.of.side == side && edit.of.mistake.exchanged() == Some(first) {
                return true;
            }
        }
        false
    }
}
