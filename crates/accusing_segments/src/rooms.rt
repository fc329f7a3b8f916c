//! For how many data bytes the other side has room in a segment.

ghost use Rattle.std.specs.Prelude.{◌≡◌, ◌||◌, ℕ, false, OnOk};
ghost use Rattle.accusing_segments.specs.History.{is_room};
ghost use Rattle.accusing_segments.specs.Fits.{fits};

use std::alloc::{AllocError, Global};
use std::collections::BTreeMap;
use std::marker::Model;

/// For how many data bytes the links of the other side have room in a segment: by the link that a CI or a CC was for, of a CI 0, and the one that it
/// was from, the largest SEGSIZE. It takes memory for each two links once.
#[derive(Drop)]
pub struct Rooms {
    sizes: BTreeMap<(u16, u16), u16>,
}

impl Model for Rooms {
    ghost use Rattle.std.specs.Prelude.{ℕ, List};

    ghost Value = { List ((ℕ × ℕ) × ℕ) };

    ghost view = { λ r. r.sizes.entries };
}

impl Rooms {
    /// None. It takes no memory.
    pub fn none(alloc: Global) -> Rooms
        ensures { (own far bytes what : ℕ) → fits result own far bytes what ≡ false }
    {
        Rooms {
            sizes: BTreeMap::new(alloc),
        }
    }

    /// Whether a SEGSIZE from `far` to `own` was told that has room for so many data bytes.
    pub fn has(&self, own: u16, far: u16, bytes: usize) -> bool
        ensures { (what : ℕ) → result ≡ fits self.now own far bytes what }
    {
        match self.sizes.get(&(own, far)) {
            Some(size) => bytes <= usize::from(*size),
            None => false,
        }
    }

    /// This SEGSIZE was told from `far` to `own`.
    pub fn tell(&mut self, own: u16, far: u16, segsize: u16) -> Result<(), AllocError>
        ensures { (o f b w : ℕ) → OnOk result (fits self.new o f b w ≡ (is_room own far segsize o f b w || fits self.old o f b w)) }
    {
        if self.has(own, far, usize::from(segsize)) {
            return Ok(());
        }
        self.sizes.insert((own, far), segsize)?;
        Ok(())
    }
}
