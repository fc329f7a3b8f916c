//! Memory of units that were let go.

ghost use Rattle.std.specs.Prelude.{◌≡◌, ◌≤◌, ◌<◌, length, IfOk, IfSome, vec_capacity};
ghost use Rattle.pair_judge.specs.declared.spare.TheConstants.{MOST};

use capture_record::Bytes;
use std::alloc::{AllocError, Global};

/// As many spare ones are kept at most: the units that a station may send without an answer.
const MOST: usize = 256;

/// No memory is taken for fewer bytes, so that a short unit leaves room for the next one, whatever it says.
const LEAST: usize = 24;

/// The memory of units that were let go, for those to come. Its own memory is taken when it is made.
#[derive(Drop)]
pub struct Spare {
    rooms: Vec<Vec<u8>>,
    ghost room_for_most: { MOST ≤ vec_capacity rooms },
}

impl Spare {
    /// None yet.
    pub fn new(alloc: Global) -> Result<Spare, AllocError> {
        Ok(Spare {
            rooms: Vec::with_capacity(alloc, MOST)?,
        })
    }

    /// A copy of these bytes, in the memory of one that was let go, if one has room; else memory is taken. `AllocError`
    /// where that was refused.
    #[inline(always)]
    pub fn copied(&mut self, alloc: Global, bytes: &[u8]) -> Result<Bytes, AllocError>
        ensures { IfOk result (λ copy. copy ≡ bytes.now) }
    {
        let Some(place) = self.newest_with_room(bytes.len()) else {
            return self.short_of_room(alloc, bytes);
        };
        let mut own = self.rooms.swap_remove(place);
        if own.len() != bytes.len() {
            return refilled(own, bytes);
        }
        own.copy_from_slice(bytes);
        Ok(Bytes::new(own))
    }

    /// Keeps the memory of these bytes, unless enough is kept. Takes no memory.
    #[inline(always)]
    pub fn keep(&mut self, bytes: Bytes) {
        if self.rooms.len() < MOST {
            self.rooms.push_reserved(bytes.into_vec());
        }
    }

    // Where one with room for so many bytes is kept. The newest is looked at first, since most units of a line have one length.
    #[inline(always)]
    fn newest_with_room(&self, len: usize) -> Option<usize>
        ensures { IfSome result (λ place. place < length self.now.rooms.items) }
    {
        let mut above = self.rooms.len();
        while above > 0 {
            above -= 1;
            if self.rooms[above].capacity() >= len {
                return Some(above);
            }
        }
        None
    }

    // None that is kept has room: memory is taken, and one of them goes, so that the others do not stay too short for ever.
    #[inline(never)]
    fn short_of_room(&mut self, alloc: Global, bytes: &[u8]) -> Result<Bytes, AllocError>
        ensures { IfOk result (λ copy. copy ≡ bytes.now) }
    {
        let _ = self.rooms.pop();
        let mut own = Vec::with_capacity(alloc, bytes.len().max(LEAST))?;
        own.extend_from_slice(bytes)?;
        Ok(Bytes::new(own))
    }
}

// A copy of these bytes in this memory, which held more or fewer of them.
#[inline(always)]
fn refilled(room: Vec<u8>, bytes: &[u8]) -> Result<Bytes, AllocError>
    ensures { IfOk result (λ copy. copy ≡ bytes.now) }
{
    let mut own = room;
    own.clear();
    own.extend_from_slice(bytes)?;
    Ok(Bytes::new(own))
}
