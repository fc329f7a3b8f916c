//! What a boot makes of the links.

ghost use Rattle.std.specs.Prelude.{◌≡◌, ℕ, None, true, map, nat_eq};
ghost use Rattle.std.specs.Ordering.{nat_cmp};
ghost use Rattle.std.specs.BTreeMap.{get};
ghost use Rattle.std.specs.HashMap as hashed;
ghost use Rattle.dna_links.specs.Queues.{booted, booted_link};
ghost use Rattle.dna_links.specs.WireSegments.{wire_segments};
ghost use Rattle.dna_links.specs.declared.queue.Queues.TheVariants.{With};
ghost use Rattle.nsp_link.specs.Kinds.{queues_of};
ghost use Rattle.nsp_link.specs.inner.Index.{times};
ghost use Rattle.nsp_link.specs.inner.Indexing.{AreDead};

use super::Links;
use crate::Piece;
use crate::index::Index;
use crate::kind::is_queued;
use crate::link::Link;
use std::alloc::Global;
use wire_base::Window;

impl<W: Window<Piece, 4096> + Drop> Links<W> {
    // The node starts anew: all links are over, and none has an address any more.
    pub(super) fn boot<const QUEUES: u8>(&mut self)
        ensures { self.new ≡ booted wire_segments (queues_of QUEUES) self.old }
    {
        self.booted = end_from::<W, QUEUES>(self.alloc, &mut self.links, self.booted);
        self.index = index_of_none::<QUEUES>(self.alloc);
    }
}

// Each of these is over, and has no address; so many from the first on are so for good already. The answer is of how many that holds now.
fn end_from<W: Window<Piece, 4096> + Drop, const QUEUES: u8>(
    alloc: Global,
    links: &mut Vec<Link<W>>,
    booted: usize,
) -> usize
    requires { AreDead booted links.old.items }
    ensures items { links.new.items ≡ map (booted_link wire_segments (queues_of QUEUES)) links.old.items }
    ensures dead { AreDead result links.new.items }
{
    let mut dead = booted;
    for number in booted..links.len() {
        let settled = links[number].boot::<QUEUES>(alloc);
        if settled && dead == number {
            dead = number + 1;
        }
    }
    dead
}

// Of links none of which is found: with queues what they use is counted, and it is nothing.
fn index_of_none<const QUEUES: u8>(alloc: Global) -> Index
    ensures holder { (q : ℕ) → get nat_cmp result.holders q ≡ None }
    ensures caller { (q : ℕ) → get nat_cmp result.callers q ≡ None }
    ensures reached { (q : ℕ) → times (hashed.get nat_eq result.reached q) ≡ 0 }
    ensures waiting { result.waiting ≡ 0 }
    ensures in_use { result.counts ≡ true → (q : ℕ) → times (hashed.get nat_eq result.in_use q) ≡ 0 }
    ensures kind { result.counts ≡ true → queues_of QUEUES ≡ With }
{
    let mut index = Index::new(alloc);
    if is_queued::<QUEUES>() {
        index.begin_counting(alloc);
    }
    index
}
