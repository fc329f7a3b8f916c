//! How a link begins, and how it gets its own address.

ghost use Rattle.std.specs.Prelude.{◌≡◌, ◌<◌, ◌++◌, ◌∷◌, [], ℕ, Some, None, true, false, length, slice_get, slice_set, OnOk, OnErr};
ghost use Rattle.std.specs.Vec.{vec_len, vec_capacity};
ghost use Rattle.std.specs.Ordering.{nat_cmp};
ghost use Rattle.std.specs.BTreeMap.{get};
ghost use Rattle.dna_links.specs.Queues.{freed};
ghost use Rattle.dna_links.specs.LookUps.{is_live, is_called, is_calling};
ghost use Rattle.dna_links.specs.Links.{LinkOf, begun, changed, number_of};
ghost use Rattle.dna_links.specs.inner.Forms.{opened};
ghost use Rattle.dna_links.specs.Arriving.{of_partner};
ghost use Rattle.dna_links.specs.inner.Forms.{called};
ghost use Rattle.dna_links.specs.WireSegments.{WireSegments, wire_segments};
ghost use Rattle.nsp_link.specs.Kinds.{queues_of};
ghost use Rattle.nsp_link.specs.inner.Index.{forgotten_at, counted, lives_to};
ghost use Rattle.nsp_link.specs.inner.Queue.{answered_link};
ghost use Rattle.nsp_link.specs.inner.Rows as rows;
ghost use Rattle.nsp_link.specs.inner.Indexing.{AreIndexed};

use super::Links;
use super::uses::{begin_use, count_uses, end_use, make_room, make_use_room, use_of};
use crate::index::Index;
use crate::link::Link;
use crate::{LinkTag, Piece};
use dna_links::{LinkTest, Phase};
use std::alloc::{AllocError, Global};
use wire_base::Window;

impl<W: Window<Piece, 4096> + Drop> Links<W> {
    // A CI begins a link, from an address that no live link knows. Where memory is refused, nothing changes.
    pub(super) fn begin_called<const QUEUES: u8>(
        &mut self,
        far: u16,
        segsize: u16,
        tag: LinkTag,
    ) -> Result<(), AllocError>
        requires { number_of (LinkTest.LiveTo far) self.old ≡ None }
        ensures ok { OnOk result (self.new ≡ begun (called wire_segments of_partner far segsize tag) self.old) }
        ensures err { OnErr result (self.new ≡ self.old) }
    {
        called_at::<W, QUEUES>(
            self.alloc,
            &mut self.links,
            &mut self.index,
            far,
            segsize,
            tag,
        )
    }

    // A link is opened from here, with an own address that no live link has. Where memory is refused, nothing changes.
    pub(super) fn begin_opened<const QUEUES: u8>(&mut self, own: u16) -> Result<(), AllocError>
        requires { number_of (LinkTest.LiveAt own) self.old ≡ None }
        ensures ok { OnOk result (self.new ≡ begun (opened wire_segments own) (freed wire_segments (queues_of QUEUES) own self.old)) }
        ensures err { OnErr result (self.new ≡ self.old) }
    {
        opened_at::<W, QUEUES>(self.alloc, &mut self.links, &mut self.index, own)
    }

    // The link with this number, in Called, is answered: it gets this phase, and an own address that no live link has. Where memory is
    // refused, nothing changes.
    pub(super) fn answer_at<const QUEUES: u8>(
        &mut self,
        number: usize,
        phase: Phase,
        own: u16,
    ) -> Result<(), AllocError>
        requires free { number_of (LinkTest.LiveAt own) self.old ≡ None }
        requires within { number < length self.old.links }
        requires called { (link : LinkOf WireSegments) → slice_get self.old.links number ≡ Some link → is_called link.port.phase ≡ true }
        requires live { is_live phase ≡ true }
        requires answers { is_called phase ≡ false }
        requires known { is_calling phase ≡ false }
        ensures ok { (link : LinkOf WireSegments) → slice_get self.old.links number ≡ Some link → OnOk result
            (self.new ≡ changed number (rows.answered (queues_of QUEUES) phase own link) (freed wire_segments (queues_of QUEUES) own self.old)) }
        ensures err { OnErr result (self.new ≡ self.old) }
    {
        answered_at::<W, QUEUES>(
            self.alloc,
            &mut self.links,
            &mut self.index,
            number,
            phase,
            own,
        )
    }
}

// A link that a CI begins is put after the others; no live one knows its far address. Where memory is refused, nothing changes.
#[tactic(auto, using(crate::proofs::Giving::indexes))]
fn called_at<W: Window<Piece, 4096> + Drop, const QUEUES: u8>(
    alloc: Global,
    links: &mut Vec<Link<W>>,
    index: &mut Index,
    far: u16,
    segsize: u16,
    tag: LinkTag,
) -> Result<(), AllocError>
    requires index { AreIndexed links.old.items index.old }
    requires free { counted (lives_to far) links.old.items ≡ 0 }
    ensures index { AreIndexed links.new.items index.new }
    ensures ok { OnOk result (links.new.items ≡ links.old.items ++ called wire_segments of_partner far segsize tag ∷ []) }
    ensures err { OnErr result (links.new.items ≡ links.old.items) }
{
    let link = Link::called(alloc, far, segsize, tag)?;
    count_uses::<W, QUEUES>(alloc, links, index);
    make_room(links, index)?;
    make_use_room(index)?;
    index.call(far, links.len())?;
    index.reach(far);
    begin_use(index, far);
    links.push_reserved(link);
    Ok(())
}

// The ended link that held an own address, if there is one, loses it.
fn free<W: Window<Piece, 4096> + Drop, const QUEUES: u8>(
    alloc: Global,
    links: &mut Vec<Link<W>>,
    holder: Option<usize>,
)
    requires { (number : ℕ) (link : LinkOf WireSegments) → holder ≡ Some number → slice_get links.old.items number ≡ Some link
        → is_live link.port.phase ≡ false }
    ensures items { links.new.items ≡ forgotten_at (queues_of QUEUES) holder links.old.items }
    ensures len { vec_len links.new ≡ vec_len links.old }
    ensures capacity { vec_capacity links.new ≡ vec_capacity links.old }
{
    let Some(number) = holder else {
        return;
    };
    if number >= links.len() {
        return;
    }
    links[number].forget::<QUEUES>(alloc);
}

// A link that is opened here begins: it holds its own address. Where memory is refused, nothing changes.
#[tactic(auto, using(crate::proofs::Giving::indexes))]
fn opened_at<W: Window<Piece, 4096> + Drop, const QUEUES: u8>(
    alloc: Global,
    links: &mut Vec<Link<W>>,
    index: &mut Index,
    own: u16,
) -> Result<(), AllocError>
    requires index { AreIndexed links.old.items index.old }
    requires dead { (number : ℕ) (link : LinkOf WireSegments) → get nat_cmp index.old.holders own ≡ Some number
        → slice_get links.old.items number ≡ Some link → is_live link.port.phase ≡ false }
    ensures index { AreIndexed links.new.items index.new }
    ensures ok { OnOk result (links.new.items
        ≡ forgotten_at (queues_of QUEUES) (get nat_cmp index.old.holders own) links.old.items ++ opened wire_segments own ∷ []) }
    ensures err { OnErr result (links.new.items ≡ links.old.items) }
{
    let link = Link::opened(alloc, own)?;
    count_uses::<W, QUEUES>(alloc, links, index);
    make_room(links, index)?;
    let holder = index.holder(own);
    index.give(own, links.len())?;
    index.wait();
    end_use(index, use_of(links, holder));
    put_opened::<W, QUEUES>(alloc, links, holder, link);
    Ok(())
}

// A link that is opened here is put after the others; the ended link that held its address loses it.
fn put_opened<W: Window<Piece, 4096> + Drop, const QUEUES: u8>(
    alloc: Global,
    links: &mut Vec<Link<W>>,
    holder: Option<usize>,
    link: Link<W>,
)
    requires room { vec_len links.old < vec_capacity links.old }
    requires dead { (number : ℕ) (link : LinkOf WireSegments) → holder ≡ Some number → slice_get links.old.items number ≡ Some link
        → is_live link.port.phase ≡ false }
    ensures { links.new.items ≡ forgotten_at (queues_of QUEUES) holder links.old.items ++ link ∷ [] }
{
    free::<W, QUEUES>(alloc, links, holder);
    links.push_reserved(link);
}

// The link with this number, in Called, gets this phase, and holds this own address. Where memory is refused, nothing changes.
#[tactic(auto, using(crate::proofs::Giving::indexes))]
fn answered_at<W: Window<Piece, 4096> + Drop, const QUEUES: u8>(
    alloc: Global,
    links: &mut Vec<Link<W>>,
    index: &mut Index,
    number: usize,
    phase: Phase,
    own: u16,
) -> Result<(), AllocError>
    requires index { AreIndexed links.old.items index.old }
    requires dead { (number : ℕ) (link : LinkOf WireSegments) → get nat_cmp index.old.holders own ≡ Some number
        → slice_get links.old.items number ≡ Some link → is_live link.port.phase ≡ false }
    requires within { number < length links.old.items }
    requires called { (link : LinkOf WireSegments) → slice_get links.old.items number ≡ Some link → is_called link.port.phase ≡ true }
    requires live { is_live phase ≡ true }
    requires answers { is_called phase ≡ false }
    requires known { is_calling phase ≡ false }
    ensures index { AreIndexed links.new.items index.new }
    ensures ok { (link : LinkOf WireSegments) → slice_get links.old.items number ≡ Some link
        → OnOk result (links.new.items ≡ slice_set (forgotten_at (queues_of QUEUES) (get nat_cmp index.old.holders own) links.old.items) number
        (answered_link (queues_of QUEUES) phase own link)) }
    ensures err { OnErr result (links.new.items ≡ links.old.items) }
{
    let _port = links[number].port();
    count_uses::<W, QUEUES>(alloc, links, index);
    let holder = index.holder(own);
    index.give(own, number)?;
    end_use(index, use_of(links, holder));
    free::<W, QUEUES>(alloc, links, holder);
    links[number].answer::<QUEUES>(phase, own);
    Ok(())
}
