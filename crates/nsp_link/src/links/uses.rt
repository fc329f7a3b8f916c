//! What links use of what is counted, and room for one more link.

ghost use Rattle.std.specs.Prelude.{◌≡◌, ◌<◌, ◌^◌, ℕ, Some, true, nat_eq, OnOk};
ghost use Rattle.std.specs.Vec.{vec_len, vec_capacity};
ghost use Rattle.std.specs.HashMap.{spare};
ghost use Rattle.std.specs.HashMap as hashed;
ghost use Rattle.dna_links.specs.declared.queue.Queues.TheVariants.{With};
ghost use Rattle.nsp_link.specs.Kinds.{queues_of};
ghost use Rattle.nsp_link.specs.inner.Index.{IsReleased, IsTaken, counting, held_use, times};
ghost use Rattle.nsp_link.specs.inner.Indexing.{AreIndexed};

use crate::Piece;
use crate::index::Index;
use crate::kind::is_queued;
use crate::link::Link;
use std::alloc::{AllocError, Global};
use wire_base::Window;

// There is room for one more link. No list changes.
pub(super) fn make_room<W: Window<Piece, 4096> + Drop>(
    links: &mut Vec<Link<W>>,
    index: &mut Index,
) -> Result<(), AllocError>
    requires { index.old.waiting < 2 ^ 63 }
    ensures links { links.new.items ≡ links.old.items }
    ensures ok { OnOk result (vec_len links.new < vec_capacity links.new) }
    ensures room { OnOk result (index.new.waiting < spare index.new.reached) }
    ensures reached { (q : ℕ) → times (hashed.get nat_eq index.new.reached q) ≡ times (hashed.get nat_eq index.old.reached q) }
    ensures holders { index.new.holders ≡ index.old.holders }
    ensures callers { index.new.callers ≡ index.old.callers }
    ensures waiting { index.new.waiting ≡ index.old.waiting }
    ensures in_use { index.new.in_use ≡ index.old.in_use }
    ensures counts { index.new.counts ≡ index.old.counts }
{
    links.reserve(1)?;
    index.reserve()?;
    Ok(())
}

// What links use is counted from the first one on where there are queues, and no more where there are none. Nothing else changes.
#[tactic(auto, using(crate::proofs::Giving::indexes))]
pub(super) fn count_uses<W: Window<Piece, 4096> + Drop, const QUEUES: u8>(
    alloc: Global,
    links: &Vec<Link<W>>,
    index: &mut Index,
)
    requires index { AreIndexed links.now.items index.old }
    ensures index { AreIndexed links.now.items index.new }
    ensures kind { index.new.counts ≡ true → queues_of QUEUES ≡ With }
    ensures holders { index.new.holders ≡ index.old.holders }
    ensures callers { index.new.callers ≡ index.old.callers }
    ensures reached { index.new.reached ≡ index.old.reached }
    ensures waiting { index.new.waiting ≡ index.old.waiting }
{
    if !is_queued::<QUEUES>() {
        index.stop_counting();
        return;
    }
    if links.is_empty() {
        index.begin_counting(alloc);
    }
}

// There is room to count one more link that a CI begins. Nothing else changes.
pub(super) fn make_use_room(index: &mut Index) -> Result<(), AllocError>
    ensures ok { OnOk result (index.old.counts ≡ true → 0 < spare index.new.in_use) }
    ensures in_use { (q : ℕ) → times (hashed.get nat_eq index.new.in_use q) ≡ times (hashed.get nat_eq index.old.in_use q) }
    ensures counts { index.new.counts ≡ index.old.counts }
    ensures holders { index.new.holders ≡ index.old.holders }
    ensures callers { index.new.callers ≡ index.old.callers }
    ensures reached { index.new.reached ≡ index.old.reached }
    ensures waiting { index.new.waiting ≡ index.old.waiting }
{
    if !index.counts() {
        return Ok(());
    }
    index.reserve_use()
}

// A CI from this address begins a link, for which there is room.
pub(super) fn begin_use(index: &mut Index, far: u16)
    requires room { index.old.counts ≡ true → 0 < spare index.old.in_use }
    requires few { index.old.counts ≡ true → times (hashed.get nat_eq index.old.in_use far) < 2 ^ 63 }
    ensures in_use { IsTaken (counting index.old.counts) far (λ q. times (hashed.get nat_eq index.old.in_use q))
        (λ q. times (hashed.get nat_eq index.new.in_use q)) }
    ensures counts { index.new.counts ≡ index.old.counts }
    ensures holders { index.new.holders ≡ index.old.holders }
    ensures callers { index.new.callers ≡ index.old.callers }
    ensures reached { index.new.reached ≡ index.old.reached }
    ensures waiting { index.new.waiting ≡ index.old.waiting }
{
    if !index.counts() {
        return;
    }
    index.begin_use(far);
}

// Of a link that a CI from this address began, if one did, nothing is sent any more.
pub(super) fn end_use(index: &mut Index, known: Option<u16>)
    requires { index.old.counts ≡ true → (far : ℕ) → known ≡ Some far → 0 < times (hashed.get nat_eq index.old.in_use far) }
    ensures in_use { IsReleased (counting index.old.counts) known (λ q. times (hashed.get nat_eq index.old.in_use q))
        (λ q. times (hashed.get nat_eq index.new.in_use q)) }
    ensures counts { index.new.counts ≡ index.old.counts }
    ensures holders { index.new.holders ≡ index.old.holders }
    ensures callers { index.new.callers ≡ index.old.callers }
    ensures reached { index.new.reached ≡ index.old.reached }
    ensures waiting { index.new.waiting ≡ index.old.waiting }
{
    if !index.counts() {
        return;
    }
    if let Some(far) = known {
        index.end_use(far);
    }
}

// Without queues what links use is counted no more.
pub(super) fn count_only_with<const QUEUES: u8>(index: &mut Index)
    ensures kind { index.new.counts ≡ true → queues_of QUEUES ≡ With }
    ensures before { index.new.counts ≡ true → index.old.counts ≡ true }
    ensures in_use { index.new.in_use ≡ index.old.in_use }
    ensures holders { index.new.holders ≡ index.old.holders }
    ensures callers { index.new.callers ≡ index.old.callers }
    ensures reached { index.new.reached ≡ index.old.reached }
    ensures waiting { index.new.waiting ≡ index.old.waiting }
{
    if !is_queued::<QUEUES>() {
        index.stop_counting();
    }
}

// What the link with this number uses, if there is one.
#[inline(always)]
pub(super) fn use_of<W: Window<Piece, 4096> + Drop>(
    links: &Vec<Link<W>>,
    number: Option<usize>,
) -> Option<u16>
    ensures { result ≡ held_use number links.now.items }
{
    let Some(number) = number else {
        return None;
    };
    match links.get(number) {
        Some(link) => link.begins_use(),
        None => None,
    }
}
