//! The links of an end.

ghost use Rattle.std.specs.Prelude.{◌≡◌, ◌<◌, ℕ, Some, true, length, slice_get, option_map, OnOk, OnErr, IfSome};
ghost use Rattle.dna_links.specs.LookUps.{is_live, passes};
ghost use Rattle.dna_play.specs.NextSent.{LinkEnd as StoredLink};
ghost use Rattle.dna_play.specs.StoredEnd.{no_stored_links};
ghost use Rattle.dna_play.specs.StoredLinks.{place_of};
ghost use Rattle.dna_play.specs.StoredLinks as stored;
ghost use Rattle.player_end.specs.inner.Addresses.{has};
ghost use Rattle.player_end.specs.inner.Index.{LivesAt, live_of, needs_life, place_among};

mod arriving;
mod composing;
mod finding;
mod user;

use crate::addresses::Addresses;
use crate::given_piece::GivenPiece;
use crate::link_end::LinkEnd;
use crate::marks::Marks;
use crate::owed_confirm::OwedConfirm;
use dna_links::{LinkTest, Port};
use finding::first_in;
use std::alloc::{AllocError, Global};
use std::collections::VecDeque;
use std::marker::Model;
use wire_base::Window;

/// The links of an end, and the DCs that it owes, the oldest first. Each link that ever began stays at its number, the count of those that
/// began before it; one that ends gives its memory back, and no call looks at it again. A contract sees all of them, and by `live_of` those
/// that live.
#[derive(Drop)]
pub struct LinkEnds<V: Window<GivenPiece, 4096> + Drop> {
    links: Vec<LinkEnd<V>>,
    owns: Addresses,
    fars: Addresses,
    marks: Marks,
    confirms: VecDeque<OwedConfirm>,
    alloc: Global,
}

impl<V: Window<GivenPiece, 4096> + Drop> Model for LinkEnds<V> {
    ghost use Rattle.dna_play.specs.StoredEnd.{StoredLinks};
    ghost use Rattle.player_end.specs.inner.Addresses.{has};
    ghost use Rattle.player_end.specs.inner.Index.{IsIndexed};

    ghost Value = { StoredLinks };

    ghost view = { λ l. record { links = l.links.items; confirms = l.confirms.items } };

    ghost invariant = { λ l. IsIndexed l.links.items (has l.owns.pairs) (has l.fars.pairs) l.marks.marks.items };
}

impl<V: Window<GivenPiece, 4096> + Drop> LinkEnds<V> {
    /// None. Takes no memory.
    pub fn new(alloc: Global) -> Self
        ensures { result ≡ no_stored_links }
    {
        LinkEnds {
            links: Vec::new(alloc),
            owns: Addresses::new(alloc),
            fars: Addresses::new(alloc),
            marks: Marks::new(alloc),
            confirms: VecDeque::new(alloc),
            alloc,
        }
    }

    /// The first link that passes a test which no link passes that has ended, and its number.
    pub fn found(&self, test: LinkTest) -> Option<(usize, &LinkEnd<V>)>
        requires { needs_life test ≡ true }
        ensures number { option_map (λ found. found.0) result ≡ place_of test self.now.links }
        ensures link { IfSome result (λ found. slice_get self.now.links found.0 ≡ Some found.1.now) }
        ensures within { IfSome result (λ found. found.0 < length self.now.links) }
        ensures lives { IfSome result (λ found. LivesAt found.0 self.now) }
    {
        let Some(number) = self.find(test) else {
            return None;
        };
        let Some(link) = self.links.get(number) else {
            unreachable!();
        };
        Some((number, link))
    }

    // Its number.
    fn find(&self, test: LinkTest) -> Option<usize>
        requires { needs_life test ≡ true }
        ensures number { result ≡ place_of test self.now.links }
        ensures within { IfSome result (λ number. number < length self.now.links) }
        ensures lives { IfSome result (λ number. LivesAt number self.now) }
    {
        let (addresses, address) = self.known_by(test);
        first_in(&self.links, addresses, address, test)
    }

    // The addresses among which each link is known that passes this test, and the one which it has there.
    fn known_by(&self, test: LinkTest) -> (&Addresses, u16)
        ensures { (number : ℕ) (link : StoredLink) → slice_get self.now.links number ≡ Some link → passes test link.port ≡ true
            → has result.0.now.pairs result.1 number ≡ true }
    {
        match test {
            LinkTest::HasAddress { own }
            | LinkTest::LiveAt { own }
            | LinkTest::TheLink { own, .. }
            | LinkTest::OpenedAt { own }
            | LinkTest::CallingAt { own }
            | LinkTest::ActedOn { own, .. } => (&self.owns, own),
            LinkTest::LiveTo { far } | LinkTest::CalledBy { far } | LinkTest::BegunBy { far } => {
                (&self.fars, far)
            }
        }
    }

    // A link begins, and may have something to send. Where memory is refused, nothing changes.
    fn begin(&mut self, link: LinkEnd<V>) -> Result<(), AllocError>
        requires { is_live link.port.phase ≡ true }
        ensures ok { OnOk result (live_of self.new ≡ stored.begun link (live_of self.old)) }
        ensures err { OnErr result (self.new ≡ self.old) }
    {
        self.marks.reserve()?;
        let number = self.links.len();
        know(&mut self.owns, &mut self.fars, link.port(), number)?;
        let Ok(()) = self.links.push(link) else {
            return Err(AllocError);
        };
        self.marks.begin();
        Ok(())
    }

    /// The link with this number ends, and gives its memory back.
    pub fn end_at(&mut self, number: usize)
        requires within { number < length self.old.links }
        requires lives { LivesAt number self.old }
        ensures { live_of self.new ≡ stored.ended (place_among number self.old.links) (live_of self.old) }
    {
        let port = self.links[number].port();
        self.links[number] = LinkEnd::gone(self.alloc);
        forget(&mut self.owns, &mut self.fars, port, number);
    }
}

// The addresses of a link are known beside its number. Where memory is refused, those that were known are.
fn know(
    owns: &mut Addresses,
    fars: &mut Addresses,
    port: Port,
    number: usize,
) -> Result<(), AllocError>
    ensures own { (q : ℕ) → port.own ≡ Some q → OnOk result (has owns.new.pairs q number ≡ true) }
    ensures far { (q : ℕ) → port.far ≡ Some q → OnOk result (has fars.new.pairs q number ≡ true) }
    ensures owns { (q other : ℕ) → has owns.old.pairs q other ≡ true → has owns.new.pairs q other ≡ true }
    ensures fars { (q other : ℕ) → has fars.old.pairs q other ≡ true → has fars.new.pairs q other ≡ true }
{
    if let Some(own) = port.own {
        owns.insert(own, number)?;
    }
    if let Some(far) = port.far {
        fars.insert(far, number)?;
    }
    Ok(())
}

// The addresses of a link that ends are known no more; those of all others are.
fn forget(owns: &mut Addresses, fars: &mut Addresses, port: Port, number: usize)
    ensures owns { (q other : ℕ) → (other ≡ number → ⊥) → has owns.old.pairs q other ≡ true → has owns.new.pairs q other ≡ true }
    ensures fars { (q other : ℕ) → (other ≡ number → ⊥) → has fars.old.pairs q other ≡ true → has fars.new.pairs q other ≡ true }
{
    if let Some(own) = port.own {
        owns.remove(own, number);
    }
    if let Some(far) = port.far {
        fars.remove(far, number);
    }
}
