//! The links of a node, and how they are found.

ghost use Rattle.std.specs.Prelude.{◌≡◌, ◌<◌, true, None, Some, length, slice_get, is_some, option_map, OnOk, OnErr, IfOk, IfErr, IfSome};
ghost use Rattle.dna_links.specs.LookUps as tests;
ghost use Rattle.dna_links.specs.Links.{number_of};
ghost use Rattle.dna_links.specs.WireLinks.{new_wire_links};
ghost use Rattle.nsp_link.specs.Given.{given_at};
ghost use Rattle.nsp_link.specs.inner.Index.{is_of_one};
ghost use Rattle.nsp_link.specs.inner.Index as words;

mod acting;
mod arriving;
mod begin;
mod boot;
mod change;
mod due;
mod in_use;
mod missing;
mod partner;
mod permitted;
mod sending;
mod shown;
mod taking;
mod user;
mod uses;

use crate::index::Index;
use crate::link::Link;
use crate::{Given, Piece};
use dna_links::LinkTest;
use link_segments::passes;
use std::alloc::Global;
use std::marker::Model;
use wire_base::Window;

/// The links of one node, with three verbs. Each is asked first, which changes nothing, and then made by the permit: [`Links::ask_user`] and
/// [`Links::act`], what their user does; [`Links::ask_sending`] and [`Links::send`], their node sent this; [`Links::ask_arrival`] and
/// [`Links::arrive`], this came. [`Links::user`], [`Links::sent`] and [`Links::arrived`] are both in a row.
///
/// A link goes through the phases of `Phase` (NSP 4.0, port states):
///
/// - `Open` begins one in Calling, and a CC that comes leads it to RUN.
/// - A CI that comes begins one in Called. `Accept` leads it to Confirming, and what comes for it then to RUN; `Reject` leads it to DI; a DC
///   that is sent with SRCADDR 0 ends it.
/// - `Close` leads from Confirming and RUN to DI.
/// - A DI or a DC that comes ends a link in any phase but Called.
/// - `Abort` ends a link in Calling: the call is given up.
/// - `Boot` ends a link in any phase, and so all of them; an address is then no link's any more.
///
/// Each verb is told its `QUEUES`, [`crate::WITHOUT_QUEUES`] or [`crate::WITH_QUEUES`]. With queues between NSP and DDCMP a message that came
/// is acted on at once as well, but what had been composed before that may be sent later: a CI after the CC came, a CC after a message of RUN
/// did, a message of RUN after `Close`, and any of them after a DI or a DC did, as long as its node sent no DC with the link's address, gave
/// that address to no other link and did not boot, and the call was not given up.
#[derive(Drop)]
pub struct Links<W: Window<Piece, 4096> + Drop> {
    node: u16,
    peer: u16,
    // all that ever were, in the order in which they began
    links: Vec<Link<W>>,
    // how many of them, from the first on, a boot has ended for good: the next one passes over these
    booted: usize,
    index: Index,
    alloc: Global,
}

impl<W: Window<Piece, 4096> + Drop> Model for Links<W> {
    ghost use Rattle.dna_links.specs.WireLinks.{WireLinks};
    ghost use Rattle.nsp_link.specs.inner.Indexing.{AreKept};

    ghost Value = { WireLinks };

    ghost view = { λ l. record { node = l.node; peer = l.peer; links = l.links.items } };

    ghost invariant = { λ l. AreKept l.links.items l.booted l.index };
}

impl<W: Window<Piece, 4096> + Drop> Links<W> {
    /// The links of the node with this address, towards the other one, before any record: none. Takes no memory.
    pub fn new(alloc: Global, own: u16, peer: u16) -> Self
        ensures { result ≡ new_wire_links own peer }
    {
        Links {
            node: own,
            peer,
            links: Vec::new(alloc),
            booted: 0,
            index: Index::new(alloc),
            alloc,
        }
    }

    /// How many links ever began. Takes no memory.
    pub fn count(&self) -> u64
        ensures { result ≡ length self.now.links }
    {
        self.links.len() as u64
    }

    /// What the link has given that acts on a message from address `far` to its address `own`: the one in Confirming or RUN with both, if there
    /// is one. Takes no memory.
    #[tactic(auto, using(crate::proofs::Found::found_links))]
    pub fn given(&self, own: u16, far: u16) -> Option<Given>
        ensures given { result ≡ given_at own far self.now }
        ensures below { IfSome result (λ given. given.acknowledged < 4096) }
    {
        let Some((_number, link)) = self.found(LinkTest::ActedOn { own, far }) else {
            return None;
        };
        Some(link.given())
    }

    // The number of the first link that passes a test which at most one passes.
    #[inline(always)]
    fn find(&self, test: LinkTest) -> Option<usize>
        requires { is_of_one test ≡ true }
        ensures number { result ≡ number_of test self.now }
        ensures within { IfSome result (λ number. number < length self.now.links) }
    {
        passing(&self.links, test, self.index.candidate(test))
    }

    // The same link, with its number.
    #[inline(always)]
    fn found(&self, test: LinkTest) -> Option<(usize, &Link<W>)>
        requires { is_of_one test ≡ true }
        ensures number { option_map (λ found. found.0) result ≡ number_of test self.now }
        ensures link { IfSome result (λ found. slice_get self.now.links found.0 ≡ Some found.1.now) }
        ensures within { IfSome result (λ found. found.0 < length self.now.links) }
    {
        let Some(number) = self.find(test) else {
            return None;
        };
        let Some(link) = self.links.get(number) else {
            unreachable!();
        };
        Some((number, link))
    }

    // Whether a live link has this far address.
    fn is_live_to(&self, far: u16) -> bool
        ensures { result ≡ is_some (number_of (LinkTest.LiveTo far) self.now) }
    {
        self.index.times(far) != 0
    }
}

// This number, if its link passes.
#[inline(always)]
fn passing<W: Window<Piece, 4096> + Drop>(
    links: &Vec<Link<W>>,
    test: LinkTest,
    number: Option<usize>,
) -> Option<usize>
    ensures { result ≡ words.passing (λ link. tests.passes test link.port) links.now.items number }
{
    let Some(number) = number else {
        return None;
    };
    if passes_at(links, test, number) {
        return Some(number);
    }
    None
}

// Whether the link with this number passes.
#[inline(always)]
fn passes_at<W: Window<Piece, 4096> + Drop>(
    links: &Vec<Link<W>>,
    test: LinkTest,
    number: usize,
) -> bool
    ensures { result ≡ words.passes_at (λ link. tests.passes test link.port) links.now.items number }
{
    match links.get(number) {
        Some(link) => passes(test, link.port()),
        None => false,
    }
}
