//! How its user, and a message that is sent, finds a link: with queues also one that has ended, while something of it may be sent.

ghost use Rattle.std.specs.Prelude.{◌≡◌, ◌<◌, true, Some, length, slice_get, position, is_some, option_map, IfSome};
ghost use Rattle.std.specs.List.{list_any};
ghost use Rattle.dna_links.specs.LookUps as tests;
ghost use Rattle.dna_links.specs.Queues.{in_use};
ghost use Rattle.dna_links.specs.declared.queue.Queues.TheVariants.{With};
ghost use Rattle.nsp_link.specs.Kinds.{queues_of};
ghost use Rattle.nsp_link.specs.inner.Index as words;
ghost use Rattle.nsp_link.specs.inner.Rows.{is_of_own, number_in_use};

use super::Links;
use crate::Piece;
use crate::kind::is_queued;
use crate::link::Link;
use dna_links::LinkTest;
use link_segments::passes;
use wire_base::Window;

impl<W: Window<Piece, 4096> + Drop> Links<W> {
    // The link that its user, or a message that is sent, finds, with its number.
    #[inline(always)]
    pub(super) fn found_in_use<const QUEUES: u8>(&self, test: LinkTest) -> Option<(usize, &Link<W>)>
        requires { is_of_own test ≡ true }
        ensures number { option_map (λ found. found.0) result ≡ number_in_use (queues_of QUEUES) test self.now }
        ensures link { IfSome result (λ found. slice_get self.now.links found.0 ≡ Some found.1.now) }
        ensures within { IfSome result (λ found. found.0 < length self.now.links) }
    {
        let Some(number) = self.find_in_use::<QUEUES>(test) else {
            return None;
        };
        let Some(link) = self.links.get(number) else {
            unreachable!();
        };
        Some((number, link))
    }

    // Its number.
    #[inline(always)]
    fn find_in_use<const QUEUES: u8>(&self, test: LinkTest) -> Option<usize>
        requires { is_of_own test ≡ true }
        ensures number { result ≡ number_in_use (queues_of QUEUES) test self.now }
        ensures within { IfSome result (λ number. number < length self.now.links) }
    {
        if let Some(number) = self.find(test) {
            return Some(number);
        }
        if !is_queued::<QUEUES>() {
            return None;
        }
        self.find_waiting(test)
    }

    // With queues: the number of the link that passes by its port in use.
    fn find_waiting(&self, test: LinkTest) -> Option<usize>
        requires own { is_of_own test ≡ true }
        ensures number { result ≡ position (λ link. tests.passes test (in_use With link)) self.now.links }
        ensures within { IfSome result (λ number. number < length self.now.links) }
    {
        waiting(&self.links, test, self.index.candidate(test))
    }

    // With queues: something may still be sent of a link that a CI from this address began.
    pub(super) fn is_used_by(&self, far: u16) -> bool
        ensures { result ≡ is_some (position (λ link. tests.passes (LinkTest.BegunBy far) (in_use With link)) self.now.links) }
    {
        if !self.index.counts() {
            return is_used_in(&self.links, far);
        }
        self.index.uses(far) != 0
    }
}

// The same of these links, by a look at each.
fn is_used_in<W: Window<Piece, 4096> + Drop>(links: &Vec<Link<W>>, far: u16) -> bool
    ensures { result ≡ list_any (λ link. tests.passes (LinkTest.BegunBy far) (in_use With link)) links.now.items }
{
    for link in links {
        if passes(LinkTest::BegunBy { far }, link.waiting_port()) {
            return true;
        }
    }
    false
}

// With queues: this number, if its link passes by its port in use.
fn waiting<W: Window<Piece, 4096> + Drop>(
    links: &Vec<Link<W>>,
    test: LinkTest,
    number: Option<usize>,
) -> Option<usize>
    ensures { result ≡ words.passing (λ link. tests.passes test (in_use With link)) links.now.items number }
{
    let Some(number) = number else {
        return None;
    };
    if waits_at(links, test, number) {
        return Some(number);
    }
    None
}

// With queues: whether the link with this number passes by its port in use.
fn waits_at<W: Window<Piece, 4096> + Drop>(
    links: &Vec<Link<W>>,
    test: LinkTest,
    number: usize,
) -> bool
    ensures { result ≡ words.passes_at (λ link. tests.passes test (in_use With link)) links.now.items number }
{
    match links.get(number) {
        Some(link) => passes(test, link.waiting_port()),
        None => false,
    }
}
