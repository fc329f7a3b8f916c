//! How the first link that passes a test is found by an address.

ghost use Rattle.std.specs.Prelude.{◌≡◌, ◌<◌, ℕ, Some, true, length, slice_get, IfSome};
ghost use Rattle.dna_links.specs.LookUps as tests;
ghost use Rattle.dna_play.specs.NextSent.{LinkEnd as StoredLink};
ghost use Rattle.dna_play.specs.StoredLinks.{place_of};
ghost use Rattle.player_end.specs.inner.Addresses.{has};
ghost use Rattle.player_end.specs.inner.Links.{passes_there};

use crate::addresses::Addresses;
use crate::given_piece::GivenPiece;
use crate::link_end::LinkEnd;
use dna_links::LinkTest;
use link_segments::passes;
use wire_base::Window;

/// The number of the first link that passes a test, where each that passes has this address.
pub(super) fn first_in<V: Window<GivenPiece, 4096> + Drop>(
    links: &Vec<LinkEnd<V>>,
    addresses: &Addresses,
    address: u16,
    test: LinkTest,
) -> Option<usize>
    requires { (number : ℕ) (link : StoredLink) → slice_get links.now.items number ≡ Some link → tests.passes test link.port ≡ true
        → has addresses.now.pairs address number ≡ true }
    ensures number { result ≡ place_of test links.now.items }
    ensures within { IfSome result (λ number. number < length links.now.items) }
    ensures passed { IfSome result (λ number. passes_there test (slice_get links.now.items number) ≡ true) }
{
    let mut from = 0;
    while from < links.len() {
        let Some(number) = addresses.first_from(address, from) else {
            return None;
        };
        if passes_at(links, test, number) {
            return Some(number);
        }
        if number >= links.len() {
            return None;
        }
        from = number + 1;
    }
    None
}

// Whether there is a link with this number that passes.
fn passes_at<V: Window<GivenPiece, 4096> + Drop>(
    links: &Vec<LinkEnd<V>>,
    test: LinkTest,
    number: usize,
) -> bool
    ensures { result ≡ passes_there test (slice_get links.now.items number) }
{
    match links.get(number) {
        Some(link) => passes(test, link.port()),
        None => false,
    }
}
