//! A link that is asked for and that there is not.

ghost use Rattle.std.specs.Prelude.{◌≡◌};
ghost use Rattle.nsp_link.specs.Missing as spec;

use super::Links;
use crate::Piece;
use crate::failed::MissingLink;
use dna_links::LinkTest;
use wire_base::Window;

impl<W: Window<Piece, 4096> + Drop> Links<W> {
    // What is shown of a link that this test asks for.
    #[inline(never)]
    pub(super) fn missing(&self, wanted: LinkTest) -> MissingLink
        ensures { result ≡ spec.missing wanted self.now }
    {
        MissingLink {
            wanted,
            with_own: self.live_at(own_in(wanted)),
            with_far: self.lives_to(far_in(wanted)),
        }
    }

    // The live link with this own address.
    fn live_at(&self, own: Option<u16>) -> Option<u64>
        ensures { result ≡ spec.live_at self.now own }
    {
        let Some(own) = own else {
            return None;
        };
        match self.find(LinkTest::LiveAt { own }) {
            Some(number) => Some(number as u64),
            None => None,
        }
    }

    // Whether a live link has this far address.
    fn lives_to(&self, far: Option<u16>) -> bool
        ensures { result ≡ spec.is_live_to self.now far }
    {
        match far {
            Some(far) => self.is_live_to(far),
            None => false,
        }
    }
}

// The own address that a test asks for.
fn own_in(test: LinkTest) -> Option<u16>
    ensures { result ≡ spec.own_in test }
{
    match test {
        LinkTest::HasAddress { own }
        | LinkTest::LiveAt { own }
        | LinkTest::TheLink { own, .. }
        | LinkTest::OpenedAt { own }
        | LinkTest::CallingAt { own }
        | LinkTest::ActedOn { own, .. } => Some(own),
        LinkTest::LiveTo { .. } | LinkTest::CalledBy { .. } | LinkTest::BegunBy { .. } => None,
    }
}

// The far address that a test asks for.
fn far_in(test: LinkTest) -> Option<u16>
    ensures { result ≡ spec.far_in test }
{
    match test {
        LinkTest::TheLink { far, .. }
        | LinkTest::LiveTo { far }
        | LinkTest::CalledBy { far }
        | LinkTest::BegunBy { far }
        | LinkTest::ActedOn { far, .. } => Some(far),
        LinkTest::HasAddress { .. }
        | LinkTest::LiveAt { .. }
        | LinkTest::OpenedAt { .. }
        | LinkTest::CallingAt { .. } => None,
    }
}
