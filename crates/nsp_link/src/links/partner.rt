//! The rule on partners: a message that is acted on is of this pair of links.

ghost use Rattle.std.specs.Prelude.{◌≡◌, true};
ghost use Rattle.dna_links.specs.Arriving as arriving;
ghost use Rattle.dna_links.specs.LinkBook as book;
ghost use Rattle.dna_links.specs.LookUps as tests;
ghost use Rattle.nsp_link.specs.PartnerRules.{partner_rule};

use crate::LinkTag;

// Whether a message is for the link with this number: its sender's link goes with it. Where that is not asked, each is.
pub fn is_for<const OF_PAIR: bool>(number: usize, tag: LinkTag) -> bool
    ensures { result ≡ partner_rule OF_PAIR (arriving.is_for number tag) }
{
    if !OF_PAIR {
        return true;
    }
    tag.link.is_some() && is_known(tag.partner, number as u64)
}

// Whether a message is of the link with this number and this partner; where that is not asked, each is.
pub fn is_of_pair<const OF_PAIR: bool>(number: usize, partner: Option<u64>, tag: LinkTag) -> bool
    ensures { result ≡ partner_rule OF_PAIR (arriving.is_of_pair number partner tag) }
{
    if !OF_PAIR {
        return true;
    }
    are_same(partner, tag.link) && is_known(tag.partner, number as u64)
}

fn are_same(known: Option<u64>, other: Option<u64>) -> bool
    ensures { result ≡ book.are_same known other }
{
    match known {
        Some(number) => is_known(other, number),
        None => false,
    }
}

fn is_known(known: Option<u64>, number: u64) -> bool
    ensures { result ≡ tests.is_at known number }
{
    match known {
        Some(known) => known == number,
        None => false,
    }
}
