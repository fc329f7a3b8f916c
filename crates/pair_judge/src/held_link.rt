//! The tag of a packet as a line keeps it.

ghost use Rattle.std.specs.Prelude.{◌≡◌};
ghost use Rattle.pair_judge.specs.inner.Held as held;

use dna_links::LinkTag;
use std::marker::Model;

/// The tag of a unit's packet, if it has one, in 24 bytes: an `Option<LinkTag>` has 40. A contract sees it as that.
#[derive(Drop)]
pub struct HeldLink {
    has_tag: bool,
    has_link: bool,
    has_partner: bool,
    link: u64,
    partner: u64,
}

impl Model for HeldLink {
    ghost use Rattle.std.specs.Prelude.{Option, Some, None, if◌then◌else◌};
    ghost use Rattle.dna_links.specs.declared.tag.LinkTag.{LinkTag};
    ghost use Rattle.pair_judge.specs.inner.Held.{if_there};

    ghost Value = { Option LinkTag };

    ghost view = { λ l. if l.has_tag then Some (record { link = if_there l.has_link l.link; partner = if_there l.has_partner l.partner }) else None };
}

impl HeldLink {
    /// This tag.
    #[inline(always)]
    pub fn new(tag: &Option<LinkTag>) -> HeldLink
        ensures { result ≡ tag.now }
    {
        match tag {
            Some(tag) => HeldLink {
                has_tag: true,
                has_link: tag.link.is_some(),
                has_partner: tag.partner.is_some(),
                link: tag.link.unwrap_or(0),
                partner: tag.partner.unwrap_or(0),
            },
            None => HeldLink {
                has_tag: false,
                has_link: false,
                has_partner: false,
                link: 0,
                partner: 0,
            },
        }
    }

    /// The tag.
    #[inline(always)]
    pub fn get(&self) -> Option<LinkTag>
        ensures { result ≡ self.now }
    {
        if !self.has_tag {
            return None;
        }
        Some(LinkTag {
            link: if_there(self.has_link, self.link),
            partner: if_there(self.has_partner, self.partner),
        })
    }
}

// This number, if it is there.
#[inline(always)]
fn if_there(there: bool, number: u64) -> Option<u64>
    ensures { result ≡ held.if_there there number }
{
    if there {
        return Some(number);
    }
    None
}
