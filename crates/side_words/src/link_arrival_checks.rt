//! The check of the links that a message which came does not pass, in words.

use crate::nodes::nodes_words;
use dna_links::LinkTag;
use nsp_link::FailedLinkArrival;
use std::fmt::{self, Formatter, Write};
use wire_base::Side;

/// The name of the check.
pub fn link_arrival_check(failed: FailedLinkArrival) -> &'static str {
    match failed {
        FailedLinkArrival::Nodes { .. } => "nodes",
        FailedLinkArrival::OtherCall { .. } => "call",
        FailedLinkArrival::OtherPair { .. } => "pair of links",
    }
}

/// Writes what came to this side.
pub fn write_link_arrival_seen<W: Write>(
    f: &mut Formatter<W>,
    side: Side,
    failed: FailedLinkArrival,
) -> fmt::Result {
    match failed {
        FailedLinkArrival::Nodes { seen, .. } => write!(f, "{}", nodes_words(seen)),
        FailedLinkArrival::OtherCall { seen, .. } => write_tag(f, side, seen),
        FailedLinkArrival::OtherPair { seen, .. } => write_tag(f, side, seen),
    }
}

/// Writes what would be right to come: with it the check is passed.
pub fn write_link_arrival_allowed<W: Write>(
    f: &mut Formatter<W>,
    side: Side,
    failed: FailedLinkArrival,
) -> fmt::Result {
    match failed {
        FailedLinkArrival::Nodes { allowed, .. } => { write!(f, "{}", nodes_words(allowed)) }
        FailedLinkArrival::OtherCall { link, .. } => write_goes_with(f, side, link, None),
        FailedLinkArrival::OtherPair { link, partner, .. } => {
            write_goes_with(f, side, link, partner)
        }
    }
}

// Writes which link of the other side a message belongs to.
fn write_tag<W: Write>(f: &mut Formatter<W>, side: Side, tag: LinkTag) -> fmt::Result {
    f.write_str("a message of ")?;
    write_link_number(f, side.other(), tag.link)?;
    f.write_str(", which then went with ")?;
    write_link_number(f, side, tag.partner)
}

// Writes a link of a side by its number, counted from 1 in the order in which they began, as starts are; or none.
fn write_link_number<W: Write>(
    f: &mut Formatter<W>,
    side: Side,
    number: Option<u64>,
) -> fmt::Result {
    match number {
        Some(link) => write!(f, "link number {} of {side}", counted(link)),
        None => write!(f, "no link of {side}"),
    }
}

// Writes which link of the other side goes with this one, where it is known.
fn write_goes_with<W: Write>(
    f: &mut Formatter<W>,
    side: Side,
    link: u64,
    partner: Option<u64>,
) -> fmt::Result {
    let number = counted(link);
    match partner {
        Some(partner) => write!(
            f,
            "a message of link number {} of {}, which goes with link number {number} of {side}",
            counted(partner),
            side.other()
        ),
        None => write!(
            f,
            "a message of a link that goes with link number {number} of {side}"
        ),
    }
}

// The number of the link before which so many began.
fn counted(link: u64) -> u64 {
    link.saturating_add(1)
}
