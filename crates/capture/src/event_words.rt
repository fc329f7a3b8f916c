//! Reading the words of an event.

ghost use Rattle.std.specs.Prelude.{◌≡◌, ◌≤◌, ℕ, Some};
ghost use Rattle.capture_record.specs.declared.limit.TheConstants.{MAX_LINK};
ghost use Rattle.std.specs.Option.{option_map};
ghost use Rattle.capture.specs.Reading.{must, positive_at, event_at, link_event_at, links_at, message_at, message_within, wide_event_at};
ghost use Rattle.capture.specs.Entries.{told};
ghost use Rattle.capture.specs.Worded.{as_record, linked, messaged, messaged_within};

use crate::number::{number_before, positive_of};
use crate::part::{after, cut_at};
use capture_record::{Entry, MAX_LINK};

/// The address of a link that the text spells, from 1 to 65,535. `1` and `65535` are addresses; `0`, `65536` and `01` are none.
pub fn link_of(text: &[u8]) -> Option<u16>
    ensures { result ≡ positive_at MAX_LINK text.now }
{
    match positive_of(text, MAX_LINK) {
        Some(link) => Some(link as u16),
        None => None,
    }
}

#[tactic(auto, unfolding(crate::specs::Reading::links_at))]
fn links_of(text: &[u8]) -> Option<(u16, u16)>
    ensures { links_at text.now ≡ must result }
{
    let (partner, link) = cut_at(text, b' ')?;
    let partner = link_of(partner)?;
    let link = link_of(link)?;
    Some((partner, link))
}

/// The address of a link and the text of a message, as they follow `in ` in a line, with one space between them. What the
/// text of the message spells is not looked at: `7 -` and `7 x` are both a link and a text, `0 -` and `7` are none.
#[inline(always)]
pub fn message_of(text: &[u8]) -> Option<(u16, &[u8])>
    ensures { message_at text.now ≡ messaged (option_map (λ parts. (parts.0, parts.1.now)) result) }
{
    text_of_link(text)
}

// The same of any text of BYTES, however many it may hold.
#[inline(always)]
fn text_of_link(text: &[u8]) -> Option<(u16, &[u8])>
    ensures { (most : ℕ) → message_within most text.now ≡ messaged_within most (option_map (λ parts. (parts.0, parts.1.now)) result) }
{
    match number_before(text, MAX_LINK) {
        Some((link, bytes)) => of_link(link, bytes),
        None => None,
    }
}

// Both, unless the address is 0.
#[inline(always)]
fn of_link(link: u64, bytes: &[u8]) -> Option<(u16, &[u8])>
    requires { link ≤ MAX_LINK }
    ensures { option_map (λ parts. (parts.0, parts.1.now)) result ≡ linked (Some (link, bytes.now)) }
{
    if link == 0 {
        return None;
    }
    Some((link as u16, bytes))
}

#[tactic(auto, unfolding(crate::specs::Reading::link_event_at))]
fn link_event_of(wide: bool, text: &[u8]) -> Option<(Entry, &[u8])>
    ensures { as_record (link_event_at wide text.now) ≡ told (option_map (λ parts. (parts.0, parts.1.now)) result) }
{
    if let Some(rest) = after(text, b"open ") {
        let link = link_of(rest)?;
        return Some((Entry::Open { link }, rest));
    }
    if let Some(rest) = after(text, b"close ") {
        let link = link_of(rest)?;
        return Some((Entry::Close { link }, rest));
    }
    if let Some(rest) = after(text, b"accept ") {
        let (partner, link) = links_of(rest)?;
        return Some((Entry::Accept { partner, link }, rest));
    }
    if let Some(rest) = after(text, b"reject ") {
        let (partner, link) = links_of(rest)?;
        return Some((Entry::Reject { partner, link }, rest));
    }
    if wide {
        return wide_event_of(text);
    }
    None
}

// An event that format 3 alone has.
#[tactic(auto, unfolding(crate::specs::Reading::wide_event_at))]
fn wide_event_of(text: &[u8]) -> Option<(Entry, &[u8])>
    ensures { as_record (wide_event_at text.now) ≡ told (option_map (λ parts. (parts.0, parts.1.now)) result) }
{
    if text == b"boot".as_slice() {
        return Some((Entry::Boot, text));
    }
    if let Some(rest) = after(text, b"abort ") {
        let link = link_of(rest)?;
        return Some((Entry::Abort { link }, rest));
    }
    if let Some(rest) = after(text, b"interrupt ") {
        let (link, bytes) = text_of_link(rest)?;
        return Some((Entry::Interrupt { link }, bytes));
    }
    if let Some(rest) = after(text, b"interrupted ") {
        let (link, bytes) = text_of_link(rest)?;
        return Some((Entry::Interrupted { link }, bytes));
    }
    None
}

/// The event that the text spells, as it follows `u ` in a line, and the text of its BYTES, where it has any; `None`
/// where it spells none. `open 1` and `in 7 -` are events, `open 0` is none; `boot` is one where the lines of format 3 are there too.
#[tactic(auto, unfolding(crate::specs::Reading::event_at))]
#[inline(never)]
pub fn event_of(wide: bool, text: &[u8]) -> Option<(Entry, &[u8])>
    ensures { as_record (event_at wide text.now) ≡ told (option_map (λ parts. (parts.0, parts.1.now)) result) }
{
    if text == b"start".as_slice() {
        return Some((Entry::Start, text));
    }
    if text == b"halt".as_slice() {
        return Some((Entry::Halt, text));
    }
    if let Some(rest) = after(text, b"in ") {
        let (link, bytes) = message_of(rest)?;
        return Some((Entry::In { link }, bytes));
    }
    if let Some(rest) = after(text, b"up ") {
        let (link, bytes) = message_of(rest)?;
        return Some((Entry::Up { link }, bytes));
    }
    link_event_of(wide, text)
}
