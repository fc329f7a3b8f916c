//! A side where a record is refused, as it was before it: its station and its live links.

ghost use Rattle.std.specs.Prelude.{◌≡◌, ◌≤◌, IfOk, length, take};
ghost use Rattle.std.specs.List.{filter};
ghost use Rattle.side_words.specs.inner.Sides as spec;

use crate::form::Form;
use crate::link_line::{LinkTold, has_open};
use crate::state_line::StateLine;
use crate::state_text::put_side;
use crate::subject::{Addresses, others, subjects};
use nsp_link::LinkView;
use record_words::words::plural;
use std::alloc::{AllocError, Global};
use std::fmt::Write;
use wire_base::Side;

/// How many live links of a side are shown in rows, so that many of them don't flood the page.
pub const LINKS_SHOWN: usize = 8;

/// The JSON objects of a side and of its live links, each with its LF. Fails for want of memory alone.
pub fn side_json(alloc: Global, state: StateLine, live: &[LinkView]) -> Result<String, AllocError> {
    let mut text = format!(in alloc; "{state}")?;
    put_links(&mut text, Form::Object, state.side, live)?;
    Ok(text)
}

/// The rows of a side: how many of its records are made, its station's variables and its live links, first the one that has the named
/// addresses. Where these are more than [`LINKS_SHOWN`], only those others are shown of which something is open, as many in all at most, and then
/// how many more are live. Fails for want of memory alone.
///
/// ```text
/// a before it (7 records, to line 8)
///   station  RUNNING, start 1, goes with start 1 of b
///   numbers  R 1 received  A 1 acknowledged  N 1 given  T 2 next to send
///            NAKs owed or open: none
///   link     1-2 RUN, SEGSIZE 512
///            given 0, acknowledged 0, received 0, last acknowledged 0
/// ```
pub fn side_text(
    alloc: Global,
    state: StateLine,
    named: Addresses,
    live: &[LinkView],
) -> Result<String, AllocError> {
    let mut text = String::new(alloc);
    put_side(alloc, &mut text, state)?;
    let subjects = subjects(alloc, named, live)?;
    let first = first_links(subjects.as_slice(), LINKS_SHOWN);
    let others = others(alloc, named, live)?;
    put_links(&mut text, Form::Rows, state.side, first)?;
    if live.len() <= LINKS_SHOWN {
        put_links(&mut text, Form::Rows, state.side, others.as_slice())?;
        return Ok(text);
    }
    let unfinished = open_links(alloc, others.as_slice())?;
    let rest = first_links(unfinished.as_slice(), LINKS_SHOWN - first.len());
    put_links(&mut text, Form::Rows, state.side, rest)?;
    put_more(&mut text, live.len() - first.len() - rest.len())?;
    Ok(text)
}

// Appends links.
fn put_links(
    text: &mut String,
    form: Form,
    side: Side,
    links: &[LinkView],
) -> Result<(), AllocError> {
    for link in links {
        put_link(text, form, side, *link)?;
    }
    Ok(())
}

// Appends a link.
fn put_link(text: &mut String, form: Form, side: Side, link: LinkView) -> Result<(), AllocError> {
    write!(text, "{}", LinkTold { form, side, link })
}

// Appends how many more links are live, where there are any.
fn put_more(text: &mut String, more: usize) -> Result<(), AllocError> {
    if more == 0 {
        return Ok(());
    }
    let s = plural(more as u64);
    write!(text, "           and {more} more live link{s}\n")
}

// The links of which something is open.
fn open_links(alloc: Global, links: &[LinkView]) -> Result<Vec<LinkView>, AllocError>
    ensures { IfOk result (λ found. found.items ≡ filter spec.is_open links.now) }
{
    let mut found = Vec::new(alloc);
    for link in links {
        if has_open(link.port.phase, link.numbers) {
            found.push(*link)?;
        }
    }
    Ok(found)
}

// At most so many links at the front.
fn first_links(links: &[LinkView], most: usize) -> &[LinkView]
    ensures links { result.now ≡ take most links.now }
    ensures few { length result.now ≤ most }
{
    if links.len() <= most {
        return links;
    }
    &links[..most]
}
