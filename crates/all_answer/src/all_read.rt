//! What is read again of the capture of one side, from the beginning of its file.

use crate::all_judged::{AllFault, of_text, read_again};
use crate::all_left::NotJudged;
use crate::all_told::Refusal;
use leaving_out::{
    Head, Leaving, address_at, fitted, head, head_fitted, heads_fit, left_out, wrong_node_at,
};
use link_groups::OwnAddress;
use pair_judge::Reason;
use std::alloc::Global;
use std::io::{Read, Seek};
use wire_base::{Side, Tally};

/// The addresses of its head.
pub fn head_of<R: Read + Seek>(alloc: Global, side: Side, file: &mut R) -> Result<Head, AllFault> {
    of_text(side, head(alloc, &mut read_again(side, file)?))
}

/// Which own address its record at this place is about.
pub fn address_of<R: Read + Seek>(
    alloc: Global,
    side: Side,
    place: u64,
    file: &mut R,
) -> Result<Option<OwnAddress>, AllFault> {
    let found = address_at(alloc, side, place, &mut read_again(side, file)?);
    of_text(side, found)
}

/// The text of what is left of it. Where the heads of both captures do not fit, it is left of the text in which they do, and that of the `kept` side
/// stays.
pub fn text_left<R: Read + Seek>(
    alloc: Global,
    kept: Side,
    side: Side,
    not_judged: &NotJudged,
    file: &mut R,
) -> Result<Vec<u8>, AllFault> {
    let leaving = not_judged.leaving();
    let mut reader = read_again(side, file)?;
    if heads_fit(&leaving) {
        return of_text(side, left_out(alloc, side, &leaving, &mut reader));
    }
    let text = of_text(side, fitted(alloc, kept, side, &leaving, &mut reader))?;
    let fitting = Leaving {
        head_of_a: head_fitted(&leaving, kept, Side::A),
        head_of_b: head_fitted(&leaving, kept, Side::B),
        ..leaving
    };
    let mut reader = Tally::new(text.as_slice());
    of_text(side, left_out(alloc, side, &fitting, &mut reader))
}

/// The text of all of it, in format 3.
pub fn text_whole<R: Read + Seek>(
    alloc: Global,
    side: Side,
    judges_all: &NotJudged,
    file: &mut R,
) -> Result<Vec<u8>, AllFault> {
    let leaving = judges_all.leaving();
    of_text(
        side,
        left_out(alloc, side, &leaving, &mut read_again(side, file)?),
    )
}

/// Its first record that is refused for the nodes of a packet that comes (16), if it comes to that.
pub fn wrong_node_of<R: Read + Seek>(
    alloc: Global,
    side: Side,
    not_judged: &NotJudged,
    by_other_end: bool,
    file: &mut R,
) -> Result<Option<Refusal>, AllFault> {
    let leaving = not_judged.leaving();
    let mut reader = read_again(side, file)?;
    let found = wrong_node_at(alloc, side, &leaving, u64::MAX, &mut reader);
    let Some(place) = of_text(side, found)? else {
        return Ok(None);
    };
    Ok(Some(Refusal {
        side,
        place,
        reason: Reason::WrongNode,
        by_other_end,
    }))
}
