//! Records at which the judgement of what is left has to stop, though what is left does not show it: one that is not what it was sent as, or first
//! sent as, by the bytes of the captures themselves; and a message that comes between wrong nodes. What is left is judged with other bytes there.

use crate::all_told::Refusal;
use pair_judge::Reason;
use std::alloc::{AllocError, Global};
use wire_base::Side;

// A maintenance message, which no record may have.
const REFUSED_UNIT: &[u8] = b"900000000001dc90\n";

// A record that is refused wherever it is.
const REFUSED_RECORD: &[u8] = b"s 900000000001dc90\n";

/// What the line of the captures themselves is refused for.
#[derive(Clone, Copy)]
pub enum OfLine {
    NotAsked,
    /// Asked for periods or not; a text that departs before that is refused for nothing.
    Asked {
        any_period: bool,
        refusal: Option<Refusal>,
    },
}

impl OfLine {
    /// The refusal, where it is known already.
    pub fn known(self, any_period: bool) -> Option<Option<Refusal>> {
        match self {
            OfLine::Asked {
                any_period: asked,
                refusal,
            } if asked == any_period => Some(refusal),
            _ => None,
        }
    }
}

/// The record of each side at which it stops, if it comes to that.
#[derive(Clone, Copy)]
pub struct Stops {
    pub a: Option<Refusal>,
    pub b: Option<Refusal>,
}

impl Stops {
    /// The refusal of this record, if it stops there.
    pub fn at(self, side: Side, place: u64) -> Option<Refusal> {
        let stop = match side {
            Side::A => self.a,
            Side::B => self.b,
        };
        match stop {
            Some(stop) if stop.place == place => Some(stop),
            _ => None,
        }
    }

    /// Ends these texts of what is left of both captures at their stops. `AllocError` where there is no memory.
    pub fn put(self, text_a: &mut Vec<u8>, text_b: &mut Vec<u8>) -> Result<(), AllocError> {
        put_stop(text_a, self.a)?;
        put_stop(text_b, self.b)
    }
}

/// The record of this side at which it stops: that which the line refuses, or the first `wrong` one, whichever comes first. What the line refuses for
/// any other reason than the bytes is refused so in what is left too, before anything that is asked of the packet.
pub fn stop_of(side: Side, of_line: Option<Refusal>, wrong: Option<Refusal>) -> Option<Refusal> {
    let Some(refusal) = of_line else {
        return wrong;
    };
    if refusal.side != side {
        return wrong;
    }
    if let Some(wrong) = wrong
        && wrong.place < refusal.place
    {
        return Some(wrong);
    }
    if refusal.reason == Reason::Undetected || refusal.reason == Reason::Changed {
        return Some(refusal);
    }
    None
}

/// Ends this text of what is left at this stop: the bytes of its unit become others, for which it is refused where it comes. It comes where it would
/// have, since its hint stays. `AllocError` where there is no memory.
pub fn put_stop(text: &mut Vec<u8>, stop: Option<Refusal>) -> Result<(), AllocError> {
    let Some(stop) = stop else {
        return Ok(());
    };
    let line = line_at(text.as_slice(), stop.place.saturating_add(2));
    let unit = unit_at(text.as_slice(), line);
    text.truncate(unit);
    text.extend_from_slice(REFUSED_UNIT)
}

/// Ends this text before its line with this number, counted from 1, by a record that is refused.
pub fn put_end(text: &mut Vec<u8>, number: u64) -> Result<(), AllocError> {
    let line = line_at(text.as_slice(), number);
    text.truncate(line);
    text.extend_from_slice(REFUSED_RECORD)
}

// Where the line with this number begins, counted from 1; the end of the text where it has no such line.
fn line_at(text: &[u8], number: u64) -> usize {
    let mut line = 1u64;
    for at in 0..text.len() {
        if line == number {
            return at;
        }
        if text[at] == b'\n' {
            line = line.saturating_add(1);
        }
    }
    text.len()
}

// Where the last word of the line begins that begins there.
fn unit_at(text: &[u8], line: usize) -> usize {
    let mut unit = line;
    for at in line..text.len() {
        match text[at] {
            b'\n' => return unit,
            b' ' => unit = at + 1,
            _ => {}
        }
    }
    unit
}
