//! What is at the front of some bytes.

ghost use Rattle.std.specs.Prelude.{◌≡◌, ◌≤◌, ◌<◌, ◌+◌, length, take, drop, slice_index, Some, None};
ghost use Rattle.framer.specs.Framing.{front, front_of_kind, kind_of};
ghost use Rattle.framer.specs.Given.{Passes};
ghost use Rattle.framer.specs.inner.Held.{StandsAt};
ghost use Rattle.framer.specs.declared.front.Front.TheVariants.{Cut, Whole};
ghost use Rattle.framer.specs.declared.limit.TheConstants.{MAX_FRAME};

use crate::kind::Kind;
use crate::limit::HEADER_LEN;
use wire_base::checks;

const SYN: u8 = 0x96;

const PAD: u8 = 0xff;

/// What is at the front of some bytes of a line.
#[derive(Clone, Copy, PartialEq, Eq)]
pub enum Front {
    /// A byte that may come between units: SYN, or a pad.
    Between,
    /// A byte that belongs to no unit.
    Stray,
    /// A unit of so many bytes.
    Whole(usize),
    /// Nothing, or the beginning of what may be a unit: what it is, more bytes decide.
    Cut,
}

/// What is at the front of these bytes. Takes no memory.
#[tactic(auto, unfolding(crate::specs::Framing::front))]
#[inline(always)]
pub(crate) fn front_of(bytes: &[u8]) -> Front
    ensures value { result ≡ front bytes.now }
    ensures short { result ≡ Cut → length bytes.now < MAX_FRAME }
{
    if bytes.is_empty() {
        return Front::Cut;
    }
    let start = bytes[0];
    if start == SYN {
        return Front::Between;
    }
    if start == PAD {
        return Front::Between;
    }
    match Kind::of(start) {
        Some(kind) => kind_front(kind, bytes),
        None => Front::Stray,
    }
}

// What bytes that a unit of this kind may start with begin with.
#[inline(always)]
fn kind_front(kind: Kind, bytes: &[u8]) -> Front
    ensures value { result ≡ front_of_kind kind bytes.now }
    ensures short { result ≡ Cut → length bytes.now < MAX_FRAME }
{
    if bytes.len() < HEADER_LEN {
        return Front::Cut;
    }
    if !checks(&bytes[..HEADER_LEN]) {
        return Front::Stray;
    }
    let len = kind.unit_len(bytes);
    if bytes.len() < len {
        return Front::Cut;
    }
    Front::Whole(len)
}

/// How many bytes come before what may be a unit, how many of them are stray, and the length of the unit if it is whole.
#[derive(Clone, Copy)]
pub(crate) struct Passed {
    pub(crate) at: usize,
    pub(crate) strays: usize,
    pub(crate) len: Option<usize>,
}

/// Passes over the bytes that come before the first unit, whole or cut.
#[inline(always)]
pub(crate) fn pass(bytes: &[u8]) -> Passed
    ensures passes { Passes bytes.now result.strays (drop result.at bytes.now) }
    ensures found { StandsAt (front (drop result.at bytes.now)) result.len }
    ensures within { result.at ≤ length bytes.now }
    ensures few { result.strays ≤ result.at }
    ensures short { result.len ≡ None → length bytes.now < MAX_FRAME + result.at }
{
    let mut strays = 0;
    for at in 0..bytes.len() {
        match front_of(&bytes[at..]) {
            Front::Between => {}
            Front::Stray => strays += 1,
            Front::Whole(len) => {
                return Passed {
                    at,
                    strays,
                    len: Some(len),
                };
            }
            Front::Cut => {
                return Passed {
                    at,
                    strays,
                    len: None,
                };
            }
        }
    }
    Passed {
        at: bytes.len(),
        strays,
        len: None,
    }
}

/// A whole unit and its kind, and what comes after it.
#[inline(always)]
pub(crate) fn part(bytes: &[u8], len: usize) -> (Kind, &[u8], &[u8])
    requires some { 0 < len }
    requires within { len ≤ length bytes.now }
    requires whole { front bytes.now ≡ Whole len }
    ensures kind { kind_of (slice_index bytes.now 0) ≡ Some result.0 }
    ensures unit { result.1.now ≡ take len bytes.now }
    ensures rest { result.2.now ≡ drop len bytes.now }
{
    match Kind::of(bytes[0]) {
        Some(kind) => {
            let (unit, rest) = bytes.split_at(len);
            (kind, unit, rest)
        }
        None => unreachable!(),
    }
}
