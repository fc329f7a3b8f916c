//! What was handed in and is in no segment yet.

ghost use Rattle.std.specs.Prelude.{◌≡◌, ◌≤◌, true, length, slice_get, option_copied, OnOk, OnErr};
ghost use Rattle.dna_packet.specs.Nsp.{segment_view};
ghost use Rattle.dna_links.specs.Segmentation as spec;
ghost use Rattle.dna_links.specs.Segmentation.{has_more};
ghost use Rattle.dna_links.specs.Segmentation.{next_piece};
ghost use Rattle.link_segments.specs.Piece.{slice_view};
ghost use Rattle.dna_links.specs.Segmentation.{piece_of, none_unsent, with_message, is_next_piece, without_piece};

use crate::PieceSlice;
use dna_packet::Segment;
use std::alloc::{AllocError, Global};
use std::collections::VecDeque;
use std::marker::Model;
use wire_base::Copied;

/// The most data bytes of a piece that is composed here.
const SEGSIZE: usize = 512;

/// What was handed in and is in no segment yet. A contract sees the rest of the current message and the messages after it, and
/// whether a segment has begun the current one.
#[derive(Drop)]
pub struct Unsent {
    // a segment has begun the current message
    begun: bool,
    // how many bytes of the current message are in segments
    given: usize,
    // the messages, whole
    messages: VecDeque<Copied>,
}

impl Model for Unsent {
    ghost use Rattle.link_segments.specs.inner.Unsent.{without_given, given_fits};
    ghost use Rattle.dna_links.specs.Segmentation.{Unsent};

    ghost Value = { Unsent };

    ghost view = { λ u. record { begun = u.begun; messages = without_given u.given u.messages.items } };

    ghost invariant = { λ u. given_fits u.given u.messages.items };
}

impl Unsent {
    /// Nothing.
    pub fn new(alloc: Global) -> Unsent
        ensures { result ≡ none_unsent }
    {
        Unsent {
            begun: false,
            given: 0,
            messages: VecDeque::new(alloc),
        }
    }

    /// A message is handed in. Where memory for it is refused, nothing changes.
    #[inline(always)]
    pub fn hand_in(&mut self, alloc: Global, message: &[u8]) -> Result<(), AllocError>
        ensures ok { OnOk result (self.new ≡ with_message message.now self.old) }
        ensures err { OnErr result (self.new ≡ self.old) }
    {
        let copy = Copied::of(alloc, message)?;
        self.messages.reserve(1)?;
        self.messages.push_back_reserved(copy);
        Ok(())
    }

    /// Whether a segment carries the next bytes of the current message: it begins it exactly if nothing has begun it, ends it exactly
    /// if nothing is left after it, and is empty only for an empty message.
    #[inline(always)]
    pub fn is_next(&self, segment: &Segment) -> bool
        ensures { result ≡ is_next_piece (piece_of (segment_view segment.now)) self.now }
    {
        let Some(message) = self.messages.front() else {
            return false;
        };
        let rest = &message.as_slice()[self.given..];
        is_piece_of(segment, self.begun, rest)
    }

    /// The next piece, which this segment carries, is given.
    #[tactic(auto, using(crate::proofs::Pieces::next_pieces))]
    pub fn give(&mut self, segment: &Segment)
        requires { is_next_piece (piece_of (segment_view segment.now)) self.old ≡ true }
        ensures { self.new ≡ without_piece (piece_of (segment_view segment.now)) self.old }
    {
        if segment.ends {
            self.begun = false;
            self.given = 0;
            self.messages.pop_front();
        } else {
            let Some(message) = self.messages.front() else {
                unreachable!();
            };
            let left = message.as_slice().len() - self.given;
            prove!(segment.body.len() <= left);
            self.begun = true;
            self.given += segment.body.len();
        }
    }

    /// Whether a segment has begun the current message.
    pub fn is_begun(&self) -> bool
        ensures { result ≡ self.now.begun }
    {
        self.begun
    }

    /// What is left of the current message, if there is one.
    pub fn rest(&self) -> Option<&[u8]>
        ensures { option_copied result ≡ slice_get self.now.messages 0 }
    {
        match self.messages.front() {
            Some(message) => Some(&message.as_slice()[self.given..]),
            None => None,
        }
    }

    /// Whether something is left.
    pub fn has_more(&self) -> bool
        ensures { result ≡ has_more self.now.messages }
    {
        !self.messages.is_empty()
    }

    /// The next piece: 512 bytes of the current message, or all that is left of it. Where nothing is left, an empty one.
    pub fn next(&self) -> PieceSlice<'_>
        ensures piece { slice_view result ≡ next_piece self.now }
        ensures short { length result.body.now ≤ 512 }
    {
        match self.messages.front() {
            Some(message) => piece_with(self.begun, &message.as_slice()[self.given..]),
            None => piece_with(self.begun, &[]),
        }
    }

    /// The next piece, of at most 512 bytes, is given.
    pub fn give_next(&mut self)
        ensures { self.new ≡ without_piece (next_piece self.old) self.old }
    {
        let Some(message) = self.messages.front() else {
            self.begun = false;
            return;
        };
        let left = message.as_slice().len() - self.given;
        if left <= SEGSIZE {
            self.begun = false;
            self.given = 0;
            self.messages.pop_front();
        } else {
            self.begun = true;
            self.given += SEGSIZE;
        }
    }
}

// Whether a segment carries the next bytes of a message of which this is left, and which a segment has begun or has not.
fn is_piece_of(segment: &Segment, begun: bool, rest: &[u8]) -> bool
    ensures { result ≡ spec.is_piece_of (piece_of (segment_view segment.now)) begun rest.now }
{
    let body = segment.body;
    if body.len() > rest.len() {
        return false;
    }
    if body != &rest[..body.len()] {
        return false;
    }
    if segment.begins == begun {
        return false;
    }
    if segment.ends != (body.len() == rest.len()) {
        return false;
    }
    !body.is_empty() || rest.is_empty()
}

// The next piece of a message of which this is left, and which a segment has begun or has not.
fn piece_with(begun: bool, rest: &[u8]) -> PieceSlice<'_>
    ensures piece { slice_view result ≡ spec.piece_with begun rest.now }
    ensures short { length result.body.now ≤ 512 }
{
    if rest.len() <= SEGSIZE {
        return PieceSlice {
            begins: !begun,
            ends: true,
            body: rest,
        };
    }
    PieceSlice {
        begins: !begun,
        ends: false,
        body: &rest[..SEGSIZE],
    }
}
