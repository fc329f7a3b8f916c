//! The segments of a link that are received and not delivered.

ghost use Rattle.std.specs.Prelude.{◌≡◌, ◌+◌, ◌-◌, ◌^◌, ◌<◌, ◌≤◌, ◌==◌, ◌++◌, ◌∷◌, [], true, None, Some, length, drop, take, replicate};
ghost use Rattle.std.specs.Prelude.{option_copied, OnOk, OnErr, IfOk, IfSome};
ghost use Rattle.std.specs.VecDeque.{deque_len, deque_capacity};
ghost use Rattle.dna_links.specs.Segmentation.{in_order, in_whole_messages};
ghost use Rattle.dna_links.specs.Segmentation as spec;
ghost use Rattle.link_segments.specs.Received as received;
ghost use Rattle.link_segments.specs.Received.{delivered_pieces, is_missing_at, next_count, next_length};

use crate::Piece;
use std::alloc::{AllocError, Global};
use std::collections::VecDeque;
use std::marker::Model;

/// The segments of a link that are received and not delivered, in the order of their numbers, with a place for each that is missing.
#[derive(Drop)]
pub struct Received {
    // how many come before the first that is missing
    whole: usize,
    pieces: VecDeque<Option<Piece>>,
}

impl Model for Received {
    ghost use Rattle.std.specs.Prelude.{◌≡◌, List, Option};
    ghost use Rattle.dna_links.specs.Segmentation.{Piece, in_order};

    ghost Value = { List (Option Piece) };

    ghost view = { λ r. r.pieces.items };

    ghost invariant = { λ r. r.whole ≡ in_order r.pieces.items };
}

impl Received {
    /// None.
    pub fn new(alloc: Global) -> Received
        ensures { result ≡ [] }
    {
        Received {
            whole: 0,
            pieces: VecDeque::new(alloc),
        }
    }

    /// Whether the segment so far above the highest received without a gap, 1 for the next one, is missing.
    #[tactic(auto, using(crate::proofs::Arrived::arrived))]
    pub fn is_missing(&self, above: usize) -> bool
        requires { 1 ≤ above }
        ensures { result ≡ is_missing_at (in_order self.now + above - 1) self.now }
    {
        if above > self.pieces.len() - self.whole {
            return true;
        }
        piece_at(&self.pieces, self.whole + above - 1).is_none()
    }

    /// Holds the segment so far above the highest received without a gap, 1 for the next one, which is missing. The answer is by how
    /// many the highest received without a gap rises. Where memory is refused, nothing changes.
    #[tactic(auto, using(crate::proofs::Arrived::ordered))]
    #[inline(always)]
    pub fn hold(&mut self, above: usize, piece: Piece) -> Result<usize, AllocError>
        requires next { 1 ≤ above }
        requires near { above < 4096 }
        requires missing { is_missing_at (in_order self.old + above - 1) self.old ≡ true }
        ensures ok { OnOk result (self.new ≡ spec.hold (in_order self.old + above - 1) piece self.old) }
        ensures more { IfOk result (λ more. more ≡ in_order self.new - in_order self.old) }
        ensures short { IfOk result (λ more. more < 2 ^ 63) }
        ensures err { OnErr result (self.new ≡ self.old) }
    {
        put(&mut self.pieces, self.whole, above, piece)?;
        let more = run_from(&self.pieces, self.whole);
        self.whole += more;
        Ok(more)
    }

    /// How many places there are, those of missing pieces among them.
    pub fn len(&self) -> usize
        ensures { result ≡ length self.now }
    {
        self.pieces.len()
    }

    /// How many pieces the next message came in, if it is whole.
    #[tactic(auto, using(crate::proofs::Arrived::counted))]
    pub fn next_count(&self) -> Option<usize>
        ensures count { result ≡ next_count self.now }
        ensures within { IfSome result (λ count. count ≤ in_order self.now) }
    {
        for index in 0..self.whole {
            let Some(piece) = piece_at(&self.pieces, index) else {
                return None;
            };
            if piece.ends() {
                return Some(index + 1);
            }
        }
        None
    }

    /// How many bytes the next message has, if it is whole; at most `usize::MAX` are counted.
    #[tactic(auto, using(crate::proofs::Measured::measured))]
    pub fn next_length(&self) -> Option<usize>
        ensures { result ≡ next_length self.now }
    {
        let mut bytes: usize = 0;
        for index in 0..self.whole {
            let Some(piece) = piece_at(&self.pieces, index) else {
                return None;
            };
            bytes = bytes.saturating_add(piece.body().len());
            if piece.ends() {
                return Some(bytes);
            }
        }
        None
    }

    /// The piece at a place, if one is there.
    pub fn piece(&self, place: usize) -> Option<&Piece>
        ensures { option_copied result ≡ received.piece_at place self.now }
    {
        piece_at(&self.pieces, place)
    }

    /// How many pieces the next whole message came in, if it is this one.
    #[tactic(auto, using(crate::proofs::Arrived::told))]
    #[inline(always)]
    pub fn pieces_of(&self, message: &[u8]) -> Option<usize>
        ensures { result ≡ delivered_pieces message.now self.now }
    {
        let mut rest = message;
        for index in 0..self.pieces.len() {
            let Some(piece) = piece_at(&self.pieces, index) else {
                return None;
            };
            let body = piece.body();
            if piece.ends() {
                if rest != body {
                    return None;
                }
                return Some(index + 1);
            }
            let Some(behind) = without_front(body, rest) else {
                return None;
            };
            rest = behind;
        }
        None
    }

    /// The first pieces, of which none is missing, are delivered.
    #[tactic(auto, using(crate::proofs::Arrived::arrived))]
    #[inline(always)]
    pub fn deliver(&mut self, count: usize)
        requires { count ≤ in_order self.old }
        ensures { self.new ≡ drop count self.old }
    {
        drop_front(&mut self.pieces, count);
        self.whole -= count;
    }

    /// Drops all but whole messages at the front.
    #[tactic(auto, using(crate::proofs::Arrived::wholes))]
    pub fn keep_whole_messages(&mut self)
        ensures { self.new ≡ take (in_whole_messages self.old) self.old }
    {
        let kept = whole_messages(&self.pieces, self.whole);
        self.pieces.truncate(kept);
        self.whole = kept;
    }

    /// Whether there is none.
    pub fn is_empty(&self) -> bool
        ensures { result ≡ (length self.now == 0) }
    {
        self.pieces.is_empty()
    }
}

// Drops so many pieces at the front: one, as most messages come in one, without moving any other.
#[inline(always)]
fn drop_front(pieces: &mut VecDeque<Option<Piece>>, count: usize)
    requires { count ≤ length pieces.old.items }
    ensures { pieces.new.items ≡ drop count pieces.old.items }
{
    if count == 1 {
        pieces.pop_front();
    } else {
        pieces.drain(..count);
    }
}

// What follows these bytes at the front, if they are there.
fn without_front<'a>(front: &[u8], bytes: &'a [u8]) -> Option<&'a [u8]>
    ensures { option_copied result ≡ received.without_front front.now bytes.now }
{
    if front.len() > bytes.len() {
        return None;
    }
    let (first, rest) = bytes.split_at(front.len());
    if front != first {
        return None;
    }
    Some(rest)
}

// The piece at a place, if one is there.
fn piece_at(pieces: &VecDeque<Option<Piece>>, place: usize) -> Option<&Piece>
    ensures { option_copied result ≡ received.piece_at place pieces.now.items }
{
    match pieces.get(place) {
        Some(Some(piece)) => Some(piece),
        _ => None,
    }
}

// Puts so many missing pieces and this one after the others. Where memory is refused, nothing changes.
#[tactic(auto, using(crate::proofs::Arrived::arrived))]
fn append(
    pieces: &mut VecDeque<Option<Piece>>,
    missing: usize,
    piece: Piece,
) -> Result<(), AllocError>
    requires { missing < 4096 }
    ensures ok { OnOk result (pieces.new.items ≡ pieces.old.items ++ (replicate missing None ++ Some piece ∷ [])) }
    ensures err { OnErr result (pieces.new.items ≡ pieces.old.items) }
{
    pieces.reserve(missing + 1)?;
    for _ in 0..missing {
        pieces.push_back_reserved(None);
    }
    pieces.push_back_reserved(Some(piece));
    Ok(())
}

// Puts a piece at its missing place, so far above the highest received without a gap. Where memory is refused, nothing changes.
#[tactic(auto, using(crate::proofs::Arrived::held))]
#[inline(always)]
fn put(
    pieces: &mut VecDeque<Option<Piece>>,
    whole: usize,
    above: usize,
    piece: Piece,
) -> Result<(), AllocError>
    requires whole { whole ≡ in_order pieces.old.items }
    requires next { 1 ≤ above }
    requires near { above < 4096 }
    requires missing { is_missing_at (whole + above - 1) pieces.old.items ≡ true }
    ensures ok { OnOk result (pieces.new.items ≡ spec.hold (whole + above - 1) piece pieces.old.items) }
    ensures err { OnErr result (pieces.new.items ≡ pieces.old.items) }
{
    let room = pieces.len() - whole;
    if above > room {
        return append(pieces, above - room - 1, piece);
    }
    pieces[whole + above - 1] = Some(piece);
    Ok(())
}

// How many pieces are there from this place on, before the first that is missing.
#[tactic(auto, using(crate::proofs::Arrived::runs))]
fn run_from(pieces: &VecDeque<Option<Piece>>, from: usize) -> usize
    requires { from ≤ deque_len pieces.now }
    ensures run { result ≡ in_order (drop from pieces.now.items) }
    ensures short { result < 2 ^ 63 }
{
    let mut run = 0;
    for place in from..pieces.len() {
        let Some(_piece) = piece_at(pieces, place) else {
            return run;
        };
        run += 1;
    }
    run
}

// How many of the first pieces, of which none is missing, are in whole messages.
#[tactic(auto, using(crate::proofs::Arrived::wholes))]
fn whole_messages(pieces: &VecDeque<Option<Piece>>, whole: usize) -> usize
    requires { whole ≡ in_order pieces.now.items }
    ensures { result ≡ in_whole_messages pieces.now.items }
{
    let mut kept = 0;
    for place in 0..whole {
        let Some(piece) = piece_at(pieces, place) else {
            return kept;
        };
        if piece.ends() {
            kept = place + 1;
        }
    }
    kept
}
