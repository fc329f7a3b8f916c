//! What went first under each number, and which calls passed.

ghost use Rattle.std.specs.Prelude.{◌≡◌, ◌&&◌, ◌||◌, ℕ, true, false, None, OnOk};
ghost use Rattle.dna_packet.specs.Nsp.{segment_view, DataSegment};
ghost use Rattle.dna_links.specs.Segmentation.{piece_of};
ghost use Rattle.dna_links.specs.SegmentBook.{REACH};
ghost use Rattle.accusing_segments.specs.History.{Known, has, is_this};
ghost use Rattle.accusing_segments.specs.Wrong.{is_covered};
ghost use Rattle.accusing_segments.specs.Repeats.{first_of, piece_with};
ghost use Rattle.accusing_segments.specs.Repeats as specs;
ghost use Rattle.accusing_segments.specs.Noted.{first_noted, shown};

use crate::kept::Kept;
use dna_packet::Segment;
use link_segments::Piece;
use std::alloc::{AllocError, Global};
use std::collections::BTreeMap;
use std::marker::Model;

// How many segments may be outstanding.
const REACH: u16 = 2047;

/// Of two links and a number the piece that went first, until it may be acknowledged; and of the CIs and CCs by which links get both addresses which
/// passed once, and which again. It takes memory for the bytes of each piece, and for two links at most twice.
#[derive(Drop)]
pub struct Noted {
    alloc: Global,
    firsts: BTreeMap<(u16, u16, u16), Piece>,
    called: Kept,
    again: Kept,
}

impl Model for Noted {
    ghost use Rattle.accusing_segments.specs.Noted.{Noted};

    ghost Value = { Noted };

    ghost view = { λ n. record { firsts = n.firsts.entries; called = n.called; again = n.again } };
}

impl Noted {
    /// Nothing. It takes no memory.
    pub fn nothing(alloc: Global) -> Noted
        ensures firsts { (o f n : ℕ) → first_noted result.firsts o f n ≡ None }
        ensures called { (o f n w : ℕ) → has result.called o f n w ≡ false }
        ensures again { (o f n w : ℕ) → has result.again o f n w ≡ false }
    {
        Noted {
            alloc,
            firsts: BTreeMap::new(alloc),
            called: Kept::nothing(alloc),
            again: Kept::nothing(alloc),
        }
    }

    /// A CI from the link `far` passed, where `own` is 0, or a CC from it to the link `own`.
    pub fn call(&mut self, own: u16, far: u16) -> Result<(), AllocError>
        ensures firsts { self.new.firsts ≡ self.old.firsts }
        ensures called { (o f n w : ℕ) → OnOk result (has self.new.called o f n w
            ≡ (is_this (own, far, 0, 0) o f n w || has self.old.called o f n w)) }
        ensures again { (o f n w : ℕ) → OnOk result (has self.new.again o f n w
            ≡ ((is_this (own, far, 0, 0) o f n w && has self.old.called o f n w) || has self.old.again o f n w)) }
    {
        if self.called.has(own, far, 0, 0) {
            return self.again.keep(own, far, 0, 0);
        }
        self.called.keep(own, far, 0, 0)
    }

    /// This segment was sent.
    pub fn send(&mut self, segment: &Segment<'_>) -> Result<(), AllocError>
        ensures called { self.new.called ≡ self.old.called }
        ensures again { self.new.again ≡ self.old.again }
        ensures firsts { (o f n : ℕ) → OnOk result (first_noted self.new.firsts o f n
            ≡ first_of (first_noted self.old.firsts o f n) (piece_with (DataSegment (segment_view segment.now)) o f n)) }
    {
        let id = (segment.srcaddr, segment.dstaddr, segment.number);
        if self.firsts.contains_key(&id) {
            return Ok(());
        }
        let piece = Piece::of(self.alloc, segment)?;
        self.firsts.insert(id, piece)?;
        Ok(())
    }

    /// What the link `own` sent to the link `far` under this number was acknowledged, and so were those before it. It takes no memory.
    pub fn release(&mut self, own: u16, far: u16, number: u16)
        ensures called { self.new.called ≡ self.old.called }
        ensures again { self.new.again ≡ self.old.again }
        ensures firsts { (words : Known) → words own far number 0 ≡ true
            → (o f n : ℕ) → is_covered (λ m. words o f m 0) n REACH ≡ false
            → first_noted self.new.firsts o f n ≡ first_noted self.old.firsts o f n }
    {
        if number >= 4096 {
            return;
        }
        for below in 0..REACH {
            if !self.forget(own, far, (number + 4096 - below) % 4096) {
                return;
            }
        }
    }

    // Whether there was one under this number, which is forgotten.
    fn forget(&mut self, own: u16, far: u16, number: u16) -> bool
        ensures called { self.new.called ≡ self.old.called }
        ensures again { self.new.again ≡ self.old.again }
        ensures firsts { (o f n : ℕ) → is_this (own, far, number, 0) o f n 0 ≡ false
            → first_noted self.new.firsts o f n ≡ first_noted self.old.firsts o f n }
    {
        self.firsts.remove(&(own, far, number)).is_some()
    }

    /// Whether it carries something else than the one that went first under its number. It takes no memory.
    pub fn differs(&self, segment: &Segment<'_>) -> bool
        ensures { result ≡ specs.differs (first_noted self.now.firsts segment.now.srcaddr segment.now.dstaddr segment.now.number)
            (piece_of (segment_view segment.now)) }
    {
        match self
            .firsts
            .get(&(segment.srcaddr, segment.dstaddr, segment.number))
        {
            Some(first) => !first.is_carried_by(segment),
            None => false,
        }
    }

    /// At most one link can have had these addresses. It takes no memory.
    pub fn is_one_link(&self, own: u16, far: u16) -> bool
        ensures { result ≡ specs.is_one_link (shown self.now) own far }
    {
        if self.again.has(0, far, 0, 0) {
            return false;
        }
        if self.again.has(own, far, 0, 0) {
            return false;
        }
        if self.called.has(0, far, 0, 0) {
            return !self.called.has(own, far, 0, 0);
        }
        true
    }
}
