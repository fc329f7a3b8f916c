//! What a segment carries.

ghost use Rattle.std.specs.Prelude.{◌≡◌, IfOk};
ghost use Rattle.dna_packet.specs.Nsp.{segment_view};
ghost use Rattle.dna_links.specs.Segmentation.{piece_of, same_piece};

use dna_packet::Segment;
use std::alloc::{AllocError, Global};
use std::marker::Model;
use wire_base::Copied;

/// A piece of a message, as a segment carries it: whether it begins a message and whether it ends one (bits 5 and 6 of the flag byte),
/// and a copy of its data. A contract sees it as the record of the three.
#[derive(Drop)]
pub struct Piece {
    begins: bool,
    ends: bool,
    body: Copied,
}

impl Model for Piece {
    ghost use Rattle.dna_links.specs.Segmentation.{Piece};

    ghost Value = { Piece };

    ghost view = { λ p. record { begins = p.begins; ends = p.ends; body = p.body } };
}

/// A piece whose data lie elsewhere.
#[derive(Clone, Copy, PartialEq, Eq)]
pub struct PieceSlice<'a> {
    pub begins: bool,
    pub ends: bool,
    pub body: &'a [u8],
}

impl Piece {
    /// What this segment carries. `AllocError` where there is no memory for a copy of its data.
    pub fn of(alloc: Global, segment: &Segment) -> Result<Piece, AllocError>
        ensures { IfOk result (λ piece. piece ≡ piece_of (segment_view segment.now)) }
    {
        let body = Copied::of(alloc, segment.body)?;
        Ok(Piece {
            begins: segment.begins,
            ends: segment.ends,
            body,
        })
    }

    /// Whether it begins a message.
    pub fn begins(&self) -> bool
        ensures { result ≡ self.now.begins }
    {
        self.begins
    }

    /// Whether it ends a message.
    pub fn ends(&self) -> bool
        ensures { result ≡ self.now.ends }
    {
        self.ends
    }

    /// Its data.
    pub fn body(&self) -> &[u8]
        ensures { result.now ≡ self.now.body }
    {
        self.body.as_slice()
    }

    /// Whether a segment carries the same: the same bits of the flag byte and the same data.
    pub fn is_carried_by(&self, segment: &Segment) -> bool
        ensures { result ≡ same_piece (piece_of (segment_view segment.now)) self.now }
    {
        if segment.begins != self.begins {
            return false;
        }
        if segment.ends != self.ends {
            return false;
        }
        segment.body == self.body.as_slice()
    }
}
