//! A piece of a message that is given to a segment.

ghost use Rattle.std.specs.Prelude.{◌≡◌, ◌≤◌, length, IfOk};
ghost use Rattle.link_segments.specs.Piece.{slice_view};

use link_segments::PieceSlice;
use std::alloc::{AllocError, Global};
use std::marker::Model;
use wire_base::Copied;

/// A piece that is given to a segment, of at most 512 bytes.
#[derive(Drop)]
pub struct GivenPiece {
    begins: bool,
    ends: bool,
    body: Copied,
}

impl Model for GivenPiece {
    ghost use Rattle.std.specs.Prelude.{◌≤◌, length};
    ghost use Rattle.dna_links.specs.Segmentation.{Piece};

    ghost Value = { Piece };

    ghost view = { λ p. record { begins = p.begins; ends = p.ends; body = p.body } };

    ghost invariant = { λ p. length p.body ≤ 512 };
}

impl GivenPiece {
    /// A copy of this piece. `AllocError` where there is no memory for it.
    pub fn copied(alloc: Global, piece: PieceSlice<'_>) -> Result<GivenPiece, AllocError>
        requires { length piece.body.now ≤ 512 }
        ensures { IfOk result (λ copy. copy ≡ slice_view piece.entry) }
    {
        let body = Copied::of(alloc, piece.body)?;
        Ok(GivenPiece {
            begins: piece.begins,
            ends: piece.ends,
            body,
        })
    }

    /// The piece, with its data where they lie.
    pub fn as_slice(&self) -> PieceSlice<'_>
        ensures piece { slice_view result ≡ self.now }
        ensures short { length result.body.now ≤ 512 }
    {
        let _ = &self.body;
        PieceSlice {
            begins: self.begins,
            ends: self.ends,
            body: self.body.as_slice(),
        }
    }
}
