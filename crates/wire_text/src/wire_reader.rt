//! Reading what passed on a line, piece by piece.

use crate::limit::{MAX_PIECE, MAX_PIECES};
use capture::{Departure, ListItem, ListReader, bytes_into, side_of};
use wire_base::Side;

/// What a text of what passed lists: pieces. What is read of one beside its bytes is its side. The text may have 1,000,000,000,000 of them, and a
/// line departs with `Syntax` where it is no piece's, as one that has no byte.
pub struct Pieces;

impl ListItem for Pieces {
    ghost use Rattle.wire_text.specs.declared.limit.TheConstants.{MAX_PIECE};
    ghost use Rattle.wire_text.specs.WireText.{Piece, piece, wire_form};

    type Entry = Side;

    ghost Item = { Piece };

    ghost item = { piece };

    ghost form = { wire_form };

    ghost ROOM = { MAX_PIECE };

    const ROOM: usize = MAX_PIECE;

    fn first_words() -> &'static [u8] {
        b"ddwire 1 "
    }

    fn most() -> u64 {
        MAX_PIECES
    }

    #[inline(always)]
    fn read(line: &[u8], room: &mut [u8]) -> Result<(Side, usize), Departure> {
        let Some((side, digits)) = side_of(line) else {
            return Err(Departure::Syntax);
        };
        match bytes_into(digits, MAX_PIECE, room) {
            Ok(0) => Err(Departure::Syntax),
            Ok(len) => Ok((side, len)),
            Err(_) => Err(Departure::Syntax),
        }
    }

    fn lines_are_apart() {}
}

/// Reads the head of a text of what passed, `ddwire 1 ADDRA ADDRB`, and then its pieces, as a [`ListReader`] does.
///
/// ```text
/// ddwire 1 1.1 1.2        node_a 1025, node_b 1026
/// a 9696050601            Ok(Some(Side::A)), bytes 96 96 05 06 01
/// b 05                    Ok(Some(Side::B)), bytes 05
/// b -                     Departs, syntax, line 4: a piece has at least one byte
/// ```
pub type WireReader = ListReader<Pieces>;
