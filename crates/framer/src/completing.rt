//! A unit that is cut, and the bytes that come next.

ghost use Rattle.std.specs.Prelude.{◌≡◌, ◌≤◌, ◌+◌, ◌++◌, ◌⊎◌, [], length, take, drop, None, ℕ, List};
ghost use Rattle.framer.specs.Given.{Passes};
ghost use Rattle.framer.specs.inner.Held.{Completes, IsBegun, IsHeld};
ghost use Rattle.framer.specs.declared.limit.TheConstants.{HEADER_LEN};

use crate::front::pass;
use crate::kind::Kind;
use crate::limit::HEADER_LEN;
use crate::room::Room;

/// How many bytes of a piece were taken, and how many bytes were stray.
#[derive(Clone, Copy)]
pub(crate) struct Taken {
    pub(crate) count: usize,
    pub(crate) strays: usize,
}

/// Takes bytes of the piece until the header of a unit is whole and good, or nothing is held any more, or the piece is used up.
#[inline(always)]
pub(crate) fn complete_header(room: &mut Room, piece: &[u8]) -> Taken
    requires { IsHeld room.old.held }
    ensures passes { Passes (room.old.held ++ piece.now) result.strays (room.new.held ++ drop result.count piece.now) }
    ensures begun { IsBegun room.new.held }
    ensures used { (room.new.held ≡ []) ⊎ ((HEADER_LEN ≤ length room.new.held) ⊎ (result.count ≡ length piece.now)) }
    ensures within { result.count ≤ length piece.now }
    ensures few { result.strays + length room.new.held ≤ length room.old.held + result.count }
{
    let mut strays = 0;
    for count in 0..piece.len() {
        if room.len() == 0 {
            return Taken { count, strays };
        }
        if room.len() >= HEADER_LEN {
            return Taken { count, strays };
        }
        room.hold_byte(piece[count]);
        strays += settle(room);
    }
    Taken {
        count: piece.len(),
        strays,
    }
}

// Drops the bytes that come before what may be a unit, and answers how many of them were stray.
fn settle(room: &mut Room) -> usize
    requires { length room.old.held ≤ HEADER_LEN }
    ensures passes { (more : List ℕ) → Passes (room.old.held ++ more) result (room.new.held ++ more) }
    ensures begun { IsBegun room.new.held }
    ensures few { result + length room.new.held ≤ length room.old.held }
{
    let passed = pass(room.held());
    room.drop_front(passed.at);
    passed.strays
}

/// Takes bytes of the piece until the unit that is held is whole, or the piece is used up: the kind of the unit if it is whole, and how many bytes
/// were taken.
#[inline(always)]
pub(crate) fn complete_unit(room: &mut Room, piece: &[u8]) -> (Option<Kind>, usize)
    requires begun { IsBegun room.old.held }
    requires header { HEADER_LEN ≤ length room.old.held }
    ensures bytes { room.new.held ≡ room.old.held ++ take result.1 piece.now }
    ensures within { result.1 ≤ length piece.now }
    ensures whole { Completes room.new.held result.0 }
    ensures used { result.0 ≡ None → result.1 ≡ length piece.now }
{
    let held = room.held();
    match Kind::of(held[0]) {
        Some(kind) => {
            let len = kind.unit_len(held);
            let missing = len - held.len();
            if piece.len() < missing {
                room.hold(piece);
                return (None, piece.len());
            }
            room.hold(&piece[..missing]);
            (Some(kind), missing)
        }
        None => unreachable!(),
    }
}
