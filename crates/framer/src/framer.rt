//! A framer.

ghost use Rattle.std.specs.Prelude.{◌≡◌, ◌<◌, ◌≤◌, ◌+◌, ◌^◌, ◌++◌, [], length, ℕ, List, IfOk};
ghost use Rattle.framer.specs.Framing.{framing, only_left};
ghost use Rattle.framer.specs.Given.{Finds, Passes, RestIsOf};
ghost use Rattle.framer.specs.declared.limit.TheConstants.{MAX_FRAME};

use crate::completing::{complete_header, complete_unit};
use crate::front::{part, pass};
use crate::kind::Kind;
use crate::limit::HEADER_LEN;
use crate::room::Room;
use std::alloc::{AllocError, Global};
use std::marker::Model;

/// What a framer found. `strays` counts the bytes that belong to no unit, SYN and pads not among them, since what it found before; `rest` is what
/// the piece has after the unit, which is to be given next.
#[derive(Clone, Copy)]
pub enum Found<'a> {
    /// A unit that lies whole in the piece.
    Unit {
        kind: Kind,
        strays: usize,
        unit: &'a [u8],
        rest: &'a [u8],
    },
    /// A unit whose beginning was held; [`completed`](Framer::completed) lends it.
    Completed {
        kind: Kind,
        strays: usize,
        rest: &'a [u8],
    },
    /// No unit is whole in what is left. The piece is used up.
    More {
        strays: usize,
    },
}

/// Finds the units of one direction of a line, in pieces of its bytes that may be cut anywhere. It holds the beginning of one unit at most, in room
/// that it takes when it is made.
///
/// ```text
/// piece 96 96 05 01 c0         More, no stray byte; three bytes are held
/// piece 02 00 01 61 95 ff 07   Completed, a control message: 05 01 c0 02 00 01 61 95; the rest is ff 07
/// piece ff 07                  More, one stray byte; nothing is held
/// ```
#[derive(Drop)]
pub struct Framer {
    room: Room,
}

impl Model for Framer {
    ghost use Rattle.framer.specs.Given.{FramerState};
    ghost use Rattle.framer.specs.inner.Held.{IsHeld};

    ghost Value = { FramerState };

    ghost view = { λ framer. framer.room };

    ghost invariant = { λ framer. IsHeld framer.room.held };
}

impl Framer {
    /// A framer that was given nothing yet. `AllocError` where there is no memory for its room of 16,393 bytes.
    pub fn new(alloc: Global) -> Result<Framer, AllocError>
        ensures { IfOk result (λ framer. framer.held ≡ []) }
    {
        let room = Room::new(alloc)?;
        Ok(Framer { room })
    }

    /// The bytes that it holds: none, or the beginning of what may be a unit. After the last piece they are a half unit, or a start that no header
    /// follows, and what comes after that start is among them. Takes no memory.
    pub fn held(&self) -> &[u8]
        ensures bytes { result.now ≡ self.now.held }
        ensures left { framing self.now.held ≡ only_left self.now.held }
        ensures short { length result.now < MAX_FRAME }
    {
        self.room.held()
    }

    /// The unit that the last call of `next` answered as `Completed`; after another answer it may be any bytes. Takes no memory.
    #[inline(always)]
    pub fn completed(&self) -> &[u8]
        ensures { result.now ≡ self.now.completed }
    {
        self.room.completed()
    }

    /// The next unit in what is held and the piece after it. It is called with the rest of the piece until no unit is whole, and then with the next
    /// piece. Of a unit that lies whole in the piece no byte is copied. Takes no memory.
    #[inline(always)]
    pub fn next<'a>(&mut self, piece: &'a [u8]) -> Found<'a>
        ensures found { Finds (self.old.held ++ piece.entry.now) self.new result }
        ensures rest { RestIsOf (length piece.entry.now) result }
    {
        let taken = complete_header(&mut self.room, piece);
        let strays = taken.strays;
        let rest = &piece[taken.count..];
        if self.room.len() == 0 {
            return self.next_in(strays, rest);
        }
        if self.room.len() < HEADER_LEN {
            return Found::More { strays };
        }
        let (kind, count) = complete_unit(&mut self.room, rest);
        match kind {
            Some(kind) => {
                self.room.complete();
                Found::Completed {
                    kind,
                    strays,
                    rest: &rest[count..],
                }
            }
            None => Found::More { strays },
        }
    }

    // The same where nothing is held, after so many stray bytes.
    #[inline(always)]
    fn next_in<'a>(&mut self, strays: usize, piece: &'a [u8]) -> Found<'a>
        requires empty { self.old.held ≡ [] }
        requires few { strays + length piece.now < 2 ^ 64 }
        ensures found { (bytes : List ℕ) → Passes bytes strays piece.entry.now → Finds bytes self.new result }
        ensures rest { (len : ℕ) → length piece.entry.now ≤ len → RestIsOf len result }
    {
        let passed = pass(piece);
        let strays = strays + passed.strays;
        let found = &piece[passed.at..];
        match passed.len {
            Some(len) => {
                let (kind, unit, rest) = part(found, len);
                Found::Unit {
                    kind,
                    strays,
                    unit,
                    rest,
                }
            }
            None => {
                self.room.hold(found);
                Found::More { strays }
            }
        }
    }
}
