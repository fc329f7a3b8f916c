//! The units on the line to one end.

ghost use Rattle.std.specs.Prelude.{◌≡◌, ◌≤◌, ◌++◌, ◌∷◌, [], drop, length, OnErr, OnOk};
ghost use Rattle.capture_record.specs.declared.limit.TheConstants.{MAX_MESSAGE};
ghost use Rattle.pair_player.specs.inner.Line.{first_of};

use std::alloc::{AllocError, Global};
use std::collections::VecDeque;
use std::marker::Model;

/// A unit that was sent. It has at most 16,393 bytes; that a line of a capture takes them, which has room for 65,535, is all that a contract asks.
#[derive(Drop)]
pub struct SentUnit {
    bytes: Vec<u8>,
}

impl Model for SentUnit {
    ghost use Rattle.std.specs.Prelude.{◌≤◌, List, ℕ, length};
    ghost use Rattle.capture_record.specs.declared.limit.TheConstants.{MAX_MESSAGE};

    ghost Value = { List ℕ };

    ghost view = { λ u. u.bytes.items };

    ghost invariant = { λ u. length u.bytes.items ≤ MAX_MESSAGE };
}

impl SentUnit {
    /// The unit of these bytes, in the memory that they have.
    pub fn new(bytes: Vec<u8>) -> SentUnit
        requires { length bytes.items ≤ MAX_MESSAGE }
        ensures { result ≡ bytes.items }
    {
        SentUnit { bytes }
    }

    /// Its bytes.
    pub fn as_slice(&self) -> &[u8]
        ensures bytes { result.now ≡ self.now }
        ensures short { length self.now ≤ MAX_MESSAGE }
    {
        let _ = &self.bytes;
        self.bytes.as_slice()
    }
}

/// The units that were sent to one end and neither came nor were lost, the oldest first. A contract sees it as the list of their bytes.
#[derive(Drop)]
pub struct Line {
    units: VecDeque<SentUnit>,
}

impl Model for Line {
    ghost use Rattle.std.specs.Prelude.{List, ℕ};

    ghost Value = { List (List ℕ) };

    ghost view = { λ l. l.units.items };
}

impl Line {
    /// None. Takes no memory.
    pub fn new(alloc: Global) -> Line
        ensures { result ≡ [] }
    {
        Line {
            units: VecDeque::new(alloc),
        }
    }

    /// One more was sent. Where memory is refused, nothing changes.
    pub fn push(&mut self, unit: Vec<u8>) -> Result<(), AllocError>
        requires { length unit.items ≤ MAX_MESSAGE }
        ensures ok { OnOk result (self.new ≡ self.old ++ unit.items ∷ []) }
        ensures err { OnErr result (self.new ≡ self.old) }
    {
        match self.units.push_back(SentUnit::new(unit)) {
            Ok(()) => Ok(()),
            Err(_) => Err(AllocError),
        }
    }

    /// The next one leaves the line.
    pub fn pop(&mut self) -> Option<SentUnit>
        ensures next { result ≡ first_of self.old }
        ensures left { self.new ≡ drop 1 self.old }
    {
        self.units.pop_front()
    }
}
