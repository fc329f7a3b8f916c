//! The segments of one link, both ways.

ghost use Rattle.std.specs.Prelude.{◌≡◌, ◌<◌, ◌==◌, length, OnOk, OnErr};
ghost use Rattle.dna_links.specs.WireSegments.{empty, hands_in, ends};
ghost use Rattle.nsp_link.specs.Given.{given_of};

mod asking;
mod delivering;
mod due;
mod receiving;
mod sending;
mod shown;

use crate::Given;
use crate::last_sent::LastSent;
use link_segments::{Outstanding, Piece, Received, Unsent};
use std::alloc::{AllocError, Global};
use std::marker::Model;
use wire_base::{Seq, Window};

/// The segments of one link, both ways: what was handed in and is not given, what is given and not acknowledged, what is received and
/// not delivered, and the last acknowledgement sent. Their numbers are kept modulo 4,096.
#[derive(Drop)]
pub struct Segments<W: Window<Piece, 4096> + Drop> {
    unsent: Unsent,
    outstanding: Outstanding<Piece, W>,
    // the highest number received without a gap
    received: Seq<4096>,
    pieces: Received,
    // the highest number given has reached 2,047
    gave_many: bool,
    last: LastSent,
}

impl<W: Window<Piece, 4096> + Drop> Model for Segments<W> {
    ghost use Rattle.dna_links.specs.WireSegments.{WireSegments};

    ghost Value = { WireSegments };

    ghost view = { λ f. record {
      variables = record {
        unsent = f.unsent;
        acknowledged = f.outstanding.first;
        outstanding = f.outstanding.items;
        received = f.received;
        pieces = f.pieces;
      };
      gave_many = f.gave_many;
      last = f.last.last;
      last_is_high = f.last.is_high;
    } };
}

impl<W: Window<Piece, 4096> + Drop> Segments<W> {
    /// Nothing was handed in, given or received. Takes no memory.
    pub fn new(alloc: Global) -> Self
        ensures { result ≡ empty }
    {
        Segments {
            unsent: Unsent::new(alloc),
            outstanding: Outstanding::new(),
            received: Seq::of(0),
            pieces: Received::new(alloc),
            gave_many: false,
            last: LastSent::new(),
        }
    }

    /// Nothing is left of them: it is as before the first. Takes no memory.
    pub fn clear(&mut self, alloc: Global)
        ensures { self.new ≡ empty }
    {
        self.unsent = Unsent::new(alloc);
        self.outstanding = Outstanding::new();
        self.received = Seq::of(0);
        self.pieces = Received::new(alloc);
        self.gave_many = false;
        self.last = LastSent::new();
    }

    /// What of them is given.
    pub fn given(&self) -> Given
        ensures given { result ≡ given_of self.now }
        ensures below { result.acknowledged < 4096 }
    {
        Given {
            acknowledged: self.outstanding.acknowledged().value(),
            outstanding: self.outstanding.len() as u16,
            gave_many: self.gave_many,
        }
    }

    /// A message is handed in. Where memory for it is refused, nothing changes.
    pub fn hand_in(&mut self, alloc: Global, message: &[u8]) -> Result<(), AllocError>
        ensures ok { OnOk result (self.new ≡ hands_in message.now self.old) }
        ensures err { OnErr result (self.new ≡ self.old) }
    {
        self.unsent.hand_in(alloc, message)
    }

    /// The link ends: what is received in whole messages is kept, and nothing else. The answer is whether that is nothing.
    pub fn end(&mut self, alloc: Global) -> bool
        ensures ends { self.new ≡ ends self.old }
        ensures empty { result ≡ (length self.new.variables.pieces == 0) }
    {
        self.unsent = Unsent::new(alloc);
        self.outstanding = Outstanding::new();
        self.received = Seq::of(0);
        self.pieces.keep_whole_messages();
        self.gave_many = false;
        self.last = LastSent::new();
        self.pieces.is_empty()
    }
}
