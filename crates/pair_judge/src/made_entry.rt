//! A record that a side made, as the judge lends it to its observer.

use capture_record::Entry;
use std::marker::Model;
use wire_base::Side;

/// A record that a side made: what its line says, and the bytes beside it. A contract sees the three.
#[derive(Drop)]
pub struct MadeEntry<'a> {
    pub side: Side,
    pub entry: Entry,
    pub bytes: &'a [u8],
    /// The bytes are a sound unit, which the judge found already; `false` says nothing.
    pub sound: bool,
}

impl<'a> Model for MadeEntry<'a> {
    ghost use Rattle.std.specs.Prelude.{◌≡◌, true};
    ghost use Rattle.ddcmp_msg.specs.Reading.{IsSound, reading};
    ghost use Rattle.pair_judge.specs.Order.{MadeEntry};

    ghost Value = { MadeEntry };

    ghost view = { λ made. record { side = made.side; entry = made.entry; bytes = made.bytes.now } };

    ghost invariant = { λ made. made.sound ≡ true → IsSound (reading made.bytes.now) };
}
