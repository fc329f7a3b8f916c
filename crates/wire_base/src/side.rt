ghost use Rattle.std.specs.Prelude.{◌≡◌};

use std::fmt;

/// One side of a line: the node whose capture is named `a`, or the one whose capture is named `b`. Printed as that letter.
#[derive(Clone, Copy, Debug, PartialEq, Eq)]
pub enum Side {
    A,
    B,
}

impl Side {
    ghost use Rattle.wire_base.specs.Side.{other_side};

    /// The side at the other end of the line.
    pub fn other(self) -> Side
        ensures { result ≡ other_side self }
    {
        match self {
            Side::A => Side::B,
            Side::B => Side::A,
        }
    }
}

impl fmt::Display for Side {
    ghost use Rattle.std.specs.Prelude.{Some};
    ghost use Rattle.wire_base.specs.Side.{side_letter};

    ghost output = { λ side. Some (side_letter side) };

    fn fmt<W: fmt::Write>(&self, f: &mut fmt::Formatter<W>) -> fmt::Result {
        match self {
            Side::A => f.write_str("a"),
            Side::B => f.write_str("b"),
        }
    }
}
