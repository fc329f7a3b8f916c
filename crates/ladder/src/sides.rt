//! Which side is which.

ghost use Rattle.std.specs.Prelude.{◌≡◌};
ghost use Rattle.ladder.specs.Row.{faces, is_side};

use wire_base::Side;

/// Whether the one side sends to the other.
pub fn faces(sender: Side, receiver: Side) -> bool
    ensures { result ≡ faces sender receiver }
{
    match (sender, receiver) {
        (Side::A, Side::B) => true,
        (Side::B, Side::A) => true,
        _ => false,
    }
}

/// Whether both are one side.
pub fn is_side(one: Side, side: Side) -> bool
    ensures { result ≡ is_side one side }
{
    match (one, side) {
        (Side::A, Side::A) => true,
        (Side::B, Side::B) => true,
        _ => false,
    }
}
