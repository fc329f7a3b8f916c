//! What holds of the definitions in `specs/`, whatever the code does.

ghost use Rattle.std.specs.Prelude.{◌≡◌, List};
ghost use Rattle.wire_base.specs.declared.side.Side.{Side};
ghost use Rattle.wire_text.specs.WireText.{Piece};
ghost use Rattle.wire_tap.specs.Units.{passed_in, units_by, units_within};

/// What passed of a side, of which accusations speak, are the units that its capture has, each once and in their order.
pub fn what_passed_of_a_side_are_its_units()
    ensures { (side : Side) (pieces : List Piece) → units_by side (passed_in pieces) ≡ units_within side pieces }
{}
