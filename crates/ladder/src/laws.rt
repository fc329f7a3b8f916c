//! What holds of the rows, for the proofs of callers to cite.

ghost use Rattle.std.specs.Prelude.{◌≡◌, ℕ, List, [], ◌∷◌, ◌++◌, Some, None, map};
ghost use Rattle.wire_base.specs.declared.side.Side.{Side};
ghost use Rattle.ladder.specs.declared.row.Row.{Row};
ghost use Rattle.ladder.specs.declared.told.Told.{Told};
ghost use Rattle.ladder.specs.Order.{IsOrder, of_side};
ghost use Rattle.ladder.specs.Places.{IsArrow, IsCut, place, places, receipt_line};
ghost use Rattle.ladder.specs.Row.{joined, passed, with_record};
ghost use Rattle.ladder.specs.Rows.{Kept, going_on};

/// In the order in which they are drawn each record comes once, and those of a side as they were told.
pub fn order_keeps_sides()
    ensures { (told order : List Row) (side : Side) → IsOrder told order → of_side side order ≡ of_side side told }
{}

/// Each record comes once in the rows that are joined, after those that were there before; and what becomes of a unit moves none.
pub fn records_stand_once_in_order()
    ensures joined { (rows : List Row) (next : Row) → receipt_line next.fate ≡ None →
        places (with_record rows next) ≡ places rows ++ place next.told ∷ [] }
    ensures passed { (rows : List Row) (receiver : Side) (hint : ℕ) → places (map (passed receiver hint) rows) ≡ places rows }
{}

/// Where a row has two records, the second is the other side's receipt of the unit that the first one sent: the number of that unit is its
/// hint.
pub fn arrow_is_by_the_hint()
    ensures { (row : Row) (next : Told) (made : Row) → joined row next ≡ Some made → IsArrow row next made }
{}

/// Of the rows with one more record the last ones stay, so that no row is missing between two; or, where there is no room for it, those that
/// were there before.
pub fn rows_have_no_gap()
    ensures { (kept : Kept) (next : List Row) (told : Told) → IsCut kept.rows next (going_on kept next told).rows }
{}
