//! Laws of every alignment, as functions that do nothing.

ghost use Rattle.std.specs.Prelude.{◌≡◌, ℕ, List, map};
ghost use Rattle.capture_record.specs.declared.record.Record.{Record as Line};
ghost use Rattle.aligning.specs.Aligned.{aligned};
ghost use Rattle.aligning.specs.Laws.{HintsRise, without_hint};

/// Nothing but hints changes.
#[tactic(auto, using(crate::proofs::Aligns::hints_alone))]
pub fn hints_alone_change()
    ensures { (next : ℕ) (other rs : List Line) → map without_hint (aligned next other rs) ≡ map without_hint rs }
{}

/// Each hint is above the one before it.
#[tactic(auto, using(crate::proofs::Aligns::hints_rise))]
pub fn aligned_hints_rise()
    ensures { (other rs : List Line) → HintsRise 0 (aligned 0 other rs) }
{}
