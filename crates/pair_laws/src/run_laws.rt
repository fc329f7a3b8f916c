//! The laws on what is played, applied.

ghost use Rattle.std.specs.Prelude.{◌≡◌, ℕ, [], ◌∷◌, List, Option, Some, Err};
ghost use Rattle.dna_play.specs.Played.{Played as TruePlayed};
ghost use Rattle.dna_play.specs.PlayRun.{StartsOnce};
ghost use Rattle.dna_play.specs.Script.{Start};
ghost use Rattle.dna_play.specs.ScriptText.{IsScriptText};
ghost use Rattle.dna_play.specs.StepRule.{IsHalted};
ghost use Rattle.dna_play.specs.Stop.{BadStep as Bad};
ghost use Rattle.pair_player.specs.declared.fault.PlayFault.TheVariants.{BadStep};
ghost use Rattle.pair_player.specs.Playing.{HasPlayed, Held, Plays, Reached, StopsBehind};
ghost use Rattle.pair_player.specs.Runs.{AreARun, IsOfTruth};
ghost use Rattle.pair_player.specs.SoFar.{no_steps, with_step};
ghost use Rattle.wire_base.specs.declared.side.Side.TheVariants.{A, B};

use pair_player::{
    answered_as_true_ends, starts_once_throughout, stopped_by_its_rule, written_captures_are_a_run,
};

// Whatever was made of `a start`, `b start`.
fn two_starts_are_written_as_a_run()
    ensures { (bytes : List ℕ) (node_a node_b : ℕ) (r : Reached) →
        IsScriptText (with_step (with_step (no_steps node_a node_b) (record { side = A; step = Start })) (record { side = B; step = Start })) bytes →
        HasPlayed (Some bytes) r → AreARun r }
{
    starts_once_throughout();
    written_captures_are_a_run();
}

// Its ends make no step with their nodes, and so does the player.
fn a_script_of_a_head_has_no_bad_step()
    ensures { (bytes : List ℕ) (node_a node_b line : ℕ) (old new : Held) → IsScriptText (no_steps node_a node_b) bytes →
        Plays (Some bytes) old new (Err (BadStep line)) → ⊥ }
{
    answered_as_true_ends();
}

// The user of b starts it.
fn a_start_that_is_bad_is_of_a_station_that_is_not_halted()
    ensures { (text : Option (List ℕ)) (r : Reached) (line : ℕ) → HasPlayed text r → StartsOnce r.script.steps → (stops : StopsBehind Bad line r) →
        stops.step.side ≡ B → stops.step.step ≡ Start → (so_far : TruePlayed) × IsOfTruth r so_far × ¬ (IsHalted so_far.ends.pair.b.end) }
{
    stopped_by_its_rule();
}
