//! The laws on the steps of scripts and on how many records they make, applied.

ghost use Rattle.std.specs.Prelude.{◌≡◌, ◌<◌, ◌≤◌, Ok, length};
ghost use Rattle.capture_record.specs.declared.limit.TheConstants.{MAX_LINK};
ghost use Rattle.capture.specs.declared.limit.TheConstants.{MAX_RECORDS};
ghost use Rattle.dna_play.specs.Played.{Played, play, plays_step};
ghost use Rattle.dna_play.specs.PlayRun.{StartsOnce};
ghost use Rattle.dna_play.specs.Script.{Deliver, Open, Script, ScriptStep};
ghost use Rattle.dna_play.specs.ScriptText.{IsScript};
ghost use Rattle.dna_play.specs.StepRule.{HasNext, and_then};
ghost use Rattle.wire_base.specs.declared.side.Side.TheVariants.{B};

use dna_play::{played_captures_are_few, steps_go_by_their_rules};

// It comes to b, and is taken.
fn a_unit_on_the_line_can_be_delivered()
    ensures { (script : Script) (step : ScriptStep) (so_far : Played) → IsScript (and_then script step) → play script ≡ Ok so_far
        → StartsOnce script.steps → step.side ≡ B → step.step ≡ Deliver → HasNext so_far.ends.pair.b.coming
        → (next : Played) × (plays_step so_far step ≡ Ok next) }
{
    steps_go_by_their_rules();
}

// The user of b opens it.
fn a_link_can_be_opened_while_an_address_is_left()
    ensures { (script : Script) (step : ScriptStep) (so_far : Played) → IsScript (and_then script step) → play script ≡ Ok so_far
        → StartsOnce script.steps → step.side ≡ B → step.step ≡ Open → so_far.ends.pair.b.end.addresses < MAX_LINK
        → (next : Played) × (plays_step so_far step ≡ Ok next) }
{
    steps_go_by_their_rules();
}

// A line for each of its records is left.
fn the_capture_of_b_has_a_text()
    ensures { (script : Script) (so_far : Played) → IsScript script → play script ≡ Ok so_far → length so_far.ends.of_b ≤ MAX_RECORDS }
{
    played_captures_are_few();
}
