//! What holds of the captures that a script stands for, whatever the code does, for the proofs of callers to cite.

ghost use Rattle.std.specs.Prelude.{◌≡◌, ◌*◌, ◌≤◌, length, take, Ok, Err};
ghost use Rattle.two_nodes.specs.Nodes.{Run};
ghost use Rattle.capture.specs.declared.limit.TheConstants.{MAX_RECORDS};
ghost use Rattle.dna_node.specs.LayersPair.{layers_pair, layers_start};
ghost use Rattle.dna_play.specs.Script.{ScriptStep, Script};
ghost use Rattle.dna_play.specs.ScriptText.{IsScript};
ghost use Rattle.dna_play.specs.StoredPlayed.{stored_play};
ghost use Rattle.dna_play.specs.Stop.{Stopped};
ghost use Rattle.dna_play.specs.Played.{Played, head_a, head_b, plays_step, play, ends_of};
ghost use Rattle.dna_play.specs.PlayRun.{ArePlayed, AreOfNodes, StartsOnce};
ghost use Rattle.dna_play.specs.StepRule.{StepsByRule, StopsByRule, and_then};

/// The records of a script are made by two nodes that ask no rule on tags, in some order, and each has a line in a capture; so are those of the
/// steps before one that can't be made.
pub fn played_records_are_made()
    ensures played { (script : Script) (played : Played) → play script ≡ Ok played → ArePlayed script played }
    ensures stopped { (script : Script) (stopped : Stopped Played) → play script ≡ Err stopped → ArePlayed script stopped.so_far }
{}

/// The captures of a script have few records: each at most two for each step of the script, whether it ends or a step can't be made. So they are
/// never too long for their texts, where the script has one.
pub fn played_captures_are_few()
    ensures played { (script : Script) (played : Played) → play script ≡ Ok played
        → (length played.ends.of_a ≤ 2 * length script.steps) × (length played.ends.of_b ≤ 2 * length script.steps) }
    ensures stopped { (script : Script) (stopped : Stopped Played) → play script ≡ Err stopped
        → (length stopped.so_far.ends.of_a ≤ 2 * length script.steps) × (length stopped.so_far.ends.of_b ≤ 2 * length script.steps) }
    ensures played_fits { (script : Script) (played : Played) → IsScript script → play script ≡ Ok played
        → (length played.ends.of_a ≤ MAX_RECORDS) × (length played.ends.of_b ≤ MAX_RECORDS) }
    ensures stopped_fits { (script : Script) (stopped : Stopped Played) → IsScript script → play script ≡ Err stopped
        → (length stopped.so_far.ends.of_a ≤ MAX_RECORDS) × (length stopped.so_far.ends.of_b ≤ MAX_RECORDS) }
{}

/// The captures of a script that starts each side at most once and boots none are a run of two nodes as a judge has them; so are those of the
/// steps before one that can't be made, where these start each side at most once and boot none.
pub fn played_captures_are_a_run()
    ensures played { (script : Script) (played : Played) → play script ≡ Ok played → StartsOnce script.steps
        → Run layers_pair (layers_start (head_a script) (head_b script)) played.ends.of_a played.ends.of_b played.nodes }
    ensures stopped { (script : Script) (stopped : Stopped Played) → play script ≡ Err stopped → StartsOnce (take stopped.steps script.steps)
        → Run layers_pair (layers_start (head_a script) (head_b script)) stopped.so_far.ends.of_a stopped.so_far.ends.of_b stopped.so_far.nodes }
{}

/// A step after a script that starts each side at most once and boots none goes by its rule, where both have a text: it is bad exactly where it
/// breaks the rule, and full exactly where it keeps the rule but needs a link address and all of its end are given. So does the step that stops a
/// script.
pub fn steps_go_by_their_rules()
    ensures next { (script : Script) (step : ScriptStep) (so_far : Played) → IsScript (and_then script step) → play script ≡ Ok so_far
        → StartsOnce script.steps → StepsByRule so_far.ends.pair step (plays_step so_far step) }
    ensures stopped { (script : Script) (stopped : Stopped Played) → IsScript script → play script ≡ Err stopped →
        StartsOnce (take stopped.steps script.steps)
        → StopsByRule script stopped }
{}

/// The node beside each end makes all that the end makes of a script that starts each side at most once and boots none: the ends with their nodes
/// play it as the ends alone do, to the same captures, or to the same step that can't be made. So it is where the steps before that one start each
/// side at most once and boot none.
pub fn nodes_make_what_ends_make()
    ensures played { (script : Script) → IsScript script → StartsOnce script.steps → ends_of (play script) ≡ stored_play script }
    ensures stopped { (script : Script) (stopped : Stopped Played) → IsScript script → play script ≡ Err stopped →
        StartsOnce (take stopped.steps script.steps)
        → ends_of (play script) ≡ stored_play script }
{}

/// And what an end keeps is what the node beside it keeps: its station variables, and the ports and link variables of its links that live.
pub fn ends_keep_what_nodes_keep()
    ensures played { (script : Script) (played : Played) → IsScript script → play script ≡ Ok played → StartsOnce script.steps → AreOfNodes played }
    ensures stopped { (script : Script) (stopped : Stopped Played) → IsScript script → play script ≡ Err stopped →
        StartsOnce (take stopped.steps script.steps)
        → AreOfNodes stopped.so_far }
{}
