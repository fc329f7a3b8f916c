//! Laws of what is played, as functions that do nothing: what is written are texts of two captures, whatever the script; and of one that
//! starts each side at most once and boots none they are a run of two nodes, and what is answered is what ends with their nodes make of it.

ghost use Rattle.std.specs.Prelude.{◌≡◌, ◌↔◌, ℕ, [], true, List, Option, Result, Some, Ok};
ghost use Rattle.dna_play.specs.StoredEnd.{StoredEnd};
ghost use Rattle.dna_play.specs.Played.{Played as TruePlayed, play as true_play};
ghost use Rattle.dna_play.specs.PlayRun.{StartsOnce};
ghost use Rattle.dna_play.specs.Script.{Script};
ghost use Rattle.dna_play.specs.ScriptText.{IsScriptText};
ghost use Rattle.dna_play.specs.StepRule as rule;
ghost use Rattle.dna_play.specs.Stop.{Stop};
ghost use Rattle.player_end.specs.Stepping.{HasUnit};
ghost use Rattle.pair_player.specs.declared.fault.PlayFault.{PlayFault};
ghost use Rattle.pair_player.specs.declared.played.Played.{Played};
ghost use Rattle.pair_player.specs.Playing.{AnswersWhole, HasPlayed, Held, Plays, Reached, StopsBehind, reached};
ghost use Rattle.pair_player.specs.Runs.{AreARun, AreTexts, IsOfTruth, StartsOnceThroughout, StopsByRule};
ghost use Rattle.pair_player.specs.Sending.{links_have, may_send};

/// After steps that were read and made, whatever they are, the bytes that are written are texts of two captures: each record has a line, and
/// there are no more of them than a text may hold.
pub fn written_captures_are_texts()
    ensures { (text : Option (List ℕ)) (r : Reached) → HasPlayed text r → AreTexts r }
{}

/// After steps that were read and made, and that start each side at most once and boot none, the records of both sides are a run of two nodes over
/// both layers as a judge has them, and the bytes that are written are texts of these captures.
pub fn written_captures_are_a_run()
    ensures { (text : Option (List ℕ)) (r : Reached) → HasPlayed text r → StartsOnce r.script.steps → AreARun r }
{}

/// The text of a script that starts each side at most once and boots none, and whose steps all are made by ends with a node on true numbers
/// beside each, is answered by the count of its steps, with the captures of these ends written, or a device or the memory failed. And whatever
/// steps were read and made, such ends make them too, where they start each side at most once and boot none.
pub fn answered_as_true_ends()
    ensures whole { (bytes : List ℕ) (script : Script) (played : TruePlayed) (old new : Held) (answer : Result Played PlayFault) →
        IsScriptText script bytes → StartsOnce script.steps → true_play script ≡ Ok played → Plays (Some bytes) old new answer →
        AnswersWhole (reached script played.ends (Some [])) old new answer }
    ensures made { (text : Option (List ℕ)) (r : Reached) → HasPlayed text r → StartsOnce r.script.steps →
        (so_far : TruePlayed) × IsOfTruth r so_far }
{}

/// Where a step can't be made after steps that start each side at most once and boot none, ends with their nodes can't make it either, by its rule:
/// it is bad only where it breaks the rule, and full only where it keeps the rule but needs a link address and all of its end are
/// given.
pub fn stopped_by_its_rule()
    ensures { (text : Option (List ℕ)) (r : Reached) (stop : Stop) (line : ℕ) → HasPlayed text r → StartsOnce r.script.steps →
        (stops : StopsBehind stop line r) → StopsByRule r stops.step stop }
{}

/// All that the text of a script begins with starts each side at most once and boots none, where the script does so.
pub fn starts_once_throughout()
    ensures { (bytes : List ℕ) (script : Script) → IsScriptText script bytes → StartsOnce script.steps → StartsOnceThroughout (Some bytes) }
{}

/// When an end has something to send, said apart from how it chooses what goes first (`may_send`): that is where there is a choice, and what the rule
/// of `send` asks.
pub fn what_an_end_may_send()
    ensures kept { (e : StoredEnd) → (may_send e.station.variables.state e.station.variables e.station.owed
        (links_have e.links.confirms e.links.links) ≡ true) ↔ HasUnit e }
    ensures by_rule { (e : StoredEnd) → (may_send e.station.variables.state e.station.variables e.station.owed
        (links_have e.links.confirms e.links.links) ≡ true) ↔ rule.HasUnit e }
{}
