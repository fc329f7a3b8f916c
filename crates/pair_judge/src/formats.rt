//! Of the formats of its captures a verdict tells nothing, as a function that does nothing.

ghost use Rattle.std.specs.Prelude.{◌≡◌, ℕ, List, Some, Ok};
ghost use Rattle.pair_judge.specs.declared.verdict.Verdict.{Verdict as Judgement};
ghost use Rattle.pair_judge.specs.declared.verdict.Verdict.TheVariants.{Accepted, Refused};
ghost use Rattle.pair_judge.specs.declared.summary.Summary.{Summary};
ghost use Rattle.pair_judge.specs.declared.reason.Reason.{Reason as Why};
ghost use Rattle.wire_base.specs.declared.side.Side.{Side as Of};
ghost use Rattle.dna_links.specs.declared.queue.Queues.TheVariants.{Without, With};
ghost use Rattle.dna_node.specs.Kind.{both_layers, layers_kind, stations_alone};
ghost use Rattle.pair_judge.specs.AnyPeriod.{layers_of_any_period, stations_of_any_period};
ghost use Rattle.pair_judge.specs.Judged.{AcceptsAsOrFails, AcceptsOrFails, Answer, IsAnswer, JudgesOrFails, RefusesOrFails};
ghost use Rattle.pair_judge.specs.Refusal.{AreTexts, WholeCapture};

use capture::{one_head_and_list, whole_text};
use dna_links::LinkTag;
use dna_node::{
    layers_run_as_stations, layers_with_queues_do_as_much, queued_wire_layers_see_right,
    wire_layers_see_right,
};
use dna_station::wire_nodes_see_right;

/// The same two captures are judged alike in whichever format their texts are, as of a capture and of what it was converted to. What `judge` answers
/// of two such texts, of both layers and of the line alone, is a verdict, want of memory or a failed read; and all their verdicts are one: `Accepted`
/// with the same counts, or `Refused` with the same side, record and reason.
pub fn judged_in_any_format()
    ensures alike { (a b : WholeCapture) (bytes_a bytes_b other_a other_b : List ℕ) (verdict other : Judgement) →
        AreTexts a b bytes_a bytes_b → AreTexts a b other_a other_b →
        IsAnswer both_layers (Some bytes_a) (Some bytes_b) (Ok verdict) → IsAnswer both_layers (Some other_a) (Some other_b) (Ok other) →
        verdict ≡ other }
    ensures judged { (a b : WholeCapture) (bytes_a bytes_b : List ℕ) (answer : Answer) →
        AreTexts a b bytes_a bytes_b → IsAnswer both_layers (Some bytes_a) (Some bytes_b) answer → JudgesOrFails answer }
    ensures line_alike { (a b : WholeCapture) (bytes_a bytes_b other_a other_b : List ℕ) (verdict other : Judgement) →
        AreTexts a b bytes_a bytes_b → AreTexts a b other_a other_b →
        IsAnswer stations_alone (Some bytes_a) (Some bytes_b) (Ok verdict) → IsAnswer stations_alone (Some other_a) (Some other_b) (Ok other) →
        verdict ≡ other }
    ensures line_judged { (a b : WholeCapture) (bytes_a bytes_b : List ℕ) (answer : Answer) →
        AreTexts a b bytes_a bytes_b → IsAnswer stations_alone (Some bytes_a) (Some bytes_b) answer → JudgesOrFails answer }
{
    one_head_and_list();
    whole_text();
}

/// What is judged of the nodes and what is judged of the line alone, of the same two texts. Where both layers are accepted, the line alone is
/// too, unless memory runs out or a read fails; so where the line alone is refused, both layers are never accepted, and of the texts of two captures
/// they are refused too, except for such a fault.
pub fn line_is_judged_too()
    ensures accepted { (bytes_a bytes_b : List ℕ) (summary : Summary) (line : Answer) →
        IsAnswer both_layers (Some bytes_a) (Some bytes_b) (Ok (Accepted summary)) → IsAnswer stations_alone (Some bytes_a) (Some bytes_b) line →
        AcceptsOrFails line }
    ensures refused { (a b : WholeCapture) (bytes_a bytes_b : List ℕ) (side : Of) (place : ℕ) (reason : Why) (nodes : Answer) →
        AreTexts a b bytes_a bytes_b → IsAnswer stations_alone (Some bytes_a) (Some bytes_b) (Ok (Refused side place reason)) →
        IsAnswer both_layers (Some bytes_a) (Some bytes_b) nodes → RefusesOrFails nodes }
{
    layers_run_as_stations();
    whole_text();
}

/// What is judged of nodes without queues and of nodes with them, of the same two texts. Where they are accepted without queues, they are with
/// them, with the same counts, unless memory runs out or a read fails.
pub fn judged_with_queues_too()
    ensures { (bytes_a bytes_b : List ℕ) (summary : Summary) (queued : Answer) →
        IsAnswer both_layers (Some bytes_a) (Some bytes_b) (Ok (Accepted summary)) →
        IsAnswer (layers_kind With) (Some bytes_a) (Some bytes_b) queued → AcceptsAsOrFails summary queued }
{
    layers_with_queues_do_as_much();
    one_head_and_list();
}

/// What is judged of nodes that ask for periods and of nodes that ask for none, of the same two texts. Where they are accepted as nodes that ask,
/// they are as nodes that do not, with the same counts, unless memory runs out or a read fails; so of nodes without queues, of nodes with them, and
/// of the line alone. So what is refused without periods is never accepted with them.
pub fn judged_of_any_period_too()
    ensures nodes { (bytes_a bytes_b : List ℕ) (summary : Summary) (other : Answer) →
        IsAnswer both_layers (Some bytes_a) (Some bytes_b) (Ok (Accepted summary)) →
        IsAnswer (layers_of_any_period Without) (Some bytes_a) (Some bytes_b) other → AcceptsAsOrFails summary other }
    ensures queued { (bytes_a bytes_b : List ℕ) (summary : Summary) (other : Answer) →
        IsAnswer (layers_kind With) (Some bytes_a) (Some bytes_b) (Ok (Accepted summary)) →
        IsAnswer (layers_of_any_period With) (Some bytes_a) (Some bytes_b) other → AcceptsAsOrFails summary other }
    ensures line { (bytes_a bytes_b : List ℕ) (summary : Summary) (other : Answer) →
        IsAnswer stations_alone (Some bytes_a) (Some bytes_b) (Ok (Accepted summary)) →
        IsAnswer stations_of_any_period (Some bytes_a) (Some bytes_b) other → AcceptsAsOrFails summary other }
{
    wire_layers_see_right();
    queued_wire_layers_see_right();
    wire_nodes_see_right::<LinkTag>();
    one_head_and_list();
}
