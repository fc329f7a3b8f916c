//! What follows of a pair of captures from the world that their beginnings reached.

ghost use Rattle.std.specs.Prelude.{◌≡◌, ◌∷◌, ◌++◌, List, length};
ghost use Rattle.two_nodes.specs.Nodes.{Run, advance};
ghost use Rattle.two_nodes.specs.Nodes as any;
ghost use Rattle.capture_record.specs.declared.record.Record.{Record};
ghost use Rattle.dna_station.specs.declared.head.Head.{Head};
ghost use Rattle.dna_node.specs.declared.finding.Cause.TheVariants as causes;
ghost use Rattle.dna_node.specs.declared.finding.Finding.TheVariants as findings;
ghost use Rattle.dna_station.specs.declared.refusal.StepRefusal.{StepRefusal};
ghost use Rattle.pair_judge.specs.Finding.{IsFinding};
ghost use Rattle.dna_node.specs.WireLayers.{wire_layers_start};
ghost use Rattle.pair_judge.specs.inner.Reached.{IsShown};
ghost use Rattle.pair_judge.specs.inner.Wire.{JudgeWorld, judge_pair};

use crate::judged_nodes::KindNodes;
use crate::top::Top;
use two_nodes::{both_waiting, one_waiting, refused_record};
use wire_base::Side;

/// Each way for the judge to end is the finding of every pair of captures that begins with the records made so far.
pub fn endings<T: Top>()
    ensures accepted { (head_a head_b : Head) (w : JudgeWorld) (of_a of_b : List Record)
        → Run (judge_pair T.top) (wire_layers_start head_a head_b) of_a of_b w → IsShown T.top head_a head_b w of_a of_b }
    ensures a_refused { (head_a head_b : Head) (w : JudgeWorld) (done_a rest_a done_b rest_b : List Record) (r : Record) (refusal : StepRefusal)
        → Run (judge_pair T.top) (wire_layers_start head_a head_b) done_a done_b w
        → advance (judge_pair T.top).node_a w.a w.b r ≡ any.Refused refusal
        → IsFinding T.top.kind head_a head_b (done_a ++ r ∷ rest_a) (done_b ++ rest_b) (findings.Refused Side.A (length done_a) (causes.Step
        refusal)) }
    ensures b_refused_behind { (head_a head_b : Head) (w : JudgeWorld) (done_a rest_a done_b rest_b : List Record) (p r : Record)
        (refusal : StepRefusal)
        → Run (judge_pair T.top) (wire_layers_start head_a head_b) done_a done_b w
        → advance (judge_pair T.top).node_a w.a w.b p ≡ any.Waits
        → advance (judge_pair T.top).node_b w.b w.a r ≡ any.Refused refusal
        → IsFinding T.top.kind head_a head_b (done_a ++ p ∷ rest_a) (done_b ++ r ∷ rest_b) (findings.Refused Side.B (length done_b) (causes.Step
        refusal)) }
    ensures b_refused_last { (head_a head_b : Head) (w : JudgeWorld) (all_a done_b rest_b : List Record) (r : Record) (refusal : StepRefusal)
        → Run (judge_pair T.top) (wire_layers_start head_a head_b) all_a done_b w
        → advance (judge_pair T.top).node_b w.b w.a r ≡ any.Refused refusal
        → IsFinding T.top.kind head_a head_b all_a (done_b ++ r ∷ rest_b) (findings.Refused Side.B (length done_b) (causes.Step refusal)) }
    ensures stuck { (head_a head_b : Head) (w : JudgeWorld) (done_a rest_a done_b rest_b : List Record) (r s : Record)
        → Run (judge_pair T.top) (wire_layers_start head_a head_b) done_a done_b w
        → advance (judge_pair T.top).node_a w.a w.b r ≡ any.Waits
        → advance (judge_pair T.top).node_b w.b w.a s ≡ any.Waits
        → IsFinding T.top.kind head_a head_b (done_a ++ r ∷ rest_a) (done_b ++ s ∷ rest_b) (findings.Refused Side.A (length done_a) causes.NoOrder) }
    ensures a_lacks { (head_a head_b : Head) (w : JudgeWorld) (done_a rest_a all_b : List Record) (r : Record)
        → Run (judge_pair T.top) (wire_layers_start head_a head_b) done_a all_b w
        → advance (judge_pair T.top).node_a w.a w.b r ≡ any.Waits
        → IsFinding T.top.kind head_a head_b (done_a ++ r ∷ rest_a) all_b (findings.Refused Side.A (length done_a) causes.NoSuchUnit) }
    ensures b_lacks { (head_a head_b : Head) (w : JudgeWorld) (all_a done_b rest_b : List Record) (r : Record)
        → Run (judge_pair T.top) (wire_layers_start head_a head_b) all_a done_b w
        → advance (judge_pair T.top).node_b w.b w.a r ≡ any.Waits
        → IsFinding T.top.kind head_a head_b all_a (done_b ++ r ∷ rest_b) (findings.Refused Side.B (length done_b) causes.NoSuchUnit) }
{
    T::shows();
    refused_record::<KindNodes<T>>();
    both_waiting::<KindNodes<T>>();
    one_waiting::<KindNodes<T>>();
}
