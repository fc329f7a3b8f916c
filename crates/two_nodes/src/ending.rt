ghost use Rattle.std.specs.Prelude.{◌≡◌, ℕ, List, ◌∷◌, ◌++◌, length};
ghost use Rattle.two_nodes.specs.Endings.{LacksUnit, IsStuck};
ghost use Rattle.two_nodes.specs.Nodes.{World, Run, IsRun, advance, exchanged, start_world};
ghost use Rattle.two_nodes.specs.Nodes.Outcome.{Waits};

use crate::nodes::TwoNodes;

/// Where both sides wait in a world that some order of beginnings reached, nobody can go on, and there is no run.
pub fn both_waiting<N: TwoNodes>()
    ensures stuck { (first_a first_b : N.State) (w : World N.State N.Sent) (r s : N.Record)
        → (done_a rest_a done_b rest_b : List N.Record)
        → Run N.nodes (start_world first_a first_b) done_a done_b w
        → advance N.nodes.node_a w.a w.b r ≡ Waits
        → advance N.nodes.node_b w.b w.a s ≡ Waits
        → IsStuck N.nodes (start_world first_a first_b)
        (done_a ++ r ∷ rest_a) (done_b ++ s ∷ rest_b) (length done_a) (length done_b) }
    ensures no_run { (first_a first_b : N.State) (xs ys : List N.Record) (i j : ℕ)
        → IsStuck N.nodes (start_world first_a first_b) xs ys i j
        → ¬ IsRun N.nodes (start_world first_a first_b) xs ys }
{}

/// Where one side waits and the other has ended, the unit that is waited for is never sent, and there is no run.
pub fn one_waiting<N: TwoNodes>()
    ensures a_lacks { (first_a first_b : N.State) (w : World N.State N.Sent) (r : N.Record)
        → (done_a rest_a ys : List N.Record)
        → Run N.nodes (start_world first_a first_b) done_a ys w
        → advance N.nodes.node_a w.a w.b r ≡ Waits
        → LacksUnit N.nodes (start_world first_a first_b) (done_a ++ r ∷ rest_a) ys (length done_a) }
    ensures b_lacks { (first_a first_b : N.State) (w : World N.State N.Sent) (r : N.Record)
        → (xs done_b rest_b : List N.Record)
        → Run N.nodes (start_world first_a first_b) xs done_b w
        → advance N.nodes.node_b w.b w.a r ≡ Waits
        → LacksUnit (exchanged N.nodes) (start_world first_b first_a)
        (done_b ++ r ∷ rest_b) xs (length done_b) }
    ensures a_ends { (first_a first_b : N.State) (xs ys : List N.Record) (n : ℕ)
        → LacksUnit N.nodes (start_world first_a first_b) xs ys n
        → ¬ IsRun N.nodes (start_world first_a first_b) xs ys }
    ensures b_ends { (first_a first_b : N.State) (xs ys : List N.Record) (n : ℕ)
        → LacksUnit (exchanged N.nodes) (start_world first_b first_a) ys xs n
        → ¬ IsRun N.nodes (start_world first_a first_b) xs ys }
{}
