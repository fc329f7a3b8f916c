ghost use Rattle.std.specs.Prelude.{◌≡◌, ℕ, List, [], ◌∷◌, ◌++◌, length, take, slice_get};
ghost use Rattle.two_nodes.specs.Nodes.{World, Run, IsRun, advance, exchanged, exchanged_world, start_world};
ghost use Rattle.two_nodes.specs.Nodes.Outcome.{Refused};
ghost use Rattle.two_nodes.specs.Past.{IsClosed, IsPast, Offends};

use crate::nodes::TwoNodes;

/// Beginnings of a run are themselves a run exactly where each unit that they name is sent by them.
pub fn closed_beginnings<N: TwoNodes>()
    ensures run { (first_a first_b : N.State) (xs ys : List N.Record) (i j : ℕ)
        → IsRun N.nodes (start_world first_a first_b) xs ys
        → IsClosed N.nodes (take i xs) (take j ys)
        → IsRun N.nodes (start_world first_a first_b) (take i xs) (take j ys) }
    ensures closed { (first_a first_b : N.State) (xs ys : List N.Record)
        → IsRun N.nodes (start_world first_a first_b) xs ys → IsClosed N.nodes xs ys }
{}

/// A record that is refused in a world which some order of beginnings reached offends for that reason, however the two
/// lists go on after it, and no order makes a run of them.
pub fn refused_record<N: TwoNodes>()
    ensures a_offends { (first_a first_b : N.State) (w : World N.State N.Sent) (r : N.Record) (reason : N.Reason)
        → (done_a rest_a done_b rest_b : List N.Record)
        → Run N.nodes (start_world first_a first_b) done_a done_b w
        → advance N.nodes.node_a w.a w.b r ≡ Refused reason
        → Offends N.nodes (start_world first_a first_b)
        (done_a ++ r ∷ rest_a) (done_b ++ rest_b) (length done_a) reason }
    ensures b_offends { (first_a first_b : N.State) (w : World N.State N.Sent) (r : N.Record) (reason : N.Reason)
        → (done_a rest_a done_b rest_b : List N.Record)
        → Run N.nodes (start_world first_a first_b) done_a done_b w
        → advance N.nodes.node_b w.b w.a r ≡ Refused reason
        → Offends (exchanged N.nodes) (start_world first_b first_a)
        (done_b ++ r ∷ rest_b) (done_a ++ rest_a) (length done_b) reason }
    ensures a_ends { (start w : World N.State N.Sent) (r : N.Record) (reason : N.Reason)
        → (done_a rest_a done_b rest_b : List N.Record)
        → Run N.nodes start done_a done_b w
        → advance N.nodes.node_a w.a w.b r ≡ Refused reason
        → ¬ IsRun N.nodes start (done_a ++ r ∷ rest_a) (done_b ++ rest_b) }
    ensures b_ends { (start w : World N.State N.Sent) (r : N.Record) (reason : N.Reason)
        → (done_a rest_a done_b rest_b : List N.Record)
        → Run N.nodes start done_a done_b w
        → advance N.nodes.node_b w.b w.a r ≡ Refused reason
        → ¬ IsRun N.nodes start (done_a ++ rest_a) (done_b ++ r ∷ rest_b) }
{}

/// A record offends exactly where its past is a run and the past followed by the record is none. Where a record offends,
/// the two lists are no run.
pub fn offender<N: TwoNodes>()
    ensures no_run { (start : World N.State N.Sent) (xs ys : List N.Record) (n : ℕ) (reason : N.Reason)
        → Offends N.nodes start xs ys n reason → ¬ IsRun N.nodes start xs ys }
    ensures no_run_of_b { (start : World N.State N.Sent) (xs ys : List N.Record) (n : ℕ) (reason : N.Reason)
        → Offends (exchanged N.nodes) (exchanged_world start) ys xs n reason
        → ¬ IsRun N.nodes start xs ys }
    ensures breaks_its_past { (start : World N.State N.Sent) (xs ys : List N.Record) (n : ℕ) (reason : N.Reason)
        → (o : Offends N.nodes start xs ys n reason)
        → ¬ IsRun N.nodes start (take n xs ++ o.offender ∷ []) (take o.of_other ys) }
    ensures is_blamed { (first_a first_b : N.State) (xs ys : List N.Record) (n i j : ℕ) (r : N.Record)
        → IsPast N.nodes xs ys n i j
        → IsRun N.nodes (start_world first_a first_b) (take i xs) (take j ys)
        → slice_get xs n ≡ Some r
        → ¬ IsRun N.nodes (start_world first_a first_b) (take i xs ++ r ∷ []) (take j ys)
        → (reason : N.Reason) × Offends N.nodes (start_world first_a first_b) xs ys n reason }

    // A past that is a run holds, of the record's own side, the records before it and no more.
    ensures past_is_before { (first_a first_b : N.State) (xs ys : List N.Record) (n i j : ℕ)
        → IsPast N.nodes xs ys n i j
        → IsRun N.nodes (start_world first_a first_b) (take i xs) (take j ys)
        → i ≡ n }
{}
