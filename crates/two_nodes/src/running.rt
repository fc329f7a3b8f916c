ghost use Rattle.std.specs.Prelude.{◌≡◌, ◌≤◌, ◌↔◌, ℕ, List, [], ◌∷◌, ◌++◌, length};
ghost use Rattle.two_nodes.specs.Nodes.{Half, World, Run, advance, exchanged, exchanged_world, start_world};
ghost use Rattle.two_nodes.specs.Nodes.Outcome.{Made, Waits};
ghost use Rattle.two_nodes.specs.Past.{sent_by};

use crate::nodes::TwoNodes;

/// Any order will do: from every world that some order of beginnings reached, the rest is a run if the whole is. So who
/// makes whatever can be made, in any order, finds a run if there is one.
pub fn any_order<N: TwoNodes>()
    ensures rest { (start mid end : World N.State N.Sent) (done_a rest_a done_b rest_b : List N.Record)
        → Run N.nodes start done_a done_b mid
        → Run N.nodes start (done_a ++ rest_a) (done_b ++ rest_b) end
        → Run N.nodes mid rest_a rest_b end }

    // All orders end in one world.
    ensures one_end { (start end other : World N.State N.Sent) (xs ys : List N.Record)
        → Run N.nodes start xs ys end → Run N.nodes start xs ys other → end ≡ other }
{}

/// A run goes on by what can be made where it ends.
pub fn reading_on<N: TwoNodes>()
    ensures of_a { (start w : World N.State N.Sent) (half : Half N.State N.Sent) (r : N.Record)
        → (made_a made_b : List N.Record)
        → Run N.nodes start made_a made_b w
        → advance N.nodes.node_a w.a w.b r ≡ Made half
        → Run N.nodes start (made_a ++ r ∷ []) made_b (record { a = half; b = w.b }) }
    ensures of_b { (start w : World N.State N.Sent) (half : Half N.State N.Sent) (r : N.Record)
        → (made_a made_b : List N.Record)
        → Run N.nodes start made_a made_b w
        → advance N.nodes.node_b w.b w.a r ≡ Made half
        → Run N.nodes start made_a (made_b ++ r ∷ []) (record { a = w.a; b = half }) }
    ensures joined { (start mid end : World N.State N.Sent) (made_a next_a made_b next_b : List N.Record)
        → Run N.nodes start made_a made_b mid
        → Run N.nodes mid next_a next_b end
        → Run N.nodes start (made_a ++ next_a) (made_b ++ next_b) end }
{}

/// A run with the sides exchanged is a run of the exchanged nodes, and the other way round.
pub fn exchanged_sides<N: TwoNodes>()
    ensures there { (start end : World N.State N.Sent) (xs ys : List N.Record)
        → Run N.nodes start xs ys end
        → Run (exchanged N.nodes) (exchanged_world start) ys xs (exchanged_world end) }
    ensures back { (start end : World N.State N.Sent) (xs ys : List N.Record)
        → Run (exchanged N.nodes) (exchanged_world start) ys xs (exchanged_world end)
        → Run N.nodes start xs ys end }
{}

/// A side has sent as many units since the start as it has records that send one.
pub fn units_sent<N: TwoNodes>()
    ensures of_a { (first_a first_b : N.State) (w : World N.State N.Sent) (xs ys : List N.Record)
        → Run N.nodes (start_world first_a first_b) xs ys w → length w.a.sent ≡ sent_by N.nodes xs }
    ensures of_b { (first_a first_b : N.State) (w : World N.State N.Sent) (xs ys : List N.Record)
        → Run N.nodes (start_world first_a first_b) xs ys w → length w.b.sent ≡ sent_by N.nodes ys }
{}

/// A record waits exactly where it names a unit that the other side has not sent yet.
pub fn missing_unit<N: TwoNodes>()
    ensures of_a { (own other : Half N.State N.Sent) (r : N.Record)
        → (advance N.nodes.node_a own other r ≡ Waits)
        ↔ ((k : ℕ) × (N.nodes.named r ≡ Some k) × (length other.sent ≤ k)) }
    ensures of_b { (own other : Half N.State N.Sent) (r : N.Record)
        → (advance N.nodes.node_b own other r ≡ Waits)
        ↔ ((k : ℕ) × (N.nodes.named r ≡ Some k) × (length other.sent ≤ k)) }
{}
