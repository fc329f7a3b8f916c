ghost use Rattle.std.specs.Prelude.{List};
ghost use Rattle.two_nodes.specs.Cutting.{Cut, Commutes, ComesOf, cut_world};
ghost use Rattle.two_nodes.specs.inner.Idle.{idle_nodes, idle_cut, no_property};
ghost use Rattle.two_nodes.specs.Kept.{IsKept};
ghost use Rattle.two_nodes.specs.Nodes.{Nodes, World, Run};

use std::marker::Brand;

/// Two nodes, two others that see less of the same records, and a property of the first in whose worlds the others see right.
/// They are named as the nodes of [`TwoNodes`](crate::nodes::TwoNodes) are, by an `impl` or by a pick at [`Brand`].
pub trait SeenNodes {
    /// The states of a node.
    ghost State: { Type 0 };

    /// What the others see of a state.
    ghost SeenState: { Type 0 };

    /// The records that a node makes.
    ghost Record: { Type 0 };

    /// The units that a node sends.
    ghost Sent: { Type 0 };

    /// What the others see of a unit.
    ghost SeenUnit: { Type 0 };

    /// The reasons for which a node refuses a record.
    ghost Reason: { Type 0 };

    /// The node of each side.
    ghost nodes: { Nodes State Record Sent Reason };

    /// The node of each side, as the others see it.
    ghost others: { Nodes SeenState Record SeenUnit Reason };

    /// What the others see.
    ghost cut: { Cut State Sent SeenState SeenUnit };

    /// The property.
    ghost holds: { World State Sent → List Record → List Record → Type 0 };
}

/// Two nodes that do nothing, and are seen whole, where no others are picked.
impl SeenNodes for Brand {
    ghost State = { Unit {0} };

    ghost SeenState = { Unit {0} };

    ghost Record = { Unit {0} };

    ghost Sent = { Unit {0} };

    ghost SeenUnit = { Unit {0} };

    ghost Reason = { Unit {0} };

    ghost nodes = { idle_nodes };

    ghost others = { idle_nodes };

    ghost cut = { idle_cut };

    ghost holds = { no_property };
}

/// Where a property holds where the run begins and is kept by each record, and in each world that has it each record becomes the
/// same to the others' eyes, the runs of the others are just what they see of the runs of the nodes.
pub fn simulation<N: SeenNodes>()
    ensures seen { (w end : World N.State N.Sent) (made_a made_b xs ys : List N.Record)
        → IsKept N.nodes N.holds → Commutes N.nodes N.others N.cut N.holds → N.holds w made_a made_b
        → Run N.nodes w xs ys end → Run N.others (cut_world N.cut w) xs ys (cut_world N.cut end) }
    ensures comes_of { (w : World N.State N.Sent) (seen : World N.SeenState N.SeenUnit) (made_a made_b xs ys : List N.Record)
        → IsKept N.nodes N.holds → Commutes N.nodes N.others N.cut N.holds → N.holds w made_a made_b
        → Run N.others (cut_world N.cut w) xs ys seen → ComesOf N.nodes N.cut N.holds w made_a made_b xs ys seen }
{}
