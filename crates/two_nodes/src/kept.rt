ghost use Rattle.std.specs.Prelude.{List, [], ◌++◌};
ghost use Rattle.two_nodes.specs.inner.Idle.{idle_nodes, no_property};
ghost use Rattle.two_nodes.specs.Kept.{IsKept};
ghost use Rattle.two_nodes.specs.Nodes.{Nodes, World, Run};

use std::marker::Brand;

/// A property of two nodes: a fact about a world, with the records of a and of b that were made
/// so far. It is named as the nodes of [`TwoNodes`](crate::nodes::TwoNodes) are, by an `impl` or by a pick at [`Brand`].
pub trait KeptProperty {
    /// The states of a node.
    ghost State: { Type 0 };

    /// The records that a node makes.
    ghost Record: { Type 0 };

    /// The units that a node sends.
    ghost Sent: { Type 0 };

    /// The reasons for which a node refuses a record.
    ghost Reason: { Type 0 };

    /// The node of each side.
    ghost nodes: { Nodes State Record Sent Reason };

    /// The property.
    ghost holds: { World State Sent → List Record → List Record → Type 0 };
}

/// A property that always holds of two nodes that do nothing, where no other is picked.
impl KeptProperty for Brand {
    ghost State = { Unit {0} };

    ghost Record = { Unit {0} };

    ghost Sent = { Unit {0} };

    ghost Reason = { Unit {0} };

    ghost nodes = { idle_nodes };

    ghost holds = { no_property };
}

/// What holds at the start and is kept by each record holds after every run, of all its records.
pub fn always<K: KeptProperty>()
    ensures from_start { (start end : World K.State K.Sent) (xs ys : List K.Record)
        → IsKept K.nodes K.holds → K.holds start [] [] → Run K.nodes start xs ys end → K.holds end xs ys }

    // The same from a world that was reached, with the records made before.
    ensures onward { (w end : World K.State K.Sent) (made_a made_b xs ys : List K.Record)
        → IsKept K.nodes K.holds → K.holds w made_a made_b → Run K.nodes w xs ys end
        → K.holds end (made_a ++ xs) (made_b ++ ys) }
{}
