ghost use Rattle.two_nodes.specs.inner.Idle.{idle_nodes, idle_nodes_tell};
ghost use Rattle.two_nodes.specs.Nodes.{Nodes};
ghost use Rattle.two_nodes.specs.Past.{BothTell};

use std::marker::Brand;

/// Two nodes, with the types that they are about. A law is called at a type that implements this trait, and then speaks of
/// the nodes that the type names. There are two ways to name them: a type of the caller's own with an `impl`, whose members
/// are in `specs/` or in a crate below; or [`Brand`], where the caller's proof picks the members for each call, from the
/// call's values and from its own `proofs/` too.
pub trait TwoNodes {
    /// The states of a node.
    ghost State: { Type 0 };

    /// The records that a node makes.
    ghost Record: { Type 0 };

    /// The units that a node sends.
    ghost Sent: { Type 0 };

    /// The reasons for which a node refuses a record.
    ghost Reason: { Type 0 };

    /// The node of each side, and what a record alone tells.
    ghost nodes: { Nodes State Record Sent Reason };

    /// What a record tells is so, on both sides and in each state.
    ghost tells: { BothTell nodes };
}

/// Two nodes that do nothing, where no others are picked.
impl TwoNodes for Brand {
    ghost State = { Unit {0} };

    ghost Record = { Unit {0} };

    ghost Sent = { Unit {0} };

    ghost Reason = { Unit {0} };

    ghost nodes = { idle_nodes };

    ghost tells = { idle_nodes_tell };
}
