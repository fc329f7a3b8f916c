//! The stations of a pair of captures as nodes, for the laws of any two nodes.

ghost use Rattle.capture_record.specs.declared.record.Record.{Record};
ghost use Rattle.dna_station.specs.declared.refusal.StepRefusal.{StepRefusal};
ghost use Rattle.dna_station.specs.Line.{SentUnit};
ghost use Rattle.dna_station.specs.Node.{Node};
ghost use Rattle.dna_station.specs.Pair.{pair};
ghost use Rattle.dna_station.specs.WireNode.{WireNode, WireUnit, wire_pair};
ghost use Rattle.dna_station.specs.inner.Tells.{pair_tells, wire_pair_tells};

use std::marker::PhantomData;
use two_nodes::TwoNodes;

/// The two nodes on true numbers, with what a record alone tells: which unit it names, and whether it sends one.
pub struct TrueNodes;

impl TwoNodes for TrueNodes {
    ghost State = { Node };

    ghost Record = { Record };

    ghost Sent = { SentUnit };

    ghost Reason = { StepRefusal };

    ghost nodes = { pair };

    ghost tells = { pair_tells };
}

/// The two wire nodes, which may hold an `L` beside a packet, with what a record alone tells.
pub struct WireNodes<L> {
    label: PhantomData<L>,
}

impl<L> TwoNodes for WireNodes<L> {
    ghost State = { WireNode L };

    ghost Record = { Record };

    ghost Sent = { WireUnit };

    ghost Reason = { StepRefusal };

    ghost nodes = { wire_pair };

    ghost tells = { wire_pair_tells L };
}
