//! The nodes that the judge runs, and those that it takes the ends for, for the laws of any two nodes.

ghost use Rattle.capture_record.specs.declared.record.Record.{Record};
ghost use Rattle.dna_station.specs.declared.refusal.StepRefusal.{StepRefusal};
ghost use Rattle.dna_station.specs.inner.Tells.{machine_tells};
ghost use Rattle.dna_node.specs.Kind.{KindNode, KindUnit, kind_pair};
ghost use Rattle.dna_node.specs.WireLayers.{WireLayersNode, WireLayersUnit};
ghost use Rattle.pair_judge.specs.inner.Wire.{judge_pair};

use crate::top::Top;
use std::marker::PhantomData;
use two_nodes::TwoNodes;

/// The wire nodes with this on top.
pub struct JudgedNodes<T: Top> {
    top: PhantomData<T>,
}

impl<T: Top> TwoNodes for JudgedNodes<T> {
    ghost State = { WireLayersNode };

    ghost Record = { Record };

    ghost Sent = { WireLayersUnit };

    ghost Reason = { StepRefusal };

    ghost nodes = { judge_pair T.top };

    ghost tells = { machine_tells T.top.machine };
}

/// The nodes of the kind.
pub struct KindNodes<T: Top> {
    top: PhantomData<T>,
}

impl<T: Top> TwoNodes for KindNodes<T> {
    ghost State = { KindNode T.top.kind };

    ghost Record = { Record };

    ghost Sent = { KindUnit T.top.kind };

    ghost Reason = { StepRefusal };

    ghost nodes = { kind_pair T.top.kind };

    ghost tells = { machine_tells T.top.kind.machine };
}
