//! The nodes of a pair of captures over both layers, for the laws of any two nodes.

ghost use Rattle.capture_record.specs.declared.record.Record.{Record};
ghost use Rattle.dna_station.specs.declared.refusal.StepRefusal.{StepRefusal};
ghost use Rattle.dna_node.specs.Layers.{LayersNode, LayersUnit};
ghost use Rattle.dna_node.specs.LayersPair.{layers_pair};
ghost use Rattle.dna_node.specs.WireLayers.{WireLayersNode, WireLayersUnit, wire_layers_pair};
ghost use Rattle.dna_node.specs.inner.Tells.{layers_tell, wire_layers_tell};

use two_nodes::TwoNodes;

/// The two nodes over both layers on true numbers, with what a record alone tells.
pub struct TrueLayersNodes;

impl TwoNodes for TrueLayersNodes {
    ghost State = { LayersNode };

    ghost Record = { Record };

    ghost Sent = { LayersUnit };

    ghost Reason = { StepRefusal };

    ghost nodes = { layers_pair };

    ghost tells = { layers_tell };
}

/// The two wire nodes over both layers, with what a record alone tells.
pub struct WireLayersNodes;

impl TwoNodes for WireLayersNodes {
    ghost State = { WireLayersNode };

    ghost Record = { Record };

    ghost Sent = { WireLayersUnit };

    ghost Reason = { StepRefusal };

    ghost nodes = { wire_layers_pair };

    ghost tells = { wire_layers_tell };
}
