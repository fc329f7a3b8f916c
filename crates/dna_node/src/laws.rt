//! What holds of the node over both layers in every run, whatever the code does, for the proofs of callers to cite.

ghost use Rattle.std.specs.Prelude.{◌≡◌, List};
ghost use Rattle.two_nodes.specs.Nodes.{World, Run};
ghost use Rattle.two_nodes.specs.Cutting.{cut_world};
ghost use Rattle.capture_record.specs.declared.record.Record.{Record};
ghost use Rattle.dna_station.specs.declared.head.Head.{Head};
ghost use Rattle.dna_station.specs.Pair.{pair, start};
ghost use Rattle.dna_links.specs.declared.queue.Queues.{Queues};
ghost use Rattle.dna_links.specs.declared.queue.Queues.TheVariants.{With};
ghost use Rattle.dna_node.specs.Layers.{LayersNode, LayersUnit, stations};
ghost use Rattle.dna_node.specs.LayersPair.{layers_pair, layers_pair_by, layers_start, link_events, AreJoined};
ghost use Rattle.dna_node.specs.WireLayers.{WireLayersNode, WireLayersUnit, wire_layers_pair, wire_layers_pair_by, wire_layers_start};
ghost use Rattle.dna_node.specs.CutLayers.{layers_seen, layers_seen_by};
ghost use Rattle.dna_node.specs.Seen.{IsSeenLayers, IsSeenLayersBy};
ghost use Rattle.dna_node.specs.Kind.{both_layers, layers_kind, IsRunOf};
ghost use Rattle.dna_node.specs.AsMuch.{IsRunWithQueues};
ghost use Rattle.dna_links.specs.Delivery.{DeliversLinks};
ghost use Rattle.dna_links.specs.Captures.{AreUpFrom, deliveries, ups};

use std::marker::Brand;
use two_nodes::simulation;

/// A run over both layers is a run of the two stations alone: all that is said of those holds of it.
pub fn layers_run_as_stations()
    ensures run { (queues : Queues) (head_a head_b : Head) (w : World LayersNode LayersUnit) (of_a of_b : List Record)
        → Run (layers_pair_by queues) (layers_start head_a head_b) of_a of_b w
        → Run pair (start head_a head_b) of_a of_b (cut_world stations w) }
{}

/// In every run, over any number of restarts of the line, the links of both sides meet the packets that are kept in the order of their
/// first sending, each at most once, with what was true of them then.
pub fn links_meet_packets_in_order()
    ensures joined { (queues : Queues) (head_a head_b : Head) (w : World LayersNode LayersUnit) (of_a of_b : List Record)
        → Run (layers_pair_by queues) (layers_start head_a head_b) of_a of_b w → AreJoined queues head_a head_b w of_a of_b }
{}

/// In every run what was delivered at a link is a beginning of what was handed in at its partner, and nothing without a partner, over any
/// number of starts of the stations; and both are read off the two captures.
pub fn layers_deliver_in_order()
    ensures of_a { (queues : Queues) (head_a head_b : Head) (w : World LayersNode LayersUnit) (of_a of_b : List Record)
        → Run (layers_pair_by queues) (layers_start head_a head_b) of_a of_b w → DeliversLinks w.a.state.station.links w.b.state.station.links }
    ensures of_b { (queues : Queues) (head_a head_b : Head) (w : World LayersNode LayersUnit) (of_a of_b : List Record)
        → Run (layers_pair_by queues) (layers_start head_a head_b) of_a of_b w → DeliversLinks w.b.state.station.links w.a.state.station.links }
    ensures a_captured { (queues : Queues) (head_a head_b : Head) (w : World LayersNode LayersUnit) (of_a of_b : List Record)
        → Run (layers_pair_by queues) (layers_start head_a head_b) of_a of_b w
        → AreUpFrom (link_events of_a) (link_events of_b) w.a.state.station.links.links w.b.state.station.links.links }
    ensures b_captured { (queues : Queues) (head_a head_b : Head) (w : World LayersNode LayersUnit) (of_a of_b : List Record)
        → Run (layers_pair_by queues) (layers_start head_a head_b) of_a of_b w
        → AreUpFrom (link_events of_b) (link_events of_a) w.b.state.station.links.links w.a.state.station.links.links }
    ensures a_counted { (queues : Queues) (head_a head_b : Head) (w : World LayersNode LayersUnit) (of_a of_b : List Record)
        → Run (layers_pair_by queues) (layers_start head_a head_b) of_a of_b w → deliveries w.a.state.station.links.links ≡ ups (link_events of_a) }
    ensures b_counted { (queues : Queues) (head_a head_b : Head) (w : World LayersNode LayersUnit) (of_a of_b : List Record)
        → Run (layers_pair_by queues) (layers_start head_a head_b) of_a of_b w → deliveries w.b.state.station.links.links ≡ ups (link_events of_b) }
{}

/// The runs of two wire nodes over both layers are just what they see of the runs of the two nodes on true numbers; and after such a
/// run the same becomes of each record.
pub fn wire_layers_see_right()
    ensures of_true { (head_a head_b : Head) (w : World LayersNode LayersUnit) (of_a of_b : List Record)
        → Run layers_pair (layers_start head_a head_b) of_a of_b w
        → Run wire_layers_pair (wire_layers_start head_a head_b) of_a of_b (cut_world layers_seen w) }
    ensures of_wire { (head_a head_b : Head) (end : World WireLayersNode WireLayersUnit) (of_a of_b : List Record)
        → Run wire_layers_pair (wire_layers_start head_a head_b) of_a of_b end → IsSeenLayers head_a head_b end of_a of_b }
{
    simulation::<Brand>();
}

/// The same of two nodes with queues.
pub fn queued_wire_layers_see_right()
    ensures of_true { (head_a head_b : Head) (w : World LayersNode LayersUnit) (of_a of_b : List Record)
        → Run (layers_pair_by With) (layers_start head_a head_b) of_a of_b w
        → Run (wire_layers_pair_by With) (wire_layers_start head_a head_b) of_a of_b (cut_world (layers_seen_by With) w) }
    ensures of_wire { (head_a head_b : Head) (end : World WireLayersNode WireLayersUnit) (of_a of_b : List Record)
        → Run (wire_layers_pair_by With) (wire_layers_start head_a head_b) of_a of_b end → IsSeenLayersBy With head_a head_b end of_a of_b }
{
    simulation::<Brand>();
}

/// Nodes with queues do as much as nodes without: they make each run of two captures that those make, and what they leave is the same except
/// for what the queues leave open of the links. As many links begin at each, and as many messages are delivered.
pub fn layers_with_queues_do_as_much()
    ensures run { (head_a head_b : Head) (end : World LayersNode LayersUnit) (of_a of_b : List Record)
        → Run layers_pair (layers_start head_a head_b) of_a of_b end → IsRunWithQueues head_a head_b end of_a of_b }
    ensures accepted { (head_a head_b : Head) (of_a of_b : List Record)
        → IsRunOf both_layers head_a head_b of_a of_b → IsRunOf (layers_kind With) head_a head_b of_a of_b }
{}
