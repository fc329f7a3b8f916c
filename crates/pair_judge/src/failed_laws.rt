//! What holds of the check that a record does not pass.

ghost use Rattle.std.specs.Prelude.{◌≡◌, option_map};
ghost use Rattle.capture_record.specs.declared.event.Event.{Event};
ghost use Rattle.capture_record.specs.declared.fate.Fate.{Fate};
ghost use Rattle.ddcmp_msg.specs.Message.{MessageValue};
ghost use Rattle.dna_station.specs.Book.{ArrivalValue};
ghost use Rattle.dna_links.specs.declared.queue.Queues.{Queues};
ghost use Rattle.dna_node.specs.WireLayers.{LayersTag, WireLayers, wire_layers_machine};
ghost use Rattle.dna_node.specs.TagRules.{judged_by};
ghost use Rattle.pair_judge.specs.FailedCheck.{cause_in, cause_of, failed_arrival, failed_message, failed_user};

/// The check that a message, an arrival or an event does not pass is the one for which both layers refuse it, with queues or without: none where
/// they make it.
pub fn failed_check_as_refused()
    ensures message { (queues : Queues) (s : WireLayers) (m : MessageValue) → option_map cause_of (failed_message queues s m) ≡
        cause_in ((wire_layers_machine (judged_by queues)).sends s m) }
    ensures arrival { (queues : Queues) (s : WireLayers) (arrival : ArrivalValue LayersTag) (fate : Fate) →
        option_map cause_of (failed_arrival s arrival fate) ≡ cause_in ((wire_layers_machine (judged_by queues)).arrives s arrival fate) }
    ensures user { (queues : Queues) (s : WireLayers) (event : Event) → option_map cause_of (failed_user queues s event) ≡
        cause_in ((wire_layers_machine (judged_by queues)).user s event) }
{}
