//! What holds of runs of which links are left out, whatever the code does.

ghost use Rattle.std.specs.Prelude.{◌≡◌, Bool, None, List, [], ◌∷◌, map};
ghost use Rattle.std.specs.List.{AllByRecursion};
ghost use Rattle.wire_base.specs.declared.side.Side.{Side as End};
ghost use Rattle.wire_base.specs.declared.side.Side.TheVariants.{A, B};
ghost use Rattle.ddcmp_msg.specs.Message.{MessageValue};
ghost use Rattle.two_nodes.specs.Nodes.{World, Run, advance};
ghost use Rattle.two_nodes.specs.Nodes.Outcome.{Refused};
ghost use Rattle.capture_record.specs.Range.{IsRecord};
ghost use Rattle.capture_record.specs.declared.record.Record.{Record};
ghost use Rattle.dna_station.specs.declared.head.Head.{Head};
ghost use Rattle.dna_station.specs.declared.state.StationEvent.{StationEvent};
ghost use Rattle.dna_station.specs.Station.{Station, after_event};
ghost use Rattle.dna_station.specs.PeriodRule.{PeriodRule};
ghost use Rattle.dna_station.specs.Truth.{Truth};
ghost use Rattle.dna_station.specs.Book.{Sound};
ghost use Rattle.dna_station.specs.StationBook.{sending_refusal, after_sending, truth_of, arrival_refusal, after_arrival};
ghost use Rattle.dna_station.specs.declared.refusal.StepRefusal.TheVariants.{Links as OfLinks};
ghost use Rattle.dna_station.specs.declared.link_refusal.LinkRefusal.{LinkRefusal};
ghost use Rattle.dna_links.specs.declared.queue.Queues.{Queues};
ghost use Rattle.dna_node.specs.Layers.{LayersNode, LayersUnit};
ghost use Rattle.dna_node.specs.LayersPair.{layers_pair_by, layers_start};
ghost use Rattle.dna_node.specs.Kind.{layers_kind, IsRunOf};
ghost use Rattle.dna_node.specs.WireLayers.{WireLayersNode};
ghost use Rattle.dna_node.specs.Alone.{Accused, Passed, PassesBy, Refuses, judged_alone_by, layers_end_by, step_alone};
ghost use Rattle.link_groups.specs.Groups.{Binding};
ghost use Rattle.link_groups.specs.LeftOut.{AreWhole};
ghost use Rattle.leaving_out.specs.declared.leaving.Leaving.{Leaving as Left};
ghost use Rattle.leaving_out.specs.Records.{record_left as made_of, records_left};
ghost use Rattle.dna_leaving.specs.Worlds.{other_out};
ghost use Rattle.leaving_runs.specs.Stations.{Packets, with_body, station_left};
ghost use Rattle.leaving_runs.specs.Nodes.{Leaves, other_leaves};
ghost use Rattle.leaving_runs.specs.Records.{record_left};
ghost use Rattle.leaving_runs.specs.Fitting.{PacketsFit, RecordFits};
ghost use Rattle.leaving_runs.specs.Meets.{of_record, IsJudged};
ghost use Rattle.leaving_runs.specs.Tied.{leaves_at, KnowsHead, AreAlike, AreAmong};
ghost use Rattle.leaving_runs.specs.OneEnd.{seen_from_there, RecordAlikeAlone, AreAlikeAlone, ComesFromLink, AreAmongAlone, IsJudgedAlone};

/// Whatever becomes of packets, a station makes of what is left what is left of what it made: events and arrivals alike, and what it may send it
/// may still send, with the same truth. (Only data that are not those of the first sending may become the same as those.)
pub fn stations_look_at_no_packet()
    ensures event { (packets : Packets) (s : Station) (event : StationEvent)
        → after_event (station_left packets s) event ≡ station_left packets (after_event s event) }
    ensures may_send { (packets : Packets) (s : Station) (m : MessageValue)
        → sending_refusal s m ≡ None → sending_refusal (station_left packets s) (with_body packets.own m) ≡ None }
    ensures sends { (packets : Packets) (s : Station) (m : MessageValue)
        → after_sending (station_left packets s) (with_body packets.own m) ≡ station_left packets (after_sending s m) }
    ensures truth { (packets : Packets) (s : Station) (m : MessageValue)
        → truth_of (station_left packets s) (with_body packets.own m) ≡ truth_of s m }
    ensures refuses { (packets : Packets) (s : Station) (rule : PeriodRule) (m : MessageValue) (u : Truth) (kept : Bool)
        → arrival_refusal rule (station_left packets s) (Sound (with_body packets.far m) u) kept ≡ arrival_refusal rule s (Sound m u) kept }
    ensures arrives { (packets : Packets) (s : Station) (m : MessageValue) (u : Truth) (kept : Bool)
        → after_arrival (station_left packets s) (Sound (with_body packets.far m) u) kept ≡ station_left packets (after_arrival s (Sound m u) kept) }
{}

/// Of nodes with or without queues: where records of both captures are a run, so is what is left of them. Of what becomes of packets this is asked:
/// it fits a unit, and a reader of messages finds in it what is left of the packet's message (`PacketsFit`). And of records: each has a line, and no
/// `accept` or `reject` binds a judged address to one that is left out.
pub fn what_is_left_of_a_pair_is_a_run()
    ensures { (queues : Queues) (leaves : Leaves) (head_a head_b : Head) (of_a of_b : List Record)
        → PacketsFit leaves.out head_a.own head_a.peer leaves.packets.own
        → PacketsFit (other_out leaves.out) head_b.own head_b.peer leaves.packets.far
        → AllByRecursion (RecordFits leaves.out) of_a → AllByRecursion (RecordFits (other_out leaves.out)) of_b
        → IsRunOf (layers_kind queues) head_a head_b of_a of_b
        → IsRunOf (layers_kind queues) head_a head_b (map (record_left leaves) of_a) (map (record_left (other_leaves leaves)) of_b) }
{}

/// Leaving out makes no refusal of a pair that is accepted: what the program makes of both captures is a run where they are one. Asked is only that
/// it knows the heads, and that of no two own addresses that an `accept` or a `reject` binds one alone is left out (`whole_groups_are_alike`).
/// Whether packets and messages that can't be read are carried makes no difference.
pub fn leaving_out_makes_no_refusal()
    ensures { (queues : Queues) (leaving : Left) (head_a head_b : Head) (of_a of_b : List Record)
        → KnowsHead leaving A head_a → KnowsHead leaving B head_b → AllByRecursion IsRecord of_a → AllByRecursion IsRecord of_b
        → AreAlike leaving A of_a → AreAlike leaving B of_b → IsRunOf (layers_kind queues) head_a head_b of_a of_b
        → IsRunOf (layers_kind queues) head_a head_b (records_left leaving A of_a) (records_left leaving B of_b) }
{}

/// And where the links refuse a record next to a run, and what they meet of it is judged, what the program makes of the record is refused for the
/// same reason next to what it makes of the run. So, by `refused_record` of two nodes, it offends for that reason, whatever comes after.
pub fn judged_record_of_a_pair_is_refused_alike()
    ensures of_a { (queues : Queues) (leaving : Left) (head_a head_b : Head) (of_a of_b : List Record) (w : World LayersNode LayersUnit)
        → KnowsHead leaving A head_a → KnowsHead leaving B head_b → AllByRecursion IsRecord of_a → AllByRecursion IsRecord of_b
        → AreAlike leaving A of_a → AreAlike leaving B of_b → Run (layers_pair_by queues) (layers_start head_a head_b) of_a of_b w
        → (r : Record) → IsRecord r → (refusal : LinkRefusal) → AreAlike leaving A (r ∷ [])
        → IsJudged (leaves_at leaving A B).out (of_record w.a w.b r)
        → advance (layers_pair_by queues).node_a w.a w.b r ≡ Refused (OfLinks refusal)
        → (left : World LayersNode LayersUnit)
        × Run (layers_pair_by queues) (layers_start head_a head_b) (records_left leaving A of_a) (records_left leaving B of_b) left
        × (advance (layers_pair_by queues).node_a left.a left.b (made_of leaving A r) ≡ Refused (OfLinks refusal)) }
    ensures of_b { (queues : Queues) (leaving : Left) (head_a head_b : Head) (of_a of_b : List Record) (w : World LayersNode LayersUnit)
        → KnowsHead leaving A head_a → KnowsHead leaving B head_b → AllByRecursion IsRecord of_a → AllByRecursion IsRecord of_b
        → AreAlike leaving A of_a → AreAlike leaving B of_b → Run (layers_pair_by queues) (layers_start head_a head_b) of_a of_b w
        → (r : Record) → IsRecord r → (refusal : LinkRefusal) → AreAlike leaving B (r ∷ [])
        → IsJudged (leaves_at leaving B A).out (of_record w.b w.a r)
        → advance (layers_pair_by queues).node_b w.b w.a r ≡ Refused (OfLinks refusal)
        → (left : World LayersNode LayersUnit)
        × Run (layers_pair_by queues) (layers_start head_a head_b) (records_left leaving A of_a) (records_left leaving B of_b) left
        × (advance (layers_pair_by queues).node_b left.b left.a (made_of leaving B r) ≡ Refused (OfLinks refusal)) }
{}

/// Where whole groups are left out, as `LeftGroups` leaves them out, of bindings among which are all of these records, both own addresses of each
/// `accept` and `reject` are, or none.
pub fn whole_groups_are_alike()
    ensures { (leaving : Left) (bindings : List Binding) (side : End) (records : List Record)
        → AreWhole bindings leaving.left_out.now → AllByRecursion IsRecord records → AreAmong bindings side records → AreAlike leaving side records }
{}

/// Of one end the same, alone: where its records pass, with queues or without, so does what the program makes of them. Asked is that it knows the
/// head, and of the other end the same seen from there; that of no two own addresses that the records bind, a CC or a call that came included, one
/// alone is left out (`whole_groups_are_alike_alone`); and that no CC that came names 0 as the address of its sender, which is that of no link.
pub fn leaving_out_makes_no_refusal_of_one_end()
    ensures { (queues : Queues) (leaving : Left) (head : Head) (records : List Record)
        → KnowsHead leaving A head → KnowsHead leaving B (seen_from_there head) → AllByRecursion IsRecord records
        → AreAlikeAlone leaving A records → AllByRecursion ComesFromLink records → PassesBy queues head records
        → PassesBy queues head (records_left leaving A records) }
{}

/// And where the links refuse a record behind such records, for what either end did, and what it is about is judged, of what came at its sender too,
/// what the program makes of the record is refused for the same reason, of the same end, behind what it makes of the records.
pub fn judged_record_of_one_end_is_refused_alike()
    ensures { (queues : Queues) (leaving : Left) (head : Head) (records : List Record) (n : WireLayersNode)
        → KnowsHead leaving A head → KnowsHead leaving B (seen_from_there head) → AllByRecursion IsRecord records
        → AreAlikeAlone leaving A records → AllByRecursion ComesFromLink records → judged_alone_by queues head records ≡ Passed n
        → (r : Record) → IsRecord r → RecordAlikeAlone leaving A r → ComesFromLink r → IsJudgedAlone leaving A r
        → (accused : Accused) (refusal : LinkRefusal) → step_alone (layers_end_by queues) n r ≡ Refuses accused (OfLinks refusal)
        → (left : WireLayersNode) × (judged_alone_by queues head (records_left leaving A records) ≡ Passed left)
        × (step_alone (layers_end_by queues) left (made_of leaving A r) ≡ Refuses accused (OfLinks refusal)) }
{}

/// Where whole groups are left out, of bindings among which are all of these records, what came included, both own addresses of each binding are, or
/// none.
pub fn whole_groups_are_alike_alone()
    ensures { (leaving : Left) (bindings : List Binding) (side : End) (records : List Record)
        → AreWhole bindings leaving.left_out.now → AllByRecursion IsRecord records → AreAmongAlone bindings side records
        → AreAlikeAlone leaving side records }
{}
