//! What holds of the definitions in `specs/`, whatever the code does, for the proofs of callers to cite. `L` is the type of the
//! labels that a node puts beside packets.

ghost use Rattle.std.specs.Prelude.{◌≡◌, ℕ, ◌+◌, ◌<◌, ◌≤◌, Bool, true, false, Some, None, List, slice_get};
ghost use Rattle.two_nodes.specs.Nodes.{Half, World, Run, advance};
ghost use Rattle.ddcmp_msg.specs.Message.{MessageValue};
ghost use Rattle.capture_record.specs.declared.record.Record.{Record};
ghost use Rattle.dna_station.specs.declared.state.StationEvent.{StationEvent};
ghost use Rattle.dna_station.specs.declared.head.Head.{Head};
ghost use Rattle.dna_station.specs.declared.tag.Tag.{Tag};
ghost use Rattle.dna_station.specs.Station.{Station, new_station, given, all_given, after_event};
ghost use Rattle.dna_station.specs.Delivery.{AreAmong, CarriesItsPacket, DeliversFrom, all_taken, delivered, taken_by_period};
ghost use Rattle.dna_station.specs.Offered.{Delivers, given_by_period, offered};
ghost use Rattle.dna_station.specs.PeriodRule.{PeriodRule, of_period};
ghost use Rattle.dna_station.specs.Truth.{Truth};
ghost use Rattle.dna_station.specs.Book.{ArrivalValue};
ghost use Rattle.dna_station.specs.Book as arriving;
ghost use Rattle.dna_station.specs.StationBook.{sending_refusal, after_sending, gives_number, meets_needs, arrival_refusal, after_arrival};
ghost use Rattle.dna_station.specs.WireStation.{HeldPacket, WireStation, load, with_label, wire_after_event, wire_after_label};
ghost use Rattle.dna_station.specs.WireBook.{wire_sending_refusal, wire_after_sending, gives_new, label_again, wire_arrival_refusal};
ghost use Rattle.dna_station.specs.WireBook.{wire_after_arrival, wire_taken};
ghost use Rattle.dna_station.specs.Bounds.{IsBounded, IsOrdered, IsWithin};
ghost use Rattle.dna_station.specs.Line.{SentUnit};
ghost use Rattle.dna_station.specs.Node.{Node, new_node, step};
ghost use Rattle.dna_station.specs.Pair.{pair, start};
ghost use Rattle.two_nodes.specs.Cutting.{cut_half, cut_outcome, cut_world};
ghost use Rattle.dna_station.specs.WireNode.{WireNode, WireUnit, new_wire_node, wire_step, wire_pair, wire_start, cut_node, seen};
ghost use Rattle.dna_station.specs.Seen.{IsSeen};
ghost use Rattle.dna_station.specs.Cut.{AreLabelled, cut, all_after, all_after_event, label_of_next, with_taken};

/// In every run, the numbers of each station are in order, and what it may still meet is within the bounds.
pub fn numbers_within_bounds()
    ensures of_a { (head_a head_b : Head) (w : World Node SentUnit) (of_a of_b : List Record)
        → Run pair (start head_a head_b) of_a of_b w → IsBounded w.a w.b }
    ensures of_b { (head_a head_b : Head) (w : World Node SentUnit) (of_a of_b : List Record)
        → Run pair (start head_a head_b) of_a of_b w → IsBounded w.b w.a }
{}

/// In every run, what a station took in a period is a beginning of what the other gave in the period that it goes with; where it
/// goes with none, it is nothing.
pub fn delivered_in_order()
    ensures of_a { (head_a head_b : Head) (w : World Node SentUnit) (of_a of_b : List Record)
        → Run pair (start head_a head_b) of_a of_b w → DeliversFrom w.a.state.station w.b.state.station }
    ensures of_b { (head_a head_b : Head) (w : World Node SentUnit) (of_a of_b : List Record)
        → Run pair (start head_a head_b) of_a of_b w → DeliversFrom w.b.state.station w.a.state.station }

    // What it took is the data of the kept receipts of its capture.
    ensures a_captured { (head_a head_b : Head) (w : World Node SentUnit) (of_a of_b : List Record)
        → Run pair (start head_a head_b) of_a of_b w → delivered of_a ≡ taken_by_period w.a.state.station }
    ensures b_captured { (head_a head_b : Head) (w : World Node SentUnit) (of_a of_b : List Record)
        → Run pair (start head_a head_b) of_a of_b w → delivered of_b ≡ taken_by_period w.b.state.station }

    // Over all periods it is, in order, among all that the other gave.
    ensures a_among { (head_a head_b : Head) (w : World Node SentUnit) (of_a of_b : List Record)
        → Run pair (start head_a head_b) of_a of_b w → AreAmong (all_taken w.a.state.station) (all_given w.b.state.station) }
    ensures b_among { (head_a head_b : Head) (w : World Node SentUnit) (of_a of_b : List Record)
        → Run pair (start head_a head_b) of_a of_b w → AreAmong (all_taken w.b.state.station) (all_given w.a.state.station) }
{}

/// In every run, what the units of a capture offer in each period is what its station gave. So what was delivered is a beginning of
/// what was offered, both read off the captures alone; the run tells which period goes with which.
pub fn captures_deliver_in_order()
    ensures a_offered { (head_a head_b : Head) (w : World Node SentUnit) (of_a of_b : List Record)
        → Run pair (start head_a head_b) of_a of_b w → offered of_a ≡ given_by_period w.a.state.station }
    ensures b_offered { (head_a head_b : Head) (w : World Node SentUnit) (of_a of_b : List Record)
        → Run pair (start head_a head_b) of_a of_b w → offered of_b ≡ given_by_period w.b.state.station }
    ensures a_delivers { (head_a head_b : Head) (w : World Node SentUnit) (of_a of_b : List Record)
        → Run pair (start head_a head_b) of_a of_b w → Delivers w.a.state.station of_a of_b }
    ensures b_delivers { (head_a head_b : Head) (w : World Node SentUnit) (of_a of_b : List Record)
        → Run pair (start head_a head_b) of_a of_b w → Delivers w.b.state.station of_b of_a }
{}

/// In every run, each data message carries the packet at its place among all packets that its sender ever gave.
pub fn packets_at_their_places()
    ensures of_a { (head_a head_b : Head) (w : World Node SentUnit) (of_a of_b : List Record)
        → Run pair (start head_a head_b) of_a of_b w
        → (i : ℕ) (unit : SentUnit) → slice_get w.a.sent i ≡ Some unit
        → CarriesItsPacket (all_given w.a.state.station) unit.message unit.known }
    ensures of_b { (head_a head_b : Head) (w : World Node SentUnit) (of_a of_b : List Record)
        → Run pair (start head_a head_b) of_a of_b w
        → (i : ℕ) (unit : SentUnit) → slice_get w.b.sent i ≡ Some unit
        → CarriesItsPacket (all_given w.b.state.station) unit.message unit.known }
{}

/// A station's own numbers are in order before any record, and stay so.
pub fn numbers_in_order()
    ensures start { IsOrdered new_station }
    ensures event { (s : Station) (event : StationEvent) → IsOrdered s → IsOrdered (after_event s event) }
    ensures sending { (s : Station) (m : MessageValue)
        → IsOrdered s → sending_refusal s m ≡ None → IsOrdered (after_sending s m) }
    ensures arrival { (s : Station) (arrival : ArrivalValue Truth) (kept : Bool)
        → IsOrdered s → IsOrdered (after_arrival s arrival kept) }
{}

/// What the user does changes what is kept as it changes the station.
pub fn cut_event<L>()
    ensures step { (all : List (HeldPacket L)) (s : Station) (event : StationEvent)
        → cut (all_after_event all event) (after_event s event) ≡ wire_after_event (cut all s) event }
    ensures labelled { (all : List (HeldPacket L)) (s : Station) (event : StationEvent)
        → AreLabelled all s → AreLabelled (all_after_event all event) (after_event s event) }
{}

/// From what is kept the same messages are refused for the same reasons, and sending changes it as it changes the station. What is
/// answered of a message is what is true of it.
pub fn cut_sending<L>()
    ensures refusal { (all : List (HeldPacket L)) (s : Station) (m : MessageValue)
        → AreLabelled all s → IsOrdered s → sending_refusal s m ≡ wire_sending_refusal (cut all s) m }
    ensures step { (all : List (HeldPacket L)) (s : Station) (m : MessageValue)
        → AreLabelled all s → IsOrdered s
        → cut (all_after all s m) (after_sending s m) ≡ wire_after_sending (cut all s) m }
    ensures labelled { (all : List (HeldPacket L)) (s : Station) (m : MessageValue)
        → AreLabelled all s → AreLabelled (all_after all s m) (after_sending s m) }

    // What is answered of it: whether its number is new, and the label of a packet that is sent again.
    ensures first { (all : List (HeldPacket L)) (s : Station) (m : MessageValue)
        → AreLabelled all s → IsOrdered s → gives_new (cut all s) m ≡ gives_number s m }
    ensures label { (all : List (HeldPacket L)) (s : Station) (m : MessageValue)
        → IsOrdered s → label_again (cut all s) m ≡ label_of_next all s m }
{}

/// A label beside the newest packet, while a number is outstanding.
pub fn cut_label<L>()
    ensures step { (all : List (HeldPacket L)) (s : Station) (label : L)
        → AreLabelled all s → s.acknowledged < given s
        → cut (with_label all label) s ≡ wire_after_label (cut all s) label }
    ensures labelled { (all : List (HeldPacket L)) (s : Station) (label : L)
        → AreLabelled all s → AreLabelled (with_label all label) s }
{}

/// From what is kept, a sound message that comes within the bounds is refused for the same reasons, and changes it as it
/// changes the station; and so does damage. The packet that is answered is the one that the station takes.
pub fn cut_arrival<L>()
    ensures refusal { (all : List (HeldPacket L)) (s : Station) (rule : PeriodRule) (m : MessageValue) (u : Truth) (kept : Bool)
        → AreLabelled all s → IsOrdered s → (meets_needs rule s m u ≡ true → IsWithin s m u)
        → arrival_refusal rule s (arriving.Sound m u) kept
        ≡ wire_arrival_refusal rule (cut all s) (arriving.Sound m u.tag) kept }
    ensures step { (all : List (HeldPacket L)) (s : Station) (m : MessageValue) (u : Truth) (kept : Bool)
        → AreLabelled all s → IsOrdered s → IsWithin s m u
        → cut all (after_arrival s (arriving.Sound m u) kept)
        ≡ wire_after_arrival (cut all s) (arriving.Sound m u.tag) kept }
    ensures taken { (all : List (HeldPacket L)) (s : Station) (m : MessageValue) (u : Truth) (kept : Bool)
        → IsWithin s m u
        → (after_arrival s (arriving.Sound m u) kept).taken
        ≡ with_taken s.taken (wire_taken (cut all s) (arriving.Sound m u.tag) kept) }
    ensures header_bad { (all : List (HeldPacket L)) (s : Station) (kept : Bool)
        → cut all (after_arrival s arriving.HeaderBad kept) ≡ wire_after_arrival (cut all s) arriving.HeaderBad kept }
    ensures data_bad { (all : List (HeldPacket L)) (s : Station) (kept : Bool)
        → cut all (after_arrival s arriving.DataBad kept) ≡ wire_after_arrival (cut all s) arriving.DataBad kept }
{}

/// A record adds at most one to the counts that a station keeps.
pub fn counts_rise_by_one<L>()
    ensures event { (w : WireStation L) (event : StationEvent) → load (wire_after_event w event) ≤ load w + 1 }
    ensures sending { (w : WireStation L) (m : MessageValue) → load (wire_after_sending w m) ≤ load w }
    ensures label { (w : WireStation L) (label : L) → load (wire_after_label w label) ≡ load w }
    ensures arrival { (w : WireStation L) (arrival : ArrivalValue Tag) (kept : Bool)
        → load (wire_after_arrival w arrival kept) ≤ load w + 1 }
{}

/// In a world within the bounds the same becomes of a record at a wire node as at the node on true numbers, seen as the
/// former sees it. No packet has a label.
pub fn cut_record<L>()
    ensures start { (head : Head) → new_wire_node {L = L} head ≡ cut_node (new_node head) }
    ensures outcome { (own other : Half Node SentUnit) (r : Record) → IsBounded own other
        → advance (wire_step of_period) (cut_half (seen {L = L}) own) (cut_half seen other) r ≡ cut_outcome seen
        (advance (step of_period) own other r) }
{}

/// The runs of two wire nodes are just what they see of the runs of the two nodes on true numbers; and after such a run the same
/// becomes of each record.
pub fn wire_nodes_see_right<L>()
    ensures of_true { (head_a head_b : Head) (w : World Node SentUnit) (of_a of_b : List Record)
        → Run pair (start head_a head_b) of_a of_b w
        → Run wire_pair (wire_start {L = L} head_a head_b) of_a of_b (cut_world seen w) }
    ensures of_wire { (head_a head_b : Head) (end : World (WireNode L) WireUnit) (of_a of_b : List Record)
        → Run wire_pair (wire_start head_a head_b) of_a of_b end → IsSeen head_a head_b end of_a of_b }
{}
