//! What one end alone tells of every pair that it may be a side of, whatever the code does, for the proofs of callers to cite.

ghost use Rattle.std.specs.Prelude.{◌≡◌, ℕ, true, List, ◌++◌};
ghost use Rattle.two_nodes.specs.Past.{Offends};
ghost use Rattle.wire_base.specs.declared.side.Side.TheVariants.{A, B};
ghost use Rattle.capture_record.specs.declared.record.Record.{Record};
ghost use Rattle.dna_station.specs.declared.head.Head.{Head};
ghost use Rattle.dna_station.specs.declared.refusal.StepRefusal.{StepRefusal};
ghost use Rattle.dna_node.specs.declared.finding.Cause.TheVariants.{Step};
ghost use Rattle.dna_node.specs.declared.finding.Finding.TheVariants as findings;
ghost use Rattle.dna_links.specs.declared.queue.Queues.{Queues};
ghost use Rattle.dna_links.specs.declared.queue.Queues.TheVariants.{With};
ghost use Rattle.dna_node.specs.LayersPair.{layers_pair_by, layers_start};
ghost use Rattle.dna_node.specs.Kind.{layers_kind, stations_alone, kind_pair, kind_start, IsRunOf};
ghost use Rattle.dna_node.specs.Verdict.{IsVerdict};
ghost use Rattle.dna_node.specs.Alone.{Accused, ThisEnd, accused_of, Refused, judged_alone_by, judged_station_alone, PassesBy, StationPasses};
ghost use Rattle.dna_node.specs.Alone.{is_seen_alone, Passes};

/// Refused is final, with queues or without: in a run of two captures the end alone makes all records of either side. So a capture of which it
/// refuses a record is a side of no run, whatever the other one is, and however it goes on after that record.
pub fn refused_alone_is_final()
    ensures a_passes { (queues : Queues) (head_a head_b : Head) (of_a of_b : List Record)
        → IsRunOf (layers_kind queues) head_a head_b of_a of_b → PassesBy queues head_a of_a }
    ensures b_passes { (queues : Queues) (head_a head_b : Head) (of_a of_b : List Record)
        → IsRunOf (layers_kind queues) head_a head_b of_a of_b → PassesBy queues head_b of_b }
    ensures of_a { (queues : Queues) (head_a head_b : Head) (of_a further of_b : List Record) (place : ℕ) (accused : Accused) (reason : StepRefusal)
        → judged_alone_by queues head_a of_a ≡ Refused place accused reason
        → ¬ IsRunOf (layers_kind queues) head_a head_b (of_a ++ further) of_b }
    ensures of_b { (queues : Queues) (head_a head_b : Head) (of_a of_b further : List Record) (place : ℕ) (accused : Accused) (reason : StepRefusal)
        → judged_alone_by queues head_b of_b ≡ Refused place accused reason
        → ¬ IsRunOf (layers_kind queues) head_a head_b of_a (of_b ++ further) }
{}

/// It misses nothing that is the side's own: where a record offends in a pair, for a reason that does not speak of what the other end alone has,
/// the end alone makes all records before it, and refuses this one for that reason; and it accuses this end, but where the links refuse a packet
/// that came. So where such a record is named in a verdict, the end alone names it for the same reason.
pub fn alone_misses_nothing_of_its_own()
    ensures offender { (queues : Queues) (head_own head_other : Head) (own other : List Record) (place : ℕ) (reason : StepRefusal)
        → (offends : Offends (layers_pair_by queues) (layers_start head_own head_other) own other place reason) → is_seen_alone reason ≡ true
        → judged_alone_by queues head_own own ≡ Refused place (accused_of offends.offender reason) reason }
    ensures named_of_a { (queues : Queues) (head_a head_b : Head) (of_a of_b : List Record) (place : ℕ) (reason : StepRefusal)
        → IsVerdict (layers_kind queues) head_a head_b of_a of_b (findings.Refused A place (Step reason)) → is_seen_alone reason ≡ true
        → (accused : Accused) × (judged_alone_by queues head_a of_a ≡ Refused place accused reason) }
    ensures named_of_b { (queues : Queues) (head_a head_b : Head) (of_a of_b : List Record) (place : ℕ) (reason : StepRefusal)
        → IsVerdict (layers_kind queues) head_a head_b of_a of_b (findings.Refused B place (Step reason)) → is_seen_alone reason ≡ true
        → (accused : Accused) × (judged_alone_by queues head_b of_b ≡ Refused place accused reason) }
{}

/// An end with queues does as much as one without: of a capture of which the end alone makes all records without queues, it makes them all with
/// queues.
pub fn alone_with_queues_does_as_much()
    ensures passes { (head : Head) (records : List Record) → Passes head records → PassesBy With head records }
{}

/// Refused is final for a station alone too: in a run of two captures as stations alone, which read no packet and go by no event of the links,
/// the station alone makes all records of either side. So a capture of which it refuses a record is a side of no such run, whatever the other
/// one is, and however it goes on after that record.
pub fn refused_station_alone_is_final()
    ensures a_passes { (head_a head_b : Head) (of_a of_b : List Record)
        → IsRunOf stations_alone head_a head_b of_a of_b → StationPasses head_a of_a }
    ensures b_passes { (head_a head_b : Head) (of_a of_b : List Record)
        → IsRunOf stations_alone head_a head_b of_a of_b → StationPasses head_b of_b }
    ensures of_a { (head_a head_b : Head) (of_a further of_b : List Record) (place : ℕ) (accused : Accused) (reason : StepRefusal)
        → judged_station_alone head_a of_a ≡ Refused place accused reason → ¬ IsRunOf stations_alone head_a head_b (of_a ++ further) of_b }
    ensures of_b { (head_a head_b : Head) (of_a of_b further : List Record) (place : ℕ) (accused : Accused) (reason : StepRefusal)
        → judged_station_alone head_b of_b ≡ Refused place accused reason → ¬ IsRunOf stations_alone head_a head_b of_a (of_b ++ further) }
{}

/// And a station alone misses nothing that is the side's own: where a record offends in a pair of stations, for a reason that does not speak of
/// what the other end alone has, it makes all records before that one, and refuses it for that reason, as this end's. So where such a record
/// is named in a verdict on stations alone, the station alone names it for the same reason.
pub fn station_alone_misses_nothing_of_its_own()
    ensures offender { (head_own head_other : Head) (own other : List Record) (place : ℕ) (reason : StepRefusal)
        → Offends (kind_pair stations_alone) (kind_start stations_alone head_own head_other) own other place reason → is_seen_alone reason ≡ true
        → judged_station_alone head_own own ≡ Refused place ThisEnd reason }
    ensures named_of_a { (head_a head_b : Head) (of_a of_b : List Record) (place : ℕ) (reason : StepRefusal)
        → IsVerdict stations_alone head_a head_b of_a of_b (findings.Refused A place (Step reason)) → is_seen_alone reason ≡ true
        → judged_station_alone head_a of_a ≡ Refused place ThisEnd reason }
    ensures named_of_b { (head_a head_b : Head) (of_a of_b : List Record) (place : ℕ) (reason : StepRefusal)
        → IsVerdict stations_alone head_a head_b of_a of_b (findings.Refused B place (Step reason)) → is_seen_alone reason ≡ true
        → judged_station_alone head_b of_b ≡ Refused place ThisEnd reason }
{}
