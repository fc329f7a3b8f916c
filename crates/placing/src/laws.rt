//! Laws of what is written of a side, and of what the search keeps of its station, as functions that do nothing.

ghost use Rattle.std.specs.Prelude.{◌≡◌, ◌++◌, ◌∷◌, [], Bool, List, None, ℕ};
ghost use Rattle.ddcmp_msg.specs.Message.{MessageValue};
ghost use Rattle.dna_station.specs.Book.{ArrivalValue, Sound, after_arrival_by, after_sending_by, arrival_refusal_by, sending_refusal_by};
ghost use Rattle.dna_station.specs.PeriodRule.{PeriodRule};
ghost use Rattle.dna_station.specs.WireBook.{wire_after_arrival, wire_after_sending, wire_arrival_refusal, wire_sending_refusal};
ghost use Rattle.dna_station.specs.WireStation.{WireStation, new_wire_station, wire_after_event};
ghost use Rattle.dna_station.specs.declared.state.State.TheVariants.{Halted};
ghost use Rattle.dna_station.specs.declared.state.StationEvent.{StationEvent};
ghost use Rattle.dna_station.specs.declared.tag.Tag.{Tag};
ghost use Rattle.placing.specs.Counted.{DamageIsOpen, IsCounted, after_event, bare, counted, counted_book, fresh, is_again};
ghost use Rattle.placing.specs.Placed.{HavePassed, NameUnits, Puts, Waiting, nothing, records_of, units_sent, with_other, with_own};
ghost use Rattle.placing.specs.declared.station.Station.{Station};

/// The units in the lines that are put are those that wait no more, in their order; and lines are put after lines.
pub fn put_units_were_sent()
    ensures units { (old new : Waiting) (puts : Puts old new) → units_sent (records_of puts.acts) ++ new.units.own ≡ old.units.own }
    ensures more { (first second third : Waiting) → Puts first second → Puts second third → Puts first third }
{}

/// Each receipt in the lines that are put is of a unit of the other side that had passed, the one which its hint numbers. Which had passed
/// is told from the first one on.
pub fn put_receipts_name_units()
    ensures names { (all : List (List ℕ)) (old new : Waiting) (puts : Puts old new) → HavePassed all old.units
        → NameUnits all (records_of puts.acts) }
    ensures put { (all : List (List ℕ)) (old new : Waiting) → Puts old new → HavePassed all old.units → HavePassed all new.units }
    ensures none { HavePassed [] nothing.units }
    ensures other { (all : List (List ℕ)) (unit : List ℕ) (w : Waiting)
        → HavePassed all w.units → HavePassed (all ++ unit ∷ []) (with_other unit w).units }
    ensures own { (all : List (List ℕ)) (unit : List ℕ) (w : Waiting) → HavePassed all w.units → HavePassed all (with_own unit w).units }
{}

/// What the search keeps of a station goes along with the station that a node keeps. By its counts the same is refused for the same reason, as long
/// as a cause is open of each NAK for damage; and each step changes the counts as it changes the station. `L` is the type of the labels that a
/// node puts beside packets.
pub fn counts_go_along<L>()
    ensures new { counted (new_wire_station {L = L}) ≡ fresh Halted 0 }
    ensures event { (w : WireStation L) (event : StationEvent) → counted (wire_after_event w event) ≡ after_event (counted w) event }
    ensures may_send { (w : WireStation L) (m : MessageValue) → DamageIsOpen m w.causes
        → sending_refusal_by (counted_book (is_again w m)) (counted w) m ≡ wire_sending_refusal w m }
    ensures sent { (again : Bool) (w : WireStation L) (m : MessageValue) → IsCounted w → wire_sending_refusal w m ≡ None
        → counted (wire_after_sending w m) ≡ after_sending_by (counted_book again) (counted w) m }
    ensures may_come { (again : Bool) (rule : PeriodRule) (w : WireStation L) (arrival : ArrivalValue Tag) (kept : Bool)
        → arrival_refusal_by (counted_book again) rule (counted w) arrival kept ≡ wire_arrival_refusal rule w arrival kept }
    ensures arrived { (again : Bool) (w : WireStation L) (arrival : ArrivalValue Tag) (kept : Bool)
        → counted (wire_after_arrival w arrival kept) ≡ after_arrival_by (counted_book again) (counted w) arrival kept }
{}

/// By the counts it is the same whatever flags and packet a message has, if it is told whether data that are sent again are those of the first
/// sending.
pub fn counts_ask_no_packet()
    ensures may_send { (again : Bool) (s : Station) (m : MessageValue)
        → sending_refusal_by (counted_book again) s (bare m) ≡ sending_refusal_by (counted_book again) s m }
    ensures sent { (again : Bool) (s : Station) (m : MessageValue)
        → after_sending_by (counted_book again) s (bare m) ≡ after_sending_by (counted_book again) s m }
    ensures may_come { (again : Bool) (rule : PeriodRule) (s : Station) (m : MessageValue) (tag : Tag) (kept : Bool)
        → arrival_refusal_by (counted_book again) rule s (Sound (bare m) tag) kept
        ≡ arrival_refusal_by (counted_book again) rule s (Sound m tag) kept }
    ensures arrived { (again : Bool) (s : Station) (m : MessageValue) (tag : Tag) (kept : Bool)
        → after_arrival_by (counted_book again) s (Sound (bare m) tag) kept ≡ after_arrival_by (counted_book again) s (Sound m tag) kept }
{}
