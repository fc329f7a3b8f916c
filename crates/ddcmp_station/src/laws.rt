//! What holds of what is shown of a station, and of the check that a message does not pass. `L` is the type of the labels that a node puts
//! beside packets.

ghost use Rattle.std.specs.Prelude.{◌≡◌, ◌+◌, ◌<◌, ◌≤◌, Bool, true, false, Some, None, List, length, slice_get};
ghost use Rattle.ddcmp_msg.specs.Message.{MessageValue};
ghost use Rattle.ddcmp_msg.specs.declared.nak_reason.NakReason.{NakReason};
ghost use Rattle.dna_station.specs.declared.tag.Tag.{Tag};
ghost use Rattle.dna_station.specs.Book.{keep_refusal};
ghost use Rattle.dna_station.specs.Bounds.{IsOrdered};
ghost use Rattle.dna_station.specs.PeriodRule.{meets};
ghost use Rattle.dna_station.specs.NakCauses.{has_cause};
ghost use Rattle.dna_station.specs.Cut.{AreLabelled, cut};
ghost use Rattle.dna_station.specs.Station.{Station, wire};
ghost use Rattle.dna_station.specs.Table as table;
ghost use Rattle.dna_station.specs.WireBook.{wire_passes};
ghost use Rattle.dna_station.specs.WireStation.{HeldPacket, WireStation};
ghost use Rattle.ddcmp_station.specs.Failed.{has_num, has_resp, is_data, with_body, with_num, with_reason, with_resp};
ghost use Rattle.ddcmp_station.specs.View.{true_view, view_of};

/// What is shown of a station is what is true of it, on the numbers of the line.
pub fn view_shows_truth<L>()
    ensures { (all : List (HeldPacket L)) (s : Station) → AreLabelled all s → IsOrdered s → view_of (cut all s) ≡ true_view s }
{}

/// With what is allowed in the place of what is seen, the check is passed that a message did not pass: the message with that RESP, that NUM,
/// a NAK's reason of which a cause is open, or the data of the first sending; or in a station of which a packet is outstanding, or which has
/// room for one more.
pub fn allowed_passes<L>()
    ensures response { (w : WireStation L) (m : MessageValue) → has_resp m ≡ true →
        wire_passes w (with_resp m w.variables.received) table.RespIsLast ≡ true }
    ensures next { (w : WireStation L) (m : MessageValue) → has_num m ≡ true →
        wire_passes w (with_num m (wire (w.variables.acknowledged + 1 + w.variables.ahead))) table.NumIsNext ≡ true }
    ensures highest { (w : WireStation L) (m : MessageValue) → has_num m ≡ true →
        wire_passes w (with_num m (wire (w.variables.acknowledged + length w.variables.held))) table.NumIsHighest ≡ true }
    ensures cause { (w : WireStation L) (m : MessageValue) (reason : NakReason) → has_cause reason w.causes ≡ true →
        wire_passes w (with_reason m reason) table.CauseIsOpen ≡ true }
    ensures first_given { (w : WireStation L) (m : MessageValue) (packet : HeldPacket L) → is_data m ≡ true →
        slice_get w.variables.held w.variables.ahead ≡ Some packet → wire_passes w (with_body m packet.body) table.AsFirstGiven ≡ true }
    ensures outstanding { (w : WireStation L) (m : MessageValue) → 0 < length w.variables.held → wire_passes w m table.SomeOutstanding ≡ true }
    ensures room { (w : WireStation L) (m : MessageValue) → length w.variables.held ≤ 254 → wire_passes w m table.RoomIfNew ≡ true }
{}

/// With what is allowed in the place of what is seen, the check is passed that an arrival did not pass: the message with a tag that goes with
/// the station's own one as its row needs; or a receipt whose packet was not kept.
pub fn allowed_arrives()
    ensures fresh { (own tag : Tag) → tag.partner ≡ Some own.period → meets table.Fresh own tag ≡ true }
    ensures of_pair { (own tag : Tag) → own.partner ≡ Some tag.period → tag.partner ≡ Some own.period → meets table.OfPair own tag ≡ true }
    ensures not_kept { (takes : Bool) → keep_refusal takes false ≡ None }
{}
