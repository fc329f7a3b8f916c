//! Laws of the text that is made, as functions that do nothing.

ghost use Rattle.std.specs.Prelude.{◌≡◌, ℕ, List, Some, true, IfSome};
ghost use Rattle.wire_base.specs.declared.side.Side.{Side as End};
ghost use Rattle.ddcmp_msg.specs.Message.{IsBytes};
ghost use Rattle.dna_packet.specs.Nsp.{NspValue};
ghost use Rattle.capture_record.specs.declared.record.Record.{Record as Line};
ghost use Rattle.capture_record.specs.Range.{IsRecord};
ghost use Rattle.capture.specs.SoFar.{IsReadSoFar, ReadSoFar};
ghost use Rattle.leaving_out.specs.declared.leaving.Leaving.{Leaving as Left};
ghost use Rattle.leaving_out.specs.Addresses.{LeavesNothing, at_sender, is_left};
ghost use Rattle.leaving_out.specs.Messages.{destination_of, message_in_packet, source_of};
ghost use Rattle.leaving_out.specs.Packets.{BeginsShort, NamesBothLinks, packet_left, unmet};
ghost use Rattle.leaving_out.specs.Records.{record_left};
ghost use Rattle.leaving_out.specs.Texts.{IsReadAlike, MadeOf};

/// What becomes of a record has a line of format 3.
pub fn left_is_a_record()
    ensures { (leaving : Left) (side : End) (r : Line) → IsRecord r → IsRecord (record_left leaving side r) }
{}

/// The text that was made of known bytes is read as what becomes of their records, to its end where they end; where they depart from their
/// format, it departs from its own at the same line in the same way.
pub fn made_is_read_alike()
    ensures { (leaving : Left) (side : End) (bytes made : List ℕ) (read : ReadSoFar) → IsReadSoFar (Some bytes) read →
        MadeOf leaving side read made → (again : ReadSoFar) × IsReadSoFar (Some made) again × IsReadAlike leaving side read again }
{}

/// Of a packet whose message is about an own address that is left out, a reader of messages finds none, or a DC that names both links.
pub fn no_link_meets_it()
    ensures { (leaving : Left) (sender : End) (packet : List ℕ) (m : NspValue) → IsBytes packet → message_in_packet packet ≡ Some m →
        is_left leaving (at_sender sender (source_of m) (destination_of m)) ≡ true →
        IfSome (message_in_packet (packet_left leaving sender packet)) NamesBothLinks }
{}

/// No two packets of messages become one, where no link meets them: a packet that comes, or that is sent again, with other bytes has other bytes
/// still.
pub fn no_two_become_one()
    ensures { (one other : List ℕ) → BeginsShort one → BeginsShort other → unmet one ≡ unmet other → one ≡ other }
{}

/// Where nothing is left out and nothing is carried, each record that has a line stays.
pub fn nothing_left_out()
    ensures { (leaving : Left) (side : End) (r : Line) → LeavesNothing leaving → IsRecord r → record_left leaving side r ≡ r }
{}
