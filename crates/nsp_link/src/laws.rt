//! What holds of what is shown of a link, and of the check that a message does not pass.

ghost use Rattle.std.specs.Prelude.{◌≡◌, ◌≤◌, ◌<◌, ◌+◌, ℕ, Bool, true, Some, List, length, is_some, nat_lt, option_map, slice_get};
ghost use Rattle.dna_links.specs.declared.queue.Queues.{Queues};
ghost use Rattle.dna_links.specs.declared.queue.Queues.TheVariants.{Without};
ghost use Rattle.dna_links.specs.CutSegments.{IsOrdered};
ghost use Rattle.dna_links.specs.CutLinks.{cut_link};
ghost use Rattle.dna_links.specs.Links.{Carried, LinkOf, number_of};
ghost use Rattle.dna_links.specs.LookUps.{is_live, passes};
ghost use Rattle.dna_links.specs.Segmentation.{Piece, Unsent, Whole, is_next_piece, same_piece};
ghost use Rattle.dna_links.specs.TrueSegments.{TrueSegments};
ghost use Rattle.dna_links.specs.declared.tag.LinkTag.{LinkTag};
ghost use Rattle.dna_links.specs.declared.port.LinkTest.{LinkTest};
ghost use Rattle.dna_links.specs.Arriving.{is_for, is_of_pair, of_partner};
ghost use Rattle.dna_links.specs.SegmentBook.{REACH, distance, wire};
ghost use Rattle.dna_links.specs.User.{LinkEventValue};
ghost use Rattle.dna_links.specs.WireLinks.{WireLinks, wire_links_arrived, wire_links_sent, wire_links_user};
ghost use Rattle.nsp_link.specs.FailedArrival.{failed_arrival, refusal_of_arrival};
ghost use Rattle.dna_links.specs.WireSegments.{LastSent, LateSent, WireSegments, highest_given, last_named, last_named_late};
ghost use Rattle.nsp_link.specs.FailedEvent.{failed_event, is_whole, refusal_of_event};
ghost use Rattle.nsp_link.specs.FailedSending.{failed_sending, front_piece, is_allowed, late_numbers};
ghost use Rattle.nsp_link.specs.FailedSending.{may_repeat, refusal_of_sending, segment_numbers, word_numbers};
ghost use Rattle.nsp_link.specs.Missing.{refusal_in};
ghost use Rattle.nsp_link.specs.View.{true_view, view_of};

/// What is shown of a live link is what is true of it, on the numbers of messages.
pub fn link_view_shows_truth()
    ensures { (l : LinkOf TrueSegments) → is_live l.port.phase ≡ true → IsOrdered l.segments → view_of (cut_link Without l) ≡ true_view l }
{}

/// The check that a message or an event does not pass is the one for which the links refuse it, with queues or without.
pub fn failed_as_refused()
    ensures sending { (queues : Queues) (s : WireLinks) (packet : Carried) → option_map refusal_of_sending (failed_sending queues s packet) ≡
        refusal_in (wire_links_sent queues s packet) }
    ensures event { (queues : Queues) (s : WireLinks) (event : LinkEventValue) → option_map refusal_of_event (failed_event queues s event) ≡
        refusal_in (wire_links_user queues s event) }
    ensures arrival { (queues : Queues) (s : WireLinks) (packet : Carried) (tag : LinkTag) →
        option_map refusal_of_arrival (failed_arrival s packet tag) ≡ refusal_in (wire_links_arrived queues of_partner s packet tag) }
{}

/// With what is allowed in the place of what is seen, the check is passed that a message or an event did not pass: a link that is as it asks for;
/// an acknowledgement word or a segment with a number that is allowed; the next bytes, or those of the first sending; in a link with room for one
/// segment more; the tag of the link's partner; or the next whole message.
pub fn allowed_at_links()
    ensures link { (test : LinkTest) (s : WireLinks) (number : ℕ) (link : LinkOf WireSegments) → slice_get s.links number ≡ Some link →
        passes test link.port ≡ true → is_some (number_of test s) ≡ true }
    ensures word { (again : Bool) (received number : ℕ) (sent : LastSent) → sent.last < 4096 →
        is_allowed (word_numbers again received sent) number ≡ true → is_some (last_named again received number sent) ≡ true }
    ensures late { (received number : ℕ) (late : LateSent) → late.sent.last < 4096 →
        is_allowed (late_numbers received late) number ≡ true → is_some (last_named_late received number late) ≡ true }
    ensures number { (f : WireSegments) (number : ℕ) → number < 4096 → is_allowed (segment_numbers f) number ≡ true →
        (number ≡ wire (highest_given f.variables + 1) → ⊥) → may_repeat (distance number (highest_given f.variables)) f ≡ true }
    ensures next { (u : Unsent) (rest : List ℕ) (count : ℕ) → slice_get u.messages 0 ≡ Some rest → count ≤ length rest →
        (count ≡ 0 → length rest ≡ 0) → is_next_piece (front_piece u.begun count rest) u ≡ true }
    ensures first_given { (first : Piece) → same_piece first first ≡ true }
    ensures room { (f : WireSegments) → length f.variables.outstanding ≤ 2046 → nat_lt (length f.variables.outstanding) REACH ≡ true }
    ensures call { (number other : ℕ) → is_for number (record { link = Some other; partner = Some number }) ≡ true }
    ensures pair { (number partner : ℕ) → is_of_pair number (Some partner) (record { link = Some partner; partner = Some number }) ≡ true }
    ensures whole { (w : Whole) → is_whole w.message (Some w) ≡ true }
{}
