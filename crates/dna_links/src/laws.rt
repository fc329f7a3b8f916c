//! What holds of the definitions of links in `specs/`, whatever the code does, for the proofs of callers to cite.

ghost use Rattle.std.specs.Prelude.{◌≡◌, ℕ, List};
ghost use Rattle.std.specs.Option.{option_map};
ghost use Rattle.dna_packet.specs.declared.ack_word.AckWord.{AckWord};
ghost use Rattle.dna_packet.specs.Nsp.{SegmentValue};
ghost use Rattle.dna_links.specs.declared.queue.Queues.TheVariants.{Without};
ghost use Rattle.dna_links.specs.SegmentBook.{wire};
ghost use Rattle.dna_links.specs.Links.{Carried, LinkTruth};
ghost use Rattle.dna_links.specs.User.{LinkEventValue};
ghost use Rattle.dna_links.specs.Arriving.{PartnerRule};
ghost use Rattle.dna_links.specs.TrueSegments.{TrueSegments, Numbers};
ghost use Rattle.dna_links.specs.TrueSegments as on_true;
ghost use Rattle.dna_links.specs.WireSegments as on_wire;
ghost use Rattle.dna_links.specs.TrueLinks.{Links, new_links, links_user, links_sent, links_arrived};
ghost use Rattle.dna_links.specs.WireLinks.{new_wire_links, wire_links_user, wire_links_sent, wire_links_arrived};
ghost use Rattle.dna_links.specs.CutSegments.{cut, cut_sending, IsOrdered, IsAnswered, Spells, AcksAreNear, SegmentIsNear};
ghost use Rattle.dna_links.specs.CutLinks.{cut_links, cut_result, cut_sent, AreOrdered, ArrivesNear};

/// From what a node keeps of a link's segments the same messages are delivered, the same segments and acknowledgements are refused
/// for the same reasons, and what is sent and what comes change it as they change the segments on true numbers.
pub fn cut_segments()
    ensures empty { cut on_true.empty ≡ on_wire.empty }
    ensures hands_in { (f : TrueSegments) (message : List ℕ) → cut (on_true.hands_in message f) ≡ on_wire.hands_in message (cut f) }
    ensures delivers { (f : TrueSegments) (message : List ℕ) → option_map cut (on_true.delivers message f) ≡ on_wire.delivers message (cut f) }

    // What is sent, where the segments' own numbers are in order and the last acknowledgement sent is at most 2,047 below the highest received.
    ensures sends_acks { (f : TrueSegments) (words : List AckWord) → IsOrdered f → IsAnswered f
        → cut_sending (on_true.sends_acks words f) ≡ on_wire.sends_acks words (cut f) }
    ensures sends_segment { (f : TrueSegments) (segsize : ℕ) (s : SegmentValue) → IsOrdered f → IsAnswered f
        → cut_sending (on_true.sends_segment segsize s f) ≡ on_wire.sends_segment segsize s (cut f) }

    // What comes, where its numbers are near those of the segments, and its bytes have them modulo 4,096.
    ensures takes_acks { (f : TrueSegments) (words : List AckWord) (known : Numbers) → IsOrdered f
        → Spells words known.acknowledgements → AcksAreNear f known.acknowledgements
        → cut (on_true.takes_acks words known f) ≡ on_wire.takes_acks words tt (cut f) }
    ensures takes_segment { (f : TrueSegments) (s : SegmentValue) (known : Numbers) → IsOrdered f
        → Spells s.acks known.acknowledgements → s.number ≡ wire known.segment → AcksAreNear f known.acknowledgements → SegmentIsNear f known.segment
        → cut (on_true.takes_segment s known f) ≡ on_wire.takes_segment s tt (cut f) }
{}

/// From what a node keeps of its links the same events and messages are refused for the same reasons, and change it as they change the
/// links on true numbers; a message that is sent has the same tag. Whatever the user does goes along; what is sent does where what has to
/// hold of each link does; and what comes, where besides its numbers are near those of the link that acts on it, whatever the rule on
/// partners.
pub fn cut_link_steps()
    ensures start { (node peer : ℕ) → cut_links Without (new_links node peer) ≡ new_wire_links node peer }
    ensures user { (s : Links) (event : LinkEventValue) →
        cut_result Without (links_user Without s event) ≡ wire_links_user Without (cut_links Without s) event }
    ensures sent { (s : Links) (packet : Carried) → AreOrdered s →
        cut_sent Without (links_sent Without s packet) ≡ wire_links_sent Without (cut_links Without s) packet }
    ensures arrived { (rule : PartnerRule) (s : Links) (packet : Carried) (truth : LinkTruth Numbers) → AreOrdered s →
        ArrivesNear rule s packet.message truth
        → cut_result Without (links_arrived Without rule s packet truth) ≡ wire_links_arrived Without rule (cut_links Without s) packet truth.tag }
{}
