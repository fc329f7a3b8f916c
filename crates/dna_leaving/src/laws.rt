//! What holds of links where some are left out, whatever the code does. The first three are of one end alone, and ask of each record what the other
//! end gives (`IsRight`): on true numbers, and on numbers as a node keeps them. The next three are of both ends, and ask no more of either than that
//! its events are in range and bind no judged address to one that is left out. Then what is asked is seen to be needed.

ghost use Rattle.std.specs.Prelude.{◌≡◌, ℕ, true, false, not, Some, List, ◌∷◌, ◌++◌, length, slice_get, Ok, Err};
ghost use Rattle.dna_station.specs.declared.link_refusal.LinkRefusal.{LinkRefusal};
ghost use Rattle.dna_station.specs.declared.link_refusal.LinkRefusal.TheVariants.{NoLink, CrossedLink};
ghost use Rattle.dna_links.specs.declared.queue.Queues.{Queues};
ghost use Rattle.dna_links.specs.declared.queue.Queues.TheVariants.{Without};
ghost use Rattle.dna_links.specs.Links.{Carried};
ghost use Rattle.dna_links.specs.Sending.{sent_step};
ghost use Rattle.dna_links.specs.User.{LinkEventValue};
ghost use Rattle.dna_links.specs.TrueSegments.{TrueSegments, Numbers};
ghost use Rattle.dna_links.specs.WireSegments.{WireSegments};
ghost use Rattle.dna_links.specs.TrueLinks.{Links, new_links};
ghost use Rattle.dna_links.specs.WireLinks.{WireLinks, new_wire_links};
ghost use Rattle.dna_links.specs.Runs.{SentMessage, LinkWorld, Reached, new_world};
ghost use Rattle.dna_leaving.specs.Records.{LinkRules, LinkRecord, Keeps, true_rules, next_links, made};
ghost use Rattle.dna_leaving.specs.LeftOut.{LeftOut, nothing_out, message_out, is_out};
ghost use Rattle.dna_leaving.specs.Left.{Judged, all_judged, record_left, links_left, sent_left, left_of_result, renumbered, records_left};
ghost use Rattle.dna_leaving.specs.Left.{judged_after};
ghost use Rattle.dna_leaving.specs.Right.{AreFit, NamesJudged, IsRight, AreRight};
ghost use Rattle.dna_leaving.specs.Worlds.{other_out, other_judged, world_left, events_left, AreBound, judged_of_run, MayBeNext};
ghost use Rattle.dna_leaving.specs.Worked.{accepted, far_end_out, crossed, five_out, from_zero, far_zero_out};

/// One record. Of what is left of the links a judged one comes to what is left of what it came to, or is refused for the same reason; what is sent
/// is of the same link, with the number that is left. One that is left out changes nothing of what is left. And the links fit on.
pub fn one_record_goes_along()
    ensures judged { (rules : LinkRules TrueSegments Numbers) (out : LeftOut) (judged : Judged) (s : Links) (one : LinkRecord Numbers)
        → AreFit out judged s → IsRight out judged one → is_out out one ≡ false → judged.here (length s.links) ≡ true
        → left_of_result (links_left judged) (next_links rules s one) ≡ next_links rules (links_left judged s) (renumbered judged one) }
    ensures sent { (rules : LinkRules TrueSegments Numbers) (out : LeftOut) (judged : Judged) (s : Links) (packet : Carried)
        → AreFit out judged s → message_out out packet.message ≡ false → judged.here (length s.links) ≡ true
        → left_of_result (sent_left judged) (sent_step rules.queues rules.book s packet)
        ≡ sent_step rules.queues rules.book (links_left judged s) packet }
    ensures left_out { (rules : LinkRules TrueSegments Numbers) (out : LeftOut) (judged : Judged) (s left : Links) (one : LinkRecord Numbers)
        → AreFit out judged s → IsRight out judged one → is_out out one ≡ true → judged.here (length s.links) ≡ false
        → next_links rules s one ≡ Ok left → links_left judged left ≡ links_left judged s }
    ensures fits { (rules : LinkRules TrueSegments Numbers) (out : LeftOut) (judged : Judged) (s left : Links) (one : LinkRecord Numbers)
        → AreFit out judged s → IsRight out judged one → judged.here (length s.links) ≡ not (is_out out one)
        → next_links rules s one ≡ Ok left → AreFit out judged left }
{}

/// Kept: where the links of one end make all its records, from none on, they make what is left of them.
pub fn what_is_left_is_made()
    ensures on_true { (rules : LinkRules TrueSegments Numbers) (out : LeftOut) (judged : Judged) (node peer : ℕ)
        (records : List (LinkRecord Numbers)) (left : Links) → AreRight rules out judged (new_links node peer) records
        → made rules (new_links node peer) records ≡ Ok left
        → made rules (new_links node peer) (records_left rules out judged (new_links node peer) records)
        ≡ Ok (links_left (judged_after rules out judged (new_links node peer) records) left) }
    ensures on_wire { (rules : LinkRules WireSegments (Unit {0})) (out : LeftOut) (judged : Judged) (node peer : ℕ)
        (records : List (LinkRecord (Unit {0}))) (left : WireLinks) → AreRight rules out judged (new_wire_links node peer) records
        → made rules (new_wire_links node peer) records ≡ Ok left
        → made rules (new_wire_links node peer) (records_left rules out judged (new_wire_links node peer) records)
        ≡ Ok (links_left (judged_after rules out judged (new_wire_links node peer) records) left) }
{}

/// And where the first record that they refuse is judged, they refuse it for the same reason, whatever comes after it.
pub fn judged_record_is_refused_alike()
    ensures on_true { (rules : LinkRules TrueSegments Numbers) (out : LeftOut) (judged : Judged) (node peer : ℕ)
        (before later : List (LinkRecord Numbers)) (one : LinkRecord Numbers) (left : Links) (refusal : LinkRefusal)
        → AreRight rules out judged (new_links node peer) (before ++ one ∷ later) → made rules (new_links node peer) before ≡ Ok left
        → is_out out one ≡ false → next_links rules left one ≡ Err refusal
        → made rules (new_links node peer) (records_left rules out judged (new_links node peer) (before ++ one ∷ later)) ≡ Err refusal }
    ensures on_wire { (rules : LinkRules WireSegments (Unit {0})) (out : LeftOut) (judged : Judged) (node peer : ℕ)
        (before later : List (LinkRecord (Unit {0}))) (one : LinkRecord (Unit {0})) (left : WireLinks) (refusal : LinkRefusal)
        → AreRight rules out judged (new_wire_links node peer) (before ++ one ∷ later) → made rules (new_wire_links node peer) before ≡ Ok left
        → is_out out one ≡ false → next_links rules left one ≡ Err refusal
        → made rules (new_wire_links node peer) (records_left rules out judged (new_wire_links node peer) (before ++ one ∷ later)) ≡ Err refusal }
{}

/// Both ends: what is left of a run is a run. Of what is left out only this is asked: no `accept` or `reject` binds a judged address to one that is
/// left out. Messages are sent with the truth that is left of theirs, and what was kept is kept, or has no message of the links.
pub fn what_is_left_of_a_run_is_a_run()
    ensures { (queues : Queues) (out : LeftOut) (node_a peer_a node_b peer_b : ℕ) (w : LinkWorld) (of_a of_b : List LinkEventValue)
        (run : Reached queues (new_world node_a peer_a node_b peer_b) w of_a of_b) → AreBound out of_a → AreBound (other_out out) of_b
        → Reached queues (new_world node_a peer_a node_b peer_b) (world_left out (judged_of_run out run) w) (events_left out of_a)
        (events_left (other_out out) of_b) }
{}

/// And where a record of either side is refused after a run, and is judged, it is refused for the same reason after what is left of the run.
pub fn next_record_is_refused_alike()
    ensures of_a { (queues : Queues) (out : LeftOut) (node_a peer_a node_b peer_b : ℕ) (w : LinkWorld) (of_a of_b : List LinkEventValue)
        (run : Reached queues (new_world node_a peer_a node_b peer_b) w of_a of_b) (one : LinkRecord Numbers) (refusal : LinkRefusal)
        → AreBound out of_a → AreBound (other_out out) of_b → MayBeNext w.a w.b out one → is_out out one ≡ false
        → next_links (true_rules queues) w.a.links one ≡ Err refusal
        → next_links (true_rules queues) (links_left (judged_of_run out run) w.a.links) (renumbered (judged_of_run out run) one) ≡ Err refusal }
    ensures of_b { (queues : Queues) (out : LeftOut) (node_a peer_a node_b peer_b : ℕ) (w : LinkWorld) (of_a of_b : List LinkEventValue)
        (run : Reached queues (new_world node_a peer_a node_b peer_b) w of_a of_b) (one : LinkRecord Numbers) (refusal : LinkRefusal)
        → AreBound out of_a → AreBound (other_out out) of_b → MayBeNext w.b w.a (other_out out) one → is_out (other_out out) one ≡ false
        → next_links (true_rules queues) w.b.links one ≡ Err refusal
        → next_links (true_rules queues) (links_left (other_judged (judged_of_run out run)) w.b.links)
        (renumbered (other_judged (judged_of_run out run)) one) ≡ Err refusal }
{}

/// In a run what is judged where it comes is never left out where it was sent, and is of judged links as far as it is of any: of the messages of a
/// link that is left out only a DC may be for a judged one (`is_judged_there`), and it is of no link.
pub fn judged_message_is_of_judged_links()
    ensures of_a { (queues : Queues) (out : LeftOut) (node_a peer_a node_b peer_b : ℕ) (w : LinkWorld) (of_a of_b : List LinkEventValue)
        (run : Reached queues (new_world node_a peer_a node_b peer_b) w of_a of_b) (place : ℕ) (unit : SentMessage)
        → AreBound out of_a → AreBound (other_out out) of_b → slice_get w.a.sent place ≡ Some (Some unit)
        → is_out (other_out out) (Keeps unit.packet unit.truth) ≡ false
        → (message_out out unit.packet.message ≡ false) × NamesJudged (other_judged (judged_of_run out run)) unit.truth.tag }
    ensures of_b { (queues : Queues) (out : LeftOut) (node_a peer_a node_b peer_b : ℕ) (w : LinkWorld) (of_a of_b : List LinkEventValue)
        (run : Reached queues (new_world node_a peer_a node_b peer_b) w of_a of_b) (place : ℕ) (unit : SentMessage)
        → AreBound out of_a → AreBound (other_out out) of_b → slice_get w.b.sent place ≡ Some (Some unit)
        → is_out out (Keeps unit.packet unit.truth) ≡ false
        → (message_out (other_out out) unit.packet.message ≡ false) × NamesJudged (judged_of_run out run) unit.truth.tag }
{}

/// Where nothing is left out, all is left as it is.
pub fn nothing_left_out()
    ensures links { (s : Links) → links_left all_judged s ≡ s }
    ensures records { (one : LinkRecord Numbers) → record_left nothing_out all_judged one ≡ one }
{}

/// Why an address that is left out may not be bound to a judged one: with the call the address goes that its answer names.
pub fn answer_to_a_call_that_is_left_out()
    ensures made { (left : Links) × (made (true_rules Without) (new_links 1 2) accepted ≡ Ok left) }
    ensures refused { made (true_rules Without) (new_links 1 2) (records_left (true_rules Without) far_end_out all_judged (new_links 1 2) accepted)
        ≡ Err NoLink }
{}

/// Why a judged message has to be of judged links: the number of a link that is left out becomes that of another link. In a run of both ends no such
/// message is sent.
pub fn message_of_a_link_that_is_left_out()
    ensures refused { made (true_rules Without) (new_links 1 2) crossed ≡ Err CrossedLink }
    ensures made { (left : Links)
        × (made (true_rules Without) (new_links 1 2) (records_left (true_rules Without) five_out all_judged (new_links 1 2) crossed) ≡ Ok left) }
{}

/// Why address 0 has to be left out of both ends or of none, where a call comes from it: the acknowledgement of that call is about address 0 of
/// the end that sends it.
pub fn answer_to_address_0()
    ensures made { (left : Links) × (made (true_rules Without) (new_links 1 2) from_zero ≡ Ok left) }
    ensures refused { made (true_rules Without) (new_links 1 2) (records_left (true_rules Without) far_zero_out all_judged (new_links 1 2) from_zero)
        ≡ Err NoLink }
{}
