//! What holds of the links of both sides in every run, whatever the code does, for the proofs of callers to cite. `Reached` says all that
//! it asks of stations, units and lines: packets that are kept come in the order of their first sending, with what was true of them then.

ghost use Rattle.std.specs.Prelude.{◌≡◌, ℕ, List};
ghost use Rattle.dna_links.specs.declared.queue.Queues.{Queues};
ghost use Rattle.dna_links.specs.declared.queue.Queues.TheVariants.{Without};
ghost use Rattle.dna_links.specs.Alike.{IsLedTo};
ghost use Rattle.dna_links.specs.User.{LinkEventValue};
ghost use Rattle.dna_links.specs.Runs.{LinkWorld, Reached, new_world};
ghost use Rattle.dna_links.specs.Bounds.{AreLinksBounded, AreCutInStep};
ghost use Rattle.dna_links.specs.Delivery.{DeliversLinks};
ghost use Rattle.dna_links.specs.Captures.{AreUpFrom, deliveries, ups};

/// Numbers modulo 4,096 tell all: at any time in a run the numbers of each link are in order, and those of each message that may still
/// be kept, with its fields in range, are near the numbers of the link of its pair that acts on it.
pub fn links_within_bounds()
    ensures of_a { (queues : Queues) (node_a peer_a node_b peer_b : ℕ) (w : LinkWorld) (of_a of_b : List LinkEventValue)
        → Reached queues (new_world node_a peer_a node_b peer_b) w of_a of_b → AreLinksBounded w.a w.b }
    ensures of_b { (queues : Queues) (node_a peer_a node_b peer_b : ℕ) (w : LinkWorld) (of_a of_b : List LinkEventValue)
        → Reached queues (new_world node_a peer_a node_b peer_b) w of_a of_b → AreLinksBounded w.b w.a }
{}

/// So at any time in a run wire links make of each event, of each message that is sent and of each with fields in range that may still be
/// kept just what is seen of the links on unbounded numbers, with the same refusals and tags.
pub fn wire_links_see_right()
    ensures of_a { (queues : Queues) (node_a peer_a node_b peer_b : ℕ) (w : LinkWorld) (of_a of_b : List LinkEventValue)
        → Reached queues (new_world node_a peer_a node_b peer_b) w of_a of_b → AreCutInStep queues w.a w.b }
    ensures of_b { (queues : Queues) (node_a peer_a node_b peer_b : ℕ) (w : LinkWorld) (of_a of_b : List LinkEventValue)
        → Reached queues (new_world node_a peer_a node_b peer_b) w of_a of_b → AreCutInStep queues w.b w.a }
{}

/// In order, nothing invented: in every run what was given is a cut of what was handed in, each piece that was received is the one that the
/// partner gave under that number, and what was delivered is a beginning of what was handed in at the partner; without a partner it is
/// nothing. This holds over any number of restarts of the line.
pub fn links_deliver_in_order()
    ensures of_a { (queues : Queues) (node_a peer_a node_b peer_b : ℕ) (w : LinkWorld) (of_a of_b : List LinkEventValue)
        → Reached queues (new_world node_a peer_a node_b peer_b) w of_a of_b → DeliversLinks w.a.links w.b.links }
    ensures of_b { (queues : Queues) (node_a peer_a node_b peer_b : ℕ) (w : LinkWorld) (of_a of_b : List LinkEventValue)
        → Reached queues (new_world node_a peer_a node_b peer_b) w of_a of_b → DeliversLinks w.b.links w.a.links }
{}

/// In every run what was handed in at a link and delivered at it is read off the records of its user: those with its own address, from the
/// one that gave it that address up to the next that gives the address again; and so what was delivered there is a beginning of what was
/// handed in at the partner.
pub fn links_read_off_captures()
    ensures of_a { (queues : Queues) (node_a peer_a node_b peer_b : ℕ) (w : LinkWorld) (of_a of_b : List LinkEventValue)
        → Reached queues (new_world node_a peer_a node_b peer_b) w of_a of_b → AreUpFrom of_a of_b w.a.links.links w.b.links.links }
    ensures of_b { (queues : Queues) (node_a peer_a node_b peer_b : ℕ) (w : LinkWorld) (of_a of_b : List LinkEventValue)
        → Reached queues (new_world node_a peer_a node_b peer_b) w of_a of_b → AreUpFrom of_b of_a w.b.links.links w.a.links.links }
{}

/// In every run as many messages were delivered at a side's links, all in all, as events of its user say.
pub fn links_count_deliveries()
    ensures of_a { (queues : Queues) (node_a peer_a node_b peer_b : ℕ) (w : LinkWorld) (of_a of_b : List LinkEventValue)
        → Reached queues (new_world node_a peer_a node_b peer_b) w of_a of_b → deliveries w.a.links.links ≡ ups of_a }
    ensures of_b { (queues : Queues) (node_a peer_a node_b peer_b : ℕ) (w : LinkWorld) (of_a of_b : List LinkEventValue)
        → Reached queues (new_world node_a peer_a node_b peer_b) w of_a of_b → deliveries w.b.links.links ≡ ups of_b }
{}

/// What is right without queues is right with them: what steps of links without queues lead to, the same steps of links with queues lead to as
/// well, with the same messages and the same truth of each, and links that differ in nothing but what the queues leave open.
pub fn links_with_queues_do_as_much()
    ensures { (node_a peer_a node_b peer_b : ℕ) (w : LinkWorld) (of_a of_b : List LinkEventValue)
        → Reached Without (new_world node_a peer_a node_b peer_b) w of_a of_b → IsLedTo (new_world node_a peer_a node_b peer_b) w of_a of_b }
{}
