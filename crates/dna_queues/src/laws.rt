//! What holds of nodes with queues beside the machine that judges them.

ghost use Rattle.std.specs.Prelude.{◌≡◌, ℕ, List, Ok, Err};
ghost use Rattle.dna_station.specs.declared.link_refusal.LinkRefusal.TheVariants.{NoLink, LinkState};
ghost use Rattle.dna_links.specs.TrueLinks.{Links, new_links};
ghost use Rattle.dna_queues.specs.Records.{LinkRecord, AreNear, NoneGivesUp, MadeByMachine, left_by_machine, made_without, AreInRange};
ghost use Rattle.dna_queues.specs.Records.{EventsAreInRange};
ghost use Rattle.dna_queues.specs.Made.{new_node, MadeByHidden};
ghost use Rattle.dna_queues.specs.Worked.{worked, waited, given_up};

/// Complete: where hidden steps make all records of one end, the machine makes them too, whatever times the steps had. Of what comes it asks
/// only what holds beside each right other end: numbers that are near (`AreNear`). And no call is given up (`NoneGivesUp`).
pub fn machine_accepts_nodes_with_queues()
    ensures { (node peer : ℕ) (made : List LinkRecord) → AreNear (new_links node peer) made → NoneGivesUp made
        → MadeByHidden (new_node node peer) made → MadeByMachine (new_links node peer) made }
{}

/// Sound: where the machine makes all records of one end, some hidden steps make them too: what it accepts a node with queues can do.
pub fn nodes_with_queues_make_what_the_machine_accepts()
    ensures { (node peer : ℕ) (made : List LinkRecord) → AreInRange made → EventsAreInRange made → MadeByMachine (new_links node peer) made
        → MadeByHidden (new_node node peer) made }
{}

/// A node without queues is one with queues: where links without queues make all records, so do hidden steps that are placed at the records.
pub fn nodes_without_queues_are_among_them()
    ensures { (node peer : ℕ) (made : List LinkRecord) (left : Links) → made_without (new_links node peer) made ≡ Ok left → AreInRange made
        → MadeByHidden (new_node node peer) made }
{}

/// A worked list: a DI is kept, and then an acknowledgement is sent that the link composed before. A node with queues makes it, so the
/// machine does; links without queues refuse it, since their link has ended.
pub fn acknowledgement_sent_after_the_end()
    ensures made { MadeByHidden (new_node 1 2) worked }
    ensures by_machine { MadeByMachine (new_links 1 2) worked }
    ensures refused { made_without (new_links 1 2) worked ≡ Err NoLink }
{}

/// Another: a call is given up while its CI waits, and then the CI is sent. A node with queues makes it, so the machine does; links without queues
/// refuse it, since their call is over.
pub fn call_sent_after_it_was_given_up()
    ensures made { MadeByHidden (new_node 1 2) waited }
    ensures by_machine { MadeByMachine (new_links 1 2) waited }
    ensures refused { made_without (new_links 1 2) waited ≡ Err NoLink }
{}

/// Why the machine is complete only where no call is given up: a node with queues gives up a call whose answer it has kept and not acted on. The
/// machine takes that call for answered.
pub fn call_given_up_before_its_answer()
    ensures made { MadeByHidden (new_node 1 2) given_up }
    ensures refused { left_by_machine (new_links 1 2) given_up ≡ Err LinkState }
{}
