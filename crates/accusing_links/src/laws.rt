//! What holds of the definitions in `specs/`, whatever the code does.

ghost use Rattle.std.specs.Prelude.{◌≡◌, ℕ, ◌∷◌, ◌++◌, true, List, Some};
ghost use Rattle.capture_record.specs.declared.record.Record.{Record};
ghost use Rattle.dna_station.specs.declared.head.Head.{Head};
ghost use Rattle.dna_links.specs.declared.queue.Queues.{Queues};
ghost use Rattle.accusing.specs.Placing.{Passed, Own};
ghost use Rattle.accusing_links.specs.declared.wrong.Wrong.{Wrong};
ghost use Rattle.accusing_links.specs.Placing.{IsNodePlacing};
ghost use Rattle.accusing_links.specs.Back.{is_back_unit, told};
ghost use Rattle.accusing_links.specs.Heard.{heard};
ghost use Rattle.accusing_links.specs.Wrong.{wrong_unit};

/// Units of which an own one has a packet that can't be read, a message that can't, one between other nodes, one of a link that can't be, or one that
/// acknowledges a segment which had not passed, have no placing: no right node sent the side's units among them, with queues or without.
pub fn wrong_packets_have_no_placing()
    ensures { (queues : Queues) (head : Head) (before later : List Passed) (unit : List ℕ) (records : List Record) (wrong : Wrong)
        → wrong_unit head (heard before) unit ≡ Some wrong → IsNodePlacing queues head (before ++ Own unit ∷ later) records → ⊥ }
{}

/// Units of which an own one has a data acknowledgement message that goes back have no placing, where at most one CI or CC had passed from the far
/// address of its link, and the unit does not go again.
pub fn backward_acknowledgements_have_no_placing()
    ensures { (queues : Queues) (head : Head) (before later : List Passed) (unit : List ℕ) (records : List Record)
        → is_back_unit (told before) unit ≡ true → IsNodePlacing queues head (before ++ Own unit ∷ later) records → ⊥ }
{}
