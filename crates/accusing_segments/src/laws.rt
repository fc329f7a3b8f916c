//! What holds of the definitions in `specs/`, whatever the code does.

ghost use Rattle.std.specs.Prelude.{◌≡◌, ℕ, true, ◌∷◌, ◌++◌, List};
ghost use Rattle.capture_record.specs.declared.record.Record.{Record};
ghost use Rattle.dna_station.specs.declared.head.Head.{Head};
ghost use Rattle.dna_links.specs.declared.queue.Queues.{Queues};
ghost use Rattle.accusing.specs.Placing.{Passed, Own};
ghost use Rattle.accusing_links.specs.Placing.{IsNodePlacing};
ghost use Rattle.accusing_segments.specs.History.{history};
ghost use Rattle.accusing_segments.specs.Repeats.{is_changed_unit, repeats};
ghost use Rattle.accusing_segments.specs.Wrong.{is_long_unit, is_wrong_unit};
ghost use Rattle.accusing_segments.specs.Answers.{SendsAll};

/// Units of which an own one has a data segment that is no first one, does not go on from one that passed, and can't be acknowledged, have no
/// placing in which every packet that was composed is sent: no right node that sends all it composes sent the side's units among them, with queues
/// or without.
pub fn wrong_segments_have_no_placing()
    ensures { (queues : Queues) (head : Head) (before later : List Passed) (unit : List ℕ) (records : List Record)
        → is_wrong_unit (history before) unit ≡ true → IsNodePlacing queues head (before ++ Own unit ∷ later) records → SendsAll records → ⊥ }
{}

/// Units of which an own one has a data segment that is longer than each SEGSIZE which passed in a CI or a CC to its link, and can't be acknowledged,
/// have no placing: no right node sent the side's units among them, with queues or without, whether it sends all that it composes or not.
pub fn long_segments_have_no_placing()
    ensures { (queues : Queues) (head : Head) (before later : List Passed) (unit : List ℕ) (records : List Record)
        → is_long_unit (history before) unit ≡ true → IsNodePlacing queues head (before ++ Own unit ∷ later) records → ⊥ }
{}

/// Units of which an own one has a data segment that carries something else than the first one under its number from its link to the other, have no
/// placing where at most one CI or CC passed by which a link gets these two addresses, and none that was sent under the number can be acknowledged:
/// no right node sent the side's units among them, with queues or without, whether it sends all that it composes or not.
pub fn changed_segments_have_no_placing()
    ensures { (queues : Queues) (head : Head) (before later : List Passed) (unit : List ℕ) (records : List Record)
        → is_changed_unit (history before) (repeats before) unit ≡ true
        → IsNodePlacing queues head (before ++ Own unit ∷ later) records → ⊥ }
{}
