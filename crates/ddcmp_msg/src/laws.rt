//! What holds of the definitions in `specs/`, whatever the code does, for the proofs of callers to cite.

ghost use Rattle.std.specs.Prelude.{◌≡◌, ◌≢◌, ◌↔◌, ◌⊎◌, ℕ, ◌<◌, List, ◌∷◌, ◌++◌};
ghost use Rattle.ddcmp_msg.specs.Message.{MessageValue, IsInRange, IsBytes};
ghost use Rattle.ddcmp_msg.specs.Spelling.{IsUnit, spelling};
ghost use Rattle.ddcmp_msg.specs.Reading.{ReadingValue, Sound, HeaderBad, DataBad, reading};
ghost use Rattle.ddcmp_msg.specs.ReadingRule.{IsReading};

/// The reading of bytes is what the rule says, for each of its answers: sound exactly on the units of the grammar,
/// header bad and data bad exactly where that check is cut or wrong, malformed by the first departure.
pub fn reading_is_by_the_rule()
    ensures { (unit : List ℕ) (answer : ReadingValue) → IsBytes unit
        → (reading unit ≡ answer) ↔ IsReading answer unit }
{}

/// No bytes have two readings.
pub fn unit_has_one_reading()
    ensures { (unit : List ℕ) (one other : ReadingValue) → IsBytes unit
        → IsReading one unit → IsReading other unit → one ≡ other }
{}

/// The spelling of a message is its unit by the grammar, and no other bytes are.
pub fn spelling_is_by_the_grammar()
    ensures { (message : MessageValue) (unit : List ℕ)
        → IsUnit message unit ↔ (IsInRange message × IsBytes unit × (unit ≡ spelling message)) }
{}

/// A message has one unit, and a unit is of one message.
pub fn message_has_one_unit()
    ensures unit { (message : MessageValue) (one other : List ℕ)
        → IsUnit message one → IsUnit message other → one ≡ other }
    ensures message { (one other : MessageValue) (unit : List ℕ)
        → IsUnit one unit → IsUnit other unit → one ≡ other }
{}

/// What is written is read back.
pub fn spelling_is_read_back()
    ensures { (message : MessageValue) → IsInRange message → reading (spelling message) ≡ Sound message }
{}

/// Damage within one byte of a unit, wherever it is, shows: in the header's check, or in that of the data.
pub fn damaged_byte_shows()
    ensures { (message : MessageValue) (before : List ℕ) (sent received : ℕ) (after : List ℕ)
        → IsUnit message (before ++ sent ∷ after) → received < 256 → received ≢ sent
        → (reading (before ++ received ∷ after) ≡ HeaderBad) ⊎ (reading (before ++ received ∷ after) ≡ DataBad) }
{}
