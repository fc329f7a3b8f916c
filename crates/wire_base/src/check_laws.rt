ghost use Rattle.std.specs.Prelude.{◌≡◌, ◌↔◌, ◌^◌, ◌<◌, [], ◌∷◌, ◌++◌, IsTrue};
ghost use Rattle.wire_base.specs.BlockCheck.{HasGoodCheck, check_bytes, check_of, is_good};

/// A law of the block check, for proofs to call: after a field its check is good, and no other two bytes are
/// (DDCMP 4.1, CRC-16).
pub fn good_with_its_check_alone(field: &[u8], low: u8, high: u8)
    ensures { HasGoodCheck (field.now ++ low ∷ high ∷ []) ↔ (low ∷ high ∷ [] ≡ check_bytes field.now) }
{}

/// A law of the block check, for proofs to call: the test `is_good` tells the rule in bits, and what is sent as a field
/// with its check passes it. The check of a field of bytes is a word of 16 bits.
pub fn good_is_tested(bytes: &[u8])
    ensures tested { IsTrue (is_good bytes.now) ↔ HasGoodCheck bytes.now }
    ensures sent { IsTrue (is_good (bytes.now ++ check_bytes bytes.now)) }
    ensures word { check_of bytes.now < 2 ^ 16 }
{}

/// A law of the block check, for proofs to call: damage within one byte, of the field or of the check, always shows. Of
/// bytes that differ from good ones in one byte alone, none are good.
pub fn damaged_byte_shows(before: &[u8], sent: u8, received: u8, after: &[u8])
    requires { HasGoodCheck (before.now ++ sent ∷ after.now) }
    ensures { HasGoodCheck (before.now ++ received ∷ after.now) → received ≡ sent }
{}
