//! A number that stands for the data of a message.

ghost use Rattle.std.specs.Prelude.{◌≡◌, ◌<◌};
ghost use Rattle.accusing.specs.Mark.{mark_of};

const FACTOR: u64 = 257;

// A prime below 2 ^ 55, so that one step more fits 64 bits.
const MODULUS: u64 = 36_028_797_018_963_913;

/// A number that stands for these bytes: other numbers, other bytes.
pub fn mark_of_body(bytes: &[u8]) -> u64
    ensures { result ≡ mark_of bytes.now }
{
    let mut mark: u64 = 1;
    for byte in bytes {
        mark = (mark * FACTOR + u64::from(*byte)) % MODULUS;
    }
    mark
}
