ghost use Rattle.std.specs.Prelude.{◌≡◌, ◌↔◌, ℕ, ◌%◌, ◌^◌, ◌<◌, ◌++◌, length, fold, IsTrue};
ghost use Rattle.wire_base.specs.BlockCheck.{HasGoodCheck, after_byte, check_of, is_good, word_bytes};

use crate::check_table::after_zeros;

/// The register after one more byte of the field.
fn after_byte(register: u16, byte: u8) -> u16
    ensures { result ≡ after_byte register byte }
{
    let mixed = register ^ u16::from(byte);
    (mixed >> 8) ^ after_zeros(1, (mixed & 0xff) as u8)
}

/// The register after eight more bytes of the field. The first two meet the register's own bytes, and of each byte and of
/// its number's worth of zeros after it the table tells what is left.
fn after_eight(register: u16, eight: &[u8]) -> u16
    requires { length eight.now ≡ 8 }
    ensures { result ≡ fold after_byte register eight.now }
{
    let low = (register & 0xff) as u8 ^ eight[0];
    let high = (register >> 8) as u8 ^ eight[1];
    after_zeros(8, low)
        ^ after_zeros(7, high)
        ^ after_zeros(6, eight[2])
        ^ after_zeros(5, eight[3])
        ^ after_zeros(4, eight[4])
        ^ after_zeros(3, eight[5])
        ^ after_zeros(2, eight[6])
        ^ after_zeros(1, eight[7])
}

/// The check of a field whose bytes are some eights.
fn check_of_eights(field: &[u8]) -> u16
    requires { length field.now % 8 ≡ 0 }
    ensures { result ≡ check_of field.now }
{
    let mut register = 0;
    for i in 0..field.len() / 8 {
        register = after_eight(register, &field[8 * i..8 * i + 8]);
    }
    register
}

/// The block check of a field (DDCMP 4.1, CRC-16 with the generator x^16 + x^15 + x^2 + 1, started at 0, each byte low
/// bit first). It is sent after the field, its low byte first, and of all words it is the one that makes the check good
/// there. The field may be empty. Takes no memory.
pub fn block_check(field: &[u8]) -> u16
    ensures value { result ≡ check_of field.now }
    ensures good { HasGoodCheck (field.now ++ word_bytes result) }
    ensures alone { (word : ℕ) → word < 2 ^ 16 → HasGoodCheck (field.now ++ word_bytes word) → word ≡ result }
{
    let eights = field.len() / 8 * 8;
    let mut register = check_of_eights(&field[..eights]);
    for byte in &field[eights..] {
        register = after_byte(register, *byte);
    }
    register
}

/// Whether these bytes are a field with its right block check after it: at least two bytes, of which the last two, the
/// low byte first, are the check of the rest. Takes no memory.
pub fn checks(bytes: &[u8]) -> bool
    ensures good { IsTrue result ↔ HasGoodCheck bytes.now }
    ensures value { result ≡ is_good bytes.now }
{
    if bytes.len() < 2 {
        return false;
    }
    // Of a field with its check the register is 0 at last.
    block_check(bytes) == 0
}
