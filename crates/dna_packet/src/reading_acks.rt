//! Reading acknowledgement words, as a segment and as a data acknowledgement have them.

ghost use Rattle.std.specs.Prelude.{◌≡◌, IfOk};
ghost use Rattle.dna_packet.specs.Fields.{Gives, IsEndOf};
ghost use Rattle.dna_packet.specs.ReadingNsp.{ack_at, acks_at, is_ack_next, data_acks_at};

use crate::ack_word::AckWord;
use crate::fault::NspFault;
use crate::fields;
use arrayvec::ArrayVec;

/// A word that must be an acknowledgement word.
#[inline(always)]
fn ack(bytes: &[u8]) -> Result<(AckWord, &[u8]), NspFault>
    ensures read { Gives (λ x. (x.0, x.1.now)) result (ack_at bytes.now) }
    ensures lies { IfOk result (λ x. IsEndOf bytes.entry x.1) }
{
    let (word, rest) = fields::word(bytes, NspFault::MissingField)?;
    let ack = AckWord::from_word(word).ok_or(NspFault::BadAckWord)?;
    Ok((ack, rest))
}

/// Whether a whole word with bit 15 set comes next.
#[inline(always)]
fn is_ack(bytes: &[u8]) -> bool
    ensures { result ≡ is_ack_next bytes.now }
{
    match bytes {
        [_, high, ..] => *high >= 0x80,
        _ => false,
    }
}

/// The acknowledgement words of a segment: as many as come next, but no more than two.
#[inline(always)]
pub(crate) fn acks(bytes: &[u8]) -> Result<(ArrayVec<AckWord, 2>, &[u8]), NspFault>
    ensures read { Gives (λ x. (x.0.items, x.1.now)) result (acks_at 2 bytes.now) }
    ensures lies { IfOk result (λ x. IsEndOf bytes.entry x.1) }
{
    let mut acks = ArrayVec::new();
    if !is_ack(bytes) {
        return Ok((acks, bytes));
    }
    let (first, rest) = ack(bytes)?;
    acks.push(first);
    if !is_ack(rest) {
        return Ok((acks, rest));
    }
    let (second, rest) = ack(rest)?;
    acks.push(second);
    Ok((acks, rest))
}

/// One acknowledgement word, and a second if any byte follows.
#[inline(always)]
pub(crate) fn data_acks(bytes: &[u8]) -> Result<(ArrayVec<AckWord, 2>, &[u8]), NspFault>
    ensures { Gives (λ x. (x.0.items, x.1.now)) result (data_acks_at bytes.now) }
{
    let mut acks = ArrayVec::new();
    let (first, rest) = ack(bytes)?;
    acks.push(first);
    if rest.is_empty() {
        return Ok((acks, rest));
    }
    let (second, rest) = ack(rest)?;
    acks.push(second);
    Ok((acks, rest))
}
