//! What is whole of a link goes to its user.

ghost use Rattle.std.specs.Prelude.{◌≡◌, ◌++◌, ◌≤◌, ◌<◌, true, Some, length, take, drop, OnOk, IfOk, IfErr};
ghost use Rattle.std.specs.List.{AllByRecursion};
ghost use Rattle.capture_record.specs.declared.limit.TheConstants.{MAX_MESSAGE};
ghost use Rattle.dna_packet.specs.AckWord.{IsAckWord};
ghost use Rattle.dna_packet.specs.Nsp.{segment_view};
ghost use Rattle.dna_links.specs.LookUps.{is_live};
ghost use Rattle.dna_links.specs.Segmentation.{in_whole_messages};
ghost use Rattle.dna_play.specs.StoredLinks as stored;
ghost use Rattle.player_end.specs.inner.Delivering.{bodies, lines_of, up_line, IsTooLong};
ghost use Rattle.player_end.specs.Stepping.{Stopped};

use super::LinkEnd;
use crate::fault::StepFault;
use crate::given_piece::GivenPiece;
use capture::put_line;
use capture_record::{Entry, MAX_MESSAGE};
use dna_packet::Segment;
use link_segments::Received;
use std::alloc::{AllocError, Global};
use wire_base::Window;

impl<V: Window<GivenPiece, 4096> + Drop> LinkEnd<V> {
    /// A segment comes, and what it makes whole goes to the user, with a line of each message at the end of the text. `BadStep`: one has more
    /// than 65,535 bytes, and so no line. After any fault it has the addresses that it had, and lives if it lived.
    pub fn receive(
        &mut self,
        alloc: Global,
        segment: &Segment<'_>,
        text: &mut Vec<u8>,
    ) -> Result<(), StepFault>
        requires acks { AllByRecursion IsAckWord segment.now.acks.items }
        requires number { segment.now.number < 4096 }
        ensures ok { OnOk result
            (lines_of segment.now.dstaddr text.old.items (stored.took_segment (segment_view segment.now) self.old).variables.pieces
            ≡ Some text.new.items) }
        ensures left { OnOk result (self.new ≡ stored.without_whole (stored.took_segment (segment_view segment.now) self.old)) }
        ensures stop { IfErr result (λ fault. Stopped (lines_of segment.now.dstaddr text.old.items
            (stored.took_segment (segment_view segment.now) self.old).variables.pieces) fault) }
        ensures own { self.new.port.own ≡ self.old.port.own }
        ensures far { self.new.port.far ≡ self.old.port.far }
        ensures lives { is_live self.old.port.phase ≡ true → is_live self.new.port.phase ≡ true }
    {
        let Ok(()) = self.take_segment(alloc, segment) else {
            return Err(StepFault::OutOfMemory);
        };
        self.deliver(alloc, segment.dstaddr, text)
    }

    // Each message that is whole goes to the user, with its line at the end of the text, where `own` is the link's address here.
    fn deliver(&mut self, alloc: Global, own: u16, text: &mut Vec<u8>) -> Result<(), StepFault>
        ensures ok { OnOk result (lines_of own text.old.items self.old.variables.pieces ≡ Some text.new.items) }
        ensures left { OnOk result (self.new ≡ stored.without_whole self.old) }
        ensures stop { IfErr result (λ fault. Stopped (lines_of own text.old.items self.old.variables.pieces) fault) }
        ensures port { self.new.port ≡ self.old.port }
    {
        deliver_all(&mut self.pieces, alloc, own, text)
    }
}

// Each message that is whole, one after the other.
fn deliver_all(
    pieces: &mut Received,
    alloc: Global,
    own: u16,
    text: &mut Vec<u8>,
) -> Result<(), StepFault>
    ensures ok { OnOk result (lines_of own text.old.items pieces.old ≡ Some text.new.items) }
    ensures left { OnOk result (pieces.new ≡ drop (in_whole_messages pieces.old) pieces.old) }
    ensures stop { IfErr result (λ fault. Stopped (lines_of own text.old.items pieces.old) fault) }
{
    let most = pieces.len();
    for _ in 0..most {
        let Some(count) = pieces.next_count() else {
            return Ok(());
        };
        match put_message(pieces, count, alloc, own, text) {
            Ok(()) => pieces.deliver(count),
            Err(fault) => return Err(fault),
        }
    }
    Ok(())
}

// The line of the message that these first pieces make.
#[tactic(auto, using(crate::proofs::Bodies::bodies_on))]
fn put_message(
    pieces: &Received,
    count: usize,
    alloc: Global,
    own: u16,
    text: &mut Vec<u8>,
) -> Result<(), StepFault>
    ensures ok { OnOk result (text.new.items ≡ text.old.items ++ up_line own (bodies (take count pieces.now))) }
    ensures short { OnOk result (length (bodies (take count pieces.now)) ≤ MAX_MESSAGE) }
    ensures long { IfErr result (IsTooLong (bodies (take count pieces.now))) }
{
    if count == 1 {
        if let Some(piece) = pieces.piece(0) {
            return put_up(own, piece.body(), text);
        }
    }
    let Ok(message) = joined(pieces, count, alloc) else {
        return Err(StepFault::OutOfMemory);
    };
    put_up(own, message.as_slice(), text)
}

// The first pieces together.
#[tactic(auto, using(crate::proofs::Bodies::bodies_on))]
fn joined(pieces: &Received, count: usize, alloc: Global) -> Result<Vec<u8>, AllocError>
    ensures { IfOk result (λ message. message.items ≡ bodies (take count pieces.now)) }
{
    let mut message = Vec::new(alloc);
    for place in 0..count {
        if let Some(piece) = pieces.piece(place) {
            message.extend_from_slice(piece.body())?;
        }
    }
    Ok(message)
}

fn put_up(own: u16, message: &[u8], text: &mut Vec<u8>) -> Result<(), StepFault>
    ensures ok { OnOk result (text.new.items ≡ text.old.items ++ up_line own message.now) }
    ensures short { OnOk result (length message.now ≤ MAX_MESSAGE) }
    ensures long { IfErr result (IsTooLong message.now) }
{
    if message.len() > MAX_MESSAGE {
        return Err(StepFault::BadStep);
    }
    match put_line(text, Entry::Up { link: own }, message) {
        Ok(()) => Ok(()),
        Err(AllocError) => Err(StepFault::OutOfMemory),
    }
}
