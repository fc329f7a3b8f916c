//! What comes to an end.

ghost use Rattle.std.specs.Prelude.{◌≡◌, ◌≤◌, ℕ, [], Ok, Err, Some, length, OnOk, IsOk, IfErr, IfSome};
ghost use Rattle.std.specs.Option.{option_map};
ghost use Rattle.capture_record.specs.declared.limit.TheConstants.{MAX_HINT, MAX_MESSAGE};
ghost use Rattle.ddcmp_msg.specs.Message.{view};
ghost use Rattle.ddcmp_msg.specs.Reading.{reading, reading_view};
ghost use Rattle.dna_packet.specs.Packet as packets;
ghost use Rattle.dna_packet.specs.Nsp as nsp;
ghost use Rattle.dna_node.specs.Content as contents;
ghost use Rattle.dna_play.specs.StoredPlay as steps;
ghost use Rattle.dna_play.specs.Receipt as receipts;
ghost use Rattle.player_end.specs.inner.Delivering.{arrives_as};
ghost use Rattle.player_end.specs.inner.Index.{live_of};
ghost use Rattle.player_end.specs.Stepping.{StopMeans, Stopped, with_lines};

use super::End;
use super::user::put;
use crate::fault::StepFault;
use crate::given_piece::GivenPiece;
use crate::held_packet::HeldPacket;
use crate::link_ends::LinkEnds;
use capture_record::{Entry, Fate, MAX_HINT, MAX_UNIT};
use ddcmp_msg::{Reading, read_unit};
use dna_packet::{Nsp, Packet, read_nsp, read_packet};
use dna_station::body_of;
use wire_base::Window;

impl<W: Window<HeldPacket, 256> + Drop, V: Window<GivenPiece, 4096> + Drop> End<W, V> {
    /// These bytes come off the line, and their packet is kept where there is a buffer and it can be taken. What is whole of a link then
    /// goes to its user at once. `BadStep`: the unit's number has no line, or a message that becomes whole has more than 65,535 bytes. Memory
    /// is asked for where the number has a line.
    #[tactic(auto, using(crate::proofs::Came::read))]
    pub fn come(&mut self, buffer: bool, bytes: &[u8], text: &mut Vec<u8>) -> Result<(), StepFault>
        requires short { length bytes.now ≤ MAX_MESSAGE }
        ensures ok { OnOk result (with_lines text.old.items (steps.comes self.old buffer bytes.now) ≡ Ok (self.new, [], text.new.items)) }
        ensures stop { IfErr result (λ fault. StopMeans (steps.comes self.old buffer bytes.now) fault) }
        ensures memory { result ≡ Err StepFault.OutOfMemory → IsOk (steps.loses self.old) }
    {
        if self.passed > MAX_HINT {
            return Err(StepFault::BadStep);
        }
        let reading = read_unit(bytes);
        let fate = kept_or_not(self.station.keeps(buffer, &reading));
        self.receive(&reading, fate, bytes, text)
    }

    /// These bytes come off the line, and their packet is kept and then lost: the links do not meet it. `BadStep`: the packet can't be taken, or
    /// the unit's number has no line.
    #[tactic(auto, using(crate::proofs::Came::read))]
    pub fn lose_above(&mut self, bytes: &[u8], text: &mut Vec<u8>) -> Result<(), StepFault>
        requires short { length bytes.now ≤ MAX_MESSAGE }
        ensures ok { OnOk result (with_lines text.old.items (steps.drops self.old bytes.now) ≡ Ok (self.new, [], text.new.items)) }
        ensures stop { IfErr result (λ fault. StopMeans (steps.drops self.old bytes.now) fault) }
        ensures memory { result ≡ Err StepFault.OutOfMemory → IsOk (steps.drops self.old bytes.now) }
    {
        if self.passed > MAX_HINT {
            return Err(StepFault::BadStep);
        }
        let reading = read_unit(bytes);
        if !self.station.keeps(true, &reading) {
            return Err(StepFault::BadStep);
        }
        self.receive(&reading, Fate::Dropped, bytes, text)
    }

    // These bytes, which are read so, come off the line, and this becomes of their packet.
    #[tactic(auto, using(crate::proofs::Came::received))]
    fn receive(
        &mut self,
        reading: &Reading<'_>,
        fate: Fate,
        bytes: &[u8],
        text: &mut Vec<u8>,
    ) -> Result<(), StepFault>
        requires short { length bytes.now ≤ MAX_MESSAGE }
        requires few { self.old.passed ≤ MAX_HINT }
        ensures ok { OnOk result (with_lines text.old.items (steps.receives self.old bytes.now (reading_view reading.now) fate)
            ≡ Ok (self.new, [], text.new.items)) }
        ensures stop { IfErr result (λ fault. StopMeans (steps.receives self.old bytes.now (reading_view reading.now) fate) fault) }
    {
        let hint = self.passed;
        put(text, Entry::Received { fate, hint }, bytes)?;
        self.station.arrive(reading, fate.is_kept());
        take(&mut self.links, carried(fate.is_met(), reading), text)?;
        self.passed += 1;
        Ok(())
    }

    /// These bytes come, which nobody sent; no unit is off the line. `BadStep`: no block check shows that they are damaged, or they are too
    /// long for a line of a capture.
    pub fn hear(&mut self, bytes: &[u8], text: &mut Vec<u8>) -> Result<(), StepFault>
        ensures ok { OnOk result (with_lines text.old.items (steps.hears self.old bytes.now (reading bytes.now)) ≡ Ok
            (self.new, [], text.new.items)) }
        ensures stop { IfErr result (λ fault. StopMeans (steps.hears self.old bytes.now (reading bytes.now)) fault) }
        ensures memory { result ≡ Err StepFault.OutOfMemory → IsOk (steps.hears self.old bytes.now (reading bytes.now)) }
    {
        if bytes.len() > MAX_UNIT {
            return Err(StepFault::BadStep);
        }
        let read = read_unit(bytes);
        match read {
            Reading::HeaderBad | Reading::DataBad => self.hear_damage(&read, bytes, text),
            Reading::Sound(_) | Reading::Malformed(_) => Err(StepFault::BadStep),
        }
    }

    // Noise that is read so comes to the station.
    fn hear_damage(
        &mut self,
        read: &Reading<'_>,
        bytes: &[u8],
        text: &mut Vec<u8>,
    ) -> Result<(), StepFault>
        requires { length bytes.now ≤ MAX_MESSAGE }
        ensures ok { OnOk result (with_lines text.old.items (steps.heard self.old bytes.now (reading_view read.now)) ≡ Ok
            (self.new, [], text.new.items)) }
        ensures err { IfErr result (λ fault. fault ≡ StepFault.OutOfMemory) }
    {
        put(text, Entry::Noise, bytes)?;
        self.station.arrive(read, false);
        Ok(())
    }
}

// The message of the links in what was kept, if there is one, comes to them.
#[tactic(auto, using(crate::proofs::Came::nothing_came))]
fn take<V: Window<GivenPiece, 4096> + Drop>(
    links: &mut LinkEnds<V>,
    message: Option<Nsp<'_>>,
    text: &mut Vec<u8>,
) -> Result<(), StepFault>
    requires { IfSome message (λ message. nsp.IsInRange (nsp.view message)) }
    ensures ok { OnOk result (arrives_as (option_map nsp.view message.entry) text.old.items (live_of links.old) ≡ Some
        (live_of links.new, text.new.items)) }
    ensures stop { IfErr result (λ fault. Stopped (arrives_as (option_map nsp.view message.entry) text.old.items (live_of links.old)) fault) }
{
    match message {
        Some(message) => links.arrive(&message, text),
        None => Ok(()),
    }
}

// What becomes of the packet of a unit that comes, where the links meet what is kept.
fn kept_or_not(kept: bool) -> Fate
    ensures { result ≡ steps.kept_or_not kept }
{
    if kept {
        return Fate::Kept;
    }
    Fate::NotKept
}

// The message of the links in what came, where they meet it and it has one.
fn carried<'a>(met: bool, reading: &Reading<'a>) -> Option<Nsp<'a>>
    ensures message { option_map nsp.view result ≡ receipts.carried met (reading_view reading.now) }
    ensures fits { IfSome result (λ message. nsp.IsInRange (nsp.view message)) }
{
    if !met {
        return None;
    }
    match reading {
        Reading::Sound(message) => carried_in(body_of(message)),
        Reading::HeaderBad | Reading::DataBad | Reading::Malformed(_) => None,
    }
}

// The message of the links in a packet; one that is on its way back has none, nor has a control packet or one that can't be read.
fn carried_in(packet: &[u8]) -> Option<Nsp<'_>>
    ensures message { option_map nsp.view result ≡ receipts.carried_in (contents.content packet.now) }
    ensures fits { IfSome result (λ message. nsp.IsInRange (nsp.view message)) }
{
    let Ok(read) = read_packet(packet) else {
        return None;
    };
    match read {
        Packet::Data { rtflg, nsp, .. } => carried_on(rtflg, nsp),
        Packet::Control(_) => None,
    }
}

// The message of a data packet.
fn carried_on(rtflg: u8, bytes: &[u8]) -> Option<Nsp<'_>>
    ensures message { (dst src forward : ℕ) → option_map nsp.view result
        ≡ receipts.carried_in (contents.content_of (Ok (packets.Data rtflg dst src forward bytes.now))) }
    ensures fits { IfSome result (λ message. nsp.IsInRange (nsp.view message)) }
{
    if is_returned(rtflg) {
        return None;
    }
    match read_nsp(bytes) {
        Ok(message) => Some(message),
        Err(_) => None,
    }
}

// Whether RTFLG says that a packet is on its way back.
fn is_returned(rtflg: u8) -> bool
    ensures { result ≡ contents.is_returned rtflg }
{
    rtflg / 16 % 2 == 1
}
