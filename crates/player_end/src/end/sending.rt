//! What an end sends.

ghost use Rattle.std.specs.Prelude.{◌≡◌, ◌<◌, ◌≤◌, ℕ, [], ◌∷◌, true, false, Ok, Err, Some, length, IfOk, IfErr};
ghost use Rattle.capture_record.specs.declared.limit.TheConstants.{MAX_MESSAGE};
ghost use Rattle.dna_packet.specs.Packet.{packet_bytes};
ghost use Rattle.dna_packet.specs.Packet as packets;
ghost use Rattle.dna_play.specs.StoredPlay as stored;
ghost use Rattle.dna_station.specs.Table.{WINDOW};
ghost use Rattle.dna_station.specs.WireBook.{wire_is_new};
ghost use Rattle.dna_play.specs.NextSent.{link_choice};
ghost use Rattle.player_end.specs.inner.Composing.{is_new};
ghost use Rattle.player_end.specs.inner.Sending.{end_with, sends_new};
ghost use Rattle.player_end.specs.inner.Owing.{choice_view, link_choice_view};
ghost use Rattle.player_end.specs.Stepping.{HasUnit, StopMeans, with_lines};

use super::End;
use super::user::put;
use crate::choice::{Choice, LinkChoice};
use crate::fault::StepFault;
use crate::given_piece::GivenPiece;
use crate::held_packet::HeldPacket;
use crate::link_ends::LinkEnds;
use crate::station_end::StationEnd;
use capture_record::Entry;
use dna_packet::{Packet, write_packet};
use dna_station::Head;
use std::alloc::{AllocError, Global};
use wire_base::Window;

// RTFLG of the packets.
const RTFLG: u8 = 2;

// Their FORWARD.
const FORWARD: u8 = 0;

impl<W: Window<HeldPacket, 256> + Drop, V: Window<GivenPiece, 4096> + Drop> End<W, V> {
    /// Sends one unit, which is the answer. `BadStep`: it has none to send, for which no memory is asked.
    #[tactic(auto, using(crate::proofs::Choosing::chosen_packets, crate::proofs::Sends::sent_live))]
    pub fn send(&mut self, text: &mut Vec<u8>) -> Result<Vec<u8>, StepFault>
        ensures ok { IfOk result (λ unit. with_lines text.old.items (stored.sends self.old) ≡ Ok (self.new, unit.items ∷ [], text.new.items)) }
        ensures short { IfOk result (λ unit. length unit.items ≤ MAX_MESSAGE) }
        ensures stop { IfErr result (λ fault. StopMeans (stored.sends self.old) fault) }
        ensures memory { result ≡ Err StepFault.OutOfMemory → HasUnit self.old }
    {
        let next = self.links.choice();
        let Some(choice) = self.station.choice(next) else {
            return Err(StepFault::BadStep);
        };
        match choice {
            Choice::New(message) => send_new(
                self.head,
                &mut self.station,
                &mut self.links,
                self.alloc,
                message,
                text,
            ),
            Choice::Strt
            | Choice::Stack
            | Choice::Nak(_)
            | Choice::Rep
            | Choice::Again
            | Choice::Ack => self.send_other(choice, text),
        }
    }

    // What is not a new packet.
    #[tactic(auto, using(crate::proofs::Sent::sent_others))]
    fn send_other(&mut self, choice: Choice, text: &mut Vec<u8>) -> Result<Vec<u8>, StepFault>
        requires { is_new (choice_view choice) ≡ false }
        ensures ok { IfOk result (λ unit. with_lines text.old.items (stored.sends_choice self.old (Some (choice_view choice)))
            ≡ Ok (self.new, unit.items ∷ [], text.new.items)) }
        ensures short { IfOk result (λ unit. length unit.items ≤ MAX_MESSAGE) }
        ensures stop { IfErr result (λ fault. StopMeans (stored.sends_choice self.old (Some (choice_view choice))) fault) }
    {
        let alloc = self.alloc;
        let Ok(unit) = self.station.unit(alloc, choice) else {
            return Err(StepFault::OutOfMemory);
        };
        let Some(unit) = unit else {
            return Err(StepFault::BadStep);
        };
        put(text, Entry::Sent, unit.as_slice())?;
        self.station.sent(choice);
        Ok(unit)
    }
}

// A new packet with a message of the links, of an end that has given as many addresses and passed as many units.
#[tactic(auto, using(crate::proofs::Sent::sent_news))]
fn send_new<W: Window<HeldPacket, 256> + Drop, V: Window<GivenPiece, 4096> + Drop>(
    head: Head,
    station: &mut StationEnd<W>,
    links: &mut LinkEnds<V>,
    alloc: Global,
    message: LinkChoice,
    text: &mut Vec<u8>,
) -> Result<Vec<u8>, StepFault>
    requires next { link_choice links.old.confirms links.old.links ≡ Some (link_choice_view message) }
    requires new { wire_is_new station.old.variables ≡ true }
    requires room { length station.old.variables.held < WINDOW }
    ensures ok { (addresses passed : ℕ) → IfOk result (λ unit. with_lines text.old.items (sends_new head station.old links.old addresses passed
        (link_choice_view message)) ≡ Ok (end_with head station.new links.new addresses passed, unit.items ∷ [], text.new.items)) }
    ensures short { IfOk result (λ unit. length unit.items ≤ MAX_MESSAGE) }
    ensures stop { (addresses passed : ℕ) → IfErr result (λ fault. StopMeans (sends_new head station.old links.old addresses passed
        (link_choice_view message)) fault) }
{
    let Ok(nsp) = links.message(message) else {
        return Err(StepFault::OutOfMemory);
    };
    let Some(nsp) = nsp else {
        return Err(StepFault::BadStep);
    };
    let Ok(packet) = packet_with(alloc, head, nsp.as_slice()) else {
        return Err(StepFault::OutOfMemory);
    };
    let Ok(unit) = station.unit_with(alloc, packet.as_slice()) else {
        return Err(StepFault::OutOfMemory);
    };
    put(text, Entry::Sent, unit.as_slice())?;
    let Ok(()) = links.sent(message) else {
        return Err(StepFault::OutOfMemory);
    };
    let Ok(()) = station.sent_new(packet, message) else {
        return Err(StepFault::OutOfMemory);
    };
    Ok(unit)
}

// The packet of a message of the links, from this node to the other.
fn packet_with(alloc: Global, head: Head, nsp: &[u8]) -> Result<Vec<u8>, AllocError>
    requires { length nsp.now ≤ 1024 }
    ensures packet { IfOk result (λ packet. packet.items ≡ packet_bytes (packets.Data 2 head.peer head.own 0 nsp.now)) }
    ensures least { IfOk result (λ packet. 1 ≤ length packet.items) }
    ensures most { IfOk result (λ packet. length packet.items ≤ 16383) }
{
    let packet = Packet::Data {
        rtflg: RTFLG,
        dst: head.peer,
        src: head.own,
        forward: FORWARD,
        nsp,
    };
    write_packet(alloc, &packet)
}
