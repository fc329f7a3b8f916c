//! What the user of an end does, and its timers.

ghost use Rattle.std.specs.Prelude.{◌≡◌, ◌+◌, ◌++◌, ◌<◌, ◌≤◌, [], Ok, Err, length, OnOk, IsOk, IfErr, IfSome, OnSome, IfNone};
ghost use Rattle.capture_record.specs.declared.limit.TheConstants.{MAX_LINK, MAX_MESSAGE};
ghost use Rattle.capture_record.specs.Entries.{record_with};
ghost use Rattle.capture.specs.declared.hint.HintForm.TheVariants as HintForm;
ghost use Rattle.capture.specs.Text.{record_line};
ghost use Rattle.dna_links.specs.LookUps as tests;
ghost use Rattle.dna_play.specs.StoredPlay as stored;
ghost use Rattle.player_end.specs.Stepping.{StopMeans, with_lines};

use super::End;
use crate::duty::Duty;
use crate::fault::StepFault;
use crate::given_piece::GivenPiece;
use crate::held_packet::HeldPacket;
use crate::link_ends::LinkEnds;
use capture::put_line;
use capture_record::{Entry, MAX_LINK, MAX_MESSAGE};
use dna_links::{LinkTest, Phase};
use dna_station::State;
use link_segments::{is_connected, takes_messages};
use std::alloc::AllocError;
use wire_base::Window;

impl<W: Window<HeldPacket, 256> + Drop, V: Window<GivenPiece, 4096> + Drop> End<W, V> {
    /// The user starts the station; it owes STRT. `BadStep`: it is not in HALTED (DDCMP 4.1, startup state table).
    pub fn start(&mut self, text: &mut Vec<u8>) -> Result<(), StepFault>
        ensures ok { OnOk result (with_lines text.old.items (stored.starts self.old) ≡ Ok (self.new, [], text.new.items)) }
        ensures stop { IfErr result (λ fault. StopMeans (stored.starts self.old) fault) }
        ensures memory { result ≡ Err StepFault.OutOfMemory → IsOk (stored.starts self.old) }
    {
        match self.station.state() {
            State::Halted => {
                put(text, Entry::Start, &[])?;
                self.station.start();
                Ok(())
            }
            State::Istrt | State::Astrt | State::Running => Err(StepFault::BadStep),
        }
    }

    /// The user halts the station, in whatever state it is.
    pub fn halt(&mut self, text: &mut Vec<u8>) -> Result<(), StepFault>
        ensures ok { OnOk result (with_lines text.old.items (stored.halts self.old) ≡ Ok (self.new, [], text.new.items)) }
        ensures stop { IfErr result (λ fault. StopMeans (stored.halts self.old) fault) }
    {
        put(text, Entry::Halt, &[])?;
        self.station.halt();
        Ok(())
    }

    /// The node starts anew, in whatever state it is: the station is halted, all links are over, with what they owe, and no address is given.
    pub fn boot(&mut self, text: &mut Vec<u8>) -> Result<(), StepFault>
        ensures ok { OnOk result (with_lines text.old.items (stored.boots self.old) ≡ Ok (self.new, [], text.new.items)) }
        ensures stop { IfErr result (λ fault. StopMeans (stored.boots self.old) fault) }
    {
        put(text, Entry::Boot, &[])?;
        self.station.halt();
        self.links = LinkEnds::new(self.alloc);
        self.addresses = 0;
        Ok(())
    }

    /// The timer of the station runs out; it owes STRT, STACK, REP or ACK, by its state. `BadStep`: it is in HALTED. Takes no memory.
    pub fn time_out(&mut self) -> Result<(), StepFault>
        ensures ok { OnOk result (stored.times_out self.old ≡ stored.silent self.new) }
        ensures stop { IfErr result (λ fault. StopMeans (stored.times_out self.old) fault) }
        ensures memory { result ≡ Err StepFault.OutOfMemory → ⊥ }
    {
        let Some(debt) = self.station.timer_debt() else {
            return Err(StepFault::BadStep);
        };
        self.station.owe(debt);
        Ok(())
    }

    // The next address, if one is left.
    fn next_address(&self) -> Option<u16>
        ensures next { IfSome result (λ address. address ≡ self.now.addresses + 1) }
        ensures room { OnSome result (self.now.addresses < MAX_LINK) }
        ensures full { IfNone result (MAX_LINK ≤ self.now.addresses) }
    {
        if u64::from(self.addresses) < MAX_LINK {
            return Some(self.addresses + 1);
        }
        None
    }

    /// The user opens a link, with the next address; it owes CI. `Full`: no address is left.
    pub fn open(&mut self, text: &mut Vec<u8>) -> Result<(), StepFault>
        ensures ok { OnOk result (with_lines text.old.items (stored.opens self.old) ≡ Ok (self.new, [], text.new.items)) }
        ensures stop { IfErr result (λ fault. StopMeans (stored.opens self.old) fault) }
        ensures memory { result ≡ Err StepFault.OutOfMemory → IsOk (stored.opens self.old) }
    {
        let Some(link) = self.next_address() else {
            return Err(StepFault::Full);
        };
        put(text, Entry::Open { link }, &[])?;
        let Ok(()) = self.links.open(link) else {
            return Err(StepFault::OutOfMemory);
        };
        self.addresses = link;
        Ok(())
    }

    /// The user accepts the call from this address: the link gets the next address, and owes CC. `BadStep`: no link in Called has this far address.
    /// `Full`: no address is left.
    #[tactic(auto, using(crate::proofs::Searching::found_ends, crate::proofs::Steps::answered))]
    pub fn accept(&mut self, partner: u16, text: &mut Vec<u8>) -> Result<(), StepFault>
        ensures ok { OnOk result (with_lines text.old.items (stored.accepts self.old partner) ≡ Ok (self.new, [], text.new.items)) }
        ensures stop { IfErr result (λ fault. StopMeans (stored.accepts self.old partner) fault) }
        ensures memory { result ≡ Err StepFault.OutOfMemory → IsOk (stored.accepts self.old partner) }
    {
        let Some((number, _link)) = self.links.found(LinkTest::CalledBy { far: partner }) else {
            return Err(StepFault::BadStep);
        };
        let Some(link) = self.next_address() else {
            return Err(StepFault::Full);
        };
        put(text, Entry::Accept { partner, link }, &[])?;
        let Ok(()) = self
            .links
            .answer_at(number, Phase::Confirming, Duty::Confirm, link)
        else {
            return Err(StepFault::OutOfMemory);
        };
        self.addresses = link;
        Ok(())
    }

    /// The user rejects the call from this address: the link gets the next address, and owes DI. `BadStep`: no link in Called has this far address.
    /// `Full`: no address is left.
    #[tactic(auto, using(crate::proofs::Searching::found_ends, crate::proofs::Steps::answered))]
    pub fn reject(&mut self, partner: u16, text: &mut Vec<u8>) -> Result<(), StepFault>
        ensures ok { OnOk result (with_lines text.old.items (stored.rejects self.old partner) ≡ Ok (self.new, [], text.new.items)) }
        ensures stop { IfErr result (λ fault. StopMeans (stored.rejects self.old partner) fault) }
        ensures memory { result ≡ Err StepFault.OutOfMemory → IsOk (stored.rejects self.old partner) }
    {
        let Some((number, _link)) = self.links.found(LinkTest::CalledBy { far: partner }) else {
            return Err(StepFault::BadStep);
        };
        let Some(link) = self.next_address() else {
            return Err(StepFault::Full);
        };
        put(text, Entry::Reject { partner, link }, &[])?;
        let Ok(()) = self
            .links
            .answer_at(number, Phase::Disconnecting, Duty::Disconnect, link)
        else {
            return Err(StepFault::OutOfMemory);
        };
        self.addresses = link;
        Ok(())
    }

    /// The user hands in a message on the link with this address. `BadStep`: no live link has it, or it is not in Calling, Confirming or RUN, or the
    /// message has more than 65,535 bytes.
    #[tactic(auto, using(crate::proofs::Searching::found_ends))]
    pub fn hand_in(
        &mut self,
        link: u16,
        message: &[u8],
        text: &mut Vec<u8>,
    ) -> Result<(), StepFault>
        ensures ok { OnOk result (with_lines text.old.items (stored.hands_in self.old link message.now) ≡ Ok (self.new, [], text.new.items)) }
        ensures stop { IfErr result (λ fault. StopMeans (stored.hands_in self.old link message.now) fault) }
        ensures memory { result ≡ Err StepFault.OutOfMemory → IsOk (stored.hands_in self.old link message.now) }
    {
        let Some((number, found)) = self.links.found(LinkTest::LiveAt { own: link }) else {
            return Err(StepFault::BadStep);
        };
        if !takes_messages(found.port().phase) {
            return Err(StepFault::BadStep);
        }
        if message.len() > MAX_MESSAGE {
            return Err(StepFault::BadStep);
        }
        let Ok(()) = self.links.hand_in_at(number, message) else {
            return Err(StepFault::OutOfMemory);
        };
        put(text, Entry::In { link }, message)
    }

    /// The user closes the link with this address; it owes DI. `BadStep`: no live link has it, or it is not in Confirming or RUN.
    #[tactic(auto, using(crate::proofs::Searching::found_ends))]
    pub fn close(&mut self, link: u16, text: &mut Vec<u8>) -> Result<(), StepFault>
        ensures ok { OnOk result (with_lines text.old.items (stored.closes self.old link) ≡ Ok (self.new, [], text.new.items)) }
        ensures stop { IfErr result (λ fault. StopMeans (stored.closes self.old link) fault) }
        ensures memory { result ≡ Err StepFault.OutOfMemory → IsOk (stored.closes self.old link) }
    {
        let Some((number, found)) = self.links.found(LinkTest::LiveAt { own: link }) else {
            return Err(StepFault::BadStep);
        };
        if !is_connected(found.port().phase) {
            return Err(StepFault::BadStep);
        }
        put(text, Entry::Close { link }, &[])?;
        self.links.close_at(number);
        Ok(())
    }

    /// The user gives up the call of the link with this address: the link is over, and nothing is sent. `BadStep`: no live link has it, or it is not
    /// in Calling.
    #[tactic(auto, using(crate::proofs::Searching::found_ends))]
    pub fn abort(&mut self, link: u16, text: &mut Vec<u8>) -> Result<(), StepFault>
        ensures ok { OnOk result (with_lines text.old.items (stored.aborts self.old link) ≡ Ok (self.new, [], text.new.items)) }
        ensures stop { IfErr result (λ fault. StopMeans (stored.aborts self.old link) fault) }
        ensures memory { result ≡ Err StepFault.OutOfMemory → IsOk (stored.aborts self.old link) }
    {
        let Some((number, found)) = self.links.found(LinkTest::LiveAt { own: link }) else {
            return Err(StepFault::BadStep);
        };
        if !is_calling(found.port().phase) {
            return Err(StepFault::BadStep);
        }
        put(text, Entry::Abort { link }, &[])?;
        self.links.end_at(number);
        Ok(())
    }

    /// The timer of the link with this address runs out: it owes CI, CC or DI once more, by its phase, or all its segments that are not
    /// acknowledged go again. `BadStep`: no live link has it, or it is in Called. Takes no memory.
    #[tactic(auto, using(crate::proofs::Searching::found_ends))]
    pub fn retry(&mut self, link: u16) -> Result<(), StepFault>
        ensures ok { OnOk result (stored.retries self.old link ≡ stored.silent self.new) }
        ensures stop { IfErr result (λ fault. StopMeans (stored.retries self.old link) fault) }
        ensures memory { result ≡ Err StepFault.OutOfMemory → ⊥ }
    {
        let Some((number, _found)) = self.links.found(LinkTest::LiveAt { own: link }) else {
            return Err(StepFault::BadStep);
        };
        if !self.links.retry_at(number) {
            return Err(StepFault::BadStep);
        }
        Ok(())
    }
}

fn is_calling(phase: Phase) -> bool
    ensures { result ≡ tests.is_calling phase }
{
    matches!(phase, Phase::Calling)
}

/// Puts the line of a record at the end of the text.
pub fn put(text: &mut Vec<u8>, entry: Entry, bytes: &[u8]) -> Result<(), StepFault>
    requires { length bytes.now ≤ MAX_MESSAGE }
    ensures ok { OnOk result (text.new.items ≡ text.old.items ++ record_line HintForm.Number (record_with entry bytes.now)) }
    ensures err { IfErr result (λ fault. fault ≡ StepFault.OutOfMemory) }
{
    match put_line(text, entry, bytes) {
        Ok(()) => Ok(()),
        Err(AllocError) => Err(StepFault::OutOfMemory),
    }
}
