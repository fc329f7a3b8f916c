//! What comes for the links.

ghost use Rattle.std.specs.Prelude.{◌≡◌, ◌<◌, true, false, Some, length, slice_get, OnOk, IfErr};
ghost use Rattle.std.specs.List.{AllByRecursion};
ghost use Rattle.dna_packet.specs.AckWord.{IsAckWord};
ghost use Rattle.dna_packet.specs.Nsp.{segment_view};
ghost use Rattle.dna_packet.specs.Nsp as nsp;
ghost use Rattle.dna_links.specs.LookUps.{is_running};
ghost use Rattle.dna_play.specs.NextSent.{LinkEnd as StoredLink};
ghost use Rattle.dna_play.specs.StoredEnd.{StoredLinks};
ghost use Rattle.dna_play.specs.StoredLinks.{arrives, message_came};
ghost use Rattle.dna_play.specs.StoredLinks as stored;
ghost use Rattle.player_end.specs.inner.Delivering.{delivers, delivers_at};
ghost use Rattle.player_end.specs.inner.Index.{LivesAt, live_of, place_among};
ghost use Rattle.player_end.specs.Stepping.{Stopped};

use super::LinkEnds;
use crate::choice::EndConfirm;
use crate::fault::StepFault;
use crate::given_piece::GivenPiece;
use crate::link_end::LinkEnd;
use crate::owed_confirm::OwedConfirm;
use dna_links::LinkTest;
use dna_packet::{AckWord, ConnectConfirm, ConnectInitiate, Nsp, Segment};
use std::alloc::AllocError;
use wire_base::Window;

// The reason of a DC for a DI that was not acted on.
const NO_LINK: u16 = 41;

// The reason of one for a DI that was.
const DISCONNECTED: u16 = 42;

impl<V: Window<GivenPiece, 4096> + Drop> LinkEnds<V> {
    /// This message came and was kept: what it does to its link, and what that owes then. What is whole then goes to the user, with a
    /// line of each message at the end of the text. `BadStep`: such a message has more than 65,535 bytes, and no line.
    pub fn arrive(&mut self, message: &Nsp<'_>, text: &mut Vec<u8>) -> Result<(), StepFault>
        requires { nsp.IsInRange (nsp.view message.now) }
        ensures ok { OnOk result (delivers (nsp.view message.now) text.old.items (arrives (nsp.view message.now) (live_of self.old)) ≡ Some
            (live_of self.new, text.new.items)) }
        ensures stop { IfErr result (λ fault. Stopped
            (delivers (nsp.view message.now) text.old.items (arrives (nsp.view message.now) (live_of self.old))) fault) }
    {
        match message {
            Nsp::DataSegment(segment) => self.segment_came(segment, text),
            _ => {
                let Ok(()) = self.message_came(message) else {
                    return Err(StepFault::OutOfMemory);
                };
                Ok(())
            }
        }
    }

    fn message_came(&mut self, message: &Nsp<'_>) -> Result<(), AllocError>
        requires { nsp.IsInRange (nsp.view message.now) }
        ensures { OnOk result (live_of self.new ≡ message_came (nsp.view message.now) (live_of self.old)) }
    {
        match message {
            Nsp::ConnectInitiate(message) => self.connect_initiate(message.srcaddr),
            Nsp::ConnectConfirm(message) => self.connect_confirm(message.dstaddr, message.srcaddr),
            Nsp::DisconnectInitiate(message) => self.disconnect(message.dstaddr, message.srcaddr),
            Nsp::DisconnectConfirm(message) => {
                self.end(message.dstaddr, message.srcaddr);
                Ok(())
            }
            Nsp::DataAck(message) => {
                self.acks_came(message.dstaddr, message.srcaddr, &message.acks);
                Ok(())
            }
            Nsp::LinkService(message) => {
                self.act(message.dstaddr, message.srcaddr);
                Ok(())
            }
            Nsp::OtherDataAck(message) => {
                self.act(message.dstaddr, message.srcaddr);
                Ok(())
            }
            Nsp::ConnectAck(_) | Nsp::NoOperation(_) | Nsp::DataSegment(_) => Ok(()),
        }
    }

    // A CI.
    #[tactic(auto, using(crate::proofs::Searching::found_ends))]
    fn connect_initiate(&mut self, far: u16) -> Result<(), AllocError>
        ensures { OnOk result (live_of self.new ≡ stored.with_end (LinkTest.LiveTo far) (live_of self.old)
            (stored.begun (stored.called far) (live_of self.old)) (λ place link. stored.changed place (stored.called_again link.port.phase link)
            (live_of self.old))) }
    {
        let Some((number, _link)) = self.found(LinkTest::LiveTo { far }) else {
            let link = LinkEnd::called(self.alloc, far);
            return self.begin(link);
        };
        self.call_again_at(number);
        Ok(())
    }

    fn call_again_at(&mut self, number: usize)
        requires within { number < length self.old.links }
        requires lives { LivesAt number self.old }
        ensures { (link : StoredLink) → slice_get self.old.links number ≡ Some link
            → live_of self.new ≡ stored.changed (place_among number self.old.links) (stored.called_again link.port.phase link) (live_of self.old) }
    {
        self.links[number].call_again();
        self.marks.mark(number);
    }

    // A CC.
    #[tactic(auto, using(crate::proofs::Searching::found_ends))]
    fn connect_confirm(&mut self, own: u16, far: u16) -> Result<(), AllocError>
        ensures { OnOk result (live_of self.new ≡ stored.confirm_came own far (live_of self.old)) }
    {
        if let Some((number, _link)) = self.found(LinkTest::CallingAt { own }) {
            return self.confirm_at(number, far);
        }
        let Some((number, _link)) = self.found(LinkTest::TheLink { own, far }) else {
            return Ok(());
        };
        self.confirm_again_at(number);
        Ok(())
    }

    fn confirm_at(&mut self, number: usize, far: u16) -> Result<(), AllocError>
        requires within { number < length self.old.links }
        requires lives { LivesAt number self.old }
        ensures { (link : StoredLink) → slice_get self.old.links number ≡ Some link
            → OnOk result (live_of self.new ≡ stored.changed (place_among number self.old.links) (stored.confirmed far link) (live_of self.old)) }
    {
        self.fars.insert(far, number)?;
        self.links[number].confirm(far);
        self.marks.mark(number);
        Ok(())
    }

    fn confirm_again_at(&mut self, number: usize)
        requires within { number < length self.old.links }
        requires lives { LivesAt number self.old }
        ensures { (link : StoredLink) → slice_get self.old.links number ≡ Some link
            → live_of self.new ≡ stored.changed (place_among number self.old.links) (stored.confirmed_again (is_running link.port.phase) link)
            (live_of self.old) }
    {
        self.links[number].confirm_again();
        self.marks.mark(number);
    }

    // A DI: its link ends, and a DC is owed.
    #[tactic(auto, using(crate::proofs::Searching::found_ends))]
    fn disconnect(&mut self, own: u16, far: u16) -> Result<(), AllocError>
        ensures { OnOk result (live_of self.new ≡ stored.ends_link own far (stored.confirming far own 41 (live_of self.old))
            (stored.confirming far own 42) (live_of self.old)) }
    {
        let reason = if self.end(own, far) {
            DISCONNECTED
        } else {
            NO_LINK
        };
        let confirm = EndConfirm {
            dst: far,
            src: own,
            reason,
        };
        match self.confirms.push_back(OwedConfirm::new(confirm)) {
            Ok(()) => Ok(()),
            Err(_) => Err(AllocError),
        }
    }

    // The link with these addresses, or the one in Calling with the own address, ends; the answer is whether there is one.
    #[tactic(auto, using(crate::proofs::Searching::found_ends))]
    fn end(&mut self, own: u16, far: u16) -> bool
        ensures yes { result ≡ true → (otherwise : StoredLinks) (more : StoredLinks → StoredLinks) → stored.ends_link own far otherwise more
            (live_of self.old) ≡ more (live_of self.new) }
        ensures no { result ≡ false → (otherwise : StoredLinks) (more : StoredLinks → StoredLinks) → stored.ends_link own far otherwise more
            (live_of self.old) ≡ otherwise }
        ensures same { result ≡ false → self.new ≡ self.old }
    {
        if let Some((number, _link)) = self.found(LinkTest::TheLink { own, far }) {
            self.end_at(number);
            return true;
        }
        let Some((number, _link)) = self.found(LinkTest::CallingAt { own }) else {
            return false;
        };
        self.end_at(number);
        true
    }

    // Something that has no number which is read.
    #[tactic(auto, using(crate::proofs::Searching::found_ends))]
    fn act(&mut self, own: u16, far: u16)
        ensures { live_of self.new ≡ stored.acts own far (λ link. stored.acted_on link.variables link) (live_of self.old) }
    {
        let Some((number, _link)) = self.found(LinkTest::ActedOn { own, far }) else {
            return;
        };
        self.act_at(number);
    }

    fn act_at(&mut self, number: usize)
        requires within { number < length self.old.links }
        requires lives { LivesAt number self.old }
        ensures { (link : StoredLink) → slice_get self.old.links number ≡ Some link
            → live_of self.new ≡ stored.changed (place_among number self.old.links) (stored.acted_on link.variables link) (live_of self.old) }
    {
        self.links[number].act();
        self.marks.mark(number);
    }

    // A data acknowledgement.
    #[tactic(auto, using(crate::proofs::Searching::found_ends))]
    fn acks_came(&mut self, own: u16, far: u16, words: &[AckWord])
        requires { AllByRecursion IsAckWord words.now }
        ensures { live_of self.new ≡ stored.acts own far (stored.took_acks words.now) (live_of self.old) }
    {
        let Some((number, _link)) = self.found(LinkTest::ActedOn { own, far }) else {
            return;
        };
        self.take_acks_at(number, words);
    }

    fn take_acks_at(&mut self, number: usize, words: &[AckWord])
        requires within { number < length self.old.links }
        requires lives { LivesAt number self.old }
        requires acks { AllByRecursion IsAckWord words.now }
        ensures { (link : StoredLink) → slice_get self.old.links number ≡ Some link
            → live_of self.new ≡ stored.changed (place_among number self.old.links) (stored.took_acks words.now link) (live_of self.old) }
    {
        self.links[number].take_acks(words);
        self.marks.mark(number);
    }

    // A segment, and what it makes whole.
    #[tactic(auto, using(crate::proofs::Searching::found_ends))]
    fn segment_came(&mut self, segment: &Segment<'_>, text: &mut Vec<u8>) -> Result<(), StepFault>
        requires acks { AllByRecursion IsAckWord segment.now.acks.items }
        requires number { segment.now.number < 4096 }
        ensures ok { OnOk result (delivers (nsp.DataSegment (segment_view segment.now)) text.old.items
            (arrives (nsp.DataSegment (segment_view segment.now)) (live_of self.old)) ≡ Some (live_of self.new, text.new.items)) }
        ensures stop { IfErr result (λ fault. Stopped (delivers (nsp.DataSegment (segment_view segment.now)) text.old.items
            (arrives (nsp.DataSegment (segment_view segment.now)) (live_of self.old))) fault) }
    {
        let own = segment.dstaddr;
        let Some((number, _link)) = self.found(LinkTest::ActedOn {
            own,
            far: segment.srcaddr,
        }) else {
            return Ok(());
        };
        self.take_segment_at(number, segment, text)
    }

    fn take_segment_at(
        &mut self,
        number: usize,
        segment: &Segment<'_>,
        text: &mut Vec<u8>,
    ) -> Result<(), StepFault>
        requires within { number < length self.old.links }
        requires lives { LivesAt number self.old }
        requires acks { AllByRecursion IsAckWord segment.now.acks.items }
        requires number { segment.now.number < 4096 }
        ensures ok { (link : StoredLink) → slice_get self.old.links number ≡ Some link → OnOk result (delivers_at segment.now.dstaddr text.old.items
            (stored.delivering_at (place_among number self.old.links) (stored.took_segment (segment_view segment.now) link) (live_of self.old)) ≡ Some
            (live_of self.new, text.new.items)) }
        ensures stop { (link : StoredLink) → slice_get self.old.links number ≡ Some link → IfErr result
            (λ fault. Stopped (delivers_at segment.now.dstaddr
            text.old.items (stored.delivering_at (place_among number self.old.links) (stored.took_segment (segment_view segment.now) link)
            (live_of self.old))) fault) }
    {
        let made = self.links[number].receive(self.alloc, segment, text);
        self.marks.mark(number);
        made
    }
}
