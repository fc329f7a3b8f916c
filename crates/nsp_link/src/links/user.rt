//! Whether the user of the links may do something, and else which check the event does not pass.

ghost use Rattle.std.specs.Prelude.{◌≡◌, Err, IsOk, OnOk, IfErr};
ghost use Rattle.dna_links.specs.User as user;
ghost use Rattle.dna_links.specs.WireLinks.{wire_links_user};
ghost use Rattle.nsp_link.specs.FailedEvent.{may_close, may_give_up, may_hand_in, refusal_of_event};
ghost use Rattle.nsp_link.specs.FailedEvent as spec;
ghost use Rattle.nsp_link.specs.Kinds.{queues_of};
ghost use Rattle.nsp_link.specs.inner.Failed.{asks_in_use};

use super::Links;
use crate::failed::FailedLinkEvent;
use crate::permit::LinkUserPermit;
use crate::phase::is_phase;
use crate::{LinkEvent, Piece};
use dna_links::{LinkTest, Phase};
use link_segments::{is_connected, takes_messages};
use wire_base::Window;

impl<W: Window<Piece, 4096> + Drop> Links<W> {
    /// Whether their user may do this now (NSP 4.0, session control interface). Nothing changes, and no memory is taken. A message that is
    /// delivered is compared with what came, and not copied. `Boot` may always be. The answer is a permit for [`Links::act`], or else the first
    /// check that the event does not pass, with what is seen there and what is allowed:
    ///
    /// - `NoLink`: of `Accept` and `Reject`, no link in Called has this address of the other node; of `In`, `Close` and `Abort`, no live
    ///   link has this own address, and with queues none of which something may be sent but a CI; of `Up`, no link got it since the last `Boot`.
    /// - `AddressInUse`: of `Open`, `Accept` and `Reject`, a live link has this own address.
    /// - `TakesMessages`: of `In`, the link is not in Calling, Confirming or RUN, or was not when it ended. `IsConnected`: of `Close`, not in
    ///   Confirming or RUN. `IsCalling`: of `Abort`, not in Calling.
    /// - `Delivery`: of `Up`, the message is not the next whole one that came.
    #[inline(always)]
    pub fn ask_user<const QUEUES: u8>(
        &self,
        event: LinkEvent,
    ) -> Result<LinkUserPermit, FailedLinkEvent>
        ensures answer { result ≡ spec.asked_event (queues_of QUEUES) self.now (user.view event.entry) }
        ensures allowed { OnOk result (IsOk (wire_links_user (queues_of QUEUES) self.now (user.view event.entry))) }
        ensures refused { IfErr result (λ failed.
            wire_links_user (queues_of QUEUES) self.now (user.view event.entry) ≡ Err (refusal_of_event failed)) }
    {
        self.ask_event::<QUEUES>(event)
    }

    // The same, with the answer alone.
    #[inline(always)]
    #[tactic(auto, using(crate::proofs::FailedTurn::event_in_use))]
    fn ask_event<const QUEUES: u8>(
        &self,
        event: LinkEvent,
    ) -> Result<LinkUserPermit, FailedLinkEvent>
        ensures { result ≡ spec.asked_event (queues_of QUEUES) self.now (user.view event.entry) }
    {
        match event {
            LinkEvent::Open { link } => self.ask_address(link, LinkUserPermit::Opens { own: link }),
            LinkEvent::Accept { partner, link } => {
                self.ask_answer(Phase::Confirming, partner, link)
            }
            LinkEvent::Reject { partner, link } => {
                self.ask_answer(Phase::Disconnecting, partner, link)
            }
            LinkEvent::In { link, message: _ } => self.ask_to_hand_in::<QUEUES>(link),
            LinkEvent::Up { link, message } => self.ask_delivery(link, message),
            LinkEvent::Close { link } => self.ask_to_close::<QUEUES>(link),
            LinkEvent::Abort { link } => self.ask_to_give_up::<QUEUES>(link),
            LinkEvent::Boot => Ok(LinkUserPermit::Boots),
        }
    }

    // An address is given: no live link has it.
    #[tactic(auto, using(crate::proofs::Found::found_links))]
    fn ask_address(
        &self,
        own: u16,
        permit: LinkUserPermit,
    ) -> Result<LinkUserPermit, FailedLinkEvent>
        ensures { result ≡ spec.asked_address own permit self.now }
    {
        let Some((number, _link)) = self.found(LinkTest::LiveAt { own }) else {
            return Ok(permit);
        };
        Err(FailedLinkEvent::AddressInUse {
            own,
            link: number as u64,
        })
    }

    // The call from this far address is answered, and gets this own one.
    #[tactic(auto, using(crate::proofs::Found::found_links))]
    fn ask_answer(
        &self,
        phase: Phase,
        partner: u16,
        own: u16,
    ) -> Result<LinkUserPermit, FailedLinkEvent>
        ensures { result ≡ spec.asked_answer phase partner own self.now }
    {
        let test = LinkTest::CalledBy { far: partner };
        let Some((number, _link)) = self.found(test) else {
            return Err(FailedLinkEvent::NoLink(self.missing(test)));
        };
        self.ask_address(
            own,
            LinkUserPermit::Answers {
                link: number,
                own,
                phase,
            },
        )
    }

    // A message is handed in.
    #[inline(always)]
    #[tactic(auto, using(crate::proofs::FailedTurn::uses_found))]
    fn ask_to_hand_in<const QUEUES: u8>(&self, own: u16) -> Result<LinkUserPermit, FailedLinkEvent>
        ensures { result ≡ asks_in_use (queues_of QUEUES) own self.now (may_hand_in (queues_of QUEUES) own self.now) }
    {
        let test = LinkTest::LiveAt { own };
        let Some((number, link)) = self.found_in_use::<QUEUES>(test) else {
            return Err(FailedLinkEvent::NoLink(self.missing(test)));
        };
        let seen = link.port_in_use::<QUEUES>().phase;
        if takes_messages(seen) {
            return Ok(LinkUserPermit::HandsIn { link: number });
        }
        let failed = FailedLinkEvent::TakesMessages {
            link: number as u64,
            seen,
        };
        Err(self.not_so(own, seen, failed))
    }

    // A link is closed.
    #[tactic(auto, using(crate::proofs::FailedTurn::uses_found))]
    fn ask_to_close<const QUEUES: u8>(&self, own: u16) -> Result<LinkUserPermit, FailedLinkEvent>
        ensures { result ≡ asks_in_use (queues_of QUEUES) own self.now (may_close (queues_of QUEUES) own self.now) }
    {
        let test = LinkTest::LiveAt { own };
        let Some((number, link)) = self.found_in_use::<QUEUES>(test) else {
            return Err(FailedLinkEvent::NoLink(self.missing(test)));
        };
        let seen = link.port_in_use::<QUEUES>().phase;
        if is_connected(seen) {
            return Ok(LinkUserPermit::Closes { link: number });
        }
        let failed = FailedLinkEvent::IsConnected {
            link: number as u64,
            seen,
        };
        Err(self.not_so(own, seen, failed))
    }

    // A call is given up.
    #[tactic(auto, using(crate::proofs::FailedTurn::uses_found))]
    fn ask_to_give_up<const QUEUES: u8>(&self, own: u16) -> Result<LinkUserPermit, FailedLinkEvent>
        ensures { result ≡ asks_in_use (queues_of QUEUES) own self.now (may_give_up (queues_of QUEUES) own self.now) }
    {
        let test = LinkTest::LiveAt { own };
        let Some((number, link)) = self.found_in_use::<QUEUES>(test) else {
            return Err(FailedLinkEvent::NoLink(self.missing(test)));
        };
        let seen = link.port_in_use::<QUEUES>().phase;
        if is_phase(Phase::Calling, seen) {
            return Ok(LinkUserPermit::GivesUp { link: number });
        }
        let failed = FailedLinkEvent::IsCalling {
            link: number as u64,
            seen,
        };
        Err(self.not_so(own, seen, failed))
    }

    // The link with this own address is seen in another phase; a call that was given up, which is seen in Called, is no link for its user.
    #[inline(never)]
    fn not_so(&self, own: u16, seen: Phase, failed: FailedLinkEvent) -> FailedLinkEvent
        ensures { result ≡ spec.not_so own self.now seen failed }
    {
        if is_phase(Phase::Called, seen) {
            return FailedLinkEvent::NoLink(self.missing(LinkTest::LiveAt { own }));
        }
        failed
    }

    // A message is delivered.
    #[inline(always)]
    #[tactic(auto, using(crate::proofs::Found::found_links))]
    fn ask_delivery(&self, own: u16, message: &[u8]) -> Result<LinkUserPermit, FailedLinkEvent>
        ensures { result ≡ spec.asked_delivering own message.now self.now }
    {
        let test = LinkTest::HasAddress { own };
        let Some((number, link)) = self.found(test) else {
            return Err(FailedLinkEvent::NoLink(self.missing(test)));
        };
        link.ask_delivery(number, message)
    }
}
