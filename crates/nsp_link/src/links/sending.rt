//! Whether the node of the links may send a message, and else which check it does not pass.

ghost use Rattle.std.specs.Prelude.{◌≡◌, ◌<◌, Ok, Err, true, IsOk, OnOk, IfOk, IfErr};
ghost use Rattle.std.specs.List.{AllByRecursion};
ghost use Rattle.dna_packet.specs.AckWord.{IsAckWord};
ghost use Rattle.dna_packet.specs.Nsp.{segment_view};
ghost use Rattle.dna_packet.specs.Nsp as nsp;
ghost use Rattle.dna_links.specs.Sending.{message_sent};
ghost use Rattle.dna_links.specs.WireSegments.{wire_segments};
ghost use Rattle.dna_links.specs.WireLinks.{wire_links_sent};
ghost use Rattle.nsp_link.specs.FailedSending.{refusal_of_sending};
ghost use Rattle.nsp_link.specs.FailedSending as spec;
ghost use Rattle.nsp_link.specs.Kinds.{queues_of};
ghost use Rattle.nsp_link.specs.inner.Failed.{asks_in_turn};
ghost use Rattle.nsp_link.specs.inner.Rows.{is_of_own};

use super::Links;
use crate::Piece;
use crate::failed::{FailedLinkSending, Nodes};
use crate::kind::is_queued;
use crate::permit::LinkSendPermit;
use dna_links::{LinkTest, Phase, Said};
use dna_packet::{DataAck, Nsp, Segment};
use wire_base::Window;

impl<W: Window<Piece, 4096> + Drop> Links<W> {
    /// Whether their node may send this message now to node `dst` as node `src` (NSP 4.0, port states, data segments and acknowledgements). Nothing
    /// changes, and no memory is taken. The fields are in range: numbers are below 4,096, and a data acknowledgement has a word. The answer is a
    /// permit for [`Links::send`], or else the first check that the message does not pass, with what is seen there and what is allowed:
    ///
    /// - `Nodes`: `src` is not this node, or `dst` not the other one.
    /// - `NoLink`: of a CI, no live link that was opened here has its SRCADDR; of a connect acknowledgement, no live link that a CI began
    ///   has its DSTADDR; of any other message but a DC and a no operation, no live link has its two addresses. With queues a link of which
    ///   something may be sent serves as a live one.
    /// - `Phase`: the link is not in the phase that the message asks for (Calling for a CI, Confirming for a CC, DI for a DI, RUN for
    ///   the others; a connect acknowledgement asks for none). `Turn`, with queues: it may be past that phase: what comes later in the order CI,
    ///   CC, messages of RUN, DI was not sent yet; and it has to have reached RUN, been accepted, or be or have ended in DI. `Live`: of a DC, a
    ///   live link has its two addresses.
    /// - `Acknowledgement`: an acknowledgement word does not name a number from the last one sent through the highest received without a gap,
    ///   nor, in a segment that is not new, an earlier one, at most 2,047 below the last one sent. With queues a new one may also name an earlier
    ///   number that is at most 2,047 below the last one sent, and not below the highest one that an earlier new segment named.
    /// - `Room`: a new segment while 2,047 are not acknowledged.
    /// - `Length`: a new segment has more data than the other side takes.
    /// - `NextPiece`, `Number`, `AsFirstGiven`: a segment is neither new and the next piece of what was handed in nor a true repeat of one of the
    ///   last 2,047.
    #[inline(always)]
    pub fn ask_sending<const QUEUES: u8>(
        &self,
        dst: u16,
        src: u16,
        message: &Nsp,
    ) -> Result<LinkSendPermit, FailedLinkSending>
        requires { nsp.IsInRange (nsp.view message.now) }
        ensures answer { result ≡ spec.asked_sending (queues_of QUEUES) self.now (record { dst = dst; src = src; message = nsp.view message.now }) }
        ensures permit { IfOk result (λ permit. spec.asked_message (queues_of QUEUES) self.now (nsp.view message.now) ≡ Ok permit) }
        ensures allowed { OnOk result (IsOk (wire_links_sent (queues_of QUEUES) self.now
            (record { dst = dst; src = src; message = nsp.view message.now }))) }
        ensures same { OnOk result (wire_links_sent (queues_of QUEUES) self.now (record { dst = dst; src = src; message = nsp.view message.now })
            ≡ message_sent (queues_of QUEUES) wire_segments self.now (nsp.view message.now)) }
        ensures refused { IfErr result (λ failed. wire_links_sent (queues_of QUEUES) self.now
            (record { dst = dst; src = src; message = nsp.view message.now }) ≡ Err (refusal_of_sending failed)) }
    {
        self.ask_packet::<QUEUES>(dst, src, message)
    }

    // The same, with the answer alone.
    #[inline(always)]
    fn ask_packet<const QUEUES: u8>(
        &self,
        dst: u16,
        src: u16,
        message: &Nsp,
    ) -> Result<LinkSendPermit, FailedLinkSending>
        requires { nsp.IsInRange (nsp.view message.now) }
        ensures { result ≡ spec.asked_sending (queues_of QUEUES) self.now (record { dst = dst; src = src; message = nsp.view message.now }) }
    {
        if src == self.node && dst == self.peer {
            return self.ask_message::<QUEUES>(message);
        }
        Err(FailedLinkSending::Nodes {
            seen: Nodes {
                source: src,
                destination: dst,
            },
            allowed: Nodes {
                source: self.node,
                destination: self.peer,
            },
        })
    }

    // The same of a message that goes from this node to the other.
    #[inline(always)]
    #[tactic(auto, using(crate::proofs::FailedTurn::turn_same))]
    fn ask_message<const QUEUES: u8>(
        &self,
        message: &Nsp,
    ) -> Result<LinkSendPermit, FailedLinkSending>
        requires { nsp.IsInRange (nsp.view message.now) }
        ensures { result ≡ spec.asked_message (queues_of QUEUES) self.now (nsp.view message.now) }
    {
        match message {
            Nsp::DataSegment(segment) => self.ask_segment::<QUEUES>(segment),
            Nsp::DataAck(message) => self.ask_data_ack::<QUEUES>(message),
            Nsp::ConnectAck(message) => self.ask_connect_ack::<QUEUES>(message.dstaddr),
            Nsp::NoOperation(_) => Ok(LinkSendPermit::OfNoLink),
            Nsp::DisconnectConfirm(message) => {
                self.ask_end::<QUEUES>(message.srcaddr, message.dstaddr)
            }
            Nsp::ConnectInitiate(message) => {
                let test = LinkTest::OpenedAt {
                    own: message.srcaddr,
                };
                self.ask_of_link::<QUEUES>(test, Phase::Calling)
            }
            Nsp::ConnectConfirm(message) => {
                let test = the_link(message.srcaddr, message.dstaddr);
                self.ask_of_link::<QUEUES>(test, Phase::Confirming)
            }
            Nsp::DisconnectInitiate(message) => {
                let test = the_link(message.srcaddr, message.dstaddr);
                self.ask_to_show::<QUEUES>(test, Phase::Disconnecting, Said::Disconnect)
            }
            Nsp::LinkService(message) => {
                let test = the_link(message.srcaddr, message.dstaddr);
                self.ask_to_show::<QUEUES>(test, Phase::Running, Said::OfRun)
            }
            Nsp::OtherDataAck(message) => {
                let test = the_link(message.srcaddr, message.dstaddr);
                self.ask_to_show::<QUEUES>(test, Phase::Running, Said::OfRun)
            }
        }
    }

    // A message that changes nothing: the link that this test finds, in the turn of this phase.
    #[tactic(auto, using(crate::proofs::FailedTurn::turns))]
    fn ask_of_link<const QUEUES: u8>(
        &self,
        test: LinkTest,
        wanted: Phase,
    ) -> Result<LinkSendPermit, FailedLinkSending>
        requires { is_of_own test ≡ true }
        ensures { result ≡ asks_in_turn (queues_of QUEUES) test wanted (λ number link. Ok (LinkSendPermit.OfLink number)) self.now }
    {
        let Some((number, link)) = self.found_in_use::<QUEUES>(test) else {
            return Err(FailedLinkSending::NoLink(self.missing(test)));
        };
        if link.may_send::<QUEUES>(wanted) {
            return Ok(LinkSendPermit::OfLink { link: number });
        }
        Err(link.out_of_turn::<QUEUES>(number, wanted))
    }

    // One that shows how far the link has come, and nothing else.
    #[tactic(auto, using(crate::proofs::FailedTurn::turns))]
    fn ask_to_show<const QUEUES: u8>(
        &self,
        test: LinkTest,
        wanted: Phase,
        said: Said,
    ) -> Result<LinkSendPermit, FailedLinkSending>
        requires { is_of_own test ≡ true }
        ensures { result ≡ asks_in_turn (queues_of QUEUES) test wanted (λ number link. Ok (spec.showing (queues_of QUEUES) said number)) self.now }
    {
        let Some((number, link)) = self.found_in_use::<QUEUES>(test) else {
            return Err(FailedLinkSending::NoLink(self.missing(test)));
        };
        if link.may_send::<QUEUES>(wanted) {
            return Ok(showing::<QUEUES>(said, number));
        }
        Err(link.out_of_turn::<QUEUES>(number, wanted))
    }

    // A connect acknowledgement.
    #[tactic(auto, using(crate::proofs::Found::found_links))]
    fn ask_connect_ack<const QUEUES: u8>(
        &self,
        dst: u16,
    ) -> Result<LinkSendPermit, FailedLinkSending>
        ensures { result ≡ spec.asked_message (queues_of QUEUES) self.now (nsp.ConnectAck dst) }
    {
        let test = LinkTest::BegunBy { far: dst };
        let Some((number, _link)) = self.found(test) else {
            return self.ask_waiting::<QUEUES>(dst);
        };
        Ok(LinkSendPermit::OfLink { link: number })
    }

    // The same where no live link is found: with queues one may have ended.
    #[tactic(auto, using(crate::proofs::FailedTurn::turns))]
    fn ask_waiting<const QUEUES: u8>(&self, dst: u16) -> Result<LinkSendPermit, FailedLinkSending>
        ensures { result ≡ spec.asked_waiting (queues_of QUEUES) (LinkTest.BegunBy dst) self.now }
    {
        let test = LinkTest::BegunBy { far: dst };
        if !is_queued::<QUEUES>() {
            return Err(FailedLinkSending::NoLink(self.missing(test)));
        }
        if self.is_used_by(dst) {
            return Ok(LinkSendPermit::OfNoLink);
        }
        Err(FailedLinkSending::NoLink(self.missing(test)))
    }

    // A DC: no live link has its addresses; with SRCADDR 0 it ends the link in Called that it is sent for, if there is one.
    #[tactic(auto, using(crate::proofs::Found::found_links))]
    fn ask_end<const QUEUES: u8>(
        &self,
        src: u16,
        dst: u16,
    ) -> Result<LinkSendPermit, FailedLinkSending>
        ensures { result ≡ spec.asked_end (queues_of QUEUES) src dst self.now }
    {
        if let Some((number, _link)) = self.found(the_link(src, dst)) {
            return Err(FailedLinkSending::Live {
                link: number as u64,
            });
        }
        if src != 0 {
            return self.ask_to_settle::<QUEUES>(src);
        }
        let Some((number, _link)) = self.found(LinkTest::CalledBy { far: dst }) else {
            return Ok(LinkSendPermit::OfNoLink);
        };
        Ok(LinkSendPermit::Drops { link: number })
    }

    // With queues: what came for the link with this own address was acted on.
    #[tactic(auto, using(crate::proofs::Found::found_links))]
    fn ask_to_settle<const QUEUES: u8>(&self, own: u16) -> Result<LinkSendPermit, FailedLinkSending>
        ensures { result ≡ spec.asked_to_settle (queues_of QUEUES) own self.now }
    {
        if !is_queued::<QUEUES>() {
            return Ok(LinkSendPermit::OfNoLink);
        }
        let Some((number, _link)) = self.found(LinkTest::HasAddress { own }) else {
            return Ok(LinkSendPermit::OfNoLink);
        };
        Ok(LinkSendPermit::Settles { link: number })
    }

    // A data acknowledgement.
    #[inline(always)]
    #[tactic(auto, using(crate::proofs::FailedTurn::turns))]
    fn ask_data_ack<const QUEUES: u8>(
        &self,
        message: &DataAck,
    ) -> Result<LinkSendPermit, FailedLinkSending>
        requires { AllByRecursion IsAckWord message.now.acks.items }
        ensures { result ≡ asks_in_turn (queues_of QUEUES) (LinkTest.TheLink message.now.srcaddr message.now.dstaddr) Phase.Running
            (λ number link. spec.asked_acks number message.now.acks.items link.segments) self.now }
    {
        let test = LinkTest::TheLink {
            own: message.srcaddr,
            far: message.dstaddr,
        };
        let Some((number, link)) = self.found_in_use::<QUEUES>(test) else {
            return Err(FailedLinkSending::NoLink(self.missing(test)));
        };
        if link.may_send::<QUEUES>(Phase::Running) {
            return link.ask_acks(number, &message.acks);
        }
        Err(link.out_of_turn::<QUEUES>(number, Phase::Running))
    }

    // A data segment.
    #[inline(always)]
    #[tactic(auto, using(crate::proofs::FailedTurn::turns))]
    fn ask_segment<const QUEUES: u8>(
        &self,
        segment: &Segment,
    ) -> Result<LinkSendPermit, FailedLinkSending>
        requires acks { AllByRecursion IsAckWord segment.now.acks.items }
        requires segnum { segment.now.number < 4096 }
        ensures { result ≡ asks_in_turn (queues_of QUEUES) (LinkTest.TheLink segment.now.srcaddr segment.now.dstaddr) Phase.Running
            (spec.asked_segment_of (queues_of QUEUES) (segment_view segment.now)) self.now }
    {
        let test = LinkTest::TheLink {
            own: segment.srcaddr,
            far: segment.dstaddr,
        };
        let Some((number, link)) = self.found_in_use::<QUEUES>(test) else {
            return Err(FailedLinkSending::NoLink(self.missing(test)));
        };
        if link.may_send::<QUEUES>(Phase::Running) {
            return link.ask_segment::<QUEUES>(number, segment);
        }
        Err(link.out_of_turn::<QUEUES>(number, Phase::Running))
    }
}

// What shows how far the link with this number has come: without queues nobody asks.
fn showing<const QUEUES: u8>(said: Said, number: usize) -> LinkSendPermit
    ensures { result ≡ spec.showing (queues_of QUEUES) said number }
{
    if !is_queued::<QUEUES>() {
        return LinkSendPermit::OfLink { link: number };
    }
    LinkSendPermit::Shows { link: number, said }
}

// The live link with these addresses.
pub(super) fn the_link(own: u16, far: u16) -> LinkTest
    ensures { result ≡ LinkTest.TheLink own far }
{
    LinkTest::TheLink { own, far }
}
