//! Whether a message that came is taken, and else which check it does not pass.

ghost use Rattle.std.specs.Prelude.{◌≡◌, ◌==◌, ◌&&◌, Ok, Err, IsOk, OnOk, IfOk, IfErr};
ghost use Rattle.dna_packet.specs.Nsp as nsp;
ghost use Rattle.dna_links.specs.declared.queue.Queues.{Queues};
ghost use Rattle.dna_links.specs.Arriving.{message_arrived};
ghost use Rattle.dna_links.specs.WireSegments.{wire_segments};
ghost use Rattle.dna_links.specs.WireLinks.{wire_links_arrived};
ghost use Rattle.nsp_link.specs.FailedArrival.{refusal_of_arrival};
ghost use Rattle.nsp_link.specs.FailedArrival as spec;
ghost use Rattle.nsp_link.specs.PartnerRules.{partner_rule};

use super::Links;
use super::partner::{is_for, is_of_pair};
use crate::failed::{FailedLinkArrival, Nodes};
use crate::permit::LinkArrivalPermit;
use crate::{LinkTag, Piece};
use dna_links::LinkTest;
use dna_packet::Nsp;
use wire_base::Window;

impl<W: Window<Piece, 4096> + Drop> Links<W> {
    /// Whether this message, if it came now from node `src` to node `dst` with the tag that it was sent with, is taken (NSP 4.0, port states), with
    /// queues and without. Nothing changes, and no memory is taken. The answer is a permit for [`Links::arrive`], or else the first check that the
    /// message does not pass, with what is seen there and what is allowed:
    ///
    /// - `Nodes`: `src` is not the other node, or `dst` not this one.
    /// - `OtherCall`: a CC that is acted on belongs to another call. `OtherPair`: another message that is acted on belongs to another pair of
    ///   links. Only where `OF_PAIR`, as a judge of two captures asks it: `ask_arrival::<true>`. Who has one end alone knows no link of what
    ///   comes, and `ask_arrival::<false>` takes any.
    #[inline(always)]
    pub fn ask_arrival<const OF_PAIR: bool>(
        &self,
        dst: u16,
        src: u16,
        message: &Nsp,
        tag: LinkTag,
    ) -> Result<LinkArrivalPermit, FailedLinkArrival>
        ensures answer { result ≡ spec.asked_arrival (partner_rule OF_PAIR) self.now
            (record { dst = dst; src = src; message = nsp.view message.now }) tag }
        ensures permit { IfOk result (λ permit. spec.asked_taken (partner_rule OF_PAIR) self.now (nsp.view message.now) tag ≡ Ok permit) }
        ensures allowed { (queues : Queues) → OnOk result (IsOk (wire_links_arrived queues (partner_rule OF_PAIR) self.now
            (record { dst = dst; src = src; message = nsp.view message.now }) tag)) }
        ensures same { (queues : Queues) → OnOk result (wire_links_arrived queues (partner_rule OF_PAIR) self.now
            (record { dst = dst; src = src; message = nsp.view message.now }) tag
            ≡ message_arrived queues wire_segments (partner_rule OF_PAIR) self.now (nsp.view message.now) (record { tag = tag; known = tt })) }
        ensures refused { (queues : Queues) → IfErr result (λ failed. wire_links_arrived queues (partner_rule OF_PAIR) self.now
            (record { dst = dst; src = src; message = nsp.view message.now }) tag ≡ Err (refusal_of_arrival failed)) }
    {
        self.ask_coming::<OF_PAIR>(dst, src, message, tag)
    }

    /// Whether a packet from node `src` to node `dst` comes from the other node to this one: else `arrived` refuses it with `WrongNode`. Takes no
    /// memory.
    pub fn comes_here(&self, dst: u16, src: u16) -> bool
        ensures { result ≡ ((src == self.now.peer) && (dst == self.now.node)) }
    {
        if src != self.peer {
            return false;
        }
        dst == self.node
    }

    // The same, with the answer alone.
    #[inline(always)]
    fn ask_coming<const OF_PAIR: bool>(
        &self,
        dst: u16,
        src: u16,
        message: &Nsp,
        tag: LinkTag,
    ) -> Result<LinkArrivalPermit, FailedLinkArrival>
        ensures { result ≡ spec.asked_arrival (partner_rule OF_PAIR) self.now
            (record { dst = dst; src = src; message = nsp.view message.now }) tag }
    {
        if src == self.peer && dst == self.node {
            return self.ask_to_take::<OF_PAIR>(message, tag);
        }
        Err(FailedLinkArrival::Nodes {
            seen: Nodes {
                source: src,
                destination: dst,
            },
            allowed: Nodes {
                source: self.peer,
                destination: self.node,
            },
        })
    }

    // The same of a message that comes from the other node to this one.
    #[inline(always)]
    fn ask_to_take<const OF_PAIR: bool>(
        &self,
        message: &Nsp,
        tag: LinkTag,
    ) -> Result<LinkArrivalPermit, FailedLinkArrival>
        ensures { result ≡ spec.asked_taken (partner_rule OF_PAIR) self.now (nsp.view message.now) tag }
    {
        match message {
            Nsp::DataSegment(segment) => {
                self.ask_pair::<OF_PAIR>(segment.dstaddr, segment.srcaddr, tag)
            }
            Nsp::DataAck(message) => {
                self.ask_pair::<OF_PAIR>(message.dstaddr, message.srcaddr, tag)
            }
            Nsp::LinkService(message) => {
                self.ask_pair::<OF_PAIR>(message.dstaddr, message.srcaddr, tag)
            }
            Nsp::OtherDataAck(message) => {
                self.ask_pair::<OF_PAIR>(message.dstaddr, message.srcaddr, tag)
            }
            Nsp::ConnectConfirm(message) => self.ask_confirm::<OF_PAIR>(message.dstaddr, tag),
            Nsp::ConnectInitiate(message) => self.ask_call(message.srcaddr),
            Nsp::DisconnectInitiate(message) => self.ask_ending(message.dstaddr, message.srcaddr),
            Nsp::DisconnectConfirm(message) => self.ask_ending(message.dstaddr, message.srcaddr),
            Nsp::ConnectAck(_) => Ok(LinkArrivalPermit::Ignored),
            Nsp::NoOperation(_) => Ok(LinkArrivalPermit::Ignored),
        }
    }

    // A CI: where a live link has the sender's address it is a repeat.
    #[tactic(auto, using(crate::proofs::Found::found_links))]
    fn ask_call(&self, far: u16) -> Result<LinkArrivalPermit, FailedLinkArrival>
        ensures { result ≡ spec.asked_call far self.now }
    {
        if self.is_live_to(far) {
            return Ok(LinkArrivalPermit::Ignored);
        }
        Ok(LinkArrivalPermit::Begins)
    }

    // A CC: for the link in Calling.
    #[tactic(auto, using(crate::proofs::Found::found_links))]
    fn ask_confirm<const OF_PAIR: bool>(
        &self,
        own: u16,
        seen: LinkTag,
    ) -> Result<LinkArrivalPermit, FailedLinkArrival>
        ensures { result ≡ spec.asked_confirm (partner_rule OF_PAIR) own seen self.now }
    {
        let Some((number, _link)) = self.found(LinkTest::CallingAt { own }) else {
            return Ok(LinkArrivalPermit::Ignored);
        };
        if is_for::<OF_PAIR>(number, seen) {
            return Ok(LinkArrivalPermit::OfLink { link: number });
        }
        Err(FailedLinkArrival::OtherCall {
            link: number as u64,
            seen,
        })
    }

    // What is acted on: of this pair of links.
    #[inline(always)]
    #[tactic(auto, using(crate::proofs::Found::found_links))]
    fn ask_pair<const OF_PAIR: bool>(
        &self,
        own: u16,
        far: u16,
        seen: LinkTag,
    ) -> Result<LinkArrivalPermit, FailedLinkArrival>
        ensures { result ≡ spec.asked_pair (partner_rule OF_PAIR) own far seen self.now }
    {
        let Some((number, link)) = self.found(LinkTest::ActedOn { own, far }) else {
            return Ok(LinkArrivalPermit::Ignored);
        };
        let partner = link.partner();
        if is_of_pair::<OF_PAIR>(number, partner, seen) {
            return Ok(LinkArrivalPermit::OfLink { link: number });
        }
        Err(FailedLinkArrival::OtherPair {
            link: number as u64,
            partner,
            seen,
        })
    }

    // A DI or a DC: the link, or the one in Calling with the own address.
    #[tactic(auto, using(crate::proofs::Found::found_links))]
    fn ask_ending(&self, own: u16, far: u16) -> Result<LinkArrivalPermit, FailedLinkArrival>
        ensures { result ≡ spec.asked_ending own far self.now }
    {
        if let Some((number, _link)) = self.found(LinkTest::TheLink { own, far }) {
            return Ok(LinkArrivalPermit::OfLink { link: number });
        }
        let Some((number, _link)) = self.found(LinkTest::CallingAt { own }) else {
            return Ok(LinkArrivalPermit::Ignored);
        };
        Ok(LinkArrivalPermit::OfLink { link: number })
    }
}
