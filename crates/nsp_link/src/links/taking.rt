//! What a message that is taken does to the links.

ghost use Rattle.std.specs.Prelude.{◌≡◌, ◌<◌, Ok, true, length, OnOk, OnErr, IfErr};
ghost use Rattle.dna_packet.specs.Nsp as nsp;
ghost use Rattle.dna_links.specs.Links.{changed};
ghost use Rattle.dna_links.specs.Arriving.{message_arrived};
ghost use Rattle.dna_links.specs.WireSegments.{wire_segments};
ghost use Rattle.dna_links.specs.WireLinks.{wire_links_arrived};
ghost use Rattle.nsp_link.specs.FailedArrival.{asked_taken};
ghost use Rattle.nsp_link.specs.Fault.{IsFault};
ghost use Rattle.nsp_link.specs.Kinds.{queues_of};
ghost use Rattle.nsp_link.specs.PartnerRules.{partner_rule};
ghost use Rattle.nsp_link.specs.Phases.{arrival_takes_memory};
ghost use Rattle.nsp_link.specs.inner.Acted.{at_its_link};
ghost use Rattle.nsp_link.specs.inner.Taken.{FitsArrival, FitsCall, FitsLink, acts_on, begins, taken};

use super::Links;
use crate::permit::LinkArrivalPermit;
use crate::{LinkFault, LinkTag, Piece};
use dna_packet::Nsp;
use std::alloc::AllocError;
use wire_base::Window;

impl<W: Window<Piece, 4096> + Drop> Links<W> {
    /// This message came with this tag, and they gave the permit for it ([`Links::ask_arrival`]; NSP 4.0, port states, data segments and
    /// acknowledgements). The fields are in range: numbers are below 4,096, and a data acknowledgement has a word.
    ///
    /// A CI begins a link, but where a live link has its SRCADDR as the other side's address it is a repeat. A CC is for the link in
    /// Calling; a DI or a DC ends a live link; a segment, an acknowledgement, a link service or an interrupt is acted on in Confirming,
    /// which goes to RUN, and in RUN. A message that finds no such link changes nothing, nor do a repeat, a connect acknowledgement and
    /// a no operation. A CI that begins a link takes memory, and so does a segment that is held, which is missing and at most 2,047
    /// above the highest received without a gap, for a copy of its data; no other message takes any. `AllocError`: that was refused, and the
    /// links are as they were.
    #[inline(always)]
    pub fn arrive<const OF_PAIR: bool, const QUEUES: u8>(
        &mut self,
        message: &Nsp,
        tag: LinkTag,
        permit: LinkArrivalPermit,
    ) -> Result<(), AllocError>
        requires range { nsp.IsInRange (nsp.view message.now) }
        requires permit { asked_taken (partner_rule OF_PAIR) self.old (nsp.view message.now) tag ≡ Ok permit }
        ensures ok { OnOk result (message_arrived (queues_of QUEUES) wire_segments (partner_rule OF_PAIR) self.old (nsp.view message.now)
            (record { tag = tag; known = tt }) ≡ Ok self.new) }
        ensures memory { OnErr result (arrival_takes_memory self.old (nsp.view message.now) ≡ true) }
        ensures err { OnErr result (self.new ≡ self.old) }
    {
        self.take::<QUEUES>(message, tag, permit)
    }

    /// This message came, from node `src` to node `dst`, with the tag that it was sent with: [`Links::ask_arrival`] and [`Links::arrive`] in a row.
    ///
    /// `Refused`: the refusal of the check that it does not pass, `WrongNode`, or, where `OF_PAIR`, `CrossedLink`. `OutOfMemory`, after both:
    /// memory was refused. After any of them the links are as they were.
    pub fn arrived<const OF_PAIR: bool, const QUEUES: u8>(
        &mut self,
        dst: u16,
        src: u16,
        message: &Nsp,
        tag: LinkTag,
    ) -> Result<(), LinkFault>
        requires { nsp.IsInRange (nsp.view message.now) }
        ensures ok { OnOk result (wire_links_arrived (queues_of QUEUES) (partner_rule OF_PAIR) self.old
            (record { dst = dst; src = src; message = nsp.view message.now }) tag ≡ Ok self.new) }
        ensures refused { IfErr result (λ fault. IsFault (wire_links_arrived (queues_of QUEUES) (partner_rule OF_PAIR) self.old
            (record { dst = dst; src = src; message = nsp.view message.now }) tag) (arrival_takes_memory self.old (nsp.view message.now)) fault) }
        ensures err { OnErr result (self.new ≡ self.old) }
    {
        match message {
            Nsp::DataSegment(_) => self.ask_and_take::<OF_PAIR, QUEUES>(dst, src, message, tag),
            _ => self.take_other::<OF_PAIR, QUEUES>(dst, src, message, tag),
        }
    }

    // A message that is no segment, as a function of its own, which keeps that of segments small.
    #[inline(never)]
    fn take_other<const OF_PAIR: bool, const QUEUES: u8>(
        &mut self,
        dst: u16,
        src: u16,
        message: &Nsp,
        tag: LinkTag,
    ) -> Result<(), LinkFault>
        requires { nsp.IsInRange (nsp.view message.now) }
        ensures ok { OnOk result (wire_links_arrived (queues_of QUEUES) (partner_rule OF_PAIR) self.old
            (record { dst = dst; src = src; message = nsp.view message.now }) tag ≡ Ok self.new) }
        ensures refused { IfErr result (λ fault. IsFault (wire_links_arrived (queues_of QUEUES) (partner_rule OF_PAIR) self.old
            (record { dst = dst; src = src; message = nsp.view message.now }) tag) (arrival_takes_memory self.old (nsp.view message.now)) fault) }
        ensures err { OnErr result (self.new ≡ self.old) }
    {
        self.ask_and_take::<OF_PAIR, QUEUES>(dst, src, message, tag)
    }

    // Where the kind of the message is known, what asks and does the others falls away.
    #[inline(always)]
    fn ask_and_take<const OF_PAIR: bool, const QUEUES: u8>(
        &mut self,
        dst: u16,
        src: u16,
        message: &Nsp,
        tag: LinkTag,
    ) -> Result<(), LinkFault>
        requires { nsp.IsInRange (nsp.view message.now) }
        ensures ok { OnOk result (wire_links_arrived (queues_of QUEUES) (partner_rule OF_PAIR) self.old
            (record { dst = dst; src = src; message = nsp.view message.now }) tag ≡ Ok self.new) }
        ensures refused { IfErr result (λ fault. IsFault (wire_links_arrived (queues_of QUEUES) (partner_rule OF_PAIR) self.old
            (record { dst = dst; src = src; message = nsp.view message.now }) tag) (arrival_takes_memory self.old (nsp.view message.now)) fault) }
        ensures err { OnErr result (self.new ≡ self.old) }
    {
        match self.ask_arrival::<OF_PAIR>(dst, src, message, tag) {
            Ok(permit) => match self.arrive::<OF_PAIR, QUEUES>(message, tag, permit) {
                Ok(()) => Ok(()),
                Err(AllocError) => Err(LinkFault::OutOfMemory),
            },
            Err(failed) => Err(LinkFault::Refused(failed.refusal())),
        }
    }

    // What the permit makes of them, by what holds of its link.
    #[inline(always)]
    fn take<const QUEUES: u8>(
        &mut self,
        message: &Nsp,
        tag: LinkTag,
        permit: LinkArrivalPermit,
    ) -> Result<(), AllocError>
        requires range { nsp.IsInRange (nsp.view message.now) }
        requires fits { FitsArrival (nsp.view message.now) (arrival_takes_memory self.old (nsp.view message.now)) self.old permit }
        ensures ok { OnOk result (self.new ≡ taken (queues_of QUEUES) (nsp.view message.now) tag self.old permit) }
        ensures memory { OnErr result (arrival_takes_memory self.old (nsp.view message.now) ≡ true) }
        ensures err { OnErr result (self.new ≡ self.old) }
    {
        match permit {
            LinkArrivalPermit::OfLink { link } => self.take_at::<QUEUES>(link, message, tag),
            LinkArrivalPermit::Begins => self.begin::<QUEUES>(message, tag),
            LinkArrivalPermit::Ignored => Ok(()),
        }
    }

    // A CI begins a link.
    fn begin<const QUEUES: u8>(&mut self, message: &Nsp, tag: LinkTag) -> Result<(), AllocError>
        requires { FitsCall (nsp.view message.now) (arrival_takes_memory self.old (nsp.view message.now)) self.old }
        ensures ok { OnOk result (self.new ≡ begins (nsp.view message.now) tag self.old) }
        ensures memory { OnErr result (arrival_takes_memory self.old (nsp.view message.now) ≡ true) }
        ensures err { OnErr result (self.new ≡ self.old) }
    {
        match message {
            Nsp::ConnectInitiate(message) => {
                self.begin_called::<QUEUES>(message.srcaddr, message.segsize, tag)
            }
            Nsp::DataSegment(_) => unreachable!(),
            Nsp::DataAck(_) => unreachable!(),
            Nsp::ConnectAck(_) => unreachable!(),
            Nsp::NoOperation(_) => unreachable!(),
            Nsp::ConnectConfirm(_) => unreachable!(),
            Nsp::DisconnectInitiate(_) => unreachable!(),
            Nsp::DisconnectConfirm(_) => unreachable!(),
            Nsp::LinkService(_) => unreachable!(),
            Nsp::OtherDataAck(_) => unreachable!(),
        }
    }

    // The link with this number acts on it.
    #[inline(always)]
    #[tactic(auto, using(crate::proofs::Acted::made_there))]
    fn take_at<const QUEUES: u8>(
        &mut self,
        number: usize,
        message: &Nsp,
        tag: LinkTag,
    ) -> Result<(), AllocError>
        requires range { nsp.IsInRange (nsp.view message.now) }
        requires within { number < length self.old.links }
        requires fits { FitsLink (nsp.view message.now) (arrival_takes_memory self.old (nsp.view message.now)) number self.old }
        ensures ok { OnOk result (self.new ≡ at_its_link number self.old
            (λ link. changed number (acts_on (queues_of QUEUES) (nsp.view message.now) tag link) self.old)) }
        ensures memory { OnErr result (arrival_takes_memory self.old (nsp.view message.now) ≡ true) }
        ensures err { OnErr result (self.new ≡ self.old) }
    {
        match message {
            Nsp::DataSegment(segment) => self.take_segment_at::<QUEUES>(number, segment),
            Nsp::DataAck(message) => {
                self.take_acks_at::<QUEUES>(number, &message.acks);
                Ok(())
            }
            Nsp::LinkService(_) => {
                self.run_at::<QUEUES>(number);
                Ok(())
            }
            Nsp::OtherDataAck(_) => {
                self.run_at::<QUEUES>(number);
                Ok(())
            }
            Nsp::ConnectConfirm(message) => {
                self.confirm_at::<QUEUES>(number, message.srcaddr, message.segsize, tag);
                Ok(())
            }
            Nsp::DisconnectInitiate(_) => {
                self.end_at::<QUEUES>(number);
                Ok(())
            }
            Nsp::DisconnectConfirm(_) => {
                self.end_at::<QUEUES>(number);
                Ok(())
            }
            Nsp::ConnectInitiate(_) => unreachable!(),
            Nsp::ConnectAck(_) => unreachable!(),
            Nsp::NoOperation(_) => unreachable!(),
        }
    }
}
