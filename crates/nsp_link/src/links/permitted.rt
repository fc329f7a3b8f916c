//! What a message that may be sent makes of the links.

ghost use Rattle.std.specs.Prelude.{◌≡◌, ◌<◌, Ok, Some, None, true, length, slice_get, option_map, OnOk, OnErr, IfOk, IfErr};
ghost use Rattle.dna_packet.specs.Nsp.{segment_view};
ghost use Rattle.dna_packet.specs.Nsp as nsp;
ghost use Rattle.dna_links.specs.Links.{LinkOf};
ghost use Rattle.dna_links.specs.Queues.{drops, shows};
ghost use Rattle.dna_links.specs.Sending.{message_sent};
ghost use Rattle.dna_links.specs.WireSegments.{WireSegments, wire_segments};
ghost use Rattle.dna_links.specs.WireLinks.{wire_links_sent};
ghost use Rattle.nsp_link.specs.FailedSending.{asked_message};
ghost use Rattle.nsp_link.specs.Fault.{IsFault};
ghost use Rattle.nsp_link.specs.Kinds.{queues_of};
ghost use Rattle.nsp_link.specs.Phases.{sending_takes_memory};
ghost use Rattle.nsp_link.specs.inner.Indexing.{KeepsAt, LivesAt};
ghost use Rattle.nsp_link.specs.inner.Permitted.{Fits, IsNextAt, at_link, gives_in, of_link, permitted, segment_in, sent_by, settling, went_on};

use super::Links;
use crate::last_sent::LastSent;
use crate::last_sent::late::LateSent;
use crate::link::Link;
use crate::permit::LinkSendPermit;
use crate::{LinkFault, LinkTag, Piece};
use dna_links::Said;
use dna_packet::{Nsp, Segment};
use std::alloc::AllocError;
use wire_base::Window;

// The tag of a message of no link.
const NO_LINK: LinkTag = LinkTag {
    link: None,
    partner: None,
};

impl<W: Window<Piece, 4096> + Drop> Links<W> {
    /// Their node sent this message, for which they gave the permit ([`Links::ask_sending`]). The answer is the tag that the message goes with. A
    /// segment that is new takes memory for a copy of its data, and the first one of a link for the window; no other message takes any.
    /// `AllocError`: that was refused, and the links are as they were.
    #[inline(always)]
    pub fn send<const QUEUES: u8>(
        &mut self,
        message: &Nsp,
        permit: LinkSendPermit,
    ) -> Result<LinkTag, AllocError>
        requires { asked_message (queues_of QUEUES) self.old (nsp.view message.now) ≡ Ok permit }
        ensures ok { IfOk result (λ tag. message_sent (queues_of QUEUES) wire_segments self.old (nsp.view message.now)
            ≡ Ok (record { links = self.new; truth = record { tag = tag; known = tt } })) }
        ensures memory { OnErr result (sending_takes_memory (queues_of QUEUES) self.old (nsp.view message.now) ≡ true) }
        ensures err { OnErr result (self.new ≡ self.old) }
    {
        self.make::<QUEUES>(message, permit)
    }

    /// Their node sent this message to node `dst` as node `src`, if it may: [`Links::ask_sending`] and [`Links::send`] in a row. The answer is the
    /// tag that the message goes with.
    ///
    /// `Refused`: the refusal of the check that it does not pass, `WrongNode`, `NoLink`, `LinkState`, `WrongAck`, `LinkWindowFull`, `SegmentTooLong`
    /// or `WrongSegment`. `OutOfMemory`, after all of these: memory was refused. After any of them the links are as they were.
    #[inline(always)]
    pub fn sent<const QUEUES: u8>(
        &mut self,
        dst: u16,
        src: u16,
        message: &Nsp,
    ) -> Result<LinkTag, LinkFault>
        requires { nsp.IsInRange (nsp.view message.now) }
        ensures ok { IfOk result (λ tag. wire_links_sent (queues_of QUEUES) self.old
            (record { dst = dst; src = src; message = nsp.view message.now })
            ≡ Ok (record { links = self.new; truth = record { tag = tag; known = tt } })) }
        ensures refused { IfErr result (λ fault. IsFault
            (wire_links_sent (queues_of QUEUES) self.old (record { dst = dst; src = src; message = nsp.view message.now }))
            (sending_takes_memory (queues_of QUEUES) self.old (nsp.view message.now)) fault) }
        ensures err { OnErr result (self.new ≡ self.old) }
    {
        match message {
            Nsp::DataSegment(_) => self.ask_and_send::<QUEUES>(dst, src, message),
            _ => self.send_other::<QUEUES>(dst, src, message),
        }
    }

    // A message that is no segment, as a function of its own, which keeps that of segments small.
    #[inline(never)]
    fn send_other<const QUEUES: u8>(
        &mut self,
        dst: u16,
        src: u16,
        message: &Nsp,
    ) -> Result<LinkTag, LinkFault>
        requires { nsp.IsInRange (nsp.view message.now) }
        ensures ok { IfOk result (λ tag. wire_links_sent (queues_of QUEUES) self.old
            (record { dst = dst; src = src; message = nsp.view message.now })
            ≡ Ok (record { links = self.new; truth = record { tag = tag; known = tt } })) }
        ensures refused { IfErr result (λ fault. IsFault
            (wire_links_sent (queues_of QUEUES) self.old (record { dst = dst; src = src; message = nsp.view message.now }))
            (sending_takes_memory (queues_of QUEUES) self.old (nsp.view message.now)) fault) }
        ensures err { OnErr result (self.new ≡ self.old) }
    {
        self.ask_and_send::<QUEUES>(dst, src, message)
    }

    // Where the kind of the message is known, what asks and does the others falls away.
    #[inline(always)]
    fn ask_and_send<const QUEUES: u8>(
        &mut self,
        dst: u16,
        src: u16,
        message: &Nsp,
    ) -> Result<LinkTag, LinkFault>
        requires { nsp.IsInRange (nsp.view message.now) }
        ensures ok { IfOk result (λ tag. wire_links_sent (queues_of QUEUES) self.old
            (record { dst = dst; src = src; message = nsp.view message.now })
            ≡ Ok (record { links = self.new; truth = record { tag = tag; known = tt } })) }
        ensures refused { IfErr result (λ fault. IsFault
            (wire_links_sent (queues_of QUEUES) self.old (record { dst = dst; src = src; message = nsp.view message.now }))
            (sending_takes_memory (queues_of QUEUES) self.old (nsp.view message.now)) fault) }
        ensures err { OnErr result (self.new ≡ self.old) }
    {
        match self.ask_sending::<QUEUES>(dst, src, message) {
            Ok(permit) => match self.send::<QUEUES>(message, permit) {
                Ok(tag) => Ok(tag),
                Err(AllocError) => Err(LinkFault::OutOfMemory),
            },
            Err(failed) => Err(LinkFault::Refused(failed.refusal())),
        }
    }

    // What the permit makes of them, by what holds of its link.
    #[inline(always)]
    fn make<const QUEUES: u8>(
        &mut self,
        message: &Nsp,
        permit: LinkSendPermit,
    ) -> Result<LinkTag, AllocError>
        requires { Fits (segment_in (nsp.view message.now)) (sending_takes_memory (queues_of QUEUES) self.old (nsp.view message.now))
            self.old permit }
        ensures ok { IfOk result (λ tag. permitted (queues_of QUEUES) (segment_in (nsp.view message.now)) self.old permit
            ≡ record { links = self.new; truth = record { tag = tag; known = tt } }) }
        ensures memory { OnErr result (sending_takes_memory (queues_of QUEUES) self.old (nsp.view message.now) ≡ true) }
        ensures err { OnErr result (self.new ≡ self.old) }
    {
        match permit {
            LinkSendPermit::Gives { link, late } => self.give::<QUEUES>(link, late, message),
            LinkSendPermit::GoesOn { link, sent } => Ok(self.go_on::<QUEUES>(link, sent)),
            LinkSendPermit::OfLink { link } => Ok(self.tag_at(link)),
            LinkSendPermit::OfNoLink => Ok(NO_LINK),
            LinkSendPermit::Shows { link, said } => Ok(self.show(link, said)),
            LinkSendPermit::Drops { link } => Ok(self.drop_call::<QUEUES>(link)),
            LinkSendPermit::Settles { link } => Ok(self.settle(link)),
        }
    }

    // The tag of a message of the link with this number.
    #[inline(always)]
    #[tactic(auto, using(crate::proofs::Permitted::stays_at))]
    fn tag_at(&self, number: usize) -> LinkTag
        requires { number < length self.now.links }
        ensures tag { (link : LinkOf WireSegments) → slice_get self.now.links number ≡ Some link
            → result ≡ record { link = Some number; partner = link.partner } }
        ensures stays { at_link number self.now (of_link number self.now) ≡ record { links = self.now; truth = record { tag = result; known = tt } } }
    {
        let Some(link) = self.links.get(number) else {
            unreachable!();
        };
        tag_of(number, link)
    }

    // With queues: the message shows that its link has come so far.
    #[tactic(auto, using(crate::proofs::Permitted::made_at))]
    fn show(&mut self, number: usize, said: Said) -> LinkTag
        requires { number < length self.old.links }
        ensures { at_link number self.old (sent_by number self.old (shows wire_segments said))
            ≡ record { links = self.new; truth = record { tag = result; known = tt } } }
    {
        let tag = self.tag_at(number);
        self.say_at(number, said);
        tag
    }

    // Acknowledgement words, or a segment that goes again.
    #[tactic(auto, using(crate::proofs::Permitted::made_at))]
    fn go_on<const QUEUES: u8>(&mut self, number: usize, sent: LastSent) -> LinkTag
        requires within { number < length self.old.links }
        requires kept { KeepsAt number self.old }
        ensures { at_link number self.old (sent_by number self.old (went_on (queues_of QUEUES) sent))
            ≡ record { links = self.new; truth = record { tag = result; known = tt } } }
    {
        let tag = self.tag_at(number);
        self.go_on_at::<QUEUES>(number, sent);
        tag
    }

    // A new segment.
    #[inline(always)]
    fn give<const QUEUES: u8>(
        &mut self,
        number: usize,
        late: LateSent,
        message: &Nsp,
    ) -> Result<LinkTag, AllocError>
        requires within { number < length self.old.links }
        requires kept { KeepsAt number self.old }
        requires next { IsNextAt (segment_in (nsp.view message.now)) number self.old }
        ensures ok { IfOk result (λ tag. gives_in (queues_of QUEUES) (segment_in (nsp.view message.now)) late number self.old
            ≡ record { links = self.new; truth = record { tag = tag; known = tt } }) }
        ensures err { OnErr result (self.new ≡ self.old) }
    {
        match segment_of(message) {
            Some(segment) => self.give_segment::<QUEUES>(number, late, segment),
            None => unreachable!(),
        }
    }

    #[inline(always)]
    fn give_segment<const QUEUES: u8>(
        &mut self,
        number: usize,
        late: LateSent,
        segment: &Segment,
    ) -> Result<LinkTag, AllocError>
        requires within { number < length self.old.links }
        requires kept { KeepsAt number self.old }
        requires next { IsNextAt (Some (segment_view segment.now)) number self.old }
        ensures ok { IfOk result (λ tag. gives_in (queues_of QUEUES) (Some (segment_view segment.now)) late number self.old
            ≡ record { links = self.new; truth = record { tag = tag; known = tt } }) }
        ensures err { OnErr result (self.new ≡ self.old) }
    {
        let tag = self.tag_at(number);
        match self.give_at::<QUEUES>(number, segment, late) {
            Ok(()) => Ok(tag),
            Err(AllocError) => Err(AllocError),
        }
    }

    // A DC that ends a call.
    #[tactic(auto, using(crate::proofs::Permitted::made_at))]
    fn drop_call<const QUEUES: u8>(&mut self, number: usize) -> LinkTag
        requires within { number < length self.old.links }
        requires live { LivesAt number self.old }
        ensures { at_link number self.old (sent_by number self.old (drops wire_segments (queues_of QUEUES)))
            ≡ record { links = self.new; truth = record { tag = result; known = tt } } }
    {
        let tag = self.tag_at(number);
        self.drop_at::<QUEUES>(number);
        tag
    }

    // With queues: a DC for which all that came was acted on.
    #[tactic(auto, using(crate::proofs::Permitted::settles_at))]
    fn settle(&mut self, number: usize) -> LinkTag
        requires { number < length self.old.links }
        ensures { at_link number self.old (settling number self.old) ≡ record { links = self.new; truth = record { tag = result; known = tt } } }
    {
        self.settle_at(number);
        NO_LINK
    }
}

// The tag of a message of this link, the number of which is given.
fn tag_of<W: Window<Piece, 4096> + Drop>(number: usize, link: &Link<W>) -> LinkTag
    ensures { result ≡ record { link = Some number; partner = link.now.partner } }
{
    LinkTag {
        link: Some(number as u64),
        partner: link.partner(),
    }
}

// The segment, if the message is one.
#[inline(always)]
fn segment_of<'a, 'b>(message: &'a Nsp<'b>) -> Option<&'a Segment<'b>>
    ensures { option_map (λ segment. segment_view segment.now) result ≡ segment_in (nsp.view message.now) }
{
    match message {
        Nsp::DataSegment(segment) => Some(segment),
        Nsp::DataAck(_) => None,
        Nsp::ConnectAck(_) => None,
        Nsp::NoOperation(_) => None,
        Nsp::DisconnectConfirm(_) => None,
        Nsp::ConnectInitiate(_) => None,
        Nsp::ConnectConfirm(_) => None,
        Nsp::DisconnectInitiate(_) => None,
        Nsp::LinkService(_) => None,
        Nsp::OtherDataAck(_) => None,
    }
}
