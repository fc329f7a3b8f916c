//! What an event that the user may bring makes of the links.

ghost use Rattle.std.specs.Prelude.{◌≡◌, Ok, true, OnOk, OnErr, IfErr};
ghost use Rattle.dna_links.specs.User as user;
ghost use Rattle.dna_links.specs.WireLinks.{wire_links_user};
ghost use Rattle.nsp_link.specs.FailedEvent.{asked_event};
ghost use Rattle.nsp_link.specs.Fault.{IsFault};
ghost use Rattle.nsp_link.specs.Kinds.{queues_of};
ghost use Rattle.nsp_link.specs.Phases.{event_takes_memory};
ghost use Rattle.nsp_link.specs.inner.Acted.{FitsEvent, acted, message_in};

use super::Links;
use crate::permit::LinkUserPermit;
use crate::{LinkEvent, LinkFault, Piece};
use std::alloc::AllocError;
use wire_base::Window;

impl<W: Window<Piece, 4096> + Drop> Links<W> {
    /// Their user does this, for which they gave the permit ([`Links::ask_user`]), or their node boots. `Open`, `Accept`, `Reject` and `In` may
    /// take memory, and the other events take none. `AllocError`: that was refused, and the links are as they were.
    #[inline(always)]
    pub fn act<const QUEUES: u8>(
        &mut self,
        event: LinkEvent,
        permit: LinkUserPermit,
    ) -> Result<(), AllocError>
        requires { asked_event (queues_of QUEUES) self.old (user.view event) ≡ Ok permit }
        ensures ok { OnOk result (wire_links_user (queues_of QUEUES) self.old (user.view event.entry) ≡ Ok self.new) }
        ensures memory { OnErr result (event_takes_memory (user.view event.entry) ≡ true) }
        ensures err { OnErr result (self.new ≡ self.old) }
    {
        self.make_event::<QUEUES>(event, permit)
    }

    /// What their user does (NSP 4.0, session control interface), or that their node boots: [`Links::ask_user`] and [`Links::act`] in a row.
    ///
    /// `Refused`: the refusal of the check that the event does not pass, `NoLink`, `AddressInUse`, `LinkState` or `WrongDelivery`. `OutOfMemory`,
    /// after all of these: memory was refused. After any of them the links are as they were.
    pub fn user<const QUEUES: u8>(&mut self, event: LinkEvent) -> Result<(), LinkFault>
        ensures ok { OnOk result (wire_links_user (queues_of QUEUES) self.old (user.view event.entry) ≡ Ok self.new) }
        ensures refused { IfErr result (λ fault. IsFault (wire_links_user (queues_of QUEUES) self.old (user.view event.entry))
            (event_takes_memory (user.view event.entry)) fault) }
        ensures err { OnErr result (self.new ≡ self.old) }
    {
        match event {
            LinkEvent::In { link, message } => {
                self.ask_and_act::<QUEUES>(LinkEvent::In { link, message })
            }
            LinkEvent::Up { link, message } => {
                self.ask_and_act::<QUEUES>(LinkEvent::Up { link, message })
            }
            LinkEvent::Open { .. } => self.act_on_other::<QUEUES>(event),
            LinkEvent::Accept { .. } => self.act_on_other::<QUEUES>(event),
            LinkEvent::Reject { .. } => self.act_on_other::<QUEUES>(event),
            LinkEvent::Close { .. } => self.act_on_other::<QUEUES>(event),
            LinkEvent::Abort { .. } => self.act_on_other::<QUEUES>(event),
            LinkEvent::Boot => self.act_on_other::<QUEUES>(event),
        }
    }

    // An event that carries no message: a link has few of them, and a function of their own keeps that of the messages small.
    #[inline(never)]
    fn act_on_other<const QUEUES: u8>(&mut self, event: LinkEvent) -> Result<(), LinkFault>
        ensures ok { OnOk result (wire_links_user (queues_of QUEUES) self.old (user.view event.entry) ≡ Ok self.new) }
        ensures refused { IfErr result (λ fault. IsFault (wire_links_user (queues_of QUEUES) self.old (user.view event.entry))
            (event_takes_memory (user.view event.entry)) fault) }
        ensures err { OnErr result (self.new ≡ self.old) }
    {
        self.ask_and_act::<QUEUES>(event)
    }

    // Where the kind of the event is known, what asks and does the others falls away.
    #[inline(always)]
    fn ask_and_act<const QUEUES: u8>(&mut self, event: LinkEvent) -> Result<(), LinkFault>
        ensures ok { OnOk result (wire_links_user (queues_of QUEUES) self.old (user.view event.entry) ≡ Ok self.new) }
        ensures refused { IfErr result (λ fault. IsFault (wire_links_user (queues_of QUEUES) self.old (user.view event.entry))
            (event_takes_memory (user.view event.entry)) fault) }
        ensures err { OnErr result (self.new ≡ self.old) }
    {
        match self.ask_user::<QUEUES>(event) {
            Ok(permit) => match self.act::<QUEUES>(event, permit) {
                Ok(()) => Ok(()),
                Err(AllocError) => Err(LinkFault::OutOfMemory),
            },
            Err(failed) => Err(LinkFault::Refused(failed.refusal())),
        }
    }

    // What the permit makes of them, by what holds of its link.
    #[inline(always)]
    #[tactic(auto, using(crate::proofs::Acted::made_there))]
    fn make_event<const QUEUES: u8>(
        &mut self,
        event: LinkEvent,
        permit: LinkUserPermit,
    ) -> Result<(), AllocError>
        requires { FitsEvent (queues_of QUEUES) (event_takes_memory (user.view event)) self.old permit }
        ensures ok { OnOk result (self.new ≡ acted (queues_of QUEUES) (message_in (user.view event.entry)) self.old permit) }
        ensures memory { OnErr result (event_takes_memory (user.view event.entry) ≡ true) }
        ensures err { OnErr result (self.new ≡ self.old) }
    {
        match permit {
            LinkUserPermit::Opens { own } => self.begin_opened::<QUEUES>(own),
            LinkUserPermit::Answers { link, own, phase } => {
                self.answer_at::<QUEUES>(link, phase, own)
            }
            LinkUserPermit::HandsIn { link } => self.hand_in_at(link, message_of(event)),
            LinkUserPermit::Delivers { link, pieces } => {
                self.deliver_at(link, pieces);
                Ok(())
            }
            LinkUserPermit::Closes { link } => {
                self.close_link::<QUEUES>(link);
                Ok(())
            }
            LinkUserPermit::GivesUp { link } => {
                self.give_up_at::<QUEUES>(link);
                Ok(())
            }
            LinkUserPermit::Boots => {
                self.boot::<QUEUES>();
                Ok(())
            }
        }
    }
}

// The message that is handed in.
fn message_of<'a>(event: LinkEvent<'a>) -> &'a [u8]
    ensures { result.now ≡ message_in (user.view event.entry) }
{
    match event {
        LinkEvent::In { message, link: _ } => message,
        _ => &[],
    }
}
