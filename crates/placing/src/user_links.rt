//! What the user of a side did with its links, read off its packets.

use crate::carried::{message_of, next_number};
use crate::user_link::{Answer, Phase, Sent, Taken, UserAct, UserLink};
use dna_packet::Nsp;
use std::alloc::{AllocError, Global};
use std::collections::{BTreeMap, BTreeSet};

/// The links of a side, as those of a node with queues: by their own addresses; by the far address, where they are called and not answered yet; and
/// the own address by the far one, of those that live and know both.
#[derive(Drop)]
pub(crate) struct UserLinks {
    links: BTreeMap<u16, UserLink>,
    called: BTreeSet<u16>,
    reached: BTreeMap<u16, u16>,
}

impl UserLinks {
    /// None. Takes no memory.
    pub(crate) fn new(alloc: Global) -> UserLinks {
        UserLinks {
            links: BTreeMap::new(alloc),
            called: BTreeSet::new(alloc),
            reached: BTreeMap::new(alloc),
        }
    }

    /// The node boots: all links are over, and their addresses are forgotten.
    pub(crate) fn boot(&mut self) {
        self.links.clear();
        self.called.clear();
        self.reached.clear();
    }

    /// The call that its user has given up by now, where this unit is sent next, which gives its address to another link. It is over.
    pub(crate) fn given_up_before(&mut self, unit: &[u8], is_anew: Option<bool>) -> Option<u16> {
        let (own, far) = match message_of(unit)? {
            Nsp::ConnectConfirm(message) => (message.srcaddr, message.dstaddr),
            Nsp::DisconnectInitiate(message) => (message.srcaddr, message.dstaddr),
            Nsp::ConnectInitiate(message) if is_anew == Some(true) => {
                return self.give_up(message.srcaddr);
            }
            _ => return None,
        };
        let _ = self.called.get(&far)?;
        self.give_up(own)
    }

    /// The same, where the packet in this unit is kept next, which answers it.
    pub(crate) fn given_up_by_answer(&mut self, unit: &[u8]) -> Option<u16> {
        match message_of(unit)? {
            Nsp::ConnectConfirm(message) => self.give_up(message.dstaddr),
            _ => None,
        }
    }

    // The call from this address is over, if it is one that its user gives up.
    fn give_up(&mut self, own: u16) -> Option<u16> {
        let link = self.link(own)?;
        if !link.is_given_up || link.is_over || link.phase != Phase::Calling {
            return None;
        }
        self.links.remove(&own);
        Some(own)
    }

    /// The user answers this call now, if there is one.
    pub(crate) fn answered(&mut self, answer: Answer) -> Result<Option<UserAct>, AllocError> {
        let Answer {
            partner,
            link,
            accepts,
        } = answer;
        if accepts {
            return self.confirms(link, partner);
        }
        if !self.answers(link, partner, Phase::Disconnecting)? {
            return Ok(None);
        }
        Ok(Some(UserAct::Reject { partner, link }))
    }

    /// What the user did before this unit was first sent, if its packet tells it, where this is assumed of it. `AllocError` where there is no memory
    /// for another link.
    pub(crate) fn before(
        &mut self,
        unit: &[u8],
        taken: Taken,
    ) -> Result<Option<UserAct>, AllocError> {
        match message_of(unit) {
            Some(Nsp::ConnectInitiate(message)) => {
                self.calls(message.srcaddr, message.retransmitted, taken)
            }
            Some(Nsp::ConnectConfirm(_)) if taken.is_anew == Some(false) => Ok(None),
            Some(Nsp::ConnectConfirm(message)) => self.confirms(message.srcaddr, message.dstaddr),
            Some(Nsp::DisconnectInitiate(message)) => {
                if taken.is_anew == Some(true) {
                    return self.rejects(message.srcaddr, message.dstaddr);
                }
                self.disconnects(message.srcaddr, message.dstaddr)
            }
            Some(Nsp::DisconnectConfirm(message)) => {
                self.answers_end(message.srcaddr, message.dstaddr);
                Ok(None)
            }
            Some(Nsp::DataSegment(segment)) => Ok(self.gives(
                segment.srcaddr,
                segment.dstaddr,
                segment.number,
                segment.ends,
            )),
            Some(Nsp::DataAck(message)) => {
                self.says(message.srcaddr, message.dstaddr, Sent::OfRun);
                Ok(None)
            }
            Some(Nsp::LinkService(message)) => {
                self.says(message.srcaddr, message.dstaddr, Sent::OfRun);
                Ok(None)
            }
            Some(Nsp::OtherDataAck(message)) => {
                self.says(message.srcaddr, message.dstaddr, Sent::OfRun);
                Ok(None)
            }
            _ => Ok(None),
        }
    }

    /// The packet in this unit was kept. `AllocError` where there is no memory for another link.
    pub(crate) fn keep(&mut self, unit: &[u8]) -> Result<(), AllocError> {
        match message_of(unit) {
            Some(Nsp::ConnectInitiate(message)) => self.is_called(message.srcaddr),
            Some(Nsp::ConnectConfirm(message)) => {
                self.is_confirmed(message.dstaddr, message.srcaddr)
            }
            Some(Nsp::DisconnectInitiate(message)) => {
                self.end(message.dstaddr, message.srcaddr);
                Ok(())
            }
            Some(Nsp::DisconnectConfirm(message)) => {
                self.end(message.dstaddr, message.srcaddr);
                Ok(())
            }
            Some(Nsp::DataSegment(message)) => {
                self.run(message.dstaddr, message.srcaddr);
                Ok(())
            }
            Some(Nsp::DataAck(message)) => {
                self.run(message.dstaddr, message.srcaddr);
                Ok(())
            }
            Some(Nsp::LinkService(message)) => {
                self.run(message.dstaddr, message.srcaddr);
                Ok(())
            }
            Some(Nsp::OtherDataAck(message)) => {
                self.run(message.dstaddr, message.srcaddr);
                Ok(())
            }
            _ => Ok(()),
        }
    }

    // ---- what is sent

    // A call goes again where the link was opened here and has sent nothing else; where what came ended it meanwhile, its own mark tells, or what
    // is assumed. No link has the own address 0, so what names one is nobody's act.
    fn calls(
        &mut self,
        own: u16,
        again: bool,
        taken: Taken,
    ) -> Result<Option<UserAct>, AllocError> {
        if own == 0 {
            return Ok(None);
        }
        if let Some(link) = self.link(own) {
            let may_repeat = link.is_opened && link.sent == Sent::Nothing;
            let repeats = match taken.is_anew {
                Some(is_anew) => !is_anew,
                None => again,
            };
            if !link.is_over || (may_repeat && repeats) {
                return Ok(None);
            }
        }
        self.put(own, 0, Phase::Calling)?;
        if let Some(link) = self.links.get_mut(&own) {
            link.is_opened = true;
            link.is_given_up = taken.is_given_up;
        }
        Ok(Some(UserAct::Open { link: own }))
    }

    fn confirms(&mut self, own: u16, far: u16) -> Result<Option<UserAct>, AllocError> {
        if !self.answers(own, far, Phase::Confirming)? {
            return Ok(None);
        }
        Ok(Some(UserAct::Accept {
            partner: far,
            link: own,
        }))
    }

    // The link that a CI from this far address began is answered, if there is one.
    fn answers(&mut self, own: u16, far: u16, phase: Phase) -> Result<bool, AllocError> {
        if own == 0 || !self.called.remove(&far) {
            return Ok(false);
        }
        self.put(own, far, phase)?;
        self.reach(far, own)?;
        Ok(true)
    }

    fn disconnects(&mut self, own: u16, far: u16) -> Result<Option<UserAct>, AllocError> {
        if let Some(link) = self.links.get_mut(&own) {
            if link.far == far {
                link.sent = Sent::Disconnect;
                match link.phase {
                    Phase::Confirming | Phase::Running => {
                        link.phase = Phase::Disconnecting;
                        return Ok(Some(UserAct::Close { link: own }));
                    }
                    Phase::Calling | Phase::Disconnecting => return Ok(None),
                }
            }
        }
        self.rejects(own, far)
    }

    fn rejects(&mut self, own: u16, far: u16) -> Result<Option<UserAct>, AllocError> {
        if !self.answers(own, far, Phase::Disconnecting)? {
            return Ok(None);
        }
        self.says(own, far, Sent::Disconnect);
        Ok(Some(UserAct::Reject {
            partner: far,
            link: own,
        }))
    }

    // A DC is sent: what came for the link with its address was acted on, so nothing of one that is over is sent any more. One of no link answers a
    // call.
    fn answers_end(&mut self, own: u16, far: u16) {
        if own == 0 {
            self.called.remove(&far);
            return;
        }
        let Some(link) = self.link(own) else {
            return;
        };
        if link.is_over {
            self.links.remove(&own);
            return;
        }
        match link.phase {
            Phase::Running => self.says(own, link.far, Sent::OfRun),
            Phase::Disconnecting => self.says(own, link.far, Sent::Disconnect),
            Phase::Calling | Phase::Confirming => {}
        }
    }

    fn gives(&mut self, own: u16, far: u16, number: u16, ends: bool) -> Option<UserAct> {
        self.says(own, far, Sent::OfRun);
        let link = self.links.get_mut(&own)?;
        if link.far != far || number != next_number(link.given) {
            return None;
        }
        let begins = !link.in_message;
        link.given = number;
        link.in_message = !ends;
        if !begins {
            return None;
        }
        Some(UserAct::HandIn {
            link: own,
            far,
            number,
        })
    }

    // A message of this kind was sent on the link with these addresses.
    fn says(&mut self, own: u16, far: u16, sent: Sent) {
        if let Some(link) = self.links.get_mut(&own) {
            if link.far == far {
                link.sent = link.sent.max(sent);
            }
        }
    }

    // ---- what came

    fn is_called(&mut self, far: u16) -> Result<(), AllocError> {
        if far == 0 || self.reached.get(&far).is_some() {
            return Ok(());
        }
        match self.called.insert(far) {
            Ok(_) => Ok(()),
            Err(_) => Err(AllocError),
        }
    }

    fn is_confirmed(&mut self, own: u16, far: u16) -> Result<(), AllocError> {
        match self.links.get_mut(&own) {
            Some(link) if link.phase == Phase::Calling && !link.is_over => {
                link.far = far;
                link.phase = Phase::Running;
            }
            _ => return Ok(()),
        }
        self.reach(far, own)
    }

    fn run(&mut self, own: u16, far: u16) {
        if let Some(link) = self.links.get_mut(&own) {
            if link.far == far && !link.is_over {
                if let Phase::Confirming = link.phase {
                    link.phase = Phase::Running;
                }
            }
        }
    }

    // The link with both addresses is over, or the one with the own address that calls. One that is called and not answered has no own address, so
    // what came names none (NSP 4.0, disconnection).
    fn end(&mut self, own: u16, far: u16) {
        let far_of_it = match self.links.get_mut(&own) {
            Some(link) if !link.is_over && (link.phase == Phase::Calling || link.far == far) => {
                link.is_over = true;
                link.far
            }
            _ => return,
        };
        if self.reached.get(&far_of_it).copied() == Some(own) {
            self.reached.remove(&far_of_it);
        }
    }

    // ---- by addresses

    fn link(&self, own: u16) -> Option<UserLink> {
        self.links.get(&own).copied()
    }

    // A link of which nothing was sent has this own address.
    fn put(&mut self, own: u16, far: u16, phase: Phase) -> Result<(), AllocError> {
        let link = UserLink {
            far,
            phase,
            is_opened: false,
            is_given_up: false,
            is_over: false,
            sent: Sent::Nothing,
            given: 0,
            in_message: false,
        };
        match self.links.insert(own, link) {
            Ok(_) => Ok(()),
            Err(_) => Err(AllocError),
        }
    }

    fn reach(&mut self, far: u16, own: u16) -> Result<(), AllocError> {
        match self.reached.insert(far, own) {
            Ok(_) => Ok(()),
            Err(_) => Err(AllocError),
        }
    }
}
