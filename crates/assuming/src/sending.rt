//! What a node may send of its links.

use crate::event::{Said, What};
use crate::link::{Called, Link, Phase, Sent, Tag};
use crate::point::{Choice, Kind, key_of};
use crate::seeker::{Here, Seeker};
use std::alloc::AllocError;

impl Seeker<'_> {
    /// The side sends this, if its links may; whether they may.
    pub(crate) fn sends(&mut self, here: Here, said: Said) -> Result<bool, AllocError> {
        let link = match said.from {
            0 => None,
            own => self.book.link(here.side, own),
        };
        match said.what {
            What::Call { again } => self.sends_call(here, said, link, again),
            What::ConnectAck => self.sends_connect_ack(here, said.to),
            What::Confirm => self.sends_confirm(here, said, link),
            What::Disconnect => self.sends_disconnect(here, said, link),
            What::Confirmed => self.sends_confirmed(here, said, link),
            What::Segment => self.sends_segment(here, said, link),
            What::OfRun => self.sends_of_run(here, said, link),
        }
    }

    /// It was sent on this link, which is now as given.
    pub(crate) fn sent_on(&mut self, here: Here, own: u16, link: Link) -> Result<bool, AllocError> {
        self.tags.tell(here.side, here.at, link.tag);
        self.book.put(here.side, own, Some(link))?;
        Ok(true)
    }

    // ---- CI

    fn sends_call(
        &mut self,
        here: Here,
        said: Said,
        link: Option<Link>,
        again: bool,
    ) -> Result<bool, AllocError> {
        let own = said.from;
        if own == 0 {
            return Ok(false);
        }
        let Some(link) = link else {
            return self.opens(here, own);
        };
        if !link.is_opened || link.sent != Sent::Nothing {
            if !link.is_over {
                return Ok(false);
            }
            return self.opens(here, own);
        }
        if !link.is_over && link.phase != Phase::Calling {
            return self.sent_on(here, own, link);
        }
        self.calls_either(here, own, link, again)
    }

    // The call goes again, or another one begins at its address.
    fn calls_either(
        &mut self,
        here: Here,
        own: u16,
        link: Link,
        again: bool,
    ) -> Result<bool, AllocError> {
        let call = match link.is_over {
            true => None,
            false => Some(link.call),
        };
        let mut is_anew = link.is_over && !again;
        let key = key_of(here.number);
        if let Some(
            Choice::Anew {
                is_anew: chosen,
                given_up,
            },
        ) = self.choice(key)
        {
            if !chosen || given_up == call {
                is_anew = chosen;
            }
        }
        let _ = self.pass_point(here, own, link.far, Kind::Either { is_anew, call })?;
        match is_anew {
            true => self.opens(here, own),
            false => self.sent_on(here, own, link),
        }
    }

    fn opens(&mut self, here: Here, own: u16) -> Result<bool, AllocError> {
        let tag = Tag {
            link: here.number.saturating_add(1),
            partner: 0,
        };
        let link = Link {
            is_opened: true,
            ..Link::new(tag, 0, Phase::Calling, 0, here.unit)
        };
        self.sent_on(here, own, link)
    }

    // ---- what answers a call

    fn sends_connect_ack(&mut self, here: Here, far: u16) -> Result<bool, AllocError> {
        if let Some(called) = self.book.called(here.side, far) {
            self.tags.tell(here.side, here.at, called.tag);
            return Ok(true);
        }
        let Some(own) = self.book.answered(here.side, far) else {
            return Ok(false);
        };
        match self.book.link(here.side, own) {
            Some(link) => Ok(!link.is_opened && link.far == far),
            None => Ok(false),
        }
    }

    fn sends_confirm(
        &mut self,
        here: Here,
        said: Said,
        link: Option<Link>,
    ) -> Result<bool, AllocError> {
        let repeated = match link {
            Some(link) if link.far == said.to && link.is_accepted => match link.sent {
                Sent::Nothing => Some(link),
                _ => None,
            },
            _ => None,
        };
        match (self.book.called(here.side, said.to), repeated) {
            (Some(called), None) => self.answers(here, said, called, Phase::Confirming),
            (None, Some(link)) => self.sent_on(here, said.from, link),
            (Some(called), Some(link)) => {
                let is_anew = self.is_anew(here, said, true)?;
                match is_anew {
                    true => self.answers(here, said, called, Phase::Confirming),
                    false => self.sent_on(here, said.from, link),
                }
            }
            (None, None) => Ok(false),
        }
    }

    fn sends_disconnect(
        &mut self,
        here: Here,
        said: Said,
        link: Option<Link>,
    ) -> Result<bool, AllocError> {
        let of_link = match link {
            Some(link) if link.far == said.to && link.phase != Phase::Calling => Some(link),
            _ => None,
        };
        match (self.book.called(here.side, said.to), of_link) {
            (Some(called), None) => self.answers(here, said, called, Phase::Disconnecting),
            (None, Some(link)) => self.sent_on(here, said.from, link.disconnected()),
            (Some(called), Some(link)) => match self.is_anew(here, said, false)? {
                true => self.answers(here, said, called, Phase::Disconnecting),
                false => self.sent_on(here, said.from, link.disconnected()),
            },
            (None, None) => Ok(false),
        }
    }

    // Whether what may be either begins anew.
    fn is_anew(&mut self, here: Here, said: Said, first: bool) -> Result<bool, AllocError> {
        let is_anew = match self.choice(key_of(here.number)) {
            Some(Choice::Anew { is_anew, .. }) => is_anew,
            _ => first,
        };
        let kind = Kind::Either {
            is_anew,
            call: None,
        };
        let _ = self.pass_point(here, said.from, said.to, kind)?;
        Ok(is_anew)
    }

    // The user answers a call of this far address, and the answer is sent.
    fn answers(
        &mut self,
        here: Here,
        said: Said,
        called: Called,
        phase: Phase,
    ) -> Result<bool, AllocError> {
        let own = said.from;
        if own == 0 || !self.is_free(here, own, said.to)? {
            return Ok(false);
        }
        let link = self.answer(here, own, said.to, called, phase)?;
        let link = match phase {
            Phase::Disconnecting => link.disconnected(),
            _ => link,
        };
        self.sent_on(here, own, link)
    }

    // Whether no live link has this address, once a call that has it was given up if that is assumed.
    fn is_free(&mut self, here: Here, own: u16, far: u16) -> Result<bool, AllocError> {
        let Some(link) = self.book.link(here.side, own) else {
            return Ok(true);
        };
        if link.is_over {
            return Ok(true);
        }
        if !link.is_calling() {
            return Ok(false);
        }
        let kind = Kind::GivesUp { call: link.call };
        let choice = self.pass_point(here, own, far, kind)?;
        Ok(choice == Some(Choice::GivesUp { call: link.call }))
    }

    /// A call of this far address gets this link, which is in this phase.
    pub(crate) fn answer(
        &mut self,
        here: Here,
        own: u16,
        far: u16,
        called: Called,
        phase: Phase,
    ) -> Result<Link, AllocError> {
        let link = Link {
            is_accepted: phase == Phase::Confirming,
            ..Link::new(called.tag, far, phase, called.size, 0)
        };
        self.book.call(here.side, far, None)?;
        self.book.put(here.side, own, Some(link))?;
        self.book.reach(here.side, far, Some(own))?;
        self.book.answer(here.side, far, own)?;
        Ok(link)
    }

    // ---- DC

    fn sends_confirmed(
        &mut self,
        here: Here,
        said: Said,
        link: Option<Link>,
    ) -> Result<bool, AllocError> {
        if said.from == 0 {
            if let Some(called) = self.book.called(here.side, said.to) {
                self.tags.tell(here.side, here.at, called.tag);
                self.book.call(here.side, said.to, None)?;
            }
            return Ok(true);
        }
        let Some(link) = link else {
            return Ok(true);
        };
        if link.is_over {
            self.book.put(here.side, said.from, None)?;
            return Ok(true);
        }
        if link.far == said.to && link.phase != Phase::Calling {
            return Ok(false);
        }
        let settled = match link.phase {
            Phase::Running => link.ran(),
            Phase::Disconnecting => link.disconnected(),
            Phase::Calling | Phase::Confirming => link,
        };
        self.book.put(here.side, said.from, Some(settled))?;
        Ok(true)
    }
}
