//! What becomes of links where a packet is kept.

use crate::event::{Said, What};
use crate::link::{Called, Link, Phase, Tag, is_after};
use crate::point::{Choice, Kind};
use crate::seeker::{Here, Seeker};
use std::alloc::AllocError;

impl Seeker<'_> {
    /// The side keeps this, which was sent with this tag; whether it belongs to the link that acts on it.
    pub(crate) fn receives(
        &mut self,
        here: Here,
        said: Said,
        tag: Tag,
    ) -> Result<bool, AllocError> {
        match said.what {
            What::Call { again: _ } => self.is_called(here, said, tag),
            What::ConnectAck => Ok(true),
            What::Confirm => self.is_confirmed(here, said, tag),
            What::Disconnect | What::Confirmed => self.ends(here, said),
            What::Segment | What::OfRun => self.runs(here, said, tag),
        }
    }

    // A CI: where a live link has its address it is a repeat.
    fn is_called(&mut self, here: Here, said: Said, tag: Tag) -> Result<bool, AllocError> {
        let far = said.from;
        if far == 0 || self.book.called(here.side, far).is_some() {
            return Ok(true);
        }
        if self.book.reached(here.side, far).is_some() {
            return Ok(true);
        }
        let called = Called {
            tag: Tag {
                link: here.number.saturating_add(1),
                partner: tag.link,
            },
            size: said.size,
        };
        self.book.call(here.side, far, Some(called))?;
        match self.pass_point(here, 0, far, Kind::Called)? {
            Some(Choice::Answers { link, accepts }) => {
                self.is_answered(here, link, far, called, accepts)
            }
            _ => Ok(true),
        }
    }

    // The call is answered at once, where no live link has the address.
    fn is_answered(
        &mut self,
        here: Here,
        own: u16,
        far: u16,
        called: Called,
        accepts: bool,
    ) -> Result<bool, AllocError> {
        if let Some(link) = self.book.link(here.side, own) {
            if !link.is_over {
                return Ok(true);
            }
        }
        let phase = match accepts {
            true => Phase::Confirming,
            false => Phase::Disconnecting,
        };
        let _ = self.answer(here, own, far, called, phase)?;
        Ok(true)
    }

    // A CC: for the link that calls.
    fn is_confirmed(&mut self, here: Here, said: Said, tag: Tag) -> Result<bool, AllocError> {
        let own = said.to;
        let Some(link) = self.book.link(here.side, own) else {
            return Ok(true);
        };
        if !link.is_calling() {
            return Ok(true);
        }
        let kind = Kind::GivesUp { call: link.call };
        if self.pass_point(here, own, said.from, kind)?
            == Some(Choice::GivesUp { call: link.call })
        {
            self.book.put(here.side, own, None)?;
            return Ok(true);
        }
        if tag.partner != link.tag.link {
            return Ok(false);
        }
        let confirmed = Link {
            tag: Tag {
                partner: tag.link,
                ..link.tag
            },
            far: said.from,
            phase: Phase::Running,
            has_run: true,
            size: said.size,
            ..link
        };
        self.book.put(here.side, own, Some(confirmed))?;
        self.book.reach(here.side, said.from, Some(own))?;
        Ok(true)
    }

    // A DI or DC: the link with both addresses, or the one that calls.
    fn ends(&mut self, here: Here, said: Said) -> Result<bool, AllocError> {
        let own = said.to;
        let Some(link) = self.book.link(here.side, own) else {
            return Ok(true);
        };
        if link.is_over || (link.phase != Phase::Calling && link.far != said.from) {
            return Ok(true);
        }
        let over = Link {
            is_over: true,
            ..link
        };
        self.book.put(here.side, own, Some(over))?;
        if self.book.reached(here.side, link.far) == Some(own) {
            self.book.reach(here.side, link.far, None)?;
        }
        Ok(true)
    }

    // A message of RUN: the link with both addresses, of this pair.
    fn runs(&mut self, here: Here, said: Said, tag: Tag) -> Result<bool, AllocError> {
        let own = said.to;
        let Some(link) = self.book.link(here.side, own) else {
            return Ok(true);
        };
        if link.is_over || link.far != said.from {
            return Ok(true);
        }
        match link.phase {
            Phase::Confirming | Phase::Running => {}
            Phase::Calling | Phase::Disconnecting => return Ok(true),
        }
        if tag.link != link.tag.partner || tag.partner != link.tag.link {
            return Ok(false);
        }
        let received = match said.what == What::Segment && is_after(said.number, link.received) {
            true => said.number,
            false => link.received,
        };
        let run = Link {
            phase: Phase::Running,
            has_run: true,
            received,
            ..link
        };
        self.book.put(here.side, own, Some(run))?;
        Ok(true)
    }
}
