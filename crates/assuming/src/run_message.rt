//! What a node may send on a link that runs.

use crate::event::Said;
use crate::link::{Link, Sent, is_after};
use crate::seeker::{Here, Seeker};
use capture_record::MAX_MESSAGE;
use std::alloc::AllocError;
use wire_base::Side;

impl Seeker<'_> {
    /// A message of RUN that is no data segment.
    pub(crate) fn sends_of_run(
        &mut self,
        here: Here,
        said: Said,
        link: Option<Link>,
    ) -> Result<bool, AllocError> {
        match running(said, link) {
            Some(link) => self.sent_on(here, said.from, link.ran()),
            None => Ok(false),
        }
    }

    /// A data segment.
    pub(crate) fn sends_segment(
        &mut self,
        here: Here,
        said: Said,
        link: Option<Link>,
    ) -> Result<bool, AllocError> {
        let Some(link) = running(said, link) else {
            return Ok(false);
        };
        if said.number != link.given.wrapping_add(1) % 4096 {
            let is_repeat = !is_after(said.number, link.given);
            if !is_repeat {
                return Ok(false);
            }
            return self.sent_on(here, said.from, link.ran());
        }
        if said.size > link.size {
            return Ok(false);
        }
        let length = link.length.saturating_add(said.size);
        if length > MAX_MESSAGE as u64 && self.too_long.is_none() {
            self.too_long = self.spot_of(here);
        }
        let link = Link {
            given: said.number,
            length: if said.ends { 0 } else { length },
            ..link.ran()
        };
        self.sent_on(here, said.from, link)
    }

    fn spot_of(&self, here: Here) -> Option<(Side, u64)> {
        let event = self.log.side(here.side).event(here.at)?;
        Some((here.side, event.spot))
    }
}

// The link of a message of RUN, if it may be sent: what it acknowledges was received.
fn running(said: Said, link: Option<Link>) -> Option<Link> {
    let link = link?;
    if link.far != said.to || !link.has_run || link.sent == Sent::Disconnect {
        return None;
    }
    match said.ack {
        Some(ack) if is_after(ack, link.received) => None,
        _ => Some(link),
    }
}
