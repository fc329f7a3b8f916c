//! What the records of one side tell of its links.

use crate::calls::Calls;
use crate::layers::{message_in, message_in_unit};
use crate::lines::Lines;
use capture_record::{Entry, Fate};
use ddcmp_msg::{Message, Reading, read_unit};
use dna_packet::{Nsp, read_nsp};
use std::alloc::{AllocError, Global};
use std::collections::BTreeMap;

// The last link that got an own address.
#[derive(Clone, Copy)]
struct Past {
    far: Option<u16>,
    since: u64,
    ended: Option<u64>,
}

/// The links of a side by their own addresses, the line of the record that it makes next, and that in which its node was last started anew.
#[derive(Drop)]
pub struct SidePast {
    line: u64,
    // Whether its line was started or halted.
    has_begun: bool,
    boot: Option<u64>,
    // The number of its last new data message.
    given: u8,
    // In which line the first STRT came since it sent a unit, started, or got a message by which it may have got into RUNNING.
    halted: Option<u64>,
    links: BTreeMap<u16, Past>,
    calls: Calls,
}

impl SidePast {
    /// Before any record.
    pub fn new(alloc: Global) -> SidePast {
        SidePast {
            line: 2,
            has_begun: false,
            boot: None,
            given: 0,
            halted: None,
            links: BTreeMap::new(alloc),
            calls: Calls::new(alloc),
        }
    }

    /// It made the record of this entry and these bytes, its next one. `AllocError`: there is no memory for an address.
    pub fn made(&mut self, entry: Entry, bytes: &[u8]) -> Result<(), AllocError> {
        let line = self.line;
        self.line = line.saturating_add(1);
        match entry {
            Entry::Open { link } => self.begin(link, None, line),
            Entry::Accept { partner, link } | Entry::Reject { partner, link } => {
                self.calls.connected(partner, link, true)?;
                self.begin(link, Some(partner), line)
            }
            Entry::Received { fate, hint: _ } => self.received(fate, bytes, line),
            Entry::Sent => {
                self.halted = None;
                self.sent(bytes);
                Ok(())
            }
            Entry::Composed => {
                self.composed(bytes);
                Ok(())
            }
            Entry::Start | Entry::Halt => {
                self.has_begun = true;
                self.halted = None;
                self.given = 0;
                Ok(())
            }
            Entry::Boot => {
                self.has_begun = true;
                self.halted = None;
                self.boot = Some(line);
                self.calls.boot();
                Ok(())
            }
            Entry::Abort { link } => {
                self.give_up(link, line);
                Ok(())
            }
            _ => Ok(()),
        }
    }

    /// Whether its line was started or halted.
    pub fn has_begun(&self) -> bool {
        self.has_begun
    }

    /// Whether a call from this address may go on that its user has not answered.
    pub fn may_go_on(&self, far: u16) -> bool {
        self.calls.may_go_on(far)
    }

    /// The lines of the last link that got this own address, unless it is named with another far one; that of the STRT which halted the station,
    /// if it is halted; and whether the last link that got the far address as its own lives, and has this own one as its far one.
    pub fn lines(&self, own: Option<u16>, far: Option<u16>) -> Lines {
        let of_link = match self.past(own) {
            Some(past) => past.lines(far),
            None => Lines::none(),
        };
        Lines {
            halted: self.halted,
            exchanged: self.is_exchanged(own, far),
            ..of_link
        }
    }

    fn is_exchanged(&self, own: Option<u16>, far: Option<u16>) -> bool {
        match self.past(far) {
            Some(past) => past.ended.is_none() && past.far.is_some() && past.far == own,
            None => false,
        }
    }

    // A unit came. Of a STRT it is not told here whether it halts the station.
    fn received(&mut self, fate: Fate, bytes: &[u8], line: u64) -> Result<(), AllocError> {
        if let Fate::Kept = fate {
            return match message_in_unit(bytes) {
                Some(message) => self.arrived(message, line),
                None => Ok(()),
            };
        }
        match read_unit(bytes) {
            Reading::Sound(Message::Strt { .. }) => {
                if self.halted.is_none() {
                    self.halted = Some(line);
                }
            }
            Reading::Sound(Message::Stack { .. }) | Reading::Sound(Message::Ack { .. }) => {
                self.halted = None;
            }
            _ => {}
        }
        Ok(())
    }

    // A link got this address.
    fn begin(&mut self, own: u16, far: Option<u16>, line: u64) -> Result<(), AllocError> {
        let past = Past {
            far,
            since: line,
            ended: None,
        };
        match self.links.insert(own, past) {
            Ok(_) => Ok(()),
            Err(_) => Err(AllocError),
        }
    }

    // A unit was sent. A packet counts when it is sent first.
    fn sent(&mut self, bytes: &[u8]) {
        if let Reading::Sound(Message::Data { num, body, .. }) = read_unit(bytes) {
            if num == self.given.wrapping_add(1) {
                self.given = num;
                self.composed(body);
            }
        }
    }

    // A packet was composed here. A DC from address 0 answers a call.
    fn composed(&mut self, packet: &[u8]) {
        let Some(message) = message_in(packet) else {
            return;
        };
        if let Ok(Nsp::DisconnectConfirm(message)) = &read_nsp(message) {
            if message.srcaddr == 0 {
                self.calls.refused(message.dstaddr);
            }
        }
    }

    // A message of the other side was kept.
    fn arrived(&mut self, message: &[u8], line: u64) -> Result<(), AllocError> {
        match &read_nsp(message) {
            Ok(Nsp::ConnectInitiate(message)) => self.called(message.srcaddr),
            Ok(Nsp::ConnectConfirm(message)) => self.connect(message.dstaddr, message.srcaddr),
            Ok(Nsp::DisconnectInitiate(message)) => {
                self.end(message.dstaddr, message.srcaddr, line);
                Ok(())
            }
            Ok(Nsp::DisconnectConfirm(message)) => {
                self.end(message.dstaddr, message.srcaddr, line);
                Ok(())
            }
            _ => Ok(()),
        }
    }

    // A CI came from this address. Where a link to there lives that has an own address, it is a repeat of one that was answered.
    fn called(&mut self, far: u16) -> Result<(), AllocError> {
        if let Some(past) = self.past(self.calls.own_of(far)) {
            if past.ended.is_none() && past.far == Some(far) {
                return Ok(());
            }
        }
        self.calls.came(far)
    }

    // The other end of a link that was opened here is known.
    fn connect(&mut self, own: u16, far: u16) -> Result<(), AllocError> {
        let boot = self.boot;
        if let Some(past) = self.links.get_mut(&own) {
            if past.end_after(boot).is_none() && past.far.is_none() {
                past.far = Some(far);
                return self.calls.connected(far, own, false);
            }
        }
        Ok(())
    }

    // The other side ended the link between these addresses, if it lives.
    fn end(&mut self, own: u16, far: u16, line: u64) {
        let boot = self.boot;
        if let Some(past) = self.links.get_mut(&own) {
            if past.end_after(boot).is_none() && past.is_to(far) {
                past.ended = Some(line);
            }
        }
    }

    // A call was given up here.
    fn give_up(&mut self, own: u16, line: u64) {
        if let Some(past) = self.links.get_mut(&own) {
            past.ended = Some(line);
        }
    }

    // The last link that got this own address.
    fn past(&self, own: Option<u16>) -> Option<Past> {
        let past = self.links.get(&own?).copied()?;
        Some(Past {
            ended: past.end_after(self.boot),
            ..past
        })
    }
}

impl Past {
    // In which line it ended: of its own, or since its node was started anew in this line after it began.
    fn end_after(self, boot: Option<u64>) -> Option<u64> {
        match (self.ended, boot) {
            (None, Some(line)) if line > self.since => Some(line),
            (ended, _) => ended,
        }
    }

    // Since when it lives; or, unless another far address than its own is named, where it ended.
    fn lines(&self, far: Option<u16>) -> Lines {
        let Some(line) = self.ended else {
            return Lines {
                since: Some(self.since),
                ..Lines::none()
            };
        };
        let is_named = match far {
            Some(far) => self.is_to(far),
            None => true,
        };
        Lines {
            ended: match is_named {
                true => Some(line),
                false => None,
            },
            ..Lines::none()
        }
    }

    // Whether its far address is this one, or not known.
    fn is_to(&self, far: u16) -> bool {
        match self.far {
            Some(known) => known == far,
            None => true,
        }
    }
}
