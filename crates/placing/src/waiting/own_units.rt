//! The units of a side, and what its user did before them.

ghost use Rattle.std.specs.Prelude.{◌≡◌, ◌≤◌, ◌-◌, length, IfOk, OnOk};
ghost use Rattle.placing.specs.Placed.{Puts};

use super::Waiting;
use crate::carried::{message_of, next_number};
use crate::numbering::Numbering;
use crate::said::Said;
use crate::user_link::{Taken, UserAct};
use capture_record::{Entry, MAX_MESSAGE};
use ddcmp_msg::{Flags, Message, NakReason, write_unit};
use dna_packet::Nsp;
use std::alloc::{AllocError, Global};

// A byte that a station reads as a damaged header.
const BAD_HEADER: [u8; 1] = [0];

// How many bytes of a data message its header has, with the check.
const HEADER_LEN: usize = 8;

impl Waiting {
    /// Puts the line of the next unit of the side, after what comes before it. `AllocError` where there is no memory for them.
    #[tactic(auto, using(crate::proofs::Puts::puts_then))]
    pub(super) fn put_own(&mut self, is_new: bool) -> Result<(), AllocError>
        ensures puts { OnOk result (Puts self.old self.new) }
        ensures fewer { OnOk result (length self.new.units.own ≤ length self.old.units.own - 1) }
    {
        self.put_before(is_new)?;
        self.put_unit()
    }

    #[tactic(auto, using(crate::proofs::Puts::puts_nothing))]
    fn put_unit(&mut self) -> Result<(), AllocError>
        ensures puts { OnOk result (Puts self.old self.new) }
        ensures fewer { OnOk result (length self.new.units.own ≡ length self.old.units.own - 1) }
    {
        match self.take_own() {
            Some(unit) => self.line(Entry::Sent, unit.as_slice()),
            None => Ok(()),
        }
    }

    // What comes before the next unit: what the user did with a link; or noise, where it is a NAK that tells of damage.
    #[tactic(auto, using(crate::proofs::Puts::puts_then))]
    fn put_before(&mut self, is_new: bool) -> Result<(), AllocError>
        ensures puts { OnOk result (Puts self.old self.new) }
        ensures same { self.new.units ≡ self.old.units }
    {
        if is_new {
            self.put_abort_before()?;
            return self.put_act();
        }
        match self.next_damage() {
            Some(NakReason::HeaderCheck) => self.put_aside(Entry::Noise, &BAD_HEADER),
            Some(NakReason::DataCheck) => {
                let noise = damaged_data(self.alloc)?;
                self.put_aside(Entry::Noise, noise.as_slice())
            }
            _ => self.put_nothing(),
        }
    }

    // The reason of the next unit of the side, if it is a NAK.
    fn next_damage(&self) -> Option<NakReason> {
        let unit = self.own.front()?;
        match Said::of(unit.as_slice()) {
            Said::Nak { reason, resp: _ } => Some(reason),
            _ => None,
        }
    }

    // A call that was given up before the next unit, which gives its address to another link.
    fn put_abort_before(&mut self) -> Result<(), AllocError>
        ensures puts { OnOk result (Puts self.old self.new) }
        ensures same { self.new.units ≡ self.old.units }
    {
        match self.given_up_address() {
            Some(link) => self.put_aside(Entry::Abort { link }, &[]),
            None => self.put_nothing(),
        }
    }

    fn given_up_address(&mut self) -> Option<u16>
        ensures { self.new ≡ self.old }
    {
        let (Some(unit), Some(links)) = (self.own.front(), &mut self.links) else {
            return None;
        };
        links.given_up_before(unit.as_slice(), self.turned.is_anew(self.taken))
    }

    // What the user did with a link before the next unit.
    fn put_act(&mut self) -> Result<(), AllocError>
        ensures puts { OnOk result (Puts self.old self.new) }
        ensures same { self.new.units ≡ self.old.units }
    {
        let act = self.next_act()?;
        self.put_user_act(act)
    }

    /// Puts the line of what the user did with a link. `AllocError` as there.
    pub(super) fn put_user_act(&mut self, act: Option<UserAct>) -> Result<(), AllocError>
        ensures puts { OnOk result (Puts self.old self.new) }
        ensures same { self.new.units ≡ self.old.units }
    {
        match act {
            Some(UserAct::Open { link }) => self.put_aside(Entry::Open { link }, &[]),
            Some(UserAct::Accept { partner, link }) => {
                self.put_aside(Entry::Accept { partner, link }, &[])
            }
            Some(UserAct::Reject { partner, link }) => {
                self.put_aside(Entry::Reject { partner, link }, &[])
            }
            Some(UserAct::Close { link }) => self.put_aside(Entry::Close { link }, &[]),
            Some(UserAct::HandIn { link, far, number }) => {
                let message = self.message(link, far, number)?;
                self.put_message(link, message.as_slice())
            }
            None => self.put_nothing(),
        }
    }

    fn next_act(&mut self) -> Result<Option<UserAct>, AllocError>
        ensures { self.new ≡ self.old }
    {
        let (Some(unit), Some(links)) = (self.own.front(), &mut self.links) else {
            return Ok(None);
        };
        let taken = Taken {
            is_given_up: self.turned.gives_up(self.taken),
            is_anew: self.turned.is_anew(self.taken),
        };
        links.before(unit.as_slice(), taken)
    }

    // A message that is handed in. One that is too long has no line; the judge will say so.
    fn put_message(&mut self, link: u16, message: &[u8]) -> Result<(), AllocError>
        ensures puts { OnOk result (Puts self.old self.new) }
        ensures same { self.new.units ≡ self.old.units }
    {
        if message.len() > MAX_MESSAGE {
            return self.put_nothing();
        }
        self.put_aside(Entry::In { link }, message)
    }

    // The message whose segments begin with this number. Where its last one did not pass, one more byte stands for what is missing.
    fn message(&self, link: u16, far: u16, number: u16) -> Result<Vec<u8>, AllocError> {
        let mut message = Vec::new(self.alloc);
        let mut wanted = number;
        let mut numbering = self.numbering();
        for at in 0..self.own.len() {
            let Some(unit) = self.own.get(at) else {
                break;
            };
            if !numbering.is_new(Said::of(unit.as_slice())) {
                continue;
            }
            match message_of(unit.as_slice()) {
                Some(Nsp::DataSegment(segment)) => {
                    if segment.srcaddr == link
                        && segment.dstaddr == far
                        && segment.number == wanted
                    {
                        message.extend_from_slice(segment.body)?;
                        if segment.ends || message.len() > MAX_MESSAGE {
                            return Ok(message);
                        }
                        wanted = next_number(wanted);
                    }
                }
                Some(Nsp::DisconnectInitiate(end)) if end.srcaddr == link => break,
                Some(Nsp::ConnectInitiate(call)) if call.srcaddr == link => break,
                Some(Nsp::ConnectConfirm(answer)) if answer.srcaddr == link => break,
                _ => {}
            }
        }
        message.push(0)?;
        Ok(message)
    }

    // The numbers of the side's packets before its next unit, which gives one its number.
    fn numbering(&self) -> Numbering {
        match self.own.front() {
            Some(unit) => match Said::of(unit.as_slice()) {
                Said::Data { resp: _, num } => Numbering::before(num),
                _ => Numbering::new(),
            },
            None => Numbering::new(),
        }
    }
}

// Bytes that a station reads as a good header and damaged data: a data message that ends after its header. `AllocError` where there is no memory.
fn damaged_data(alloc: Global) -> Result<Vec<u8>, AllocError>
    ensures { IfOk result (λ noise. length noise.items ≤ 8) }
{
    let message = Message::Data {
        flags: Flags {
            quick_sync: false,
            select: false,
        },
        resp: 0,
        num: 1,
        body: &[0],
    };
    let mut noise = write_unit(alloc, &message)?;
    noise.truncate(HEADER_LEN);
    Ok(noise)
}
