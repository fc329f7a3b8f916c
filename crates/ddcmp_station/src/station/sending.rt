//! What a station's node may send, and what sending changes.

ghost use Rattle.std.specs.Prelude.{◌≡◌, ◌<◌, ◌≤◌, None, Some, true, false, length, option_map, IfOk, OnOk, OnErr, IfErr};
ghost use Rattle.ddcmp_msg.specs.Message.{view};
ghost use Rattle.dna_station.specs.Table.{WINDOW};
ghost use Rattle.dna_station.specs.WireStation.{load};
ghost use Rattle.dna_station.specs.WireBook.{wire_is_new, sends_packet, wire_sending_refusal, wire_after_sending};
ghost use Rattle.dna_station.specs.WireBook.{gives_new};
ghost use Rattle.ddcmp_station.specs.Failed.{failed_sending};
ghost use Rattle.ddcmp_station.specs.Told.{refusal_of_sending, told};
ghost use Rattle.ddcmp_station.specs.Permit.{is_first, send_permit};
ghost use Rattle.ddcmp_station.specs.Sent.{sent_as};

use super::{HeldPacket, Station};
use crate::{SendPermit, SendingCheck, SentAs};
use ddcmp_msg::Message;
use dna_station::Tag;
use std::alloc::AllocError;
use wire_base::{Copied, Window};

impl<T: Copy, W: Window<HeldPacket<T>, 256>> Station<T, W> {
    /// Whether its node may send this message now (DDCMP 4.1, startup state table, data transfer). Nothing changes, and no memory is taken. The
    /// answer is a permit for [`Station::send`], or else the first check that the message does not pass, by its name
    /// ([`Station::tell_sending`] tells more).
    ///
    /// What is tested, in this order; where the table has nothing, and in HALTED, the message may not be sent:
    ///
    /// ```text
    ///          ISTRT      ASTRT      RUNNING
    ///  STRT    may go
    ///  STACK              may go
    ///  ACK                           RESP
    ///  NAK                           RESP; an open cause of its reason
    ///  REP                           that a packet is not acknowledged; NUM
    ///  data                          NUM; RESP; of a new packet room in the window, of another one its bytes
    /// ```
    #[tactic(auto, using(crate::proofs::Failing::told_same))]
    #[inline(always)]
    pub fn ask_to_send(&self, message: &Message) -> Result<SendPermit, SendingCheck>
        ensures allowed { OnOk result (wire_sending_refusal self.now (view message.now) ≡ None) }
        ensures permit { IfOk result (λ permit. permit ≡ send_permit self.now (view message.now)) }
        ensures first { IfOk result (λ permit. gives_new self.now (view message.now) ≡ is_first permit) }
        ensures passes { OnOk result (failed_sending self.now (view message.now) ≡ None) }
        ensures named { IfErr result (λ check. failed_sending self.now (view message.now) ≡ Some (told self.now (view message.now) check)) }
        ensures refused { IfErr result (λ check. wire_sending_refusal self.now (view message.now) ≡ Some (refusal_of_sending check)) }
    {
        match self.failing(message) {
            Some(check) => Err(check),
            None => Ok(self.permit(message)),
        }
    }

    // What a message is sent as, where it may be.
    #[inline(always)]
    fn permit(&self, message: &Message) -> SendPermit
        ensures permit { result ≡ send_permit self.now (view message.now) }
        ensures first { gives_new self.now (view message.now) ≡ is_first result }
    {
        match message {
            Message::Data { .. } => {
                if self.variables.is_new() {
                    return SendPermit::FirstSending;
                }
                SendPermit::Repeat
            }
            _ => SendPermit::Control,
        }
    }

    /// Its node sent this message, for which it gave the permit. The answer has the tag that the unit goes with; whether the message gave a new
    /// number, beside which a label may now be put; and of a packet that is sent again its label, if it has one. A first sending takes memory
    /// for a copy of its packet, and no other message takes any. `AllocError`: that was refused, and the station is as it was.
    #[tactic(auto, using(crate::proofs::Sendable::sendable))]
    #[inline(always)]
    pub fn send(&mut self, message: &Message, permit: SendPermit) -> Result<SentAs<T>, AllocError>
        requires allowed { wire_sending_refusal self.old (view message.now) ≡ None }
        requires permit { permit ≡ send_permit self.old (view message.now) }
        ensures ok { OnOk result (self.new ≡ wire_after_sending self.old (view message.now)) }
        ensures answer { IfOk result (λ sent. sent ≡ sent_as self.old (view message.now)) }
        ensures outstanding { IfOk result (λ sent. sent.first ≡ true → 0 < length self.new.variables.held) }
        ensures memory { OnErr result (permit ≡ SendPermit.FirstSending) }
        ensures err { OnErr result (self.new ≡ self.old) }
        ensures load { load self.new ≤ load self.old }
    {
        let sent = self.sent_as(message);
        match message {
            Message::Data { body, .. } => {
                if let SendPermit::Repeat = permit {
                    self.variables.send_again();
                    return Ok(sent);
                }
                if let Err(AllocError) = self.give(body) {
                    return Err(AllocError);
                }
                Ok(sent)
            }
            Message::Nak { reason, .. } => {
                self.causes.use_up(*reason);
                Ok(sent)
            }
            _ => Ok(sent),
        }
    }

    // What a message that may be sent is sent as.
    #[inline(always)]
    fn sent_as(&self, message: &Message) -> SentAs<T>
        ensures { result ≡ sent_as self.now (view message.now) }
    {
        let tag = Tag {
            period: self.period,
            partner: self.partner,
        };
        match message {
            Message::Data { .. } => SentAs {
                tag,
                first: self.variables.is_new(),
                label: self.variables.label_to_send(),
            },
            _ => SentAs {
                tag,
                first: false,
                label: None,
            },
        }
    }

    // A packet of these bytes gets the next number. Where memory for it is refused, nothing changes.
    #[inline(never)]
    fn give(&mut self, body: &[u8]) -> Result<(), AllocError>
        requires new { wire_is_new self.old.variables ≡ true }
        requires room { length self.old.variables.held < WINDOW }
        ensures ok { OnOk result (self.new ≡ record self.old { variables = sends_packet self.old.variables body.now }) }
        ensures err { OnErr result (self.new ≡ self.old) }
    {
        let copy = Copied::of(self.alloc, body)?;
        self.variables.send_new(HeldPacket::new(copy))?;
        Ok(())
    }
}
