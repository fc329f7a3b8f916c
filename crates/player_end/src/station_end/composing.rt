//! How the units of a station are put together, and what sending one leaves.

ghost use Rattle.std.specs.Prelude.{◌≡◌, ◌<◌, ◌≤◌, true, length, slice_get, IfSome, IfOk, OnOk, OnErr};
ghost use Rattle.std.specs.Option.{option_map};
ghost use Rattle.capture_record.specs.declared.limit.TheConstants.{MAX_MESSAGE};
ghost use Rattle.ddcmp_msg.specs.Message.{view, IsInRange};
ghost use Rattle.ddcmp_msg.specs.Spelling.{spelling};
ghost use Rattle.dna_station.specs.Table.{WINDOW, change_of};
ghost use Rattle.dna_station.specs.Book.{body_of};
ghost use Rattle.dna_station.specs.WireBook.{wire_is_new};
ghost use Rattle.dna_play.specs.Compose.{packet_again};
ghost use Rattle.dna_play.specs.Compose as composing;
ghost use Rattle.dna_play.specs.NextSent as next;
ghost use Rattle.dna_play.specs.StoredStation.{after_sent, variables_sent};
ghost use Rattle.player_end.specs.inner.Composing.{without_links};
ghost use Rattle.player_end.specs.inner.Owing.{choice_view, link_choice_view};

use super::{StationEnd, settle};
use crate::choice::{Choice, LinkChoice};
use crate::held_packet::{ComposedPacket, HeldPacket};
use ddcmp_msg::{Flags, Message, write_unit};
use station_variables::{PacketBytes, StationVariables};
use std::alloc::{AllocError, Global};
use wire_base::Window;

impl<W: Window<HeldPacket, 256> + Drop> StationEnd<W> {
    /// The unit of a choice, where it is not of a new packet.
    #[tactic(auto, using(crate::proofs::Lengths::lengths))]
    pub fn unit(&self, alloc: Global, choice: Choice) -> Result<Option<Vec<u8>>, AllocError>
        ensures unit { IfOk result (λ unit. option_map (λ bytes. bytes.items) unit
            ≡ option_map spelling (without_links (choice_view choice) self.now.variables)) }
        ensures short { IfOk result (λ unit. IfSome unit (λ bytes. length bytes.items ≤ MAX_MESSAGE)) }
    {
        match self.message(choice) {
            Some(message) => {
                let unit = write_unit(alloc, &message)?;
                Ok(Some(unit))
            }
            None => Ok(None),
        }
    }

    /// The unit of a new packet of these bytes, of which there are 1 to 16,383.
    #[tactic(auto, using(crate::proofs::Lengths::lengths))]
    pub fn unit_with(&self, alloc: Global, body: &[u8]) -> Result<Vec<u8>, AllocError>
        requires least { 1 ≤ length body.now }
        requires most { length body.now ≤ 16383 }
        ensures unit { IfOk result (λ unit. unit.items ≡ spelling (composing.data_with self.now.variables body.now)) }
        ensures short { IfOk result (λ unit. length unit.items ≤ MAX_MESSAGE) }
    {
        let message = self.data_with(body);
        write_unit(alloc, &message)
    }

    // The message of a choice, where it is not of a new packet.
    fn message(&self, choice: Choice) -> Option<Message<'_>>
        ensures message { option_map view result ≡ without_links (choice_view choice) self.now.variables }
        ensures fits { IfSome result (λ message. IsInRange (view message)) }
    {
        match choice {
            Choice::Strt => Some(Message::Strt {
                flags: Flags::from_byte(0xc0),
            }),
            Choice::Stack => Some(Message::Stack {
                flags: Flags::from_byte(0xc0),
            }),
            Choice::Nak(reason) => {
                Some(Message::Nak {
                    flags: Flags::from_byte(0),
                    reason,
                    resp: self.variables.received(),
                })
            }
            Choice::Rep => {
                Some(Message::Rep {
                    flags: Flags::from_byte(0),
                    num: self.variables.highest(),
                })
            }
            Choice::Ack => {
                Some(Message::Ack {
                    flags: Flags::from_byte(0),
                    resp: self.variables.received(),
                })
            }
            Choice::Again => self.message_again(),
            Choice::New(_) => None,
        }
    }

    fn message_again(&self) -> Option<Message<'_>>
        ensures message { option_map view result
            ≡ packet_again self.now.variables (slice_get self.now.variables.held self.now.variables.ahead) }
        ensures fits { IfSome result (λ message. IsInRange (view message)) }
    {
        match self.variables.packet_to_send() {
            Some(packet) => Some(self.data_with(packet.body().as_slice())),
            None => None,
        }
    }

    // The data message that has number T, with RESP = R and this packet.
    fn data_with<'a>(&self, body: &'a [u8]) -> Message<'a>
        ensures { view result ≡ composing.data_with self.now.variables body.now }
    {
        Message::Data {
            flags: Flags::from_byte(0),
            resp: self.variables.received(),
            num: self.variables.to_send(),
            body,
        }
    }

    // ---- sent

    /// The unit of a choice was sent, where it is not of a new packet. Takes no memory.
    pub fn sent(&mut self, choice: Choice)
        ensures { IfSome (without_links (choice_view choice) self.old.variables) (λ m. self.new ≡ after_sent (choice_view choice) m self.old) }
    {
        let before = self.variables.state();
        count_sent(&mut self.variables, choice);
        settle(&mut self.owed, before, &self.variables);
        self.owed.sent(choice);
    }

    /// A new packet of these bytes was sent, with this message of the links: it gets the next number. Where its memory is refused nothing
    /// changes.
    pub fn sent_new(&mut self, packet: Vec<u8>, message: LinkChoice) -> Result<(), AllocError>
        requires new { wire_is_new self.old.variables ≡ true }
        requires room { length self.old.variables.held < WINDOW }
        requires least { 1 ≤ length packet.items }
        requires most { length packet.items ≤ 16383 }
        ensures ok { OnOk result (self.new
            ≡ after_sent (next.SendNew (link_choice_view message)) (composing.data_with self.old.variables packet.items) self.old) }
        ensures err { OnErr result (self.new ≡ self.old) }
    {
        let before = self.variables.state();
        let packet = ComposedPacket::new(packet);
        self.variables.send_new(HeldPacket::new(packet))?;
        settle(&mut self.owed, before, &self.variables);
        self.owed.sent(Choice::New(message));
        Ok(())
    }
}

// What sending the unit of a choice leaves, where it is not of a new packet.
fn count_sent<W: Window<HeldPacket, 256> + Drop>(
    variables: &mut StationVariables<(), ComposedPacket, W>,
    choice: Choice,
)
    ensures { IfSome (without_links (choice_view choice) variables.old)
        (λ m. variables.new ≡ variables_sent (change_of m) (body_of m) variables.old) }
{
    match choice {
        Choice::Again => count_again(variables),
        Choice::Strt
        | Choice::Stack
        | Choice::Nak(_)
        | Choice::Rep
        | Choice::New(_)
        | Choice::Ack => {}
    }
}

// The next packet to send was sent once more, if it is held.
#[tactic(auto, using(crate::proofs::Again::again))]
fn count_again<W: Window<HeldPacket, 256> + Drop>(
    variables: &mut StationVariables<(), ComposedPacket, W>,
)
    ensures { IfSome (packet_again variables.old (slice_get variables.old.held variables.old.ahead))
        (λ m. variables.new ≡ variables_sent (change_of m) (body_of m) variables.old) }
{
    if variables.is_new() {
        return;
    }
    variables.send_again();
}
