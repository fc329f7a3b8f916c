//! Which own address a message or a record is about.

ghost use Rattle.std.specs.Prelude.{◌≡◌, Some};
ghost use Rattle.capture_record.specs.Entries.{record_with};
ghost use Rattle.leaving_out.specs.Addresses.{at_receiver, at_sender, own};
ghost use Rattle.leaving_out.specs.Messages.{message_in_packet, message_in_unit};
ghost use Rattle.leaving_out.specs.About.{about, about_at_receiver, about_at_sender};

use crate::message::{Ends, ends_of, message_in_packet, message_in_unit};
use capture_record::Entry;
use link_groups::OwnAddress;
use wire_base::Side;

/// What a message that this side sent is about at its sender: by SRCADDR, or by DSTADDR where that is 0. Takes no memory.
pub(crate) fn at_sender(sender: Side, ends: Ends) -> OwnAddress
    ensures { result ≡ at_sender sender ends.src ends.dst }
{
    if ends.src != 0 {
        return OwnAddress {
            side: sender,
            address: ends.src,
        };
    }
    if ends.dst != 0 {
        return OwnAddress {
            side: sender.other(),
            address: ends.dst,
        };
    }
    OwnAddress {
        side: sender,
        address: 0,
    }
}

/// What it is about at its receiver: by DSTADDR, or by SRCADDR where that is 0. Takes no memory.
pub(crate) fn at_receiver(sender: Side, ends: Ends) -> OwnAddress
    ensures { result ≡ at_receiver sender ends.src ends.dst }
{
    if ends.dst != 0 {
        return OwnAddress {
            side: sender.other(),
            address: ends.dst,
        };
    }
    if ends.src != 0 {
        return OwnAddress {
            side: sender,
            address: ends.src,
        };
    }
    OwnAddress {
        side: sender,
        address: 0,
    }
}

/// What the message in a packet that this side composed is about there; none where there is no message that can be read. Takes no memory.
fn packet_about(sender: Side, packet: &[u8]) -> Option<OwnAddress>
    ensures { result ≡ about_at_sender sender (message_in_packet packet.now) }
{
    let message = message_in_packet(packet)?;
    Some(at_sender(sender, ends_of(&message)))
}

/// What the message in a unit that this side sent is about there. Takes no memory.
fn sent_about(sender: Side, unit: &[u8]) -> Option<OwnAddress>
    ensures { result ≡ about_at_sender sender (message_in_unit unit.now) }
{
    let message = message_in_unit(unit)?;
    Some(at_sender(sender, ends_of(&message)))
}

/// What the message in a unit that this side sent is about where it came. Takes no memory.
pub(crate) fn came_about(sender: Side, unit: &[u8]) -> Option<OwnAddress>
    ensures { result ≡ about_at_receiver sender (message_in_unit unit.now) }
{
    let message = message_in_unit(unit)?;
    Some(at_receiver(sender, ends_of(&message)))
}

/// Which own address this side's record of an entry and these bytes is about, by what its own side names; none where it is about no link,
/// as the start of a station, or noise, or where its message can't be read. Takes no memory.
///
/// At side a the event `u accept 7 3` is about its own 3; a data segment that came from b's link 7 for its link 3 too.
pub fn about(side: Side, entry: Entry, bytes: &[u8]) -> Option<OwnAddress>
    ensures { result ≡ about side (record_with entry bytes.now) }
{
    match entry {
        Entry::Sent => sent_about(side, bytes),
        Entry::Received { .. } => came_about(side.other(), bytes),
        Entry::Composed => packet_about(side, bytes),
        Entry::Noise | Entry::Start | Entry::Halt | Entry::Boot => None,
        Entry::Open { link } | Entry::Close { link } | Entry::Abort { link } => at(side, link),
        Entry::Accept { partner: _, link } | Entry::Reject { partner: _, link } => at(side, link),
        Entry::In { link } | Entry::Up { link } => at(side, link),
        Entry::Interrupt { link } | Entry::Interrupted { link } => at(side, link),
    }
}

fn at(side: Side, address: u16) -> Option<OwnAddress>
    ensures { result ≡ Some (own side address) }
{
    Some(OwnAddress { side, address })
}
