//! Which correct nodes send a unit all the same, by what accuses it.

ghost use Rattle.wire_tap.specs.Accusing.{HasException};

use crate::accusation::Exception;
use crate::addressed::Addressed;

/// By what a unit is accused.
#[derive(Clone, Copy, PartialEq, Eq)]
pub(crate) enum Charge {
    /// No correct station sent it.
    Station,
    /// No correct node sent what is in it.
    Packet,
    /// Its acknowledgement goes back.
    Back,
    /// Its segment is too long for the other side.
    TooLong,
    /// Its segment went before, with other data.
    Changed,
}

/// What a correct node may do that sends a unit which is accused by this charge, and whose packet goes there.
pub(crate) fn exception_of(charge: Charge, addressed: Addressed) -> Option<Exception>
    ensures { HasException charge result }
{
    match charge {
        Charge::Station | Charge::TooLong => None,
        Charge::Packet => of_packet(addressed),
        Charge::Back => Some(Exception::AcknowledgementQueue),
        Charge::Changed => Some(Exception::OtherSubchannel),
    }
}

// Where the packet goes says so.
fn of_packet(addressed: Addressed) -> Option<Exception> {
    match addressed {
        Addressed::Nowhere | Addressed::Out | Addressed::Back => None,
        Addressed::ToItself => None,
        Addressed::FromOther => Some(Exception::IsRouter),
        Addressed::Elsewhere(node) => Some(Exception::NamesOther { node }),
        Addressed::OutToNoLink => Some(Exception::GaveUpCall),
    }
}
