//! What came to one end alone, and what no right other end can have sent there.

ghost use Rattle.std.specs.Prelude.{◌≡◌};
ghost use Rattle.ddcmp_msg.specs.Message.{view};
ghost use Rattle.ddcmp_msg.specs.Reading.{reading_view};
ghost use Rattle.why.specs.inner.OtherEnd as spec;

use crate::checks::seen_and_allowed;
use crate::rules::RuleKeys;
use ddcmp_msg::{Message, Reading, read_unit};
use ddcmp_station::StationView;
use nsp_link::{LinkView, Nodes};
use pair_judge::{Matter, Reason};
use record_words::layers::{message_in_unit, packet_in};
use record_words::nsp_words::MessageWords;
use record_words::packet_words::RoutingWords;
use record_words::words::{Range, short_number_or, words_if};
use side_words::nodes::nodes_words;
use std::alloc::{AllocError, Global};
use std::fmt::{self, Formatter, Write};

/// A record of one end that is refused by the other end's fault: what came in these bytes, and what could have come to a station with these
/// variables, between these nodes, for this link.
#[derive(Clone, Copy)]
pub struct OtherEnd<'a> {
    pub reason: Reason,
    pub bytes: &'a [u8],
    pub station: StationView,
    /// From which node to which a message comes here, as the head says.
    pub nodes: Nodes,
    /// The live link that the message names, if there is one.
    pub link: Option<LinkView>,
}

/// The same as one JSON object with its LF, with the rule.
#[derive(Clone, Copy)]
pub struct OtherEndObject<'a> {
    pub told: OtherEnd<'a>,
}

impl fmt::Display for OtherEndObject<'_> {
    fn fmt<W: Write>(&self, f: &mut Formatter<W>) -> fmt::Result {
        let OtherEnd { reason, bytes, .. } = self.told;
        let seen = SeenThere { reason, bytes };
        let allowed = AllowedThere { told: self.told };
        let rule = RuleKeys { reason };
        write!(
            f,
            "{{\"what\": \"check\", \"check\": \"other end\", \"seen\": \"{seen}\", \"allowed\": \"{allowed}\", {rule}}}\n"
        )
    }
}

/// The same in rows. Fails for want of memory alone.
pub fn other_end_rows(alloc: Global, told: OtherEnd<'_>) -> Result<String, AllocError> {
    let OtherEnd { reason, bytes, .. } = told;
    let seen = format!(in alloc; "{}", SeenThere { reason, bytes })?;
    let allowed = format!(in alloc; "{}", AllowedThere { told })?;
    seen_and_allowed(alloc, seen.as_str(), allowed.as_str(), reason)
}

// What came.
#[derive(Clone, Copy)]
struct SeenThere<'a> {
    reason: Reason,
    bytes: &'a [u8],
}

impl fmt::Display for SeenThere<'_> {
    fn fmt<W: Write>(&self, f: &mut Formatter<W>) -> fmt::Result {
        let bytes = self.bytes;
        match self.reason.matter() {
            Matter::Response => {
                write!(
                    f,
                    "RESP {}",
                    short_number_or("?", response_in(read_unit(bytes)))
                )
            }
            Matter::Nodes => write_packet(f, packet_in(read_unit(bytes))),
            _ => write_message(f, message_in_unit(bytes)),
        }
    }
}

// RESP of a sound message that has one.
fn response_in(reading: Reading<'_>) -> Option<u16>
    ensures { result ≡ spec.response_in (reading_view reading.entry) }
{
    match reading {
        Reading::Sound(message) => response_of(message),
        Reading::HeaderBad | Reading::DataBad | Reading::Malformed(_) => None,
    }
}

fn response_of(message: Message<'_>) -> Option<u16>
    ensures { result ≡ spec.response_of (view message.entry) }
{
    match message {
        Message::Data { resp, .. } => Some(u16::from(resp)),
        Message::Ack { resp, .. } => Some(u16::from(resp)),
        Message::Nak { resp, .. } => Some(u16::from(resp)),
        Message::Rep { .. } | Message::Strt { .. } | Message::Stack { .. } => None,
    }
}

fn write_packet<W: Write>(f: &mut Formatter<W>, packet: Option<&[u8]>) -> fmt::Result {
    match packet {
        Some(bytes) => write!(f, "{}", RoutingWords { bytes }),
        None => f.write_str("no packet"),
    }
}

fn write_message<W: Write>(f: &mut Formatter<W>, message: Option<&[u8]>) -> fmt::Result {
    match message {
        Some(bytes) => write!(f, "{}", MessageWords { bytes }),
        None => f.write_str("no message"),
    }
}

// What could have come.
#[derive(Clone, Copy)]
struct AllowedThere<'a> {
    told: OtherEnd<'a>,
}

impl fmt::Display for AllowedThere<'_> {
    fn fmt<W: Write>(&self, f: &mut Formatter<W>) -> fmt::Result {
        let OtherEnd {
            reason,
            station,
            nodes,
            link,
            ..
        } = self.told;
        match reason.matter() {
            Matter::Response => {
                let range = Range {
                    first: u16::from(station.acknowledged),
                    last: u16::from(station.given),
                };
                write!(f, "RESP {range}")
            }
            Matter::Nodes => {
                let nodes = nodes_words(nodes);
                write!(
                    f,
                    "{nodes}: from the peer in the head to the node in the head"
                )
            }
            _ => write_given(f, link),
        }
    }
}

// Writes which segments a message for this link can acknowledge.
fn write_given<W: Write>(f: &mut Formatter<W>, link: Option<LinkView>) -> fmt::Result {
    let Some(link) = link else {
        return f.write_str("an acknowledgement of segments that this end has sent on the link");
    };
    let range = Range {
        first: link.numbers.acknowledged,
        last: link.numbers.given,
    };
    let older = words_if(link.numbers.acknowledged != 0, "; or an older one again");
    write!(
        f,
        "acks or naks {range}: the highest acknowledged on this link, and the highest sent{older}"
    )
}
