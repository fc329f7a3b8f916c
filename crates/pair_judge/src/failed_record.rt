//! Which check a record does not pass at one side, over both layers and the line.

ghost use Rattle.std.specs.Prelude.{◌≡◌, ℕ, List, Some, false, true};
ghost use Rattle.ddcmp_msg.specs.Reading.{reading};
ghost use Rattle.capture_record.specs.Entries.{record_with};
ghost use Rattle.capture_record.specs.declared.record.Record.TheVariants as Record;
ghost use Rattle.dna_node.specs.WireLayers.{WireLayersUnit};
ghost use Rattle.dna_station.specs.Line.{damage};
ghost use Rattle.nsp_link.specs.Kinds.{queues_of};
ghost use Rattle.pair_judge.specs.FailedCheck as spec;
ghost use Rattle.pair_judge.specs.inner.Lines.{held};
ghost use Rattle.pair_judge.specs.inner.Making.{is_receipt};

use crate::failed_check::{FailedCheck, NotSound};
use crate::held_link::HeldLink;
use crate::layers::SideLayers;
use crate::line::Line;
use crate::receipt::coming;
use capture_record::{Entry, Fate};
use ddcmp_msg::{Reading, read_unit};
use ddcmp_station::Arrival;
use nsp_link::LinkEvent;

/// The first check that this record does not pass at a side, to which this line leads from the other one, with what is seen there and what is
/// allowed; `None` where it is made, or waits. The record is that of the entry and these bytes. Takes no memory.
#[tactic(auto, using(crate::proofs::Entries::no_receipt))]
pub fn failed_record<const QUEUES: u8>(
    layers: &SideLayers,
    incoming: &Line,
    entry: Entry,
    bytes: &[u8],
) -> Option<FailedCheck>
    ensures { result ≡ spec.failed_record (queues_of QUEUES) layers.now incoming.now.gone (held incoming.now) (record_with entry bytes.now) }
{
    match entry {
        Entry::Received { fate, hint } => failed_receipt::<QUEUES>(
            layers, incoming, hint, fate, bytes,
        ),
        _ => failed_own::<QUEUES>(layers, entry, bytes),
    }
}

/// The same of a record that is no receipt, for which nothing is asked of the line. Takes no memory.
pub fn failed_own<const QUEUES: u8>(
    layers: &SideLayers,
    entry: Entry,
    bytes: &[u8],
) -> Option<FailedCheck>
    requires { is_receipt entry ≡ false }
    ensures { (front : ℕ) (units : List WireLayersUnit) →
        result ≡ spec.failed_record (queues_of QUEUES) layers.now front units (record_with entry bytes.now) }
{
    match entry {
        Entry::Sent => failed_sent::<QUEUES>(layers, bytes),
        Entry::Received { .. } => unreachable!(),
        Entry::Noise => failed_noise(layers, bytes),
        Entry::Start => layers.failed_start(),
        Entry::Halt => None,
        Entry::Open { link } => layers.failed_link_event::<QUEUES>(LinkEvent::Open { link }),
        Entry::Accept { partner, link } => {
            layers.failed_link_event::<QUEUES>(LinkEvent::Accept { partner, link })
        }
        Entry::Reject { partner, link } => {
            layers.failed_link_event::<QUEUES>(LinkEvent::Reject { partner, link })
        }
        Entry::In { link } => {
            layers.failed_link_event::<QUEUES>(LinkEvent::In {
                link,
                message: bytes,
            })
        }
        Entry::Up { link } => {
            layers.failed_link_event::<QUEUES>(LinkEvent::Up {
                link,
                message: bytes,
            })
        }
        Entry::Close { link } => layers.failed_link_event::<QUEUES>(LinkEvent::Close { link }),
        Entry::Boot => layers.failed_link_event::<QUEUES>(LinkEvent::Boot),
        Entry::Abort { link } => layers.failed_link_event::<QUEUES>(LinkEvent::Abort { link }),
        Entry::Composed => layers.failed_composed::<QUEUES>(bytes),
        Entry::Interrupt { .. } | Entry::Interrupted { .. } => None,
    }
}

// Bytes that are sent.
fn failed_sent<const QUEUES: u8>(layers: &SideLayers, bytes: &[u8]) -> Option<FailedCheck>
    ensures { result ≡ spec.failed_sent (queues_of QUEUES) layers.now (reading bytes.now) }
{
    match read_unit(bytes) {
        Reading::Sound(message) => layers.failed_message::<QUEUES>(&message),
        Reading::HeaderBad => Some(FailedCheck::Message(NotSound::HeaderBad)),
        Reading::DataBad => Some(FailedCheck::Message(NotSound::DataBad)),
        Reading::Malformed(departure) => {
            Some(FailedCheck::Message(NotSound::Malformed(departure)))
        }
    }
}

// Bytes that come for the unit with this number.
fn failed_receipt<const QUEUES: u8>(
    layers: &SideLayers,
    incoming: &Line,
    hint: u64,
    fate: Fate,
    bytes: &[u8],
) -> Option<FailedCheck>
    ensures { result ≡ spec.failed_record (queues_of QUEUES) layers.now incoming.now.gone (held incoming.now) (Record.Received hint fate bytes.now) }
{
    if hint < incoming.gone {
        return Some(FailedCheck::HintOrder {
            seen: hint,
            lowest: incoming.gone,
        });
    }
    let Some(unit) = incoming.unit(hint) else {
        return None;
    };
    let Some(arrival) = coming(&unit, bytes) else {
        return Some(FailedCheck::Undetected { unit: hint });
    };
    layers.failed_arrival(arrival, unit.link(), fate)
}

// Bytes that nobody sent.
fn failed_noise(layers: &SideLayers, bytes: &[u8]) -> Option<FailedCheck>
    ensures { result ≡ spec.failed_noise layers.now (damage (reading bytes.now)) }
{
    let no_tag = HeldLink::new(&None);
    match read_unit(bytes) {
        Reading::HeaderBad => layers.failed_arrival(Arrival::HeaderBad, &no_tag, Fate::NotKept),
        Reading::DataBad => layers.failed_arrival(Arrival::DataBad, &no_tag, Fate::NotKept),
        Reading::Sound(_) => Some(FailedCheck::Noise),
        Reading::Malformed(_) => Some(FailedCheck::Noise),
    }
}
