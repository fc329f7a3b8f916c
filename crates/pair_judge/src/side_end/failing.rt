//! Which check the record ahead does not pass.

ghost use Rattle.std.specs.Prelude.{◌≡◌, List, [], ◌∷◌, Option, Some, None, option_and_then, option_copied, slice_get};
ghost use Rattle.capture_record.specs.Entries.{record_with};
ghost use Rattle.ddcmp_msg.specs.Reading.{reading};
ghost use Rattle.nsp_link.specs.Kinds.{queues_of};
ghost use Rattle.nsp_link.specs.View.{rest_of};
ghost use Rattle.pair_judge.specs.JudgedAs.{queues_of as queues_judged};
ghost use Rattle.pair_judge.specs.FailedCheck as of_any;
ghost use Rattle.pair_judge.specs.FailedIn as spec;
ghost use Rattle.pair_judge.specs.inner.Lines.{held};

use super::SideEnd;
use crate::carried::carried;
use crate::course::Ahead;
use crate::failed_cause::of_reason;
use crate::failed_check::{FailedCheck, NotSound};
use crate::failed_record::{failed_own, failed_record};
use crate::judged_as::Layers;
use crate::layers::SideLayers;
use crate::line::Line;
use crate::reason::Reason;
use capture_record::Entry;
use ddcmp_msg::{Message, Reading, read_unit};
use ddcmp_station::FailedArrival;
use dna_packet::read_nsp;
use nsp_link::{WITH_QUEUES, WITHOUT_QUEUES};

impl SideEnd {
    /// The first check that the record ahead does not pass, where this line leads from the other side; `None` where it is made, or waits, or there
    /// is none. Takes no memory.
    pub(crate) fn failed_ahead<const QUEUES: u8>(&self, incoming: &Line) -> Option<FailedCheck>
        requires { self.now.front ≡ incoming.now.gone }
        ensures { result ≡ spec.failed_ahead (queues_of QUEUES) self.now (held incoming.now) self.now.ahead }
    {
        let Ahead::Waits(entry) = self.ahead else {
            return None;
        };
        failed_record::<QUEUES>(&self.layers, incoming, entry, self.capture.bytes())
    }

    /// The check that the record ahead of an end alone does not pass, which is refused for this reason, with what is seen there and what is allowed:
    /// over these layers, as was judged. The check is one of this reason. `None` where none is named: a response or an
    /// acknowledgement that no right other end sends, or a message of other nodes, that came. Takes no memory.
    pub fn failed_alone(&self, layers: Layers, reason: Reason) -> Option<FailedCheck>
        ensures { spec.IsFailedAlone (queues_judged layers) self.now reason result }
    {
        match layers {
            Layers::Queued => self.failed_alone_by::<WITH_QUEUES>(reason),
            Layers::Both | Layers::Station => self.failed_alone_by::<WITHOUT_QUEUES>(reason),
        }
    }

    // The same of a node with queues, or without.
    fn failed_alone_by<const QUEUES: u8>(&self, reason: Reason) -> Option<FailedCheck>
        ensures { spec.IsFailedAlone (queues_of QUEUES) self.now reason result }
    {
        let Ahead::Waits(entry) = self.ahead else {
            return None;
        };
        let bytes = self.capture.bytes();
        failed_entry::<QUEUES>(reason, &self.layers, self.front, entry, bytes)
    }

    /// The hint of the record ahead, where it is a receipt.
    pub(crate) fn hint_ahead(&self) -> Option<u64>
        ensures { result ≡ spec.hint_of self.now.ahead }
    {
        let Ahead::Waits(entry) = self.ahead else {
            return None;
        };
        match entry {
            Entry::Received { hint, .. } => Some(hint),
            _ => None,
        }
    }

    /// What is left of the message that the link with this number sends, if there is one.
    pub fn rest(&self, number: usize) -> Option<&[u8]>
        ensures { option_copied result ≡ option_and_then rest_of (slice_get self.now.links.links number) }
    {
        self.layers.rest(number)
    }
}

// What fails of this record at an end alone at this front, and is of this reason.
#[tactic(auto, using(crate::proofs::Entries::no_receipt))]
fn failed_entry<const QUEUES: u8>(
    reason: Reason,
    layers: &SideLayers,
    front: u64,
    entry: Entry,
    bytes: &[u8],
) -> Option<FailedCheck>
    ensures { spec.IsFirstOf reason (spec.checks_alone (queues_of QUEUES) layers.now front (Some (record_with entry bytes.now))) result }
{
    match entry {
        Entry::Received { hint, .. } => failed_receipt(reason, front, hint, bytes),
        _ => of_reason(reason, failed_own::<QUEUES>(layers, entry, bytes), None),
    }
}

// What fails where these bytes come, at this front, and is of this reason.
fn failed_receipt(reason: Reason, front: u64, hint: u64, bytes: &[u8]) -> Option<FailedCheck>
    ensures { spec.IsFirstOf reason (Some (FailedCheck.HintOrder hint front) ∷ Some (FailedCheck.StationArrival FailedArrival.Keep)
        ∷ spec.failed_bytes (reading bytes.now) ∷ []) result }
{
    let order = FailedCheck::HintOrder {
        seen: hint,
        lowest: front,
    };
    let keep = FailedCheck::StationArrival(FailedArrival::Keep);
    let of_bytes = of_reason(reason, failed_bytes(bytes), None);
    let of_letter = of_reason(reason, Some(keep), of_bytes);
    of_reason(reason, Some(order), of_letter)
}

// What fails in bytes themselves.
fn failed_bytes(bytes: &[u8]) -> Option<FailedCheck>
    ensures { result ≡ spec.failed_bytes (reading bytes.now) }
{
    match read_unit(bytes) {
        Reading::Malformed(departure) => {
            Some(FailedCheck::Message(NotSound::Malformed(departure)))
        }
        Reading::Sound(Message::Data { body, .. }) => failed_packet(body),
        _ => None,
    }
}

// What fails in a packet itself, or in the message in it.
fn failed_packet(packet: &[u8]) -> Option<FailedCheck>
    ensures { result ≡ of_any.failed_packet (λ _. None) packet.now }
{
    match carried(packet) {
        Ok(Some(carried)) => match read_nsp(carried.message) {
            Ok(_) => None,
            Err(fault) => Some(FailedCheck::Nsp(fault)),
        },
        Ok(None) => None,
        Err(fault) => Some(FailedCheck::Packet(fault)),
    }
}
