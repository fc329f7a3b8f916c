//! One end of a part of a run, as far as its judge has gone along the capture.

ghost use Rattle.std.specs.Prelude.{◌≡◌, ◌+◌, ◌≤◌, [], IfOk};
ghost use Rattle.capture_record.specs.Entries.{record_with};
ghost use Rattle.capture_record.specs.declared.event.Event.TheVariants as Event;
ghost use Rattle.capture_record.specs.declared.record.Record.TheVariants as Record;
ghost use Rattle.pair_judge.specs.Events.{event_of_station};
ghost use Rattle.capture_record.specs.declared.limit.TheConstants.{MAX_HINT};
ghost use Rattle.pair_judge.specs.Counting.{more_if};
ghost use Rattle.pair_judge.specs.Summary.{HasRoomFor, counts_of};
ghost use Rattle.part_judge.specs.Ends.{HasRoomInPart, HintIsLow, MadeInPartIs, node_of_end};
ghost use Rattle.part_judge.specs.Steps.{first_node, front_behind, whole_node};
ghost use Rattle.part_judge.specs.inner.Receipts.{IsByReceipt};

use capture_record::{Entry, Fate};
use ddcmp_msg::{Reading, read_unit};
use dna_station::{StepRefusal, Tag};
use pair_judge::{Accused, SideSummary};
use part_station::{Arrival, PartFault, PartStation, StationEvent, StationRefusal};
use std::alloc::{AllocError, Global};

// What is known of a unit whose sender is not.
const UNKNOWN: Tag = Tag {
    period: 0,
    partner: None,
};

/// The end: what its station may be, the other side's first unit that may still come (counted from 1; 0 is any that was sent before the other capture
/// begins), and its counts so far.
#[derive(Drop)]
pub struct PartEnd {
    pub station: PartStation,
    pub front: u64,
    pub counts: SideSummary,
}

/// What became of a record.
#[derive(Clone, Copy)]
pub enum MadeInPart {
    /// It was made.
    Done,
    /// It can't be made.
    Fails {
        accused: Accused,
        refusal: StepRefusal,
    },
}

impl PartEnd {
    /// Before any record of a part: its station may be any. `AllocError`: there is no memory for what its station keeps.
    pub fn new(alloc: Global) -> Result<PartEnd, AllocError>
        ensures node { IfOk result (λ end. node_of_end end ≡ first_node) }
        ensures counts { IfOk result (λ end. end.counts ≡ counts_of []) }
    {
        Ok(PartEnd {
            station: PartStation::new(alloc)?,
            front: 0,
            counts: SideSummary::new(),
        })
    }

    /// Before any record of a whole capture: its station is in HALTED. `AllocError`: there is no memory for what its station keeps.
    pub fn halted(alloc: Global) -> Result<PartEnd, AllocError>
        ensures node { IfOk result (λ end. node_of_end end ≡ whole_node) }
        ensures counts { IfOk result (λ end. end.counts ≡ counts_of []) }
    {
        let mut end = PartEnd::new(alloc)?;
        match end.station.user(StationEvent::Halt) {
            Ok(()) => Ok(end),
            Err(_) => Err(AllocError),
        }
    }

    /// Makes one record: that of the entry and these bytes, with its hint counted from 1. For example at first `s 0501000700014d94`, a REP of any
    /// NUM, is made, and `u start` behind it is not. `AllocError`: there is no memory for a packet that it sends.
    pub fn make(&mut self, entry: Entry, bytes: &[u8]) -> Result<MadeInPart, AllocError>
        requires room { HasRoomInPart self.old }
        requires hint { HintIsLow (record_with entry bytes.now) }
        ensures made { IfOk result (λ made. MadeInPartIs made self.old self.new (record_with entry bytes.now)) }
    {
        match entry {
            Entry::Sent => self.make_sent(bytes),
            Entry::Received { fate, hint } => self.make_received(hint, fate, bytes),
            Entry::Noise => self.make_noise(bytes),
            Entry::Start => self.make_event(StationEvent::Start),
            Entry::Halt => self.make_event(StationEvent::Halt),
            Entry::Boot => self.make_boot(),
            Entry::Up { .. } => Ok(self.pass_by(true)),
            Entry::Open { .. } | Entry::Accept { .. } | Entry::Reject { .. } => {
                Ok(self.pass_by(false))
            }
            Entry::In { .. } | Entry::Close { .. } | Entry::Abort { .. } | Entry::Composed => {
                Ok(self.pass_by(false))
            }
            Entry::Interrupt { .. } | Entry::Interrupted { .. } => Ok(self.pass_by(false)),
        }
    }

    fn make_sent(&mut self, bytes: &[u8]) -> Result<MadeInPart, AllocError>
        requires { HasRoomInPart self.old }
        ensures { IfOk result (λ made. MadeInPartIs made self.old self.new (Record.Sent bytes.now)) }
    {
        match read_unit(bytes) {
            Reading::Sound(message) => match self.station.send(&message) {
                Ok(()) => {
                    self.counts = self.counts.with_sending();
                    Ok(MadeInPart::Done)
                }
                Err(PartFault::Refused(refusal)) => Ok(by_this_end(StepRefusal::Station(refusal))),
                Err(PartFault::OutOfMemory) => Err(AllocError),
            },
            Reading::HeaderBad => Ok(by_this_end(StepRefusal::NotAMessage)),
            Reading::DataBad => Ok(by_this_end(StepRefusal::NotAMessage)),
            Reading::Malformed(_) => Ok(by_this_end(StepRefusal::NotAMessage)),
        }
    }

    fn make_received(
        &mut self,
        hint: u64,
        fate: Fate,
        bytes: &[u8],
    ) -> Result<MadeInPart, AllocError>
        requires room { HasRoomInPart self.old }
        requires hint { hint ≤ MAX_HINT + 1 }
        ensures { IfOk result (λ made. MadeInPartIs made self.old self.new (Record.Received hint fate bytes.now)) }
    {
        if hint < self.front {
            return Ok(by_this_end(StepRefusal::HintOrder));
        }
        let (arrival, damaged) = match read_unit(bytes) {
            Reading::Sound(message) => (Arrival::Sound(message, UNKNOWN), false),
            Reading::HeaderBad => (Arrival::HeaderBad, true),
            Reading::DataBad => (Arrival::DataBad, true),
            Reading::Malformed(_) => return Ok(by_receipt(StepRefusal::NotAMessage)),
        };
        match self.station.arrive(arrival, fate.is_kept()) {
            Ok(()) => {
                self.front = front_of(hint);
                self.counts = self.counts.with_receipt(damaged, fate.is_kept());
                Ok(MadeInPart::Done)
            }
            Err(PartFault::Refused(refusal)) => Ok(by_receipt(StepRefusal::Station(refusal))),
            Err(PartFault::OutOfMemory) => Err(AllocError),
        }
    }

    fn make_noise(&mut self, bytes: &[u8]) -> Result<MadeInPart, AllocError>
        requires { HasRoomInPart self.old }
        ensures { IfOk result (λ made. MadeInPartIs made self.old self.new (Record.Noise bytes.now)) }
    {
        let arrival = match read_unit(bytes) {
            Reading::HeaderBad => Arrival::HeaderBad,
            Reading::DataBad => Arrival::DataBad,
            Reading::Sound(_) => return Ok(by_this_end(StepRefusal::NotNoise)),
            Reading::Malformed(_) => return Ok(by_this_end(StepRefusal::NotNoise)),
        };
        match self.station.arrive(arrival, false) {
            Ok(()) => {
                self.counts = self.counts.with_receipt(true, false);
                Ok(MadeInPart::Done)
            }
            Err(PartFault::Refused(refusal)) => Ok(by_this_end(StepRefusal::Station(refusal))),
            Err(PartFault::OutOfMemory) => Err(AllocError),
        }
    }

    fn make_event(&mut self, event: StationEvent) -> Result<MadeInPart, AllocError>
        requires { HasRoomInPart self.old }
        ensures { IfOk result (λ made. MadeInPartIs made self.old self.new (Record.User (event_of_station event))) }
    {
        match self.station.user(event) {
            Ok(()) => {
                self.counts = self.counts.with_station_event(event);
                Ok(MadeInPart::Done)
            }
            Err(PartFault::Refused(refusal)) => Ok(by_this_end(StepRefusal::Station(refusal))),
            Err(PartFault::OutOfMemory) => Err(AllocError),
        }
    }

    // A boot halts the station.
    fn make_boot(&mut self) -> Result<MadeInPart, AllocError>
        requires { HasRoomInPart self.old }
        ensures { IfOk result (λ made. MadeInPartIs made self.old self.new (Record.User Event.Boot)) }
    {
        match self.station.user(StationEvent::Halt) {
            Ok(()) => Ok(self.pass_by(false)),
            Err(PartFault::Refused(refusal)) => Ok(by_this_end(StepRefusal::Station(refusal))),
            Err(PartFault::OutOfMemory) => Err(AllocError),
        }
    }

    // What happens at a link is counted, and not asked.
    fn pass_by(&mut self, delivers: bool) -> MadeInPart
        requires { HasRoomFor self.old.counts }
        ensures done { result ≡ MadeInPart.Done }
        ensures counted { self.new ≡ record self.old {
          counts = record self.old.counts {
            records = self.old.counts.records + 1;
            up = more_if delivers self.old.counts.up;
          };
        } }
    {
        self.counts = self.counts.with_link_event(delivers);
        MadeInPart::Done
    }
}

// The front behind a receipt with this hint.
fn front_of(hint: u64) -> u64
    requires { hint ≤ MAX_HINT + 1 }
    ensures { result ≡ front_behind hint }
{
    if hint == 0 { 0 } else { hint + 1 }
}

fn by_this_end(refusal: StepRefusal) -> MadeInPart
    ensures { result ≡ MadeInPart.Fails Accused.ThisEnd refusal }
{
    MadeInPart::Fails {
        accused: Accused::ThisEnd,
        refusal,
    }
}

// What came is at fault, or this end in what it made of it.
fn by_receipt(refusal: StepRefusal) -> MadeInPart
    ensures { IsByReceipt result refusal }
{
    let accused = match refusal {
        StepRefusal::NotAMessage => Accused::OtherEnd,
        StepRefusal::Station(StationRefusal::WrongResponse) => Accused::OtherEnd,
        _ => Accused::ThisEnd,
    };
    MadeInPart::Fails { accused, refusal }
}
