//! What a summary counts.

ghost use Rattle.std.specs.Prelude.{◌≡◌, ◌<◌, ◌^◌};
ghost use Rattle.pair_judge.specs.Counting.{more_if, starts};
ghost use Rattle.pair_judge.specs.Events.{event_of_station};

use ddcmp_station::StationEvent;

/// The counts of one side of an accepted pair.
#[derive(Clone, Copy, Debug, PartialEq, Eq)]
pub struct SideSummary {
    /// All records.
    pub records: u64,
    /// Units that the side sent.
    pub sent: u64,
    /// Receipts and noise, damaged ones among them.
    pub received: u64,
    /// Receipts whose bytes show damage, and all noise.
    pub damaged: u64,
    /// Receipts whose packet was taken.
    pub kept: u64,
    /// Starts of the station.
    pub periods: u64,
    /// Links that began: that were opened here, or by a CI that was kept.
    pub links: u64,
    /// Messages that were delivered to a user.
    pub up: u64,
}

/// The counts of an accepted pair.
#[derive(Clone, Copy, PartialEq, Eq)]
pub struct Summary {
    /// Of side a.
    pub a: SideSummary,
    /// Of side b.
    pub b: SideSummary,
}

impl SideSummary {
    ghost use Rattle.std.specs.Prelude.{◌≡◌, ◌+◌, []};
    ghost use Rattle.pair_judge.specs.Counting.{more_if, starts};
    ghost use Rattle.pair_judge.specs.Events.{event_of_station};
    ghost use Rattle.pair_judge.specs.Summary.{counts_of, HasRoomFor};

    /// Of no records.
    pub fn new() -> SideSummary
        ensures { result ≡ counts_of [] }
    {
        SideSummary {
            records: 0,
            sent: 0,
            received: 0,
            damaged: 0,
            kept: 0,
            periods: 0,
            links: 0,
            up: 0,
        }
    }

    /// With one sending more.
    pub fn with_sending(self) -> SideSummary
        requires { HasRoomFor self }
        ensures { result ≡ record self { records = self.records + 1; sent = self.sent + 1 } }
    {
        SideSummary {
            records: self.records + 1,
            sent: self.sent + 1,
            ..self
        }
    }

    /// With one receipt more.
    pub fn with_receipt(self, damaged: bool, kept: bool) -> SideSummary
        requires { HasRoomFor self }
        ensures { result ≡ record self {
          records = self.records + 1;
          received = self.received + 1;
          damaged = more_if damaged self.damaged;
          kept = more_if kept self.kept;
        } }
    {
        SideSummary {
            records: self.records + 1,
            received: self.received + 1,
            damaged: one_more_if(damaged, self.damaged),
            kept: one_more_if(kept, self.kept),
            ..self
        }
    }

    /// With one event of the station more.
    pub fn with_station_event(self, event: StationEvent) -> SideSummary
        requires { HasRoomFor self }
        ensures { result ≡ record self { records = self.records + 1; periods = more_if (starts (event_of_station event)) self.periods } }
    {
        SideSummary {
            records: self.records + 1,
            periods: one_more_if(is_start(event), self.periods),
            ..self
        }
    }

    /// With one event of the links more, which delivers a message or does not.
    pub fn with_link_event(self, delivers: bool) -> SideSummary
        requires { HasRoomFor self }
        ensures { result ≡ record self { records = self.records + 1; up = more_if delivers self.up } }
    {
        SideSummary {
            records: self.records + 1,
            up: one_more_if(delivers, self.up),
            ..self
        }
    }

    /// With so many links.
    pub fn with_links(self, links: u64) -> SideSummary
        ensures { result ≡ record self { links = links } }
    {
        SideSummary { links, ..self }
    }
}

// The count, and one more where the fact holds.
fn one_more_if(fact: bool, count: u64) -> u64
    requires { count < 2 ^ 63 }
    ensures { result ≡ more_if fact count }
{
    if fact { count + 1 } else { count }
}

fn is_start(event: StationEvent) -> bool
    ensures { result ≡ starts (event_of_station event) }
{
    match event {
        StationEvent::Start => true,
        StationEvent::Halt => false,
    }
}
