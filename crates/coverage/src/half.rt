//! What is kept of one side: its station, and how often it went through each row.

ghost use Rattle.std.specs.Prelude.{◌≡◌};
ghost use Rattle.capture_record.specs.declared.event.Event.TheVariants as Event;
ghost use Rattle.capture_record.specs.Entries.{record_with};
ghost use Rattle.ddcmp_msg.specs.Message.{view};
ghost use Rattle.ddcmp_msg.specs.Reading.{Sound, reading, reading_view};
ghost use Rattle.coverage.specs.inner.Met as spec;

use crate::counts::Counts;
use crate::link_rows::{link_gets, link_sends};
use crate::row::{LinkAct, Loss, Row};
use crate::tracker::Tracker;
use capture_record::{Entry, Fate};
use ddcmp_msg::{Message, Reading, read_sound, read_unit};
use dna_station::{State, StationEvent};
use pair_judge::MadeEntry;

/// One side.
#[derive(Clone, Copy, PartialEq, Eq)]
pub struct Half {
    pub tracker: Tracker,
    pub counts: Counts,
}

impl Half {
    /// This record was made. What is said to be sound is read without its checks.
    #[inline(always)]
    pub(crate) fn meet(&mut self, next: &MadeEntry<'_>)
        ensures { self.new ≡ spec.met self.old (record_with next.now.entry next.now.bytes) }
    {
        let bytes = next.bytes;
        match next.entry {
            Entry::Sent => {
                if next.sound {
                    self.sent(&read_sound(bytes));
                } else {
                    self.sent_unread(bytes);
                }
            }
            Entry::Received { fate, .. } => {
                if next.sound {
                    self.received(fate, &read_sound(bytes));
                } else {
                    self.received_unread(fate, bytes);
                }
            }
            Entry::Noise => self.damaged(read_unit(bytes)),
            Entry::Start => self.started(),
            Entry::Halt => self.halted(),
            Entry::Open { .. } => self.link(LinkAct::Open),
            Entry::Accept { .. } => self.link(LinkAct::Accept),
            Entry::Reject { .. } => self.link(LinkAct::Reject),
            Entry::In { .. } => self.link(LinkAct::In),
            Entry::Up { .. } => self.link(LinkAct::Up),
            Entry::Close { .. } => self.link(LinkAct::Close),
            Entry::Boot => self.booted(),
            Entry::Abort { .. } => self.link(LinkAct::Abort),
            Entry::Composed => self.unsent(),
            Entry::Interrupt { .. } | Entry::Interrupted { .. } => {}
        }
    }

    // A sound unit was sent.
    #[inline(always)]
    fn sent(&mut self, message: &Message<'_>)
        ensures { self.new ≡ spec.met_sent self.old (Sound (view message.now)) }
    {
        let is_new = self.tracker.is_new();
        self.counts.count(self.tracker.sent_row(message));
        self.counts.count(link_sends(is_new, message));
        self.tracker.sent(message);
    }

    // A unit was sent that nobody read yet.
    #[inline(never)]
    fn sent_unread(&mut self, bytes: &[u8])
        ensures { self.new ≡ spec.met_sent self.old (reading bytes.now) }
    {
        if let Reading::Sound(message) = read_unit(bytes) {
            self.sent(&message);
        }
    }

    // A sound unit came.
    #[inline(always)]
    fn received(&mut self, fate: Fate, message: &Message<'_>)
        ensures { self.new ≡ spec.met_receipt self.old fate (Sound (view message.now)) }
    {
        let kept = fate.is_kept();
        self.counts
            .count(Some(self.tracker.arrival_row(message, kept)));
        self.counts.count(link_gets(fate, message));
        self.tracker.arrived(message, kept);
    }

    // A unit came that nobody read yet.
    #[inline(never)]
    fn received_unread(&mut self, fate: Fate, bytes: &[u8])
        ensures { self.new ≡ spec.met_receipt self.old fate (reading bytes.now) }
    {
        match read_unit(bytes) {
            Reading::Sound(message) => self.received(fate, &message),
            Reading::HeaderBad => self.damaged(Reading::HeaderBad),
            Reading::DataBad => self.damaged(Reading::DataBad),
            Reading::Malformed(_) => {}
        }
    }

    // What came shows damage, or it counts nothing.
    fn damaged(&mut self, read: Reading<'_>)
        ensures { self.new ≡ spec.met_damage self.old (reading_view read.entry) }
    {
        self.counts.count(self.tracker.damage_row(&read));
    }

    fn started(&mut self)
        ensures { self.new ≡ spec.met_event self.old Event.Start }
    {
        if let State::Halted = self.tracker.state {
            self.counts.count(Some(Row::Start));
        }
        self.tracker.user(StationEvent::Start);
    }

    fn halted(&mut self)
        ensures { self.new ≡ spec.met_event self.old Event.Halt }
    {
        self.counts.count(Some(Row::Halt(self.tracker.state)));
        self.tracker.user(StationEvent::Halt);
    }

    // The node was started anew: its station was halted, and its links ended.
    fn booted(&mut self)
        ensures { self.new ≡ spec.met_event self.old Event.Boot }
    {
        self.counts.count(Some(Row::Boot(self.tracker.state)));
        self.counts.count(Some(Row::LinkUser(LinkAct::Boot)));
        self.tracker.user(StationEvent::Halt);
    }

    // A packet was composed that is never sent.
    fn unsent(&mut self)
        ensures { self.new ≡ spec.met_unsent self.old }
    {
        self.counts.count(Some(Row::Lost(Loss::Unsent)));
    }

    // The user of a link did this.
    fn link(&mut self, act: LinkAct)
        ensures { self.new ≡ spec.met_link self.old act }
    {
        self.counts.count(Some(Row::LinkUser(act)));
    }
}
