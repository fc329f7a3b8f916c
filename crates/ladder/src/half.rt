//! What a ladder knows of one side.

ghost use Rattle.std.specs.Prelude.{◌≡◌, true, OnErr, OnOk};
ghost use Rattle.ddcmp_msg.specs.Reading.{IsSound, reading};
ghost use Rattle.ladder.specs.Ladder as spec;

use crate::given::Given;
use crate::reading::{packet_content, said_briefly, said_by};
use crate::said::Said;
use crate::state::{after, after_arrival, after_user};
use crate::told::{Sending, Told, What};
use crate::under_way::UnderWay;
use capture_record::Entry;
use dna_station::State;
use std::alloc::{AllocError, Global};
use wire_base::Side;

/// What is known of one side, by the records that were told of it.
#[derive(Drop)]
pub struct Half {
    /// Which line of its capture its next record is on.
    pub line: u64,
    /// What it sent before.
    pub given: Given,
    /// Its units that may still come at the other side.
    pub units: UnderWay,
    /// The state of its station.
    pub state: State,
}

impl Half {
    ghost use Rattle.std.specs.Prelude.{[]};
    ghost use Rattle.ladder.specs.Given.{no_number};
    ghost use Rattle.ladder.specs.UnderWay.{way};

    /// No record yet: the first one is on line 2, after the head. Takes no memory.
    pub fn new(alloc: Global) -> Half
        ensures line { result.line ≡ 2 }
        ensures given { result.given ≡ no_number }
        ensures units { result.units ≡ way 0 [] }
        ensures state { result.state ≡ State.Halted }
    {
        Half {
            line: 2,
            given: Given::none(),
            units: UnderWay::new(alloc),
            state: State::Halted,
        }
    }

    /// The side's next record as a row tells it, beside what is known of the other side. Takes no memory.
    pub fn next(&self, other: &Half, side: Side, entry: Entry, bytes: &[u8]) -> Told
        ensures { result ≡ spec.told_by self.now other.now side entry bytes.now }
    {
        let what = self.what(other, entry, bytes);
        Told {
            side,
            line: self.line,
            what,
            state: after(self.state, what),
        }
    }

    fn what(&self, other: &Half, entry: Entry, bytes: &[u8]) -> What
        ensures { result ≡ spec.what_of self.now other.now entry bytes.now }
    {
        match entry {
            Entry::Sent => self.sending(said_by(bytes)),
            Entry::Received { fate, hint } => What::Came {
                hint,
                became: fate,
                said: said_by(bytes),
                sent: other.units.unit(hint),
            },
            Entry::Noise => What::Noise {
                said: said_by(bytes),
            },
            Entry::Composed => What::Composed {
                content: packet_content(bytes),
            },
            _ => What::User {
                entry,
                bytes: bytes.len(),
            },
        }
    }

    fn sending(&self, said: Said) -> What
        ensures { result ≡ spec.sent_what self.now said }
    {
        What::Sent {
            unit: self.units.sent(),
            said,
            again: self.given.is_again(said),
        }
    }

    /// That record was made. `AllocError` where there is no memory for its unit; then nothing changed.
    pub fn take(&mut self, told: &Told, entry: Entry) -> Result<(), AllocError>
        ensures ok { OnOk result (self.new ≡ spec.own_after self.old told.now entry) }
        ensures err { OnErr result (self.new ≡ self.old) }
    {
        match told.what {
            What::Sent { said, .. } => {
                self.units.push(Sending {
                    line: told.line,
                    said,
                })?;
                self.given = self.given.after_sending(said);
                self.state = told.state;
                self.line = self.line.saturating_add(1);
                Ok(())
            }
            _ => {
                self.given = self.given.after_other(entry);
                self.state = told.state;
                self.line = self.line.saturating_add(1);
                Ok(())
            }
        }
    }

    /// The side's next record was made, and neither it nor its unit is ever drawn: what is drawn after it goes by the line, the numbers and the
    /// state that it leaves. What is said to be sound is read without its checks. Takes no memory.
    #[inline(always)]
    pub fn learn(&mut self, entry: Entry, bytes: &[u8], sound: bool)
        requires { sound ≡ true → IsSound (reading bytes.now) }
        ensures { self.new ≡ spec.knowing self.old entry bytes.now }
    {
        match entry {
            Entry::Sent => {
                self.given = self.given.after_sending(said_briefly(bytes, sound));
                self.units.skip();
            }
            Entry::Received { .. } => {
                self.given = self.given.after_other(entry);
                self.state = after_arrival(self.state, said_briefly(bytes, sound));
            }
            _ => {
                self.given = self.given.after_other(entry);
                self.state = after_user(self.state, entry);
            }
        }
        self.line = self.line.saturating_add(1);
    }

    /// What the other side's record does to the units of this one: a receipt passes them. Takes no memory.
    pub fn meet(&mut self, entry: Entry)
        ensures { self.new ≡ spec.other_after self.old entry }
    {
        if let Entry::Received { hint, .. } = entry {
            self.units.pass(hint);
        }
    }
}
