//! Which data a side's station sent before.

ghost use Rattle.std.specs.Prelude.{◌≡◌};
ghost use Rattle.ladder.specs.Given as spec;

use crate::said::Said;
use capture_record::Entry;

/// What tells whether a side sends a unit again: the numbers of its data since its station was started, and its last record.
#[derive(Clone, Copy)]
pub struct Given {
    /// The highest number that was given, modulo 256.
    pub highest: u8,
    /// How many numbers were given, 255 at most.
    pub count: u8,
    /// The unit of startup that the side's last record sent, if it did.
    pub last: Startup,
}

/// A unit of startup, or none.
#[derive(Clone, Copy)]
pub enum Startup {
    Strt,
    Stack,
    Neither,
}

impl Given {
    /// Before the first start.
    pub fn none() -> Given
        ensures { result ≡ spec.no_number }
    {
        Given {
            highest: 0,
            count: 0,
            last: Startup::Neither,
        }
    }

    /// Whether a unit that says this was sent before: data, by a number that was given since the start; a STRT or a STACK where the side's
    /// last record sent the same.
    pub fn is_again(&self, said: Said) -> bool
        ensures { result ≡ spec.is_again self.now said }
    {
        match (said, self.last) {
            (Said::Data { num, .. }, _) => self.was_given(num),
            (Said::Strt, Startup::Strt) => true,
            (Said::Stack, Startup::Stack) => true,
            _ => false,
        }
    }

    /// After a record that sent this.
    #[inline(always)]
    pub fn after_sending(&self, said: Said) -> Given
        ensures { result ≡ spec.after_sending self.now said }
    {
        match said {
            Said::Data { num, .. } => self.number_given(num),
            _ => Given {
                highest: self.highest,
                count: self.count,
                last: startup_said(said),
            },
        }
    }

    // After data with this number.
    #[inline(always)]
    fn number_given(&self, num: u8) -> Given
        ensures { result ≡ spec.number_given self.now num }
    {
        if self.was_given(num) {
            return Given {
                highest: self.highest,
                count: self.count,
                last: Startup::Neither,
            };
        }
        Given {
            highest: num,
            count: self.count.saturating_add(1),
            last: Startup::Neither,
        }
    }

    // Whether the number is among those that were given last.
    fn was_given(&self, num: u8) -> bool
        ensures { result ≡ spec.was_given self.now num }
    {
        self.highest.wrapping_sub(num) < self.count
    }

    /// After a record that sent nothing: none was given since the station was started.
    #[inline(always)]
    pub fn after_other(&self, entry: Entry) -> Given
        ensures { result ≡ spec.after_other self.now entry }
    {
        match entry {
            Entry::Start => Given::none(),
            _ => Given {
                highest: self.highest,
                count: self.count,
                last: Startup::Neither,
            },
        }
    }
}

#[inline(always)]
fn startup_said(said: Said) -> Startup
    ensures { result ≡ spec.startup_of said }
{
    match said {
        Said::Strt => Startup::Strt,
        Said::Stack => Startup::Stack,
        _ => Startup::Neither,
    }
}
