//! What a station may answer with a NAK.

ghost use Rattle.std.specs.Prelude.{◌≡◌, ◌+◌, ◌^◌, ◌<◌, ◌≤◌, true};
ghost use Rattle.dna_station.specs.NakCauses.{no_causes, with_cause, has_cause, without_cause};
ghost use Rattle.ddcmp_station.specs.View.{open_of};
ghost use Rattle.ddcmp_station.specs.inner.Counts.{open_causes};

use crate::view::OpenCauses;
use ddcmp_msg::NakReason;
use std::marker::Model;

/// How many causes of a NAK are open, by their reason (DDCMP 4.1, NAK message). Reasons 9, 16 and 17 need no cause, and
/// have none.
#[derive(Drop)]
pub struct Causes {
    header_check: u64,
    data_check: u64,
    rep_response: u64,
    no_buffer: u64,
}

impl Model for Causes {
    ghost use Rattle.dna_station.specs.NakCauses.{Causes};

    ghost Value = { Causes };

    ghost view = { λ c. record {
      header_check = c.header_check;
      data_check = c.data_check;
      rep_response = c.rep_response;
      no_buffer = c.no_buffer;
    } };
}

impl Causes {
    /// None is open.
    pub fn new() -> Self
        ensures { result ≡ no_causes }
    {
        Causes {
            header_check: 0,
            data_check: 0,
            rep_response: 0,
            no_buffer: 0,
        }
    }

    /// Whether a NAK of this reason may be sent: one that needs a cause has an open one.
    pub fn has(&self, reason: NakReason) -> bool
        ensures { result ≡ has_cause reason self.now }
    {
        match reason {
            NakReason::HeaderCheck => self.header_check > 0,
            NakReason::DataCheck => self.data_check > 0,
            NakReason::RepResponse => self.rep_response > 0,
            NakReason::NoBuffer => self.no_buffer > 0,
            NakReason::Overrun | NakReason::MessageTooLong | NakReason::HeaderFormat => true,
        }
    }

    /// How many are open, by their reason.
    pub fn open(&self) -> OpenCauses
        ensures { result ≡ open_of self.now }
    {
        OpenCauses {
            header_check: self.header_check,
            data_check: self.data_check,
            rep_response: self.rep_response,
            no_buffer: self.no_buffer,
        }
    }

    /// One more of this reason.
    pub fn add(&mut self, reason: NakReason)
        requires { open_causes self.old < 2 ^ 63 }
        ensures more { self.new ≡ with_cause reason self.old }
        ensures count { open_causes self.new ≤ open_causes self.old + 1 }
    {
        match reason {
            NakReason::HeaderCheck => self.header_check += 1,
            NakReason::DataCheck => self.data_check += 1,
            NakReason::RepResponse => self.rep_response += 1,
            NakReason::NoBuffer => self.no_buffer += 1,
            NakReason::Overrun | NakReason::MessageTooLong | NakReason::HeaderFormat => {}
        }
    }

    /// A NAK of this reason is sent: it uses one up.
    pub fn use_up(&mut self, reason: NakReason)
        requires { has_cause reason self.old ≡ true }
        ensures fewer { self.new ≡ without_cause reason self.old }
        ensures count { open_causes self.new ≤ open_causes self.old }
    {
        match reason {
            NakReason::HeaderCheck => self.header_check -= 1,
            NakReason::DataCheck => self.data_check -= 1,
            NakReason::RepResponse => self.rep_response -= 1,
            NakReason::NoBuffer => self.no_buffer -= 1,
            NakReason::Overrun | NakReason::MessageTooLong | NakReason::HeaderFormat => {}
        }
    }
}
