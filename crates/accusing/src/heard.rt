//! What a station in RUNNING may have heard of the messages that passed.

ghost use Rattle.std.specs.Prelude.{◌≡◌, ◌≤◌, ◌<◌, ◌+◌};
ghost use Rattle.wire_base.specs.Seq.{wire_distance};
ghost use Rattle.ddcmp_msg.specs.Message.{view};
ghost use Rattle.accusing.specs.Heard as specs;

use ddcmp_msg::Message;

/// The reach that stands for as many numbers and more.
const FULL: u8 = 255;

/// What a station in RUNNING may have heard, if it heard all messages that passed, or none, or any of them. All numbers are modulo 256.
///
/// `received` 7 and `reach` 2: the last number that it has received in order is 7, 8 or 9.
#[derive(Clone, Copy)]
pub struct Heard {
    /// A number that the station has received in order.
    pub received: u8,
    /// How many numbers after that may have come to it in order; 255 stands for as many and more.
    pub reach: u8,
    /// A RESP that is not 0 passed.
    pub answered: bool,
    /// A NAK passed.
    pub nak: bool,
    /// Which numbers passed as a RESP.
    pub resps: [bool; 256],
}

/// How many numbers it is from one up to another, modulo 256.
pub fn distance(from: u8, to: u8) -> u8
    ensures { result ≡ wire_distance 256 from to }
{
    ((u16::from(to) + 256 - u16::from(from)) % 256) as u8
}

// One number more may have come in order.
fn rises(comes: bool, reach: u8) -> u8
    ensures { result ≡ specs.rises comes reach }
{
    if comes && reach < FULL {
        return reach + 1;
    }
    reach
}

impl Heard {
    /// Before any message.
    pub fn nothing() -> Heard
        ensures { result ≡ specs.nothing_heard }
    {
        Heard {
            received: 0,
            reach: 0,
            answered: false,
            nak: false,
            resps: [false; 256],
        }
    }

    /// Whether the last number that the station has received in order can be this one.
    pub fn reaches(&self, resp: u8) -> bool
        ensures { result ≡ specs.reaches self.now resp }
    {
        distance(self.received, resp) <= self.reach
    }

    // The number after the last that can have come.
    fn next(&self) -> u8
        ensures { result ≡ specs.next_of self.now }
    {
        ((u16::from(self.received) + u16::from(self.reach) + 1) % 256) as u8
    }

    // Whether a RESP passed that may acknowledge something, with this one.
    fn answers(&self, resp: u8) -> bool
        ensures { result ≡ specs.answers self.now resp }
    {
        self.answered || resp != 0
    }

    /// Whether this number passed as a RESP.
    pub fn has_resp(&self, resp: u8) -> bool
        ensures { result ≡ specs.has_resp self.now resp }
    {
        self.resps[usize::from(resp)]
    }

    // A message with this RESP passed, and it was a NAK or not.
    fn answered_by(&self, resp: u8, reach: u8, nak: bool) -> Heard
        ensures { result ≡ record self.now {
          reach = reach;
          nak = nak;
          answered = specs.answers self.now resp;
          resps = specs.with_resp self.now resp;
        } }
    {
        let mut resps = self.resps;
        resps[usize::from(resp)] = true;
        Heard {
            received: self.received,
            reach,
            answered: self.answers(resp),
            nak,
            resps,
        }
    }

    /// What may have been heard after this message passed.
    pub fn hears(&self, message: &Message) -> Heard
        ensures { result ≡ specs.hears self.now (view message.now) }
    {
        match message {
            Message::Data { resp, num, .. } => {
                self.answered_by(*resp, rises(*num == self.next(), self.reach), self.nak)
            }
            Message::Ack { resp, .. } => self.answered_by(*resp, self.reach, self.nak),
            Message::Nak { resp, .. } => self.answered_by(*resp, self.reach, true),
            Message::Rep { .. } | Message::Strt { .. } | Message::Stack { .. } => *self,
        }
    }

    // What is left of the reach this far on.
    fn left(&self, distance: u8) -> u8
        requires { distance ≤ self.now.reach }
        ensures { result ≡ specs.left_of self.now.reach distance }
    {
        if self.reach == FULL {
            return FULL;
        }
        self.reach - distance
    }

    /// The same of a station whose last number received in order is this one, which it reaches.
    pub fn advanced(&self, resp: u8) -> Heard
        requires { wire_distance 256 self.now.received resp ≤ self.now.reach }
        ensures { result ≡ specs.advanced self.now resp }
    {
        Heard {
            received: resp,
            reach: self.left(distance(self.received, resp)),
            answered: self.answered,
            nak: self.nak,
            resps: self.resps,
        }
    }
}
