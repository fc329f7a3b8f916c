//! How far a station that is started may have come, before it sends a numbered message.

ghost use Rattle.std.specs.Prelude.{◌≡◌};
ghost use Rattle.ddcmp_msg.specs.Message.{view};
ghost use Rattle.accusing.specs.Beginning as specs;

use crate::heard::Heard;
use ddcmp_msg::Message;

/// What passed that can have begun a period of a station, and what a station that was begun so may have heard.
#[derive(Clone, Copy)]
pub struct Beginning {
    /// A STRT passed, which leads from ISTRT to ASTRT.
    pub strt: bool,
    /// What leads to RUNNING passed.
    pub run: bool,
    /// What passed from then on.
    pub heard: Heard,
}

impl Beginning {
    /// Before any message.
    pub fn nothing() -> Beginning
        ensures { result ≡ specs.nothing_passed }
    {
        Beginning {
            strt: false,
            run: false,
            heard: Heard::nothing(),
        }
    }

    // Whether the message leads to RUNNING.
    fn starts(&self, message: &Message) -> bool
        ensures { result ≡ specs.starts self.now (view message.now) }
    {
        match message {
            Message::Stack { .. } => true,
            Message::Ack { resp, .. } => self.strt && *resp == 0,
            Message::Data { resp, .. } => self.strt && *resp == 0,
            Message::Nak { .. } | Message::Rep { .. } | Message::Strt { .. } => false,
        }
    }

    // Whether RUNNING was reached, with this message.
    fn runs(&self, message: &Message) -> bool
        ensures { result ≡ specs.runs self.now (view message.now) }
    {
        self.run || self.starts(message)
    }

    // What may have been heard, if RUNNING was reached.
    fn heard_if(&self, runs: bool, message: &Message) -> Heard
        ensures { result ≡ specs.heard_if runs self.now.heard (view message.now) }
    {
        if runs {
            return self.heard.hears(message);
        }
        self.heard
    }

    /// How far the station may have come after this message passed.
    pub fn begins(&self, message: &Message) -> Beginning
        ensures { result ≡ specs.begins self.now (view message.now) }
    {
        let run = self.runs(message);
        Beginning {
            strt: self.strt || is_strt(message),
            run,
            heard: self.heard_if(run, message),
        }
    }
}

fn is_strt(message: &Message) -> bool
    ensures { result ≡ specs.is_strt (view message.now) }
{
    matches!(message, Message::Strt { .. })
}
