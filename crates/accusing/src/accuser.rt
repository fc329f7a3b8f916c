//! One side of a line, accused by its own units.

ghost use Rattle.std.specs.Prelude.{◌≡◌, ◌≤◌, [], ◌∷◌, ◌++◌, List, OnErr, IfOk};
ghost use Rattle.wire_base.specs.Seq.{wire_distance};
ghost use Rattle.ddcmp_msg.specs.Message.{view};
ghost use Rattle.ddcmp_msg.specs.Reading.{reading, Sound};
ghost use Rattle.accusing.specs.Answers.{Answers, IsAfter, IsAfterIf, IsWrongIf};
ghost use Rattle.accusing.specs.Placing.{Passed, Own, Other};
ghost use Rattle.accusing.specs.Sight as specs;
ghost use Rattle.accusing.specs.Sight.{first_sight, runs_with};

mod giving;
mod responding;

use crate::answer::Answer;
use crate::beginning::Beginning;
use crate::heard::Heard;
use crate::mark::mark_of_body;
use crate::mode::Mode;
use crate::numbers::Numbers;
use crate::wrong::Wrong;
use ddcmp_msg::{Message, Reading, read_unit};
use std::alloc::{AllocError, Global};
use std::marker::Model;

/// One side of a line, of which units are told in the order in which they passed: those of the other side by `other_passed`, and its own by `sends`.
///
/// It keeps no unit. It takes 8 bytes for each data message that the side sent first in its period, and each call takes the time of its unit.
///
/// ```text
///  passed                 answer
///  other  STRT
///  own    STACK           CanHave
///  other  data, NUM 1
///  own    ACK, RESP 1     CanHave
///  own    ACK, RESP 2     CannotHave(WrongResponse): no data message 2 passed
///  own    data, NUM 1     CanHave
///  own    data, NUM 1     CannotHave(WrongNumber): no NAK passed
///  other  NAK, RESP 0
///  own    data, NUM 1     CanHave, or CannotHave(Changed) where its data are others
/// ```
#[derive(Drop)]
pub struct Accuser {
    mode: Mode,
    // what can have begun a period
    beginning: Beginning,
    // the same, after that
    again: Beginning,
    // what may have been heard in the present period
    heard: Heard,
    // the side's own data messages in it
    given: Numbers,
}

impl Model for Accuser {
    ghost use Rattle.accusing.specs.Sight.{Sight};

    ghost Value = { Sight };

    ghost view = { λ a. record { mode = a.mode; beginning = a.beginning; again = a.again; heard = a.heard; given = a.given } };
}

// What can have begun a period after RUNNING was reached.
fn begins_if(runs: bool, again: &Beginning, message: &Message) -> Beginning
    ensures { result ≡ specs.begins_if runs again.now (view message.now) }
{
    if runs {
        return again.begins(message);
    }
    Beginning::nothing()
}

impl Accuser {
    /// Before any unit passed. It takes no memory.
    pub fn new(alloc: Global) -> Accuser
        ensures { result ≡ first_sight }
    {
        Accuser {
            mode: Mode::Begins,
            beginning: Beginning::nothing(),
            again: Beginning::nothing(),
            heard: Heard::nothing(),
            given: Numbers::none(alloc),
        }
    }

    /// This unit of the other side passed, and may come to this side from now on. It takes no memory.
    ///
    /// After a STRT, a STACK of this side is possible; after a STACK, its messages of RUNNING are. Bytes that are no sound message change nothing.
    pub fn other_passed(&mut self, unit: &[u8])
        ensures known { self.new ≡ specs.passes self.old (reading unit.now) }
        ensures after { (passed : List Passed) → IsAfter self.old passed → IsAfter self.new (passed ++ Other unit.now ∷ []) }
    {
        self.takes_note(unit);
    }

    fn takes_note(&mut self, unit: &[u8])
        ensures { self.new ≡ specs.passes self.old (reading unit.now) }
    {
        match read_unit(unit) {
            Reading::Sound(message) => self.hears(&message),
            Reading::HeaderBad | Reading::DataBad | Reading::Malformed(_) => {}
        }
    }

    fn hears(&mut self, message: &Message)
        ensures { self.new ≡ specs.passes self.old (Sound (view message.now)) }
    {
        self.again = begins_if(self.beginning.run, &self.again, message);
        self.beginning = self.beginning.begins(message);
        self.heard = self.heard.hears(message);
    }

    /// This side sent this unit, and it passed. `AllocError` where memory for its mark was refused; then nothing changes.
    ///
    /// `CannotHave` says that no right station can have sent it and those before it, whatever came to it of what passed, whatever was lost or
    /// damaged, whatever noise there was and whatever its user did; and nothing changes. `CanHave` says nothing.
    ///
    /// So a STACK is wrong before any STRT of the other side passed, and `b"no unit"` is no message.
    pub fn sends(&mut self, unit: &[u8]) -> Result<Answer, AllocError>
        ensures known { IfOk result (λ answer. Answers answer (specs.sends self.old (reading unit.now)) self.old self.new) }
        ensures err { OnErr result (self.new ≡ self.old) }
        ensures after { (passed : List Passed) → IsAfter self.old passed
            → IfOk result (λ answer. IsAfterIf answer self.new (passed ++ Own unit.now ∷ [])) }
        ensures wrong { (passed : List Passed) → IsAfter self.old passed
            → IfOk result (λ answer. IsWrongIf answer (passed ++ Own unit.now ∷ [])) }
    {
        self.judges(unit)
    }

    fn judges(&mut self, unit: &[u8]) -> Result<Answer, AllocError>
        ensures ok { IfOk result (λ answer. Answers answer (specs.sends self.old (reading unit.now)) self.old self.new) }
        ensures err { OnErr result (self.new ≡ self.old) }
    {
        match read_unit(unit) {
            Reading::Sound(message) => self.sends_message(&message),
            Reading::HeaderBad | Reading::DataBad | Reading::Malformed(_) => Ok(Answer::CannotHave(
                Wrong::NotAMessage,
            )),
        }
    }

    fn sends_message(&mut self, message: &Message) -> Result<Answer, AllocError>
        ensures ok { IfOk result (λ answer. Answers answer (specs.sends_message self.old (view message.now)) self.old self.new) }
        ensures err { OnErr result (self.new ≡ self.old) }
    {
        match message {
            Message::Strt { .. } => {
                self.anew();
                Ok(Answer::CanHave)
            }
            Message::Stack { .. } => Ok(self.stacks()),
            Message::Ack { resp, .. } => Ok(self.responds(*resp)),
            Message::Nak { resp, .. } => Ok(self.responds(*resp)),
            Message::Rep { num, .. } => Ok(self.asks(*num)),
            Message::Data {
                resp,
                num,
                body,
                ..
            } => self.gives_data(*resp, *num, mark_of_body(body)),
        }
    }

    // The station may begin again.
    fn anew(&mut self)
        ensures { self.new ≡ specs.anew self.old.mode self.old }
    {
        match self.mode {
            Mode::Begins => {}
            Mode::Runs | Mode::Doubtful => {
                self.mode = Mode::Begins;
                self.again = self.beginning;
            }
        }
    }

    fn stacks(&mut self) -> Answer
        ensures { Answers result (specs.stacks self.old) self.old self.new }
    {
        if self.beginning.strt {
            self.anew();
            return Answer::CanHave;
        }
        Answer::CannotHave(Wrong::NoStart)
    }

    // The station of `beginning` runs, and R is this number. What can have begun another one is this.
    pub(super) fn runs_from(&mut self, again: Beginning, resp: u8)
        requires { wire_distance 256 self.old.beginning.heard.received resp ≤ self.old.beginning.heard.reach }
        ensures { self.new ≡ runs_with (record self.old { again = again }) resp self.old.given }
    {
        self.heard = self.beginning.heard.advanced(resp);
        self.beginning = again;
        self.again = again;
        self.mode = Mode::Runs;
    }

    // Whether a station that has begun again can have sent it.
    pub(super) fn can_begin(&self, resp: u8) -> bool
        ensures { result ≡ specs.can_begin self.now resp }
    {
        self.beginning.run && self.beginning.heard.reaches(resp)
    }
}
