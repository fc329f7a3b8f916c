//! What is said of an ACK, a NAK and a REP of the side.

ghost use Rattle.std.specs.Prelude.{◌≡◌, if◌then◌else◌};
ghost use Rattle.accusing.specs.Answers.{Answers};
ghost use Rattle.accusing.specs.Sight as specs;

use super::Accuser;
use crate::answer::Answer;
use crate::mode::Mode;
use crate::wrong::Wrong;

impl Accuser {
    // ---- ACK and NAK

    pub(super) fn responds(&mut self, resp: u8) -> Answer
        ensures { Answers result (specs.responds self.old.mode self.old resp) self.old self.new }
    {
        match self.mode {
            Mode::Begins => self.responds_first(resp),
            Mode::Runs => self.responds_on(resp),
            Mode::Doubtful => Answer::CanHave,
        }
    }

    fn responds_first(&mut self, resp: u8) -> Answer
        ensures { Answers result (specs.responds_first self.old resp) self.old self.new }
    {
        if !self.beginning.run {
            return Answer::CannotHave(Wrong::NotRunning);
        }
        if !self.beginning.heard.reaches(resp) {
            return Answer::CannotHave(Wrong::WrongResponse);
        }
        if resp == 0 {
            return Answer::CanHave;
        }
        self.given.restart();
        self.runs_from(self.again, resp);
        Answer::CanHave
    }

    fn responds_on(&mut self, resp: u8) -> Answer
        ensures { Answers result (specs.responds Mode.Runs self.old resp) self.old self.new }
    {
        if self.heard.reaches(resp) {
            self.heard = self.heard.advanced(resp);
            return Answer::CanHave;
        }
        if self.can_begin(resp) {
            self.mode = Mode::Begins;
            self.again = self.beginning;
            return Answer::CanHave;
        }
        Answer::CannotHave(Wrong::WrongResponse)
    }

    // ---- REP

    pub(super) fn asks(&self, num: u8) -> Answer
        ensures { Answers result (specs.asks self.now.mode self.now num) self.now self.now }
    {
        match self.mode {
            Mode::Begins => Answer::CannotHave(self.no_number()),
            Mode::Runs => self.asks_on(num),
            Mode::Doubtful => Answer::CanHave,
        }
    }

    fn no_number(&self) -> Wrong
        ensures { result ≡ (if self.now.beginning.run then Wrong.NothingOutstanding else Wrong.NotRunning) }
    {
        if self.beginning.run {
            return Wrong::NothingOutstanding;
        }
        Wrong::NotRunning
    }

    fn asks_on(&self, num: u8) -> Answer
        ensures { Answers result (specs.asks Mode.Runs self.now num) self.now self.now }
    {
        if self.given.is_empty() {
            return Answer::CannotHave(Wrong::NothingOutstanding);
        }
        if num == self.given.highest() {
            return Answer::CanHave;
        }
        Answer::CannotHave(Wrong::WrongNumber)
    }
}
