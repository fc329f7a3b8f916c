//! What is said of a data message of the side.

ghost use Rattle.std.specs.Prelude.{◌≡◌, ◌≤◌, OnErr, IfOk, Ok, Err, true};
ghost use Rattle.wire_base.specs.Seq.{wire_distance};
ghost use Rattle.accusing.specs.Answers.{Answers};
ghost use Rattle.accusing.specs.inner.Going.{given_after};
ghost use Rattle.accusing.specs.Sight as specs;

use super::Accuser;
use crate::answer::Answer;
use crate::going::Going;
use crate::mode::Mode;
use crate::wrong::Wrong;
use std::alloc::AllocError;

impl Accuser {
    pub(super) fn gives_data(&mut self, resp: u8, num: u8, mark: u64) -> Result<Answer, AllocError>
        ensures ok { IfOk result (λ answer. Answers answer (specs.gives_data self.old.mode self.old resp num mark) self.old self.new) }
        ensures err { OnErr result (self.new ≡ self.old) }
    {
        match self.mode {
            Mode::Begins => self.gives_first(resp, num, mark),
            Mode::Runs => self.gives_on(resp, num, mark),
            Mode::Doubtful => Ok(Answer::CanHave),
        }
    }

    fn gives_first(&mut self, resp: u8, num: u8, mark: u64) -> Result<Answer, AllocError>
        ensures ok { IfOk result (λ answer. Answers answer (specs.gives_first self.old resp num mark) self.old self.new) }
        ensures err { OnErr result (self.new ≡ self.old) }
    {
        if !self.beginning.run {
            return Ok(Answer::CannotHave(Wrong::NotRunning));
        }
        if !self.beginning.heard.reaches(resp) {
            return Ok(Answer::CannotHave(Wrong::WrongResponse));
        }
        if num != 1 {
            return Ok(Answer::CannotHave(Wrong::WrongNumber));
        }
        self.given.restart_with(mark)?;
        self.runs_from(self.again, resp);
        Ok(Answer::CanHave)
    }

    fn gives_on(&mut self, resp: u8, num: u8, mark: u64) -> Result<Answer, AllocError>
        ensures ok { IfOk result (λ answer. Answers answer (specs.gives_data Mode.Runs self.old resp num mark) self.old self.new) }
        ensures err { OnErr result (self.new ≡ self.old) }
    {
        let begins = self.can_begin(resp) && num == 1;
        match self.given.gives(&self.heard, resp, num, mark) {
            Ok(going) => self.gives_either(begins, resp, going, mark),
            Err(wrong) => self.gives_anew(begins, resp, wrong, mark),
        }
    }

    // It can go, and where a station that has begun again can have sent it too, nothing more is known.
    fn gives_either(
        &mut self,
        begins: bool,
        resp: u8,
        going: Going,
        mark: u64,
    ) -> Result<Answer, AllocError>
        requires { wire_distance 256 self.old.heard.received resp ≤ self.old.heard.reach }
        ensures ok { IfOk result (λ answer. Answers answer
            (specs.gives_either self.old resp 1 mark begins (Ok (given_after going self.old.given mark))) self.old self.new) }
        ensures err { OnErr result (self.new ≡ self.old) }
    {
        if begins {
            self.mode = Mode::Doubtful;
            return Ok(Answer::CanHave);
        }
        self.given.go(going, mark)?;
        self.heard = self.heard.advanced(resp);
        Ok(Answer::CanHave)
    }

    // Only a station that has begun again can have sent it.
    fn gives_anew(
        &mut self,
        begins: bool,
        resp: u8,
        wrong: Wrong,
        mark: u64,
    ) -> Result<Answer, AllocError>
        requires { begins ≡ true → specs.can_begin self.old resp ≡ true }
        ensures ok { IfOk result (λ answer. Answers answer (specs.gives_either self.old resp 1 mark begins (Err wrong)) self.old self.new) }
        ensures err { OnErr result (self.new ≡ self.old) }
    {
        if !begins {
            return Ok(Answer::CannotHave(wrong));
        }
        self.given.restart_with(mark)?;
        self.runs_from(self.beginning, resp);
        Ok(Answer::CanHave)
    }
}
