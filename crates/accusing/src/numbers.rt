//! The numbers that a side gave in its period.

ghost use Rattle.std.specs.Prelude.{◌≡◌, ◌+◌, ◌<◌, length, MatchResult, OnOk, OnErr, IsTrue};
ghost use Rattle.std.specs.Prelude.{[], ◌∷◌};
ghost use Rattle.wire_base.specs.Seq.{wire_distance};
ghost use Rattle.accusing.specs.Sight as specs;
ghost use Rattle.accusing.specs.Sight.{Given, none_given};
ghost use Rattle.accusing.specs.inner.Going.{given_after};
ghost use Rattle.accusing.specs.Heard.{reaches};

use crate::going::Going;
use crate::heard::{Heard, distance};
use crate::wrong::Wrong;
use std::alloc::{AllocError, Global};
use std::marker::Model;

/// How many data messages may be outstanding.
const WINDOW: usize = 255;

/// The data messages that a side sent first in its period, by the marks of their data. It takes 8 bytes for each.
#[derive(Drop)]
pub struct Numbers {
    // the marks, in the order of the numbers
    marks: Vec<u64>,
    // how many come before the newest, from the next to send on; 0 where that is new
    back: u8,
}

impl Model for Numbers {
    ghost use Rattle.accusing.specs.Sight.{Given};

    ghost Value = { Given };

    ghost view = { λ n. record { marks = n.marks.items; back = n.back } };
}

impl Numbers {
    /// None. It takes no memory.
    pub fn none(alloc: Global) -> Numbers
        ensures { result ≡ none_given }
    {
        Numbers {
            marks: Vec::new(alloc),
            back: 0,
        }
    }

    /// Whether none was given.
    pub fn is_empty(&self) -> bool
        ensures { result ≡ specs.gave_none self.now }
    {
        self.marks.len() == 0
    }

    /// The highest number given, modulo 256.
    pub fn highest(&self) -> u8
        ensures { result ≡ specs.highest self.now }
    {
        (self.marks.len() % 256) as u8
    }

    // How far before the number after the newest this number lies.
    fn back_to(&self, num: u8) -> u8
        ensures { result ≡ wire_distance 256 num (length self.now.marks + 1) }
    {
        ((self.marks.len() % 256 + 257 - usize::from(num)) % 256) as u8
    }

    fn gives_new(&self, heard: &Heard, mark: u64) -> Result<Going, Wrong>
        ensures { MatchResult result (λ going. specs.gives_new heard.now self.now mark ≡ Ok (given_after going self.now mark))
            (λ wrong. specs.gives_new heard.now self.now mark ≡ Err wrong) }
    {
        if self.marks.len() >= WINDOW && !heard.answered {
            return Err(Wrong::WindowFull);
        }
        Ok(Going::New)
    }

    fn gives_again(&self, to: u8, mark: u64) -> Result<Going, Wrong>
        requires { 0 < to }
        ensures { MatchResult result (λ going. specs.gives_again self.now to mark ≡ Ok (given_after going self.now mark))
            (λ wrong. specs.gives_again self.now to mark ≡ Err wrong) }
    {
        let count = self.marks.len();
        let back = usize::from(to);
        if count < back {
            return Err(Wrong::WrongNumber);
        }
        if self.marks[count - back] == mark {
            return Ok(Going::Again(to - 1));
        }
        Err(Wrong::Changed)
    }

    // Whether A can be the number before this one, which lies this far before the newest.
    fn may_follow(&self, heard: &Heard, to: u8, num: u8) -> bool
        ensures { result ≡ specs.may_follow heard.now self.now to num }
    {
        usize::from(to) == self.marks.len() || heard.has_resp(distance(1, num))
    }

    // Whether the next to send can have come to this number.
    fn may_go(&self, heard: &Heard, to: u8, num: u8) -> bool
        ensures { result ≡ specs.may_go heard.now self.now to num }
    {
        to == self.back
            || (self.may_follow(heard, to, num)
                && ((to <= self.back || heard.nak) && (self.back <= to || heard.answered)))
    }

    fn gives_at(&self, heard: &Heard, to: u8, num: u8, mark: u64) -> Result<Going, Wrong>
        ensures { MatchResult result (λ going. specs.gives_at heard.now self.now to num mark ≡ Ok (given_after going self.now mark))
            (λ wrong. specs.gives_at heard.now self.now to num mark ≡ Err wrong) }
    {
        if !self.may_go(heard, to, num) {
            return Err(Wrong::WrongNumber);
        }
        if to == 0 {
            return self.gives_new(heard, mark);
        }
        self.gives_again(to, mark)
    }

    /// Which data message goes with this RESP, this NUM and data of this mark, of a station that may have heard this; or why none can.
    pub fn gives(&self, heard: &Heard, resp: u8, num: u8, mark: u64) -> Result<Going, Wrong>
        ensures { MatchResult result
            (λ going. (specs.gives heard.now self.now resp num mark ≡ Ok (given_after going self.now mark)) × IsTrue (reaches heard.now resp))
            (λ wrong. specs.gives heard.now self.now resp num mark ≡ Err wrong) }
    {
        if !heard.reaches(resp) {
            return Err(Wrong::WrongResponse);
        }
        self.gives_at(heard, self.back_to(num), num, mark)
    }

    /// The data message goes.
    pub fn go(&mut self, going: Going, mark: u64) -> Result<(), AllocError>
        ensures ok { OnOk result (self.new ≡ given_after going self.old mark) }
        ensures err { OnErr result (self.new ≡ self.old) }
    {
        match going {
            Going::New => {
                self.marks.push(mark)?;
                self.back = 0;
            }
            Going::Again(back) => self.back = back,
        }
        Ok(())
    }

    /// A period begins, with none.
    pub fn restart(&mut self)
        ensures { self.new ≡ none_given }
    {
        self.marks.clear();
        self.back = 0;
    }

    /// A period begins, with one data message.
    pub fn restart_with(&mut self, mark: u64) -> Result<(), AllocError>
        ensures ok { OnOk result (self.new ≡ record { marks = mark ∷ []; back = 0 }) }
        ensures err { OnErr result (self.new ≡ self.old) }
    {
        if self.marks.is_empty() {
            self.marks.push(mark)?;
        } else {
            self.marks.truncate(1);
            self.marks[0] = mark;
        }
        self.back = 0;
        Ok(())
    }
}
