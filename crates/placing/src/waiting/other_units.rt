//! The units of the other side.

ghost use Rattle.std.specs.Prelude.{◌≡◌, OnOk};
ghost use Rattle.placing.specs.Placed.{IsInTime, Puts};

use super::Waiting;
use crate::user_link::UserAct;
use capture_record::{Entry, Fate};
use std::alloc::AllocError;

impl Waiting {
    /// Puts the line of the next unit of the other side, which came, after that of a call that was given up before. `AllocError` where there is no
    /// memory for them. If it had not passed before the side's next unit, it gets no line; no search names such a one.
    #[tactic(auto, using(crate::proofs::Puts::puts_then))]
    pub(super) fn put_other(&mut self, kept: bool) -> Result<(), AllocError>
        ensures { OnOk result (Puts self.old self.new) }
    {
        if !self.has_passed() {
            self.lose();
            return Ok(());
        }
        if kept {
            self.put_abort()?;
            self.keep_packet()?;
            let act = self.next_answer()?;
            self.put_came(Fate::Kept)?;
            return self.put_user_act(act);
        }
        self.put_came(Fate::NotKept)
    }

    // A call that was given up before the packet of the next unit of the other side, which answers it.
    fn put_abort(&mut self) -> Result<(), AllocError>
        ensures puts { OnOk result (Puts self.old self.new) }
        ensures same { self.new.units ≡ self.old.units }
    {
        match self.next_given_up() {
            Some(link) => self.put_aside(Entry::Abort { link }, &[]),
            None => self.put_nothing(),
        }
    }

    fn next_given_up(&mut self) -> Option<u16>
        ensures { self.new ≡ self.old }
    {
        let (Some(unit), Some(links)) = (self.other.front(), &mut self.links) else {
            return None;
        };
        links.given_up_by_answer(unit.as_slice())
    }

    // How the user answers the call in the next unit of the other side, where that is assumed.
    fn next_answer(&mut self) -> Result<Option<UserAct>, AllocError>
        ensures { self.new ≡ self.old }
    {
        let Some(links) = &mut self.links else {
            return Ok(None);
        };
        match self.turned.answer_to(self.gone) {
            Some(answer) => links.answered(answer),
            None => Ok(None),
        }
    }

    #[tactic(auto, using(crate::proofs::Puts::puts_nothing))]
    fn put_came(&mut self, fate: Fate) -> Result<(), AllocError>
        requires { IsInTime self.old.units.gone self.old.units.seen }
        ensures { OnOk result (Puts self.old self.new) }
    {
        let hint = self.next_hint();
        match self.take_other() {
            Some(unit) => self.line(Entry::Received { fate, hint }, unit.as_slice()),
            None => Ok(()),
        }
    }

    // The number of the next unit of the other side.
    fn next_hint(&self) -> u64
        ensures { result ≡ self.now.units.gone }
    {
        self.gone
    }

    // The packet of the next unit of the other side is kept.
    fn keep_packet(&mut self) -> Result<(), AllocError>
        ensures { self.new ≡ self.old }
    {
        let (Some(unit), Some(links)) = (self.other.front(), &mut self.links) else {
            return Ok(());
        };
        links.keep(unit.as_slice())
    }

    /// The next unit of the other side was lost.
    #[tactic(auto, using(crate::proofs::Puts::puts_lost, crate::proofs::Puts::puts_nothing))]
    pub(super) fn lose(&mut self)
        ensures { Puts self.old self.new }
    {
        match self.take_other() {
            Some(_) => {}
            None => {}
        }
    }
}
