//! The units that are not written yet, and the lines that are.

ghost use Rattle.std.specs.Prelude.{◌≡◌, ◌≤◌, ◌<◌, ◌+◌, ◌-◌, ◌↔◌, IsTrue, [], ◌∷◌, ◌++◌, drop, length, None, IfSome, OnOk, OnErr};
ghost use Rattle.capture_record.specs.Entries.{record_with};
ghost use Rattle.capture.specs.Text.{record_line};
ghost use Rattle.capture.specs.declared.hint.HintForm.TheVariants.{Number};
ghost use Rattle.capture_record.specs.declared.limit.TheConstants.{MAX_UNIT, MAX_HINT, MAX_MESSAGE};
ghost use Rattle.placing.specs.inner.Aside.{IsOfNoUnit};
ghost use Rattle.placing.specs.Placed.{IsInTime, Puts, nothing, with_other, with_own};

mod other_units;
mod own_units;

use crate::movement::Move;
use crate::open_messages::OpenMessages;
use crate::passed_unit::PassedUnit;
use crate::turned::Turned;
use crate::user_links::UserLinks;
use capture::put_line;
use capture_record::{Entry, MAX_HINT};
use std::alloc::{AllocError, Global};
use std::collections::VecDeque;
use std::marker::Model;

/// The units of a side that are not written yet, those of the other side that may still come, and the lines that wait to be written. It writes the
/// units of the side as they were given, each once and in order; what comes between them, it is told.
#[derive(Drop)]
pub(crate) struct Waiting {
    own: VecDeque<PassedUnit>,
    // for each of these, how many units of the other side had passed before it
    seen: VecDeque<u64>,
    other: VecDeque<PassedUnit>,
    // how many units of the other side can't come any more
    gone: u64,
    text: Vec<u8>,
    // the links that its packets tell of, and the messages on them that are under way, unless nobody asks for them
    links: Option<UserLinks>,
    messages: Option<OpenMessages>,
    // how many of the side's units wait no more, and what is assumed of some
    taken: u64,
    turned: Turned,
    alloc: Global,
}

impl Model for Waiting {
    ghost use Rattle.std.specs.Prelude.{◌+◌, ◌≤◌, length};
    ghost use Rattle.capture_record.specs.declared.limit.TheConstants.{MAX_HINT};
    ghost use Rattle.placing.specs.Placed.{Waiting};

    ghost Value = { Waiting };

    ghost view = { λ w. record {
      units = record { own = w.own.items; seen = w.seen.items; other = w.other.items; gone = w.gone };
      text = w.text.items;
    } };

    ghost invariant = { λ w. w.gone + length w.other.items ≤ MAX_HINT };
}

impl Waiting {
    /// No unit and no line, of a side of which this is assumed. With `line_alone` no packet is read, and no event of a link is put.
    pub(crate) fn new(alloc: Global, line_alone: bool, turned: Turned) -> Waiting
        ensures { result ≡ nothing }
    {
        let (links, messages) = if line_alone {
            (None, None)
        } else {
            (Some(UserLinks::new(alloc)), Some(OpenMessages::new(alloc)))
        };
        Waiting {
            own: VecDeque::new(alloc),
            seen: VecDeque::new(alloc),
            other: VecDeque::new(alloc),
            gone: 0,
            text: Vec::new(alloc),
            links,
            messages,
            taken: 0,
            turned,
            alloc,
        }
    }

    /// The lines.
    pub(crate) fn text(&self) -> &[u8]
        ensures { result.now ≡ self.now.text }
    {
        self.text.as_slice()
    }

    /// The lines were written.
    pub(crate) fn clear_text(&mut self)
        ensures { self.new ≡ record self.old { text = [] } }
    {
        self.text.clear();
    }

    /// The side sent this unit. `AllocError` where there is no memory for it; then it waits not.
    pub(crate) fn push_own(&mut self, unit: &[u8]) -> Result<(), AllocError>
        requires { length unit.now ≤ MAX_UNIT }
        ensures ok { OnOk result (self.new ≡ with_own unit.now self.old) }
        ensures err { OnErr result (self.new ≡ self.old) }
    {
        let copy = PassedUnit::of(self.alloc, unit)?;
        self.own.reserve(1)?;
        self.seen.reserve(1)?;
        let seen = self.gone + self.other.len() as u64;
        let number = self.taken.saturating_add(self.own.len() as u64);
        if let Some(messages) = &mut self.messages {
            if self.turned.boots_before(number) {
                messages.boot();
            }
            messages.sent(unit)?;
        }
        self.own.push_back_reserved(copy);
        self.seen.push_back_reserved(seen);
        Ok(())
    }

    /// Whether the next unit of the side begins a user's message whose last segment has not passed yet.
    pub(crate) fn is_held(&self) -> bool {
        match &self.messages {
            Some(messages) => {
                !self.own.is_empty() && messages.begins_one(self.own.len() as u64 - 1)
            }
            None => false,
        }
    }

    /// The other side sent this unit. `AllocError` as there, and where it would be the one after number 999,999,999,999,999,999.
    pub(crate) fn push_other(&mut self, unit: &[u8]) -> Result<(), AllocError>
        requires { length unit.now ≤ MAX_UNIT }
        ensures ok { OnOk result (self.new ≡ with_other unit.now self.old) }
        ensures err { OnErr result (self.new ≡ self.old) }
    {
        if self.other.len() as u64 >= MAX_HINT - self.gone {
            return Err(AllocError);
        }
        let copy = PassedUnit::of(self.alloc, unit)?;
        self.other.reserve(1)?;
        self.other.push_back_reserved(copy);
        Ok(())
    }

    /// Puts the lines of this move. `AllocError` where there is no memory for them.
    pub(crate) fn put(&mut self, made: Move) -> Result<(), AllocError>
        ensures { OnOk result (Puts self.old self.new) }
    {
        match made {
            Move::Send { is_new } => self.put_own(is_new),
            Move::Keep => self.put_other(true),
            Move::Receive => self.put_other(false),
            Move::Lose => {
                self.lose();
                Ok(())
            }
            Move::Start => self.put_start(),
            Move::Halt => self.put_halt(),
        }
    }

    // The user starts the station, after the node booted if that is assumed.
    #[tactic(auto, using(crate::proofs::Puts::puts_then))]
    fn put_start(&mut self) -> Result<(), AllocError>
        ensures { OnOk result (Puts self.old self.new) }
    {
        if self.boots_now() {
            self.put_boot()?;
        }
        self.put_aside(Entry::Start, &[])
    }

    // The user halts the station, unless the node boots, which halts it too.
    fn put_halt(&mut self) -> Result<(), AllocError>
        ensures { OnOk result (Puts self.old self.new) }
    {
        if self.boots_now() {
            return self.put_nothing();
        }
        self.put_aside(Entry::Halt, &[])
    }

    // Whether it is assumed that the node boots before the next unit.
    fn boots_now(&self) -> bool {
        self.turned.boots_before(self.taken)
    }

    // The node boots.
    fn put_boot(&mut self) -> Result<(), AllocError>
        ensures { OnOk result (Puts self.old self.new) }
    {
        self.forget_links();
        self.put_aside(Entry::Boot, &[])
    }

    // All links are over.
    fn forget_links(&mut self)
        ensures { self.new ≡ self.old }
    {
        if let Some(links) = &mut self.links {
            links.boot();
        }
    }

    /// Puts the lines of all units of the side that wait.
    #[tactic(auto, using(crate::proofs::Puts::puts_then, crate::proofs::Puts::puts_nothing))]
    pub(crate) fn put_rest(&mut self) -> Result<(), AllocError>
        ensures puts { OnOk result (Puts self.old self.new) }
        ensures all { OnOk result (self.new.units.own ≡ []) }
    {
        while self.has_own() {
            self.put_own(true)?;
        }
        Ok(())
    }

    // Whether a unit of the side waits.
    fn has_own(&self) -> bool
        ensures { IsTrue result ↔ (0 < length self.now.units.own) }
    {
        !self.own.is_empty()
    }

    // Whether the next unit of the other side had passed before the next one of the side.
    fn has_passed(&self) -> bool
        ensures { IsTrue result → IsInTime self.now.units.gone self.now.units.seen }
    {
        match self.seen.front() {
            Some(count) => self.gone < *count,
            None => true,
        }
    }

    // The next unit of the side waits no more.
    fn take_own(&mut self) -> Option<PassedUnit>
        ensures taken { IfSome result (λ unit. self.old.units.own ≡ unit ∷ self.new.units.own) }
        ensures none { result ≡ None → self.new ≡ self.old }
        ensures empty { result ≡ None → self.old.units.own ≡ [] }
        ensures seen { IfSome result (λ _. self.new.units.seen ≡ drop 1 self.old.units.seen) }
        ensures other { self.new.units.other ≡ self.old.units.other }
        ensures gone { self.new.units.gone ≡ self.old.units.gone }
        ensures text { self.new.text ≡ self.old.text }
    {
        self.taken = self.taken.saturating_add(1);
        match self.own.pop_front() {
            Some(unit) => {
                let _ = self.seen.pop_front();
                Some(unit)
            }
            None => None,
        }
    }

    // The next unit of the other side can't come any more.
    fn take_other(&mut self) -> Option<PassedUnit>
        ensures taken { IfSome result (λ unit. self.old.units.other ≡ unit ∷ self.new.units.other) }
        ensures counted { IfSome result (λ unit. self.new.units.gone ≡ self.old.units.gone + 1) }
        ensures none { result ≡ None → self.new ≡ self.old }
        ensures own { self.new.units.own ≡ self.old.units.own }
        ensures seen { self.new.units.seen ≡ self.old.units.seen }
        ensures text { self.new.text ≡ self.old.text }
    {
        match self.other.pop_front() {
            Some(unit) => {
                self.gone += 1;
                Some(unit)
            }
            None => None,
        }
    }

    // One line.
    fn line(&mut self, entry: Entry, bytes: &[u8]) -> Result<(), AllocError>
        requires { length bytes.now ≤ MAX_MESSAGE }
        ensures text { OnOk result (self.new.text ≡ self.old.text ++ record_line Number (record_with entry bytes.now)) }
        ensures units { self.new.units ≡ self.old.units }
    {
        put_line(&mut self.text, entry, bytes)
    }

    // A line of no unit.
    fn put_aside(&mut self, entry: Entry, bytes: &[u8]) -> Result<(), AllocError>
        requires short { length bytes.now ≤ MAX_MESSAGE }
        requires aside { IsOfNoUnit entry }
        ensures puts { OnOk result (Puts self.old self.new) }
        ensures same { self.new.units ≡ self.old.units }
    {
        self.line(entry, bytes)
    }

    // No line.
    fn put_nothing(&mut self) -> Result<(), AllocError>
        ensures puts { OnOk result (Puts self.old self.new) }
        ensures same { self.new.units ≡ self.old.units }
    {
        Ok(())
    }
}
