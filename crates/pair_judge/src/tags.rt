//! The tags of the stations beside the units that a line holds.

ghost use Rattle.std.specs.Prelude.{◌≡◌, ℕ, ◌≤◌, ◌<◌, [], ◌↔◌, IsTrue, OnOk, OnErr};

use dna_station::Tag;
use std::alloc::{AllocError, Global};
use std::collections::VecDeque;

/// Units that were sent one after another with the same tag.
#[derive(Clone, Copy)]
pub struct TagRun {
    /// The number of the first unit after them.
    pub end: u64,
    /// The tag of each of them.
    pub tag: Tag,
}

/// The tag of its station beside each unit of a line, by the unit's number, from the first that is held on. Units that were sent one after
/// another with one tag cost no more than one of them; it changes where the station starts or learns its partner's period.
#[derive(Drop)]
pub struct Tags {
    /// The runs after which another began, oldest first.
    pub older: VecDeque<TagRun>,
    /// The tag of all units after those.
    pub newest: Tag,
}

impl Tags {
    ghost use Rattle.pair_judge.specs.inner.Runs.{behind, tag_at, tag_of};

    /// No unit was sent yet. Takes no memory.
    pub fn new(alloc: Global) -> Tags
        ensures { result.older.items ≡ [] }
    {
        Tags {
            older: VecDeque::new(alloc),
            newest: Tag {
                period: 0,
                partner: None,
            },
        }
    }

    /// The unit with this number, and those that follow it, have this tag. `AllocError` where an allocation was refused; then nothing changed.
    #[inline(always)]
    pub fn push(&mut self, number: u64, tag: &Tag) -> Result<(), AllocError>
        requires { behind self.old.older.items ≤ number }
        ensures before { (k : ℕ) → k < number → tag_of self.new k ≡ tag_of self.old k }
        ensures ok { OnOk result ((k : ℕ) → number ≤ k → tag_of self.new k ≡ tag.now) }
        ensures err { OnErr result ((k : ℕ) → tag_of self.new k ≡ tag_of self.old k) }
        ensures end { behind self.new.older.items ≤ number }
    {
        if is_same(&self.newest, tag) {
            return Ok(());
        }
        self.begin_copied(number, tag)
    }

    // The same with a tag of its own, so that where no run begins nothing of the unit's goes through memory.
    #[inline(always)]
    fn begin_copied(&mut self, number: u64, tag: &Tag) -> Result<(), AllocError>
        requires { behind self.old.older.items ≤ number }
        ensures before { (k : ℕ) → k < number → tag_of self.new k ≡ tag_of self.old k }
        ensures ok { OnOk result ((k : ℕ) → number ≤ k → tag_of self.new k ≡ tag.now) }
        ensures err { OnErr result ((k : ℕ) → tag_of self.new k ≡ tag_of self.old k) }
        ensures end { behind self.new.older.items ≤ number }
    {
        let own = *tag;
        self.begin(number, &own)
    }

    // The unit with this number begins a run with this tag. Few units do: what this keeps on its way costs the others nothing.
    fn begin(&mut self, number: u64, tag: &Tag) -> Result<(), AllocError>
        requires { behind self.old.older.items ≤ number }
        ensures before { (k : ℕ) → k < number → tag_of self.new k ≡ tag_of self.old k }
        ensures ok { OnOk result ((k : ℕ) → number ≤ k → tag_of self.new k ≡ tag.now) }
        ensures err { OnErr result ((k : ℕ) → tag_of self.new k ≡ tag_of self.old k) }
        ensures end { behind self.new.older.items ≤ number }
    {
        self.older.reserve(1)?;
        let run = TagRun {
            end: number,
            tag: self.newest,
        };
        self.older.push_back_reserved(run);
        self.newest = *tag;
        Ok(())
    }

    /// The tag of the unit with this number.
    #[inline(always)]
    pub fn of(&self, number: u64) -> &Tag
        ensures { result.now ≡ tag_of self.now number }
    {
        for place in 0..self.older.len() {
            let run = &self.older[place];
            if number < run.end {
                return &run.tag;
            }
        }
        &self.newest
    }

    /// No unit in front of this number is asked for any more. Takes no memory.
    #[inline(always)]
    pub fn release(&mut self, front: u64)
        ensures tags { (k : ℕ) → front ≤ k → tag_of self.new k ≡ tag_of self.old k }
        ensures end { behind self.new.older.items ≤ behind self.old.older.items }
    {
        if self.older.is_empty() {
            return;
        }
        if front < self.older[0].end {
            return;
        }
        self.let_go(front);
    }

    // Lets go of the runs that end in front of this number. Few units end one.
    fn let_go(&mut self, front: u64)
        ensures tags { (k : ℕ) → front ≤ k → tag_of self.new k ≡ tag_of self.old k }
        ensures end { behind self.new.older.items ≤ behind self.old.older.items }
    {
        while !self.older.is_empty() && self.older[0].end <= front {
            let _ = self.older.pop_front();
        }
    }
}

// Whether both are the same.
#[inline(always)]
fn is_same(one: &Tag, other: &Tag) -> bool
    ensures { IsTrue result ↔ (one.now ≡ other.now) }
{
    if one.period != other.period {
        return false;
    }
    match one.partner {
        Some(partner) => match other.partner {
            Some(other_partner) => partner == other_partner,
            None => false,
        },
        None => other.partner.is_none(),
    }
}
