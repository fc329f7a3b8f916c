//! How the links of a node are found without a look at all that ever were.

ghost use Rattle.std.specs.Prelude.{◌≡◌, ◌≤◌, ◌<◌, ◌+◌, ◌-◌, ◌^◌, ℕ, suc, Some, None, true, false, nat_eq, eqb, ltb, OnOk, OnErr, if◌then◌else◌};
ghost use Rattle.std.specs.Ordering.{nat_cmp};
ghost use Rattle.std.specs.BTreeMap.{get};
ghost use Rattle.std.specs.HashMap.{spare};
ghost use Rattle.std.specs.HashMap as hashed;
ghost use Rattle.nsp_link.specs.inner.Index.{times};
ghost use Rattle.nsp_link.specs.inner.Index as index;

use dna_links::LinkTest;
use std::alloc::{AllocError, Global};
use std::collections::{BTreeMap, HashMap};

/// Where a look-up looks. What may be needed once a CC comes, which takes no memory, is taken when its link begins.
#[derive(Drop)]
pub struct Index {
    // the number of the link that got an own address last
    holders: BTreeMap<u16, usize>,
    // the number of the link that a CI from an address of the other side began last
    callers: BTreeMap<u16, usize>,
    // how many live links know an address of the other side
    reached: HashMap<u16, usize>,
    // how many links in Calling there may be: each gets to know an address of the other side
    waiting: usize,
    // of how many links that a CI from an address of the other side began something may still be sent, while that is counted
    in_use: HashMap<u16, usize>,
    // whether it is: with queues, from the first link on
    counts: bool,
    ghost room: { waiting ≤ spare reached },
}

impl Index {
    /// Of no links. Takes no memory.
    pub fn new(alloc: Global) -> Self
        ensures holder { (q : ℕ) → get nat_cmp result.holders q ≡ None }
        ensures caller { (q : ℕ) → get nat_cmp result.callers q ≡ None }
        ensures reached { (q : ℕ) → times (hashed.get nat_eq result.reached q) ≡ 0 }
        ensures waiting { result.waiting ≡ 0 }
        ensures counts { result.counts ≡ false }
    {
        Index {
            holders: BTreeMap::new(alloc),
            callers: BTreeMap::new(alloc),
            reached: HashMap::new(alloc),
            waiting: 0,
            in_use: HashMap::new(alloc),
            counts: false,
        }
    }

    /// The number of the one link that may pass.
    #[inline(always)]
    pub fn candidate(&self, test: LinkTest) -> Option<usize>
        ensures { result ≡ index.candidate test (λ q. get nat_cmp self.now.holders q) (λ q. get nat_cmp self.now.callers q) }
    {
        match test {
            LinkTest::HasAddress { own } => self.holder(own),
            LinkTest::LiveAt { own } => self.holder(own),
            LinkTest::TheLink { own, .. } => self.holder(own),
            LinkTest::OpenedAt { own } => self.holder(own),
            LinkTest::CallingAt { own } => self.holder(own),
            LinkTest::ActedOn { own, .. } => self.holder(own),
            LinkTest::CalledBy { far } => self.caller(far),
            LinkTest::BegunBy { far } => self.caller(far),
            LinkTest::LiveTo { .. } => None,
        }
    }

    /// The number of the link that got this own address last.
    #[inline(always)]
    pub fn holder(&self, own: u16) -> Option<usize>
        ensures { result ≡ get nat_cmp self.now.holders own }
    {
        self.holders.get(&own).copied()
    }

    // The number of the link that a CI from this address began last.
    fn caller(&self, far: u16) -> Option<usize>
        ensures { result ≡ get nat_cmp self.now.callers far }
    {
        self.callers.get(&far).copied()
    }

    /// How many live links know this address of the other side.
    pub fn times(&self, far: u16) -> usize
        ensures { result ≡ times (hashed.get nat_eq self.now.reached far) }
    {
        match self.reached.get(&far) {
            Some(count) => *count,
            None => 0,
        }
    }

    /// There is room for one more link that knows an address of the other side, or will. Nothing else changes.
    pub fn reserve(&mut self) -> Result<(), AllocError>
        requires { self.old.waiting < 2 ^ 63 }
        ensures ok { OnOk result (self.new.waiting < spare self.new.reached) }
        ensures reached { (q : ℕ) → times (hashed.get nat_eq self.new.reached q) ≡ times (hashed.get nat_eq self.old.reached q) }
        ensures holders { self.new.holders ≡ self.old.holders }
        ensures callers { self.new.callers ≡ self.old.callers }
        ensures waiting { self.new.waiting ≡ self.old.waiting }
        ensures in_use { self.new.in_use ≡ self.old.in_use }
        ensures counts { self.new.counts ≡ self.old.counts }
    {
        self.reached.reserve(self.waiting + 1)
    }

    /// The link with this number is from now on the holder of an own address. Where memory is refused, nothing changes.
    pub fn give(&mut self, own: u16, number: usize) -> Result<(), AllocError>
        ensures ok { (q : ℕ) → OnOk result (get nat_cmp self.new.holders q ≡ (if eqb own q then Some number else get nat_cmp self.old.holders q)) }
        ensures err { (q : ℕ) → OnErr result (get nat_cmp self.new.holders q ≡ get nat_cmp self.old.holders q) }
        ensures callers { self.new.callers ≡ self.old.callers }
        ensures reached { self.new.reached ≡ self.old.reached }
        ensures waiting { self.new.waiting ≡ self.old.waiting }
        ensures in_use { self.new.in_use ≡ self.old.in_use }
        ensures counts { self.new.counts ≡ self.old.counts }
    {
        match self.holders.insert(own, number) {
            Ok(_) => Ok(()),
            Err(_) => Err(AllocError),
        }
    }

    /// The link with this number is from now on the last one that a CI from this address began. Where memory is refused, nothing changes.
    pub fn call(&mut self, far: u16, number: usize) -> Result<(), AllocError>
        ensures ok { (q : ℕ) → OnOk result (get nat_cmp self.new.callers q ≡ (if eqb far q then Some number else get nat_cmp self.old.callers q)) }
        ensures err { (q : ℕ) → OnErr result (get nat_cmp self.new.callers q ≡ get nat_cmp self.old.callers q) }
        ensures holders { self.new.holders ≡ self.old.holders }
        ensures reached { self.new.reached ≡ self.old.reached }
        ensures waiting { self.new.waiting ≡ self.old.waiting }
        ensures in_use { self.new.in_use ≡ self.old.in_use }
        ensures counts { self.new.counts ≡ self.old.counts }
    {
        match self.callers.insert(far, number) {
            Ok(_) => Ok(()),
            Err(_) => Err(AllocError),
        }
    }

    /// One more link is in Calling, for which there is room.
    pub fn wait(&mut self)
        requires room { self.old.waiting < spare self.old.reached }
        requires few { self.old.waiting < 2 ^ 63 }
        ensures waiting { self.new.waiting ≡ suc self.old.waiting }
        ensures holders { self.new.holders ≡ self.old.holders }
        ensures callers { self.new.callers ≡ self.old.callers }
        ensures reached { self.new.reached ≡ self.old.reached }
        ensures in_use { self.new.in_use ≡ self.old.in_use }
        ensures counts { self.new.counts ≡ self.old.counts }
    {
        self.waiting += 1;
    }

    /// One link in Calling is so no more.
    pub fn stop_waiting(&mut self)
        requires { 0 < self.old.waiting }
        ensures waiting { suc self.new.waiting ≡ self.old.waiting }
        ensures room { self.new.waiting < spare self.new.reached }
        ensures holders { self.new.holders ≡ self.old.holders }
        ensures callers { self.new.callers ≡ self.old.callers }
        ensures reached { self.new.reached ≡ self.old.reached }
        ensures in_use { self.new.in_use ≡ self.old.in_use }
        ensures counts { self.new.counts ≡ self.old.counts }
    {
        self.waiting -= 1;
    }

    /// One more live link knows this address of the other side; there is room.
    pub fn reach(&mut self, far: u16)
        requires room { self.old.waiting < spare self.old.reached }
        requires few { times (hashed.get nat_eq self.old.reached far) < 2 ^ 63 }
        ensures reached { (q : ℕ) → times (hashed.get nat_eq self.new.reached q)
            ≡ (if eqb far q then suc (times (hashed.get nat_eq self.old.reached q)) else times (hashed.get nat_eq self.old.reached q)) }
        ensures holders { self.new.holders ≡ self.old.holders }
        ensures callers { self.new.callers ≡ self.old.callers }
        ensures waiting { self.new.waiting ≡ self.old.waiting }
        ensures in_use { self.new.in_use ≡ self.old.in_use }
        ensures counts { self.new.counts ≡ self.old.counts }
    {
        let times = self.times(far);
        match self.reached.insert(far, times + 1) {
            Ok(_) => {}
            Err(_) => unreachable!(),
        }
    }

    /// One of the links that know this address of the other side lives no more.
    pub fn leave(&mut self, far: u16)
        requires { 0 < times (hashed.get nat_eq self.old.reached far) }
        ensures reached { (q : ℕ) → (if eqb far q then suc (times (hashed.get nat_eq self.new.reached q)) else times
            (hashed.get nat_eq self.new.reached q))
            ≡ times (hashed.get nat_eq self.old.reached q) }
        ensures holders { self.new.holders ≡ self.old.holders }
        ensures callers { self.new.callers ≡ self.old.callers }
        ensures waiting { self.new.waiting ≡ self.old.waiting }
        ensures in_use { self.new.in_use ≡ self.old.in_use }
        ensures counts { self.new.counts ≡ self.old.counts }
    {
        let times = self.times(far);
        if times == 1 {
            self.reached.remove(&far);
            return;
        }
        if let Some(count) = self.reached.get_mut(&far) {
            *count = times - 1;
        }
    }

    /// Of how many links that a CI from this address began something may still be sent, while that is counted.
    pub fn uses(&self, far: u16) -> usize
        ensures { result ≡ times (hashed.get nat_eq self.now.in_use far) }
    {
        match self.in_use.get(&far) {
            Some(count) => *count,
            None => 0,
        }
    }

    /// There is room to count one more link that a CI begins. Nothing else changes.
    pub fn reserve_use(&mut self) -> Result<(), AllocError>
        ensures ok { OnOk result (0 < spare self.new.in_use) }
        ensures in_use { (q : ℕ) → times (hashed.get nat_eq self.new.in_use q) ≡ times (hashed.get nat_eq self.old.in_use q) }
        ensures holders { self.new.holders ≡ self.old.holders }
        ensures callers { self.new.callers ≡ self.old.callers }
        ensures reached { self.new.reached ≡ self.old.reached }
        ensures waiting { self.new.waiting ≡ self.old.waiting }
        ensures counts { self.new.counts ≡ self.old.counts }
    {
        self.in_use.reserve(1)
    }

    /// One more link that a CI from this address began may send something; there is room.
    pub fn begin_use(&mut self, far: u16)
        requires room { 0 < spare self.old.in_use }
        requires few { times (hashed.get nat_eq self.old.in_use far) < 2 ^ 63 }
        ensures in_use { (q : ℕ) → times (hashed.get nat_eq self.new.in_use q)
            ≡ (if eqb far q then suc (times (hashed.get nat_eq self.old.in_use q)) else times (hashed.get nat_eq self.old.in_use q)) }
        ensures holders { self.new.holders ≡ self.old.holders }
        ensures callers { self.new.callers ≡ self.old.callers }
        ensures reached { self.new.reached ≡ self.old.reached }
        ensures waiting { self.new.waiting ≡ self.old.waiting }
        ensures counts { self.new.counts ≡ self.old.counts }
    {
        let times = self.uses(far);
        match self.in_use.insert(far, times + 1) {
            Ok(_) => {}
            Err(_) => unreachable!(),
        }
    }

    /// Nothing of one of the links that a CI from this address began is sent any more.
    pub fn end_use(&mut self, far: u16)
        requires { 0 < times (hashed.get nat_eq self.old.in_use far) }
        ensures in_use { (q : ℕ) → (if eqb far q then suc (times (hashed.get nat_eq self.new.in_use q)) else times
            (hashed.get nat_eq self.new.in_use q))
            ≡ times (hashed.get nat_eq self.old.in_use q) }
        ensures holders { self.new.holders ≡ self.old.holders }
        ensures callers { self.new.callers ≡ self.old.callers }
        ensures reached { self.new.reached ≡ self.old.reached }
        ensures waiting { self.new.waiting ≡ self.old.waiting }
        ensures counts { self.new.counts ≡ self.old.counts }
    {
        let times = self.uses(far);
        if times == 1 {
            self.in_use.remove(&far);
            return;
        }
        if let Some(count) = self.in_use.get_mut(&far) {
            *count = times - 1;
        }
    }

    /// Whether uses are counted.
    pub fn counts(&self) -> bool
        ensures { result ≡ self.now.counts }
    {
        self.counts
    }

    /// Uses are counted from now on, and there is none. Takes no memory.
    pub fn begin_counting(&mut self, alloc: Global)
        ensures counts { self.new.counts ≡ true }
        ensures in_use { (q : ℕ) → times (hashed.get nat_eq self.new.in_use q) ≡ 0 }
        ensures holders { self.new.holders ≡ self.old.holders }
        ensures callers { self.new.callers ≡ self.old.callers }
        ensures reached { self.new.reached ≡ self.old.reached }
        ensures waiting { self.new.waiting ≡ self.old.waiting }
    {
        self.in_use = HashMap::new(alloc);
        self.counts = true;
    }

    /// Uses are counted no more.
    pub fn stop_counting(&mut self)
        ensures counts { self.new.counts ≡ false }
        ensures in_use { self.new.in_use ≡ self.old.in_use }
        ensures holders { self.new.holders ≡ self.old.holders }
        ensures callers { self.new.callers ≡ self.old.callers }
        ensures reached { self.new.reached ≡ self.old.reached }
        ensures waiting { self.new.waiting ≡ self.old.waiting }
    {
        self.counts = false;
    }
}
