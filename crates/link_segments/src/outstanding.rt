//! The segments of a link that are given and not acknowledged.

ghost use Rattle.std.specs.Prelude.{◌≡◌, ◌+◌, ◌-◌, ◌<◌, ◌≤◌, ◌++◌, ◌∷◌, [], length, drop, slice_get, option_copied, nat_le, OnOk, OnErr};
ghost use Rattle.wire_base.specs.Window.{empty_from};
ghost use Rattle.dna_links.specs.SegmentBook.{wire, distance};
ghost use Rattle.dna_links.specs.SegmentBook as segments;
ghost use Rattle.std.specs.List.{AllByRecursion};
ghost use Rattle.dna_packet.specs.AckWord.{IsAckWord};
ghost use Rattle.link_segments.specs.Outstanding.{acknowledged_to, acknowledged_words};

use dna_packet::{AckQualifier, AckWord};
use std::alloc::{AllocError, Global};
use std::marker::{Model, PhantomData};
use wire_base::{PushFault, Seq, Window};

/// How many segments may be outstanding; no repeat, no acknowledgement in one and no segment that is held reaches further.
pub const REACH: u16 = 2_047;

/// The segments of a link that are given and not acknowledged, in the order of their numbers. Its window is made at the first one. A
/// contract sees it as a window of 2,047 places, the first number of which is the highest acknowledged.
#[derive(Drop)]
pub struct Outstanding<T: Drop, W: Window<T, 4096> + Drop> {
    window: Option<W>,
    segment: PhantomData<T>,
}

impl<T: Drop, W: Window<T, 4096> + Drop> Model for Outstanding<T, W> {
    ghost use Rattle.std.specs.Prelude.{◌≡◌};
    ghost use Rattle.wire_base.specs.Window.{WindowView};
    ghost use Rattle.link_segments.specs.Outstanding.{shown};

    ghost Value = { WindowView T };

    ghost view = { λ o. shown W.window o.window };

    ghost invariant = { λ o. (shown W.window o.window).capacity ≡ 2047 };
}

impl<T: Drop, W: Window<T, 4096> + Drop> Outstanding<T, W> {
    /// None is given. Takes no memory.
    pub fn new() -> Self
        ensures { result ≡ empty_from 2047 0 }
    {
        Outstanding {
            window: None,
            segment: PhantomData,
        }
    }

    /// How many there are.
    pub fn len(&self) -> usize
        ensures len { result ≡ length self.now.items }
        ensures within { result ≤ 2047 }
    {
        match &self.window {
            Some(window) => window.len(),
            None => 0,
        }
    }

    /// The highest number acknowledged, modulo 4,096.
    pub fn acknowledged(&self) -> Seq<4096>
        ensures { result ≡ self.now.first }
    {
        match &self.window {
            Some(window) => window.first(),
            None => Seq::of(0),
        }
    }

    /// The highest number given, modulo 4,096.
    pub fn highest(&self) -> Seq<4096>
        ensures { result ≡ wire (self.now.first + length self.now.items) }
    {
        Seq::of(u64::from(self.acknowledged().value()) + self.len() as u64)
    }

    /// The segment at a place, counted from the one after the highest acknowledged.
    pub fn segment(&self, place: usize) -> Option<&T>
        ensures { option_copied result ≡ slice_get self.now.items place }
    {
        match &self.window {
            Some(window) => window.item(place),
            None => None,
        }
    }

    /// A segment is given: it gets the next number. Where its memory, or at the first one that of the window, is refused, nothing
    /// changes.
    pub fn give(&mut self, alloc: Global, segment: T) -> Result<(), AllocError>
        requires { length self.old.items < 2047 }
        ensures ok { OnOk result (self.new ≡ record self.old { items = self.old.items ++ segment ∷ [] }) }
        ensures err { OnErr result (self.new ≡ self.old) }
    {
        match &mut self.window {
            Some(window) => push(window, segment),
            None => {
                let mut window = W::make(alloc, REACH, 0)?;
                push(&mut window, segment)?;
                self.window = Some(window);
                Ok(())
            }
        }
    }

    /// All segments through this number are acknowledged, where it lies at most as far above the acknowledged number as segments are
    /// outstanding; otherwise nothing changes. Takes no memory.
    pub fn acknowledge(&mut self, number: u16)
        requires { number < 4096 }
        ensures { self.new ≡ acknowledged_to (nat_le (distance self.old.first number) (length self.old.items)) number self.old }
    {
        let count = usize::from(Seq::distance(self.acknowledged(), Seq::of(u64::from(number))));
        if count > self.len() {
            return;
        }
        if let Some(window) = &mut self.window {
            window.release(count);
        }
    }

    /// Each of these words acknowledges, but those of the other subchannel. Takes no memory.
    #[tactic(auto, using(crate::proofs::Acknowledged::words))]
    pub fn acknowledge_all(&mut self, words: &[AckWord])
        requires { AllByRecursion IsAckWord words.now }
        ensures { self.new ≡ acknowledged_words words.now self.old }
    {
        for word in words {
            if is_of_data(word.qualifier) {
                self.acknowledge(word.number);
            }
        }
    }
}

// Puts a segment into a window that has room.
fn push<T: Drop, W: Window<T, 4096> + Drop>(window: &mut W, segment: T) -> Result<(), AllocError>
    requires capacity { (W.window window.old).capacity ≡ 2047 }
    requires room { length (W.window window.old).items < 2047 }
    ensures ok { OnOk result (W.window window.new ≡ record (W.window window.old) { items = (W.window window.old).items ++ segment ∷ [] }) }
    ensures err { OnErr result (W.window window.new ≡ W.window window.old) }
{
    match window.push(segment) {
        Ok(()) => Ok(()),
        Err((_, PushFault::OutOfMemory)) => Err(AllocError),
        Err((_, PushFault::Full)) => unreachable!(),
    }
}

/// Whether a word with this qualifier acknowledges data segments, and none of the other subchannel.
pub fn is_of_data(qualifier: AckQualifier) -> bool
    ensures { result ≡ segments.is_of_data qualifier }
{
    match qualifier {
        AckQualifier::Ack | AckQualifier::Nak => true,
        AckQualifier::OtherAck | AckQualifier::OtherNak => false,
    }
}
