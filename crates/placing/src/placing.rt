//! One side, and what is written of it.

ghost use Rattle.std.specs.Prelude.{◌≡◌, ◌≤◌, [], length, IfOk, OnOk};
ghost use Rattle.capture_record.specs.declared.limit.TheConstants.{MAX_UNIT};
ghost use Rattle.placing.specs.Placed.{Puts, nothing, with_other, with_own};

use crate::search::Search;
use crate::turn::Turn;
use crate::turned::Turned;
use crate::waiting::Waiting;
use std::alloc::{AllocError, Global};
use std::marker::Model;
use wire_base::Side;

/// One side of a line as a tap sees it: the units that it sent, and those of the other side, in the order in which they passed. It puts the lines of
/// the side's capture, without the head: its units, and between them what a search found of what came and what its user did.
///
/// ```text
/// the other side's STRT passes       sent_by_other
/// the side's STACK passes            sent
/// finish, and the lines              u start / r 0 0506.. / s 0507..
/// ```
#[derive(Drop)]
pub struct Placing {
    waiting: Waiting,
}

impl Model for Placing {
    ghost use Rattle.placing.specs.Placed.{Waiting};

    ghost Value = { Waiting };

    ghost view = { λ placing. placing.waiting };
}

impl Placing {
    /// Nothing passed yet of this side, of which these turns are assumed. With `line_alone` no packet is read, and no event of a link is put.
    /// `AllocError` where there is no memory for it.
    pub fn new(
        alloc: Global,
        line_alone: bool,
        side: Side,
        turns: &[Turn],
    ) -> Result<Placing, AllocError>
        ensures { IfOk result (λ placing. placing ≡ nothing) }
    {
        let turned = Turned::of(alloc, side, turns)?;
        let waiting = Waiting::new(alloc, line_alone, turned);
        Ok(Placing { waiting })
    }

    /// A unit of the other side passed. `AllocError` where there is no memory for it; then no other call is right.
    pub fn sent_by_other(&mut self, unit: &[u8]) -> Result<(), AllocError>
        requires { length unit.now ≤ MAX_UNIT }
        ensures { OnOk result (self.new ≡ with_other unit.now self.old) }
    {
        self.waiting.push_other(unit)
    }

    /// A unit of the side passed. `AllocError` as there.
    pub fn sent(&mut self, unit: &[u8]) -> Result<(), AllocError>
        requires { length unit.now ≤ MAX_UNIT }
        ensures { OnOk result (self.new ≡ with_own unit.now self.old) }
    {
        self.waiting.push_own(unit)
    }

    /// Puts the lines of what the search of both sides takes back no more of this one. `AllocError` where there is no memory for them.
    pub fn settle(&mut self, search: &mut Search, side: Side) -> Result<(), AllocError>
        ensures { OnOk result (Puts self.old self.new) }
    {
        put_settled(search, side, &mut self.waiting, false)
    }

    /// Puts the lines of all that is left, those of the side's units that have no placing too. `AllocError` as for `settle`.
    #[tactic(auto, using(crate::proofs::Puts::puts_then))]
    pub fn finish(&mut self, search: &mut Search, side: Side) -> Result<(), AllocError>
        ensures puts { OnOk result (Puts self.old self.new) }
        ensures all { OnOk result (self.new.units.own ≡ []) }
    {
        search.end(side)?;
        put_settled(search, side, &mut self.waiting, true)?;
        self.waiting.put_rest()
    }

    /// The lines that are put and not cleared.
    pub fn text(&self) -> &[u8]
        ensures { result.now ≡ self.now.text }
    {
        self.waiting.text()
    }

    /// The lines were written: no line is put any more.
    pub fn clear_text(&mut self)
        ensures { self.new ≡ record self.old { text = [] } }
    {
        self.waiting.clear_text();
    }
}

// Puts the lines of what is taken back no more. A message that its user hands in waits until it is whole, but at the end.
#[tactic(auto, using(crate::proofs::Puts::puts_then, crate::proofs::Puts::puts_nothing))]
fn put_settled(
    search: &mut Search,
    side: Side,
    waiting: &mut Waiting,
    at_end: bool,
) -> Result<(), AllocError>
    ensures { OnOk result (Puts waiting.old waiting.new) }
{
    for _ in 0..search.settled(side) {
        if !at_end && waiting.is_held() {
            return Ok(());
        }
        let Some(made) = search.next(side) else {
            return Ok(());
        };
        waiting.put(made)?;
    }
    Ok(())
}
