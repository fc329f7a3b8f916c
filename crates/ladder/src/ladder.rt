//! The ladder itself.

ghost use Rattle.std.specs.Prelude.{◌≡◌, ◌≤◌, OnErr, OnOk};
ghost use Rattle.ddcmp_msg.specs.Reading.{IsSound, reading};
ghost use Rattle.ladder.specs.Ladder as spec;

use crate::drawn::Drawn;
use crate::half::Half;
use crate::rows::{Keep, Rows};
use crate::told::Told;
use capture_record::Entry;
use std::alloc::{AllocError, Global};
use std::marker::Model;
use wire_base::Side;

/// What was told of the records of two captures.
///
/// It is told each record that was made ([`Ladder::made`], or [`Ladder::learn`] of one that has no row), then perhaps the one that was refused
/// ([`Ladder::refused`]), and those after it ([`Ladder::follows`]), and at last that there is no more ([`Ladder::end`]); then
/// [`Ladder::drawn`] has the rows. Memory is taken for four records a row that may be drawn, and for the units that were sent and neither came nor
/// were passed over. A record touches those that are kept and the units that it passes over.
#[derive(Drop)]
pub struct Ladder {
    a: Half,
    b: Half,
    kept: Rows,
    ended: bool,
}

impl Model for Ladder {
    ghost use Rattle.ladder.specs.Ladder.{LadderView};

    ghost Value = { LadderView };

    ghost view = { λ l. record { a = l.a; b = l.b; kept = l.kept; ended = l.ended } };
}

impl Ladder {
    ghost use Rattle.std.specs.Prelude.{IfOk, false, true};
    ghost use Rattle.ladder.specs.Drawn.{IsDrawn};
    ghost use Rattle.ladder.specs.Rows.{no_rows};

    /// No record yet. At most `room` rows are drawn, 1 to 200. `AllocError` where there is no memory for their records.
    pub fn new(alloc: Global, keep: Keep, room: usize) -> Result<Ladder, AllocError>
        requires low { 1 ≤ room }
        requires high { room ≤ 200 }
        ensures rows { IfOk result (λ ladder. ladder.kept ≡ no_rows keep room) }
        ensures ended { IfOk result (λ ladder. ladder.ended ≡ false) }
        ensures a { IfOk result (λ ladder. ladder.a.line ≡ 2) }
        ensures b { IfOk result (λ ladder. ladder.b.line ≡ 2) }
    {
        Ok(Ladder {
            a: Half::new(alloc),
            b: Half::new(alloc),
            kept: Rows::new(alloc, keep, room)?,
            ended: false,
        })
    }

    /// This side's next record was made. `AllocError` where it sent a unit and there is no memory for that; then nothing changed.
    pub fn made(&mut self, side: Side, entry: Entry, bytes: &[u8]) -> Result<(), AllocError>
        ensures ok { OnOk result (self.new ≡ spec.made self.old side entry bytes.now) }
        ensures err { OnErr result (self.new ≡ self.old) }
    {
        match side {
            Side::A => {
                let told = self.a.next(&self.b, Side::A, entry, bytes);
                self.a.take(&told, entry)?;
                self.b.meet(entry);
                self.kept.made(&told);
                self.receive(side, entry);
                Ok(())
            }
            Side::B => {
                let told = self.b.next(&self.a, Side::B, entry, bytes);
                self.b.take(&told, entry)?;
                self.a.meet(entry);
                self.kept.made(&told);
                self.receive(side, entry);
                Ok(())
            }
        }
    }

    /// This side's next record was made, and neither it nor its unit is ever drawn; what is drawn after it goes by it, except for how units that
    /// come later were sent. What is said to be sound is read without its checks. Takes no memory.
    #[inline(always)]
    pub fn learn(&mut self, side: Side, entry: Entry, bytes: &[u8], sound: bool)
        requires { sound ≡ true → IsSound (reading bytes.now) }
        ensures { self.new ≡ spec.learned self.old side entry bytes.now }
    {
        match side {
            Side::A => self.a.learn(entry, bytes, sound),
            Side::B => self.b.learn(entry, bytes, sound),
        }
    }

    /// No record has a row yet; from now on they are kept so, and at most `room` rows are drawn, 1 to 200. `AllocError` where there is no memory
    /// for their records; then nothing changed.
    pub fn begin(&mut self, alloc: Global, keep: Keep, room: usize) -> Result<(), AllocError>
        requires low { 1 ≤ room }
        requires high { room ≤ 200 }
        ensures ok { OnOk result (self.new ≡ record self.old { kept = no_rows keep room }) }
        ensures err { OnErr result (self.new ≡ self.old) }
    {
        self.kept = Rows::new(alloc, keep, room)?;
        Ok(())
    }

    /// Which line of its capture this side's next record is on.
    pub fn line(&self, side: Side) -> u64
        ensures { result ≡ spec.line_of self.now side }
    {
        match side {
            Side::A => self.a.line,
            Side::B => self.b.line,
        }
    }

    /// This side's next record was refused. It is drawn in the last row, and with `changed` as damaged: as a receipt of bytes that are not those of
    /// its unit and show no damage. Takes no memory.
    pub fn refused(&mut self, side: Side, entry: Entry, bytes: &[u8], changed: bool)
        ensures { self.new ≡ spec.refused self.old side entry bytes.now changed }
    {
        let told = self.told(side, entry, bytes);
        self.kept.refused(&told, changed);
        self.receive(side, entry);
    }

    // This side's next record, as a row tells it.
    fn told(&self, side: Side, entry: Entry, bytes: &[u8]) -> Told
        ensures { result ≡ spec.told_in self.now side entry bytes.now }
    {
        match side {
            Side::A => self.a.next(&self.b, side, entry, bytes),
            Side::B => self.b.next(&self.a, side, entry, bytes),
        }
    }

    /// This record comes after the refused one. It is not drawn, and only tells which units come still. Takes no memory.
    pub fn follows(&mut self, side: Side, entry: Entry)
        ensures { self.new ≡ spec.follows self.old side entry }
    {
        self.receive(side, entry);
    }

    fn receive(&mut self, side: Side, entry: Entry)
        ensures { self.new ≡ spec.follows self.old side entry }
    {
        if let Entry::Received { hint, .. } = entry {
            self.kept.pass(side, hint);
        }
    }

    /// No record is left of either side: a unit that has not come never comes. Takes no memory.
    pub fn end(&mut self)
        ensures { self.new ≡ record self.old { ended = true } }
    {
        self.ended = true;
    }

    /// Whether no record is left.
    pub fn has_ended(&self) -> bool
        ensures { result ≡ self.now.ended }
    {
        self.ended
    }

    /// The rows, as they are drawn. `AllocError` where there is no memory for them.
    pub fn drawn(&self, alloc: Global) -> Result<Drawn, AllocError>
        ensures { IfOk result (λ drawn. IsDrawn self.now.kept self.now.ended drawn) }
    {
        Drawn::new(alloc, &self.kept, self.ended)
    }
}
