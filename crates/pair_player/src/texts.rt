//! The texts of both captures on the way to their writers.

ghost use Rattle.std.specs.Prelude.{◌≡◌, ◌<◌, [], ◌++◌, ◌||◌, ◌&&◌, not, ℕ, List, true, false, length, IfOk, OnOk, OnErr};
ghost use Rattle.wire_base.specs.Tally.{tally_faults, tally_lent};
ghost use Rattle.capture.specs.declared.format.Format.TheVariants as Layout;
ghost use Rattle.capture.specs.Text.{head_line};
ghost use Rattle.dna_play.specs.Script.{is_of_three};
ghost use Rattle.pair_player.specs.Step.{step_with};
ghost use Rattle.pair_player.specs.inner.Making.{HasHead, PutsLines};
ghost use Rattle.capture.specs.inner.Outlets.{Fails, PassBoth, Passes, outlet};

use crate::step::Step;
use capture::{Format, put_head_line};
use std::alloc::{AllocError, Global};
use std::io::Write;
use wire_base::{Side, Tally, WriteFailed, write_whole};

// So many bytes are written together.
const FULL: usize = 65_536;

// What is asked for at first: a step's lines are mostly shorter than the rest.
const ROOM: usize = 131_072;

// The place of a format's number in a head.
const NUMBER: usize = 6;

/// The lines of both captures that are not written yet. Unless they may be written in format 1 before it is known that no record needs format 3, all
/// wait until one does, or the script ends: only then is the format of their heads known.
#[derive(Drop)]
pub struct Texts {
    pub a: Vec<u8>,
    pub b: Vec<u8>,
    // The lines of the step at hand.
    pub step: Vec<u8>,
    // Whether they are in format 3.
    pub three: bool,
    // Whether a head was written, which can't be changed any more.
    pub is_begun: bool,
    // Whether they may be written before that is known.
    pub streams: bool,
}

impl Texts {
    /// No lines. `AllocError` where there is no memory for them.
    pub fn new(alloc: Global, streams: bool) -> Result<Texts, AllocError>
        ensures lines { IfOk result (λ texts. (texts.a.items ≡ []) × (texts.b.items ≡ [])) }
        ensures heads { IfOk result (λ texts. (texts.three ≡ false) × (texts.is_begun ≡ false) × (texts.streams ≡ streams)) }
    {
        let a = Vec::with_capacity(alloc, ROOM)?;
        let b = Vec::with_capacity(alloc, ROOM)?;
        let step = Vec::new(alloc);
        Ok(Texts {
            a,
            b,
            step,
            three: false,
            is_begun: false,
            streams,
        })
    }

    /// Appends the heads of both captures, in format 1. `AllocError` where there is no memory for them.
    pub fn put_heads(&mut self, node_a: u16, node_b: u16) -> Result<(), AllocError>
        ensures a { OnOk result (self.new.a.items ≡ self.old.a.items ++ head_line Layout.One node_a node_b) }
        ensures b { OnOk result (self.new.b.items ≡ self.old.b.items ++ head_line Layout.One node_b node_a) }
        ensures three { self.new.three ≡ self.old.three }
        ensures begun { self.new.is_begun ≡ self.old.is_begun }
        ensures streams { self.new.streams ≡ self.old.streams }
    {
        put_head_line(&mut self.a, Format::One, node_a, node_b)?;
        put_head_line(&mut self.b, Format::One, node_b, node_a)
    }

    /// Puts the lines of the step at hand after those of its side. `AllocError` where there is no memory for them; then no line is put.
    pub fn put_step(&mut self, side: Side) -> Result<(), AllocError>
        ensures ok { OnOk result (PutsLines side (self.old.a.items, self.old.b.items) (self.new.a.items, self.new.b.items) self.old.step.items) }
        ensures err_a { OnErr result (self.new.a.items ≡ self.old.a.items) }
        ensures err_b { OnErr result (self.new.b.items ≡ self.old.b.items) }
        ensures three { self.new.three ≡ self.old.three }
        ensures begun { self.new.is_begun ≡ self.old.is_begun }
        ensures streams { self.new.streams ≡ self.old.streams }
    {
        match side {
            Side::A => self.a.extend_from_slice(self.step.as_slice()),
            Side::B => self.b.extend_from_slice(self.step.as_slice()),
        }
    }

    /// Whether this step needs a head in format 3, and one in format 1 was written.
    pub fn is_too_late_for(&self, step: Step) -> bool
        ensures { (bytes : List ℕ) → result ≡ (self.now.is_begun && (not self.now.three && is_of_three (step_with step bytes))) }
    {
        self.is_begun && (!self.three && step.is_of_three())
    }

    /// After a step was made: where it is the first for whose record format 1 has no line, the captures are in format 3.
    pub fn go_by(&mut self, step: Step)
        ensures three { (bytes : List ℕ) → self.new.three ≡ (self.old.three || is_of_three (step_with step bytes)) }
        ensures a { (bytes : List ℕ) → HasHead (not self.old.three && is_of_three (step_with step bytes)) self.old.a.items self.new.a.items }
        ensures b { (bytes : List ℕ) → HasHead (not self.old.three && is_of_three (step_with step bytes)) self.old.b.items self.new.b.items }
        ensures begun { self.new.is_begun ≡ self.old.is_begun }
        ensures streams { self.new.streams ≡ self.old.streams }
    {
        if self.three {
            return;
        }
        if !step.is_of_three() {
            return;
        }
        self.three = true;
        head_anew(&mut self.a);
        head_anew(&mut self.b);
    }

    /// Writes all lines, those of a first. `Err`: the writer of this side failed in this call.
    pub fn write_out<A: Write, B: Write>(
        &mut self,
        a: &mut Tally<A>,
        b: &mut Tally<B>,
    ) -> Result<(), Side>
        ensures empty_a { OnOk result (self.new.a.items ≡ []) }
        ensures empty_b { OnOk result (self.new.b.items ≡ []) }
        ensures writes { PassBoth (
          outlet self.old.a.items (A.contents (tally_lent a.old)) (tally_faults a.old),
          outlet self.old.b.items (B.contents (tally_lent b.old))
              (tally_faults b.old),
        ) (
          outlet self.new.a.items (A.contents (tally_lent a.new)) (tally_faults a.new),
          outlet self.new.b.items (B.contents (tally_lent b.new))
              (tally_faults b.new),
        ) result }
    {
        let Ok(()) = write_text(&mut self.a, a) else {
            return Err(Side::A);
        };
        let Ok(()) = write_text(&mut self.b, b) else {
            return Err(Side::B);
        };
        Ok(())
    }

    /// In format 3, or where lines may be written before the format is known, it writes the lines of each side where one has many, so that few wait.
    /// `Err`: the writer of this side failed in this call.
    pub fn write_full<A: Write, B: Write>(
        &mut self,
        a: &mut Tally<A>,
        b: &mut Tally<B>,
    ) -> Result<(), Side>
        ensures few_a { self.old.three || self.old.streams ≡ true → OnOk result (length self.new.a.items < 65536) }
        ensures few_b { self.old.three || self.old.streams ≡ true → OnOk result (length self.new.b.items < 65536) }
        ensures waits_a { self.new.is_begun ≡ false → self.new.a.items ≡ self.old.a.items }
        ensures waits_b { self.new.is_begun ≡ false → self.new.b.items ≡ self.old.b.items }
        ensures begun { self.new.is_begun ≡ false → self.old.is_begun ≡ false }
        ensures holds { self.old.three || self.old.streams ≡ false → self.new.is_begun ≡ self.old.is_begun }
        ensures three { self.new.three ≡ self.old.three }
        ensures streams { self.new.streams ≡ self.old.streams }
        ensures writes { PassBoth (
          outlet self.old.a.items (A.contents (tally_lent a.old)) (tally_faults a.old),
          outlet self.old.b.items (B.contents (tally_lent b.old))
              (tally_faults b.old),
        ) (
          outlet self.new.a.items (A.contents (tally_lent a.new)) (tally_faults a.new),
          outlet self.new.b.items (B.contents (tally_lent b.new))
              (tally_faults b.new),
        ) result }
    {
        if !(self.three || self.streams) {
            return Ok(());
        }
        if self.a.len() < FULL && self.b.len() < FULL {
            return Ok(());
        }
        self.is_begun = true;
        let Ok(()) = write_if_full(&mut self.a, a) else {
            return Err(Side::A);
        };
        let Ok(()) = write_if_full(&mut self.b, b) else {
            return Err(Side::B);
        };
        Ok(())
    }
}

// A text with a head of format 1 has it in format 3 then.
#[tactic(auto, using(crate::proofs::Headed::headed))]
fn head_anew(text: &mut Vec<u8>)
    ensures { HasHead true text.old.items text.new.items }
{
    if text.len() > NUMBER {
        text[NUMBER] = b'3';
    }
}

// Writes a side's lines, and drops them. `WriteFailed`: the writer failed in this call, and took a beginning that is not all.
fn write_text<W: Write>(text: &mut Vec<u8>, writer: &mut Tally<W>) -> Result<(), WriteFailed>
    ensures empty { OnOk result (text.new.items ≡ []) }
    ensures ok { OnOk result (Passes
        (outlet text.old.items (W.contents (tally_lent writer.old)) (tally_faults writer.old))
        (outlet text.new.items (W.contents (tally_lent writer.new)) (tally_faults writer.new))) }
    ensures err { OnErr result (Fails
        (outlet text.old.items (W.contents (tally_lent writer.old)) (tally_faults writer.old))
        (outlet text.new.items (W.contents (tally_lent writer.new)) (tally_faults writer.new))) }
{
    match write_whole(writer, text.as_slice()) {
        Ok(()) => {
            text.clear();
            Ok(())
        }
        Err(failed) => Err(failed),
    }
}

// Writes a side's lines where they are many.
fn write_if_full<W: Write>(text: &mut Vec<u8>, writer: &mut Tally<W>) -> Result<(), WriteFailed>
    ensures few { OnOk result (length text.new.items < 65536) }
    ensures ok { OnOk result (Passes
        (outlet text.old.items (W.contents (tally_lent writer.old)) (tally_faults writer.old))
        (outlet text.new.items (W.contents (tally_lent writer.new)) (tally_faults writer.new))) }
    ensures err { OnErr result (Fails
        (outlet text.old.items (W.contents (tally_lent writer.old)) (tally_faults writer.old))
        (outlet text.new.items (W.contents (tally_lent writer.new)) (tally_faults writer.new))) }
{
    if text.len() >= FULL {
        return write_text(text, writer);
    }
    Ok(())
}
