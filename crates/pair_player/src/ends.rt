//! Both ends, and the line between them.

ghost use Rattle.std.specs.Prelude.{◌≡◌, [], true, false, Ok, Err, drop, OnOk, IsOk, IfOk, IfErr};
ghost use Rattle.dna_play.specs.Receipt.{damaged, is_damage};
ghost use Rattle.dna_play.specs.StoredPlay.{stored_plays};
ghost use Rattle.dna_play.specs.StoredPlay as stored;
ghost use Rattle.dna_play.specs.StoredPlayed.{stored_plays_step, new_pair};
ghost use Rattle.pair_player.specs.Step.{step_with, view_of_line};
ghost use Rattle.player_end.specs.Stepping.{HasUnit, StopMeans, with_lines};
ghost use Rattle.pair_player.specs.Stepping.{Asks, AsksMemory, CanBeHurt, CanCome, sends, sides, with_text};

use crate::line::Line;
use crate::step::{ScriptStep, Step};
use dna_station::Head;
use player_end::{End, GivenPiece, HeldPacket, StepFault};
use std::alloc::{AllocError, Global};
use std::marker::Model;
use wire_base::{RingWindow, Side};

/// An end whose windows are rings.
type RingEnd = End<RingWindow<HeldPacket, 256>, RingWindow<GivenPiece, 4096>>;

/// The two ends of a script, and the units on the lines between them. It makes one step a call, and writes nothing: the lines that a step
/// adds to the capture of its end are put at the end of a text.
#[derive(Drop)]
pub struct Ends {
    a: RingEnd,
    b: RingEnd,
    to_a: Line,
    to_b: Line,
    alloc: Global,
}

impl Model for Ends {
    ghost use Rattle.dna_play.specs.StoredPlayed.{StoredPair};

    ghost Value = { StoredPair };

    ghost view = { λ e. record { a = record { end = e.a; coming = e.to_a }; b = record { end = e.b; coming = e.to_b } } };
}

impl Ends {
    /// Before any step, with the addresses of the script's head. `AllocError`: there is no room for the windows of the stations.
    pub fn new(alloc: Global, node_a: u16, node_b: u16) -> Result<Ends, AllocError>
        ensures { IfOk result (λ ends. ends ≡ new_pair node_a node_b) }
    {
        Ok(Ends {
            a: End::new(
                alloc,
                Head {
                    own: node_a,
                    peer: node_b,
                },
            )?,
            b: End::new(
                alloc,
                Head {
                    own: node_b,
                    peer: node_a,
                },
            )?,
            to_a: Line::new(alloc),
            to_b: Line::new(alloc),
            alloc,
        })
    }

    /// Makes a step, and puts the lines of its records at the end of the text, each with its LF.
    ///
    /// `BadStep`: the step breaks its rule (the table of docs/SCRIPTS.md). `Full`: it needs a link address, and all 65,535 of its end are
    /// given; whether it is bad is asked first. `OutOfMemory`: memory was refused, for which a timer and a loss never ask, nor does a step
    /// that breaks its rule, except where a message that becomes whole is too long. After any of them neither the ends nor what was put after
    /// the text is of any use.
    #[tactic(auto, using(crate::proofs::Sides::both_sides), unfolding(dna_play::specs::StoredPlayed::stored_plays_step))]
    pub fn play_step(&mut self, step: ScriptStep<'_>, text: &mut Vec<u8>) -> Result<(), StepFault>
        ensures ok { OnOk result (with_text text.old.items self.old (view_of_line step.entry)
            (stored_plays_step self.old (view_of_line step.entry)) ≡ Ok (self.new, text.new.items)) }
        ensures stop { IfErr result (λ fault. StopMeans (stored_plays_step self.old (view_of_line step.entry)) fault) }
        ensures memory { result ≡ Err StepFault.OutOfMemory → Asks self.old (view_of_line step.entry) }
    {
        let alloc = self.alloc;
        match step.side {
            Side::A => step_of(
                alloc,
                &mut self.a,
                &mut self.to_a,
                &mut self.to_b,
                step.step,
                step.bytes,
                text,
            ),
            Side::B => step_of(
                alloc,
                &mut self.b,
                &mut self.to_b,
                &mut self.to_a,
                step.step,
                step.bytes,
                text,
            ),
        }
    }
}

// A step of an end, with the bytes beside it, the line to the end and the line from it.
#[tactic(auto, using(crate::proofs::Sides::sides_of), unfolding(dna_play::specs::StoredPlay::stored_plays))]
fn step_of(
    alloc: Global,
    end: &mut RingEnd,
    coming: &mut Line,
    going: &mut Line,
    step: Step,
    bytes: &[u8],
    text: &mut Vec<u8>,
) -> Result<(), StepFault>
    ensures ok { OnOk result (sides (step_with step bytes.now) coming.old going.old text.old.items
        (stored_plays end.old coming.old (step_with step bytes.now)) ≡ Ok (end.new, coming.new, going.new, text.new.items)) }
    ensures stop { IfErr result (λ fault. StopMeans (stored_plays end.old coming.old (step_with step bytes.now)) fault) }
    ensures memory { result ≡ Err StepFault.OutOfMemory → AsksMemory end.old coming.old (step_with step bytes.now) }
{
    match step {
        Step::Start => end.start(text),
        Step::Halt => end.halt(text),
        Step::Boot => end.boot(text),
        Step::Timer => end.time_out(),
        Step::Send => send(end, going, text),
        Step::Deliver => deliver(end, coming, true, text),
        Step::Refuse => deliver(end, coming, false, text),
        Step::Drop => lose_above(end, coming, text),
        Step::Lose => lose(end, coming),
        Step::Damage { place, value } => deliver_damaged(alloc, end, coming, place, value, text),
        Step::Noise => end.hear(bytes, text),
        Step::Open => end.open(text),
        Step::Accept { partner } => end.accept(partner, text),
        Step::Reject { partner } => end.reject(partner, text),
        Step::In { link } => end.hand_in(link, bytes, text),
        Step::Close { link } => end.close(link, text),
        Step::Abort { link } => end.abort(link, text),
        Step::Retry { link } => end.retry(link),
    }
}

// The end sends a unit, which goes on the line.
#[tactic(auto, using(crate::proofs::NextUnit::sent_something))]
fn send(end: &mut RingEnd, going: &mut Line, text: &mut Vec<u8>) -> Result<(), StepFault>
    ensures ok { OnOk result (sends going.old text.old.items (stored.sends end.old) ≡ Ok (end.new, going.new, text.new.items)) }
    ensures stop { IfErr result (λ fault. StopMeans (stored.sends end.old) fault) }
    ensures memory { result ≡ Err StepFault.OutOfMemory → HasUnit end.old }
{
    let unit = end.send(text)?;
    match going.push(unit) {
        Ok(()) => Ok(()),
        Err(AllocError) => Err(StepFault::OutOfMemory),
    }
}

// The next unit on the line comes, and there is a buffer or not.
#[tactic(auto, using(crate::proofs::NextUnit::next_units))]
fn deliver(
    end: &mut RingEnd,
    coming: &mut Line,
    buffer: bool,
    text: &mut Vec<u8>,
) -> Result<(), StepFault>
    ensures ok { OnOk result (with_lines text.old.items (stored.with_next coming.old (stored.comes end.old buffer))
        ≡ Ok (end.new, [], text.new.items)) }
    ensures left { coming.new ≡ drop 1 coming.old }
    ensures stop { IfErr result (λ fault. StopMeans (stored.with_next coming.old (stored.comes end.old buffer)) fault) }
    ensures memory { result ≡ Err StepFault.OutOfMemory → CanCome end.old coming.old }
{
    let Some(unit) = coming.pop() else {
        return Err(StepFault::BadStep);
    };
    end.come(buffer, unit.as_slice(), text)
}

// The next unit on the line comes, and its packet is kept, and lost before the links.
#[tactic(auto, using(crate::proofs::NextUnit::next_units))]
fn lose_above(end: &mut RingEnd, coming: &mut Line, text: &mut Vec<u8>) -> Result<(), StepFault>
    ensures ok { OnOk result (with_lines text.old.items (stored.with_next coming.old (stored.drops end.old))
        ≡ Ok (end.new, [], text.new.items)) }
    ensures left { coming.new ≡ drop 1 coming.old }
    ensures stop { IfErr result (λ fault. StopMeans (stored.with_next coming.old (stored.drops end.old)) fault) }
    ensures memory { result ≡ Err StepFault.OutOfMemory → IsOk (stored.with_next coming.old (stored.drops end.old)) }
{
    let Some(unit) = coming.pop() else {
        return Err(StepFault::BadStep);
    };
    end.lose_above(unit.as_slice(), text)
}

// The next unit on the line is lost.
#[tactic(auto, using(crate::proofs::NextUnit::next_units))]
fn lose(end: &mut RingEnd, coming: &mut Line) -> Result<(), StepFault>
    ensures ok { OnOk result (stored.with_next coming.old (λ bytes. stored.loses end.old) ≡ stored.silent end.new) }
    ensures left { coming.new ≡ drop 1 coming.old }
    ensures stop { IfErr result (λ fault. StopMeans (stored.with_next coming.old (λ bytes. stored.loses end.old)) fault) }
    ensures memory { result ≡ Err StepFault.OutOfMemory → ⊥ }
{
    let Some(_unit) = coming.pop() else {
        return Err(StepFault::BadStep);
    };
    end.lose()
}

// The next unit on the line comes with the byte at a place, which is inside it, changed by a value from 1 to 255.
#[tactic(auto, using(crate::proofs::NextUnit::damages))]
fn deliver_damaged(
    alloc: Global,
    end: &mut RingEnd,
    coming: &mut Line,
    place: u64,
    value: u64,
    text: &mut Vec<u8>,
) -> Result<(), StepFault>
    ensures ok { OnOk result (with_lines text.old.items (stored.with_next coming.old (stored.comes_damaged end.old place value))
        ≡ Ok (end.new, [], text.new.items)) }
    ensures left { coming.new ≡ drop 1 coming.old }
    ensures stop { IfErr result (λ fault. StopMeans (stored.with_next coming.old (stored.comes_damaged end.old place value)) fault) }
    ensures memory { result ≡ Err StepFault.OutOfMemory → CanBeHurt end.old coming.old place value }
{
    let Some(unit) = coming.pop() else {
        return Err(StepFault::BadStep);
    };
    if !is_inside(place, value, unit.as_slice()) {
        return Err(StepFault::BadStep);
    }
    let Ok(bytes) = changed(alloc, place, value, unit.as_slice()) else {
        return Err(StepFault::OutOfMemory);
    };
    end.come(true, bytes.as_slice(), text)
}

// Whether the place is inside these bytes, and the value from 1 to 255.
fn is_inside(place: u64, value: u64, bytes: &[u8]) -> bool
    ensures { result ≡ is_damage place value bytes.now }
{
    if place >= bytes.len() as u64 {
        return false;
    }
    if value < 1 {
        return false;
    }
    value <= 255
}

// These bytes with the one at a place changed by a value, by exclusive or.
fn changed(alloc: Global, place: u64, value: u64, bytes: &[u8]) -> Result<Vec<u8>, AllocError>
    requires { is_damage place value bytes.now ≡ true }
    ensures { IfOk result (λ v. v.items ≡ damaged place value bytes.now) }
{
    let mut copy = Vec::from_slice(alloc, bytes)?;
    copy[place as usize] ^= value as u8;
    Ok(copy)
}
