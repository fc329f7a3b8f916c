//! A script is read, its steps are made, and both captures are written.

ghost use Rattle.std.specs.Prelude.{◌≡◌, ℕ, List, Option, true, false, IfOk, IfErr, OnErr};
ghost use Rattle.wire_base.specs.Tally.{tally_faults, tally_lent};
ghost use Rattle.wire_base.specs.declared.side.Side.TheVariants as of_side;
ghost use Rattle.capture.specs.declared.phase.Phase.TheVariants as Phase;
ghost use Rattle.capture.specs.Faulty.{CountsReads};
ghost use Rattle.pair_player.specs.inner.Beginning.{HeadFault, IsBegun, fault_at, fault_of, is_failed_read};
ghost use Rattle.pair_player.specs.Playing.{CountsReadsOf, CountsWritesOf, Plays, PlaysWholeLines, held};
ghost use Rattle.pair_player.specs.Step.{line_with};
ghost use Rattle.pair_player.specs.inner.Making.{StepsOrStops, standing};
ghost use Rattle.pair_player.specs.inner.Waiting.{EndsAll};
ghost use Rattle.capture.specs.inner.Outlets.{outlet};

use crate::ends::Ends;
use crate::fault::PlayFault;
use crate::limit::MAX_STEPS;
use crate::played::Played;
use crate::script_reader::ScriptReader;
use crate::step::LineEntry;
use crate::texts::Texts;
use capture::CaptureFault;
use player_end::StepFault;
use std::alloc::Global;
use std::io::{Read, Write};
use wire_base::{Side, Tally};

/// A step needs format 3, and lines were written in format 1.
#[derive(Clone, Copy, PartialEq, Eq)]
pub struct NeedsFormat3;

// A script whose head was read, both ends before its first step, and the heads of both captures.
#[derive(Drop)]
struct Begun {
    lines: ScriptReader,
    ends: Ends,
    texts: Texts,
}

/// Reads a script to its end, makes its steps, and writes the captures of both sides, in format 1 where it has a line for each record of the
/// steps that were made, else in format 3. The answer counts the steps.
///
/// A fault of a line names the first one that has any, counted from 1: `Departs` where it departs from the format, as `ScriptReader::open` and
/// `advance` say; `BadStep` where its step breaks its rule (the table of docs/SCRIPTS.md); `Full` where it needs a link address, and all
/// 65,535 of its end are given. Both writers then took the head of a capture and the records of all steps before that line, and nothing where
/// it is line 1. `Read`, a call of the script's reader failed: they took those of all whole lines that it had given, or nothing where it had
/// given no head. `OutOfMemory`, memory was refused: those of all steps before the one that was refused it, or nothing where the head was.
/// `Write`, a call of the writer of that side failed: each took a beginning of its capture, and the one that failed not all of it.
///
/// All lines wait in memory until a step needs format 3 or the script ends: `play_at_once` writes before that.
pub fn play<R: Read, A: Write, B: Write>(
    alloc: Global,
    script: &mut Tally<R>,
    a: &mut Tally<A>,
    b: &mut Tally<B>,
) -> Result<Played, PlayFault>
    ensures plays { Plays (R.remaining (tally_lent script.old))
        (held (A.contents (tally_lent a.old)) (B.contents (tally_lent b.old)))
        (held (A.contents (tally_lent a.new)) (B.contents (tally_lent b.new))) result }
    ensures lines { PlaysWholeLines (R.remaining (tally_lent script.old)) (R.remaining (tally_lent script.new))
        (held (A.contents (tally_lent a.old)) (B.contents (tally_lent b.old)))
        (held (A.contents (tally_lent a.new)) (B.contents (tally_lent b.new))) result }
    ensures reads { CountsReadsOf result (tally_faults script.old) (tally_faults script.new) }
    ensures writes_a { CountsWritesOf of_side.A result (tally_faults a.old) (tally_faults a.new) }
    ensures writes_b { CountsWritesOf of_side.B result (tally_faults b.old) (tally_faults b.new) }
{
    match begin(alloc, script, false) {
        Ok(mut begun) => match play_steps(&mut begun, script, a, b) {
            Ok(answer) => answer,
            Err(NeedsFormat3) => unreachable!(),
        },
        Err(fault) => Err(fault),
    }
}

/// The same, where few lines wait in memory: they are written, in format 1, before it is known whether a step needs format 3.
///
/// `NeedsFormat3`: such a step came after lines were written. Nothing is said of what the writers took, and the script is to be played again,
/// by `play`, to writers that took nothing.
pub fn play_at_once<R: Read, A: Write, B: Write>(
    alloc: Global,
    script: &mut Tally<R>,
    a: &mut Tally<A>,
    b: &mut Tally<B>,
) -> Result<Result<Played, PlayFault>, NeedsFormat3>
    ensures plays { IfOk result (Plays (R.remaining (tally_lent script.old))
        (held (A.contents (tally_lent a.old)) (B.contents (tally_lent b.old)))
        (held (A.contents (tally_lent a.new)) (B.contents (tally_lent b.new)))) }
    ensures lines { IfOk result (PlaysWholeLines (R.remaining (tally_lent script.old)) (R.remaining (tally_lent script.new))
        (held (A.contents (tally_lent a.old)) (B.contents (tally_lent b.old)))
        (held (A.contents (tally_lent a.new)) (B.contents (tally_lent b.new)))) }
    ensures reads { IfOk result (λ answer. CountsReadsOf answer (tally_faults script.old) (tally_faults script.new)) }
    ensures writes_a { IfOk result (λ answer. CountsWritesOf of_side.A answer (tally_faults a.old) (tally_faults a.new)) }
    ensures writes_b { IfOk result (λ answer. CountsWritesOf of_side.B answer (tally_faults b.old) (tally_faults b.new)) }
{
    match begin(alloc, script, true) {
        Ok(mut begun) => play_steps(&mut begun, script, a, b),
        Err(fault) => Ok(Err(fault)),
    }
}

// Makes the steps after the head, and writes what they make after the heads of the captures.
fn play_steps<R: Read, A: Write, B: Write>(
    begun: &mut Begun,
    script: &mut Tally<R>,
    a: &mut Tally<A>,
    b: &mut Tally<B>,
) -> Result<Result<Played, PlayFault>, NeedsFormat3>
    requires { (begun.now.lines.phase ≡ Phase.Reading) × (begun.now.lines.items ≡ 0) }
    ensures plays { (text : Option (List ℕ)) → IsBegun text (R.remaining (tally_lent script.old)) begun.old.lines
        (standing begun.old.ends begun.old.texts.a.items begun.old.texts.b.items begun.old.texts.three begun.old.texts.is_begun)
        → IfOk result (Plays text (held (A.contents (tally_lent a.old)) (B.contents (tally_lent b.old)))
        (held (A.contents (tally_lent a.new)) (B.contents (tally_lent b.new)))) }
    ensures lines { (text : Option (List ℕ)) → IsBegun text (R.remaining (tally_lent script.old)) begun.old.lines
        (standing begun.old.ends begun.old.texts.a.items begun.old.texts.b.items begun.old.texts.three begun.old.texts.is_begun)
        → IfOk result (PlaysWholeLines text (R.remaining (tally_lent script.new))
        (held (A.contents (tally_lent a.old)) (B.contents (tally_lent b.old)))
        (held (A.contents (tally_lent a.new)) (B.contents (tally_lent b.new)))) }
    ensures holds { begun.old.texts.streams ≡ false → OnErr result (begun.old.texts.is_begun ≡ true) }
    ensures reads { IfOk result (λ answer. CountsReadsOf answer (tally_faults script.old) (tally_faults script.new)) }
    ensures writes_a { IfOk result (λ answer. CountsWritesOf of_side.A answer (tally_faults a.old) (tally_faults a.new)) }
    ensures writes_b { IfOk result (λ answer. CountsWritesOf of_side.B answer (tally_faults b.old) (tally_faults b.new)) }
{
    for steps in 0..MAX_STEPS + 1 {
        match begun.lines.advance(script) {
            Ok(Some(line)) => {
                if begun.texts.is_too_late_for(line.step) {
                    return Err(NeedsFormat3);
                }
                match make_step(line, &begun.lines, &mut begun.ends, &mut begun.texts) {
                    Ok(()) => {
                        if let Err(side) = begun.texts.write_full(a, b) {
                            return Ok(Err(PlayFault::Write { side }));
                        }
                    }
                    Err(stop) => return Ok(end(
                        &mut begun.texts,
                        a,
                        b,
                        Err(stop_fault(stop, steps + 2)),
                    )),
                }
            }
            Ok(None) => return Ok(end(&mut begun.texts, a, b, Ok(Played { steps }))),
            Err(fault) => return Ok(end(&mut begun.texts, a, b, Err(play_fault(fault)))),
        }
    }
    unreachable!()
}

// Reads the head, and takes the memory for both ends and for the heads of both captures.
fn begin<R: Read>(alloc: Global, script: &mut Tally<R>, streams: bool) -> Result<Begun, PlayFault>
    ensures begins { IfOk result (λ begun. IsBegun (R.remaining (tally_lent script.old)) (R.remaining (tally_lent script.new)) begun.lines
        (standing begun.ends begun.texts.a.items begun.texts.b.items begun.texts.three begun.texts.is_begun)) }
    ensures streams { IfOk result (λ begun. begun.texts.streams ≡ streams) }
    ensures fault { IfErr result (HeadFault (R.remaining (tally_lent script.old)) (R.remaining (tally_lent script.new))) }
    ensures reads { CountsReads (is_failed_read result) (tally_faults script.old) (tally_faults script.new) }
{
    let Ok(mut texts) = Texts::new(alloc, streams) else {
        return Err(PlayFault::OutOfMemory);
    };
    let lines = match ScriptReader::open(alloc, script) {
        Ok(lines) => lines,
        Err(fault) => return Err(play_fault(fault)),
    };
    let Ok(ends) = Ends::new(alloc, lines.node_a(), lines.node_b()) else {
        return Err(PlayFault::OutOfMemory);
    };
    let Ok(()) = texts.put_heads(lines.node_a(), lines.node_b()) else {
        return Err(PlayFault::OutOfMemory);
    };
    Ok(Begun { lines, ends, texts })
}

// Makes the step that was read last, which is of this line: the lines of its records come after those of its side.
fn make_step(
    line: LineEntry,
    lines: &ScriptReader,
    ends: &mut Ends,
    texts: &mut Texts,
) -> Result<(), StepFault>
    ensures step { StepsOrStops (line_with line lines.now.bytes)
        (standing ends.old texts.old.a.items texts.old.b.items texts.old.three texts.old.is_begun)
        (standing ends.new texts.new.a.items texts.new.b.items texts.new.three texts.new.is_begun) result }
    ensures streams { texts.new.streams ≡ texts.old.streams }
{
    let step = line.with(lines.bytes());
    texts.step.clear();
    match ends.play_step(step, &mut texts.step) {
        Ok(()) => match texts.put_step(step.side) {
            Ok(()) => {
                texts.go_by(step.step);
                Ok(())
            }
            Err(_) => Err(StepFault::OutOfMemory),
        },
        Err(fault) => Err(fault),
    }
}

// Writes what waits, and gives this answer; or tells that the writer of a side failed.
fn end<A: Write, B: Write>(
    texts: &mut Texts,
    a: &mut Tally<A>,
    b: &mut Tally<B>,
    answer: Result<Played, PlayFault>,
) -> Result<Played, PlayFault>
    ensures { EndsAll answer (
      outlet texts.old.a.items (A.contents (tally_lent a.old)) (tally_faults a.old),
      outlet texts.old.b.items (B.contents (tally_lent b.old))
          (tally_faults b.old),
    ) (
      outlet texts.new.a.items (A.contents (tally_lent a.new)) (tally_faults a.new),
      outlet texts.new.b.items (B.contents (tally_lent b.new))
          (tally_faults b.new),
    ) result }
{
    match texts.write_out(a, b) {
        Ok(()) => answer,
        Err(side) => Err(PlayFault::Write { side }),
    }
}

// A fault of the script's reader, which did not fail before.
fn play_fault(fault: CaptureFault) -> PlayFault
    ensures { result ≡ fault_of fault }
{
    match fault {
        CaptureFault::Departs { kind, line } => PlayFault::Departs { kind, line },
        CaptureFault::Read | CaptureFault::Failed => PlayFault::Read,
        CaptureFault::OutOfMemory => PlayFault::OutOfMemory,
    }
}

// Why the step of this line isn't made.
fn stop_fault(stop: StepFault, line: u64) -> PlayFault
    ensures { result ≡ fault_at line stop }
{
    match stop {
        StepFault::BadStep => PlayFault::BadStep { line },
        StepFault::Full => PlayFault::Full { line },
        StepFault::OutOfMemory => PlayFault::OutOfMemory,
    }
}
