//! The judge of one end of a part of a run: one capture in one pass, without the other.

ghost use Rattle.std.specs.Prelude.{◌≡◌, ◌≢◌, IfErr};
ghost use Rattle.capture.specs.declared.fault.CaptureFault.TheVariants as CaptureFault;
ghost use Rattle.wire_base.specs.Tally.{tally_faults, tally_lent};
ghost use Rattle.capture.specs.Faulty.{CountsReads, is_failed_read};
ghost use Rattle.pair_judge.specs.declared.end_verdict.EndVerdict.TheVariants as verdicts;
ghost use Rattle.pair_judge.specs.Reason.{reason_of_step};
ghost use Rattle.part_judge.specs.Judged.{IsPartAnswer};

use crate::part_end::{MadeInPart, PartEnd};
use capture::{
    CaptureFault, CaptureReader, Departure, MAX_RECORDS, Opened, open_either, part_read_on,
};
use dna_node::Cause;
use dna_station::StepRefusal;
use pair_judge::{Accused, EndVerdict, Reason};
use std::alloc::Global;
use std::io::Read;
use wire_base::Tally;

// A first line that is not the head of a part.
const NO_HEAD: CaptureFault = CaptureFault::Departs {
    kind: Departure::Syntax,
    line: 1,
};

/// Decides of the text that a reader gives up to its end whether it is a part of a run whose records a station could make: which of all that it may
/// have been when its capture began is asked of no one, and what came is taken as what the other end sent. Of hints it is asked that they rise, with
/// those of units that were sent before the other capture begins first. A packet is any bytes, and the events of links change nothing.
///
/// `Passed`: all of its records were made; their counts. `Refused`: however the text goes on after what was read of it by then, the named record is
/// the first that can't be made: whatever the station was, this end breaks the rule in it, or the other end did in what came (`NotAMessage`,
/// `WrongResponse`).
///
/// `Departs`: the line departs from the format as named; line 1 with `Syntax` too where the head is that of a whole capture. `Read`: a read failed;
/// at any other answer the count of the reader's failed calls stays as it was. `OutOfMemory`: an allocation was refused, for a reader's block or its
/// room for bytes, the station, or a packet that it keeps.
///
/// ```text
/// ddcap 4 1.1 1.2 part
/// s 0501000700014d94        REP 7: seven packets were given
/// r - 810100000801e5d105c003
/// s 0501000800017d97        Refused { place: 2, accused: ThisEnd, reason: WrongNumber }
/// ```
pub fn judge_part<R: Read>(alloc: Global, a: &mut Tally<R>) -> Result<EndVerdict, CaptureFault>
    ensures judged { IsPartAnswer (R.remaining (tally_lent a.old)) result }
    ensures first { IfErr result (λ fault. fault ≢ CaptureFault.Failed) }
    ensures reads { CountsReads (is_failed_read result) (tally_faults a.old) (tally_faults a.new) }
{
    part_read_on();
    let mut capture = match open_either(alloc, a) {
        Ok(Opened::Part(capture)) => capture,
        Ok(Opened::Whole(_)) => return Err(NO_HEAD),
        Err(fault) => return Err(fault),
    };
    let Ok(mut end) = PartEnd::new(alloc) else {
        return Err(CaptureFault::OutOfMemory);
    };
    for number in 0..MAX_RECORDS + 1 {
        match capture.advance(a) {
            Ok(Some(entry)) => match end.make(entry, capture.bytes()) {
                Ok(MadeInPart::Done) => {}
                Ok(MadeInPart::Fails { accused, refusal }) => {
                    return Ok(refused(number, accused, refusal));
                }
                Err(_) => return Err(CaptureFault::OutOfMemory),
            },
            Ok(None) => return Ok(EndVerdict::Passed(end.counts)),
            Err(fault) => return Err(fault),
        }
    }
    unreachable!()
}

// The verdict on the record with this number, which can't be made.
fn refused(place: u64, accused: Accused, refusal: StepRefusal) -> EndVerdict
    ensures { result ≡ verdicts.Refused place accused (reason_of_step refusal) }
{
    EndVerdict::Refused {
        place,
        accused,
        reason: Reason::of_cause(Cause::Step(refusal)),
    }
}
