//! The verdict over these layers, where nobody looks on.

ghost use Rattle.std.specs.Prelude.{◌≢◌, IfErr};
ghost use Rattle.capture.specs.declared.fault.CaptureFault.TheVariants as CaptureFault;
ghost use Rattle.capture.specs.Faulty.{CountsReads, is_failed_read};
ghost use Rattle.pair_judge.specs.JudgedAs.{end_of, nodes_of};
ghost use Rattle.pair_judge.specs.EndJudged.{IsJudgedAlone};
ghost use Rattle.pair_judge.specs.Faulty.{is_failed_read_of};
ghost use Rattle.pair_judge.specs.Judged.{IsAnswer};
ghost use Rattle.wire_base.specs.Tally.{tally_faults, tally_lent};
ghost use Rattle.wire_base.specs.declared.side.Side.{Side};

use capture::CaptureFault;
pub use pair_judge::Layers;
use pair_judge::{EndVerdict, JudgeFault, Nobody, Verdict, judge, judge_end};
use std::alloc::Global;
use std::io::Read;
use wire_base::Tally;

/// Judges the captures that two readers give.
pub fn judge_over<A: Read, B: Read>(
    alloc: Global,
    layers: Layers,
    a: &mut Tally<A>,
    b: &mut Tally<B>,
) -> Result<Verdict, JudgeFault>
    ensures judged { IsAnswer (nodes_of layers) (A.remaining (tally_lent a.old)) (B.remaining (tally_lent b.old)) result }
    ensures reads_a { CountsReads (is_failed_read_of Side.A result) (tally_faults a.old) (tally_faults a.new) }
    ensures reads_b { CountsReads (is_failed_read_of Side.B result) (tally_faults b.old) (tally_faults b.new) }
{
    match judge(alloc, layers.of_period(), a, b, Nobody) {
        Ok(watched) => Ok(watched.ends.verdict()),
        Err(fault) => Err(fault),
    }
}

/// Judges the capture that a reader gives without that of the other end.
pub fn judge_end_over<A: Read>(
    alloc: Global,
    layers: Layers,
    a: &mut Tally<A>,
) -> Result<EndVerdict, CaptureFault>
    ensures judged { IsJudgedAlone (end_of layers) (A.remaining (tally_lent a.old)) result }
    ensures first { IfErr result (λ fault. fault ≢ CaptureFault.Failed) }
    ensures reads { CountsReads (is_failed_read result) (tally_faults a.old) (tally_faults a.new) }
{
    match judge_end(alloc, layers, a, Nobody) {
        Ok(watched) => Ok(watched.verdict),
        Err(fault) => Err(fault),
    }
}
