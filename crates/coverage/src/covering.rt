//! The judge of a pair, with what the pair went through.

ghost use Rattle.std.specs.Prelude.{◌≡◌, IfOk};
ghost use Rattle.wire_base.specs.Tally.{tally_faults, tally_lent};
ghost use Rattle.wire_base.specs.declared.side.Side.{Side};
ghost use Rattle.capture.specs.Faulty.{CountsReads};
ghost use Rattle.dna_node.specs.Kind.{both_layers};
ghost use Rattle.pair_judge.specs.Ends.{verdict_in};
ghost use Rattle.pair_judge.specs.Faulty.{is_failed_read_of};
ghost use Rattle.pair_judge.specs.Judged.{IsAnswer};
ghost use Rattle.pair_judge.specs.Watched.{only};
ghost use Rattle.coverage.specs.Covered.{WasCovered};

use crate::cover::Cover;
use dna_node::{layers_run_as_stations, refused_station_alone_is_final};
use pair_judge::{JudgeFault, Layers, Watched, judge};
use std::alloc::Global;
use std::io::Read;
use wire_base::Tally;

/// Decides the same as `judge` of `pair_judge`, of whose answer all that is said there holds of this verdict, and counts which rows of the
/// tables each side went through: of every record that was made, by the station before it.
///
/// The faults are those of `judge`. The counts take no memory.
pub fn judge_covered<R: Read, S: Read>(
    alloc: Global,
    a: &mut Tally<R>,
    b: &mut Tally<S>,
) -> Result<Watched<Cover>, JudgeFault>
    ensures answer { IsAnswer both_layers (R.remaining (tally_lent a.old)) (S.remaining (tally_lent b.old))
        (verdict_in (only result (λ watched. watched.ends))) }
    ensures covered { IfOk result (λ watched.
        WasCovered (R.remaining (tally_lent a.old)) (S.remaining (tally_lent b.old)) watched.ends watched.observer) }
    ensures reads_a { CountsReads (is_failed_read_of Side.A result) (tally_faults a.old) (tally_faults a.new) }
    ensures reads_b { CountsReads (is_failed_read_of Side.B result) (tally_faults b.old) (tally_faults b.new) }
{
    layers_run_as_stations();
    refused_station_alone_is_final();
    match judge(alloc, Layers::Both.of_period(), a, b, Cover::new()) {
        Ok(watched) => Ok(watched),
        Err(fault) => Err(fault),
    }
}
