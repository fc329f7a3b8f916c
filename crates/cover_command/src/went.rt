//! Which rows a pair goes through, where stations alone may be judged.

ghost use Rattle.wire_base.specs.Tally.{tally_lent};
ghost use Rattle.pair_judge.specs.Judged.{IsAnswer};
ghost use Rattle.pair_judge.specs.Watched.{only};
ghost use Rattle.pair_judge.specs.JudgedAs.{nodes_of};

use coverage::{Counts, Cover, ROWS, STATION_ROWS, judge_covered};
use pair_judge::{JudgeFault, MadeEntry, Observer, Verdict, Watched, judge};
use printing::layers::Layers;
use std::alloc::{AllocError, Global};
use std::io::Read;
use wire_base::{Side, Tally};

// Two captures without a record.
const NOTHING_A: &[u8] = b"ddcap 1 1.1 1.2\n";

const NOTHING_B: &[u8] = b"ddcap 1 1.2 1.1\n";

/// The verdict on a pair, and how often each side went through each row.
#[derive(Clone, Copy)]
pub struct Went {
    pub verdict: Verdict,
    pub a: Counts,
    pub b: Counts,
}

/// Judges a pair, and counts which rows each side went through. Of stations alone the rows of links are not counted.
pub fn judge_went<A: Read, B: Read>(
    alloc: Global,
    layers: Layers,
    a: &mut Tally<A>,
    b: &mut Tally<B>,
) -> Result<Went, JudgeFault>
    ensures { IsAnswer (nodes_of layers) (A.remaining (tally_lent a.old)) (B.remaining (tally_lent b.old))
        (only result (λ went. went.verdict)) }
{
    match layers {
        Layers::Both => match judge_covered(alloc, a, b) {
            Ok(watched) => {
                let went = Went {
                    verdict: watched.ends.verdict(),
                    a: watched.observer.of_side(Side::A),
                    b: watched.observer.of_side(Side::B),
                };
                watched.ends.let_go();
                Ok(went)
            }
            Err(fault) => Err(fault),
        },
        Layers::Queued => judge_queued_went(alloc, a, b),
        Layers::Station => judge_line_went(alloc, a, b),
    }
}

fn judge_queued_went<A: Read, B: Read>(
    alloc: Global,
    a: &mut Tally<A>,
    b: &mut Tally<B>,
) -> Result<Went, JudgeFault>
    ensures { IsAnswer (nodes_of Layers.Queued) (A.remaining (tally_lent a.old)) (B.remaining (tally_lent b.old))
        (only result (λ went. went.verdict)) }
{
    let Ok(cover) = nothing_covered(alloc) else {
        return Err(JudgeFault::OutOfMemory);
    };
    match judge(alloc, Layers::Queued.of_period(), a, b, CoverRows { cover }) {
        Ok(watched) => {
            let went = Went {
                verdict: watched.ends.verdict(),
                a: watched.observer.cover.of_side(Side::A),
                b: watched.observer.cover.of_side(Side::B),
            };
            watched.ends.let_go();
            Ok(went)
        }
        Err(fault) => Err(fault),
    }
}

fn judge_line_went<A: Read, B: Read>(
    alloc: Global,
    a: &mut Tally<A>,
    b: &mut Tally<B>,
) -> Result<Went, JudgeFault>
    ensures { IsAnswer (nodes_of Layers.Station) (A.remaining (tally_lent a.old)) (B.remaining (tally_lent b.old))
        (only result (λ went. went.verdict)) }
{
    let Ok(cover) = nothing_covered(alloc) else {
        return Err(JudgeFault::OutOfMemory);
    };
    match judge(
        alloc,
        Layers::Station.of_period(),
        a,
        b,
        CoverRows { cover },
    ) {
        Ok(watched) => {
            let went = Went {
                verdict: watched.ends.verdict(),
                a: of_stations(watched.observer.cover.of_side(Side::A)),
                b: of_stations(watched.observer.cover.of_side(Side::B)),
            };
            watched.ends.let_go();
            Ok(went)
        }
        Err(fault) => Err(fault),
    }
}

// Counts of no record: `coverage` makes them only where it judges.
fn nothing_covered(alloc: Global) -> Result<Cover, JudgeFault> {
    let mut a = Tally::new(NOTHING_A);
    let mut b = Tally::new(NOTHING_B);
    match judge_covered(alloc, &mut a, &mut b) {
        Ok(watched) => {
            let Watched { ends, observer } = watched;
            ends.let_go();
            Ok(observer)
        }
        Err(fault) => Err(fault),
    }
}

// The rows that are counted while stations alone, or nodes with queues, are judged. No contract tells them.
#[derive(Drop)]
struct CoverRows {
    cover: Cover,
}

impl Observer for CoverRows {
    ghost told = { λ rows order. Unit {0} };

    fn made(&mut self, next: &MadeEntry<'_>) -> Result<(), AllocError> {
        self.cover.made(next)
    }
}

// Without those of links.
fn of_stations(counts: Counts) -> Counts {
    let mut counts = counts;
    for place in STATION_ROWS..ROWS {
        counts.met[place] = 0;
    }
    counts
}
