//! The files of a pair of captures.

use crate::fault_told::FaultTold;
use crate::files::{Named, Told, Wanted, opened};
use std::io::Write;
use std::rt::Files;
use wire_base::Tally;

/// The names of the files of a pair.
#[derive(Clone, Copy)]
pub struct PairPaths<'p> {
    pub a: &'p str,
    pub b: &'p str,
}

/// Opens both files of a pair to be read, a's first. `Err`: one can't be opened, which was told in this way.
pub fn opened_pair<R: Files + AllocGlobal, E: Write>(
    rt: &R,
    paths: PairPaths<'_>,
    told: Told,
    err: &mut Tally<E>,
) -> Result<(Tally<R::File>, Tally<R::File>), FaultTold> {
    let wanted_a = Wanted {
        named: Named::A,
        path: paths.a,
        told,
    };
    let wanted_b = Wanted {
        named: Named::B,
        path: paths.b,
        told,
    };
    let a = opened(rt, wanted_a, err)?;
    let b = opened(rt, wanted_b, err)?;
    Ok((a, b))
}
