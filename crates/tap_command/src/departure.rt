//! What `tap` adds below the line of a fault: where a line departs from the format of the text of a wire, and what would be right there.

use departure_words::{TextKind, departure_rows};
use printing::check::print;
use printing::fault_told::{FaultKind, FaultTold};
use printing::files::{Named, Wanted, opened_plain};
use std::io::Write;
use std::rt::Files;
use wire_base::Tally;

/// Writes these rows, where that is the fault, and answers it with its status: 3 where the write fails. Nothing is written where the file can't be
/// read again, or there is no memory.
pub fn tell_departure<R: Files + AllocGlobal, E: Write>(
    rt: &R,
    path: &str,
    told: FaultTold,
    err: &mut Tally<E>,
) -> FaultTold {
    let (Some(Named::Wire), FaultKind::Departs { kind, line }) = (told.named, told.kind) else {
        return told;
    };
    let Ok(mut wire) = opened_plain(rt, Wanted::by_path(Named::Wire, path), err) else {
        return told;
    };
    match departure_rows(rt.alloc(), TextKind::Wire, &mut wire, kind, line) {
        Ok(Some(rows)) => FaultTold {
            status: print(err, rows.as_bytes(), told.status),
            ..told
        },
        _ => told,
    }
}
