//! What `tap` says of a packet capture in the place of the text of a wire: the command that makes that text.

use crate::tap::tell_tap_fault;
use crate::tap_files::TapPaths;
use capture::Departure;
use departure_words::{put_word, without_ending};
use printing::check::{print, print_out_of_memory};
use printing::fault_told::{FaultKind, FaultTold};
use printing::files::{Named, Wanted, opened_plain};
use printing::text::FAULTY;
use printing::written::is_on_disk;
use std::alloc::{AllocError, Global};
use std::io::{ErrorKind, Read, Write};
use std::rt::Files;
use wire_base::Tally;
use wire_tap::TapFault;
use wire_text::is_packet_capture;

// How many bytes tell a packet capture.
const FIRST: usize = 4;

const TOLD: &str =
    "wire: a packet capture (tcpdump, Wireshark); this makes the text of a line of it:\n    tools/wire_pcap ";

/// Looks at the beginning of WIRE, which is open, if it can be read again and again. `Err`: it is a packet capture, of which is told with these names
/// what makes the text of a wire; or it can't be opened again or read, which was told.
pub fn tell_packet_capture<R: Files + AllocGlobal, E: Write>(
    rt: &R,
    paths: TapPaths<'_>,
    wire: &R::File,
    err: &mut Tally<E>,
) -> Result<(), FaultTold> {
    if !is_on_disk(wire) {
        return Ok(());
    }
    let mut again = opened_plain(rt, Wanted::by_path(Named::Wire, paths.wire), err)?;
    let mut first = [0u8; FIRST];
    if let Err(error) = again.read_exact(&mut first) {
        return match error.kind() {
            ErrorKind::UnexpectedEof => Ok(()),
            _ => Err(tell_tap_fault(rt.alloc(), TapFault::Read, err)),
        };
    }
    if !is_packet_capture(&first) {
        return Ok(());
    }
    let status = match text_of(rt.alloc(), paths) {
        Ok(text) => print(err, text.as_slice(), FAULTY),
        Err(_) => return Err(FaultTold::out_of_memory(print_out_of_memory(err))),
    };
    let kind = FaultKind::Departs {
        kind: Departure::Syntax,
        line: 1,
    };
    Err(FaultTold::of(Named::Wire, kind, status))
}

fn text_of(alloc: Global, paths: TapPaths<'_>) -> Result<Vec<u8>, AllocError> {
    let mut text = Vec::new(alloc);
    put_text(&mut text, paths)?;
    Ok(text)
}

fn put_text(text: &mut Vec<u8>, paths: TapPaths<'_>) -> Result<(), AllocError> {
    let wire = without_ending(paths.wire);
    let tap = match paths.line_alone {
        true => " && ./ddcap tap --line ",
        false => " && ./ddcap tap ",
    };
    let words = [
        (TOLD, paths.wire, ""),
        (" > ", wire, ".wire"),
        (tap, wire, ".wire"),
        (" ", paths.a, ""),
        (" ", paths.b, ""),
    ];
    for (before, name, ending) in words {
        text.extend_from_slice(before.as_bytes())?;
        put_word(text, name, ending)?;
    }
    text.extend_from_slice(b"\n")
}
